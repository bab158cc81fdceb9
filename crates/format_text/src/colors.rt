//! Reading the text of a color.

ghost use Rattle.std.specs.Prelude.{◌≡◌, ◌≤◌, length, drop};
ghost use Rattle.format_text.specs.Reading.{place_of, before, behind, is_part, are_parts, color_of, color_by};
ghost use Rattle.format_text.specs.Reading.{color_parts, color_in};

use fixed_num::{Color, Fixed, NumFault, read_decimal};
use prop_values::PackedColor;

/// The color whose text this is, where it is that of one: after the five bytes of `rgba(` three numbers up to
/// a comma each, and one up to a bracket.
pub(crate) fn color_in(text: &str) -> Option<PackedColor>
    ensures { result ≡ color_in text.now }
{
    color_parts(after(text.as_bytes(), 5))
}

fn color_parts(red: &[u8]) -> Option<PackedColor>
    ensures { result ≡ color_parts red.now }
{
    let green = behind(red, b',');
    let blue = behind(green, b',');
    let opacity = behind(blue, b',');
    color_by(
        read_decimal(before(red, b',')),
        read_decimal(before(green, b',')),
        read_decimal(before(blue, b',')),
        read_decimal(before(opacity, b')')),
    )
}

fn color_by(
    red: Result<Fixed, NumFault>,
    green: Result<Fixed, NumFault>,
    blue: Result<Fixed, NumFault>,
    opacity: Result<Fixed, NumFault>,
) -> Option<PackedColor>
    ensures { result ≡ color_by red green blue opacity }
{
    match (red, green, blue, opacity) {
        (Ok(r), Ok(g), Ok(b), Ok(a)) => color_of(r, g, b, a),
        _ => None,
    }
}

#[tactic(auto, using(crate::proofs::ColorTexts::parts_in_range))]
fn color_of(r: Fixed, g: Fixed, b: Fixed, a: Fixed) -> Option<PackedColor>
    ensures { result ≡ color_of r g b a }
{
    if are_parts(r, g, b, a) {
        Some(PackedColor::of(&Color { r, g, b, a }))
    } else {
        None
    }
}

fn are_parts(r: Fixed, g: Fixed, b: Fixed, a: Fixed) -> bool
    ensures { result ≡ are_parts r g b a }
{
    is_part(255_000_000, r)
        && is_part(255_000_000, g)
        && is_part(255_000_000, b)
        && is_part(1_000_000, a)
}

fn is_part(most: i128, part: Fixed) -> bool
    ensures { result ≡ is_part most part }
{
    let millionths = part.millionths();
    0 <= millionths && millionths <= most
}

// The bytes up to a mark, and those after it.
fn before(bytes: &[u8], mark: u8) -> &[u8]
    ensures { result.now ≡ before mark bytes.now }
{
    bytes.split_at(place_of(bytes, mark)).0
}

fn behind(bytes: &[u8], mark: u8) -> &[u8]
    ensures { result.now ≡ behind mark bytes.now }
{
    after(bytes, place_of(bytes, mark) + 1)
}

// The bytes after the first of this count; none where there are no more.
fn after(bytes: &[u8], count: usize) -> &[u8]
    ensures { result.now ≡ drop count bytes.now }
{
    if count <= bytes.len() {
        bytes.split_at(count).1
    } else {
        &[]
    }
}

// The first place of a mark, or the length where there is none.
fn place_of(bytes: &[u8], mark: u8) -> usize
    ensures place { result ≡ place_of mark bytes.now }
    ensures within { result ≤ length bytes.now }
{
    let mut place = 0;
    for byte in bytes {
        if *byte == mark {
            return place;
        }
        place += 1;
    }
    place
}
