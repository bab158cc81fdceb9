ghost use Rattle.std.specs.Prelude.{◌≡◌, ◌<◌, ◌≤◌, ◌+◌, ◌-◌, IsTrue, IfSome, length, take, drop, slice_index, nat_eq};
ghost use Rattle.color_values.specs.ColorOf.{opaque_color, named_color, color_by, before_bracket, function_color};
ghost use Rattle.color_values.specs.ColorOf.{color_of_trimmed, color_of};
ghost use Rattle.color_values.specs.Views.{parts_view};
ghost use Rattle.fixed_num.specs.ColorRange.{IsInRange};

use crate::color::color_of_bytes;
use crate::hexadecimal::hexadecimal_color;
use crate::hsl::hsl_color;
use crate::names::value_of_name;
use crate::parts::{ColorArguments, parts_of, trimmed};
use crate::rgb::rgb_color;
use fixed_num::{Color, begins_with};

/// The color that a text is, or `None` where it is none. Spaces around it are dropped and letters count
/// without case. A color is a name, `#` and 3, 4, 6 or 8 hexadecimal digits, or one of `rgb`, `rgba`, `hsl`
/// and `hsla` with three or four arguments in brackets and commas between them.
///
/// Red, green and blue are from 0 to 255 and the opacity from 0 to 1, each the exact value of the text,
/// rounded once to the nearest millionth. Only the digits of a hue and of a saturation past the thousandth
/// after the point do not count. Takes no memory, and time linear in the text.
pub fn read_color(text: &str) -> Option<Color>
    ensures value { result ≡ color_of text.now }
    ensures range { IfSome result (λ c. IsInRange c) }
{
    color_of_trimmed(trimmed(text.as_bytes()))
}

// The color of a text without spaces around it.
#[tactic(auto, unfolding(crate::specs::ColorOf::color_of_trimmed))]
fn color_of_trimmed(bytes: &[u8]) -> Option<Color>
    ensures value { result ≡ color_of_trimmed bytes.now }
    ensures range { IfSome result (λ c. IsInRange c) }
{
    if begins_with(bytes, b'#') {
        return hexadecimal_color(&bytes[1..]);
    }
    if ends_with_bracket(bytes) {
        return function_color(bytes);
    }
    named_color(bytes)
}

fn ends_with_bracket(bytes: &[u8]) -> bool
    ensures value { result ≡ nat_eq (slice_index bytes.now (length bytes.now - 1)) 41 }
    ensures some { IsTrue result → 0 < length bytes.now }
{
    bytes.last() == Some(&b')')
}

#[tactic(auto, unfolding(crate::specs::ColorOf::named_color))]
fn named_color(name: &[u8]) -> Option<Color>
    ensures value { result ≡ named_color name.now }
    ensures range { IfSome result (λ c. IsInRange c) }
{
    if name.eq_ignore_ascii_case(b"transparent") {
        return Some(color_of_bytes(0, 0, 0, 0));
    }
    Some(opaque_color(value_of_name(name)?))
}

// The opaque color of six hexadecimal digits.
fn opaque_color(value: u32) -> Color
    ensures value { result ≡ opaque_color value }
    ensures range { IsInRange result }
{
    color_of_bytes(
        (value / 65536 % 256) as u8,
        (value / 256 % 256) as u8,
        (value % 256) as u8,
        255,
    )
}

// The color of a function: a name, and arguments in brackets that end the text.
#[tactic(auto, unfolding(crate::specs::ColorOf::function_color))]
fn function_color(bytes: &[u8]) -> Option<Color>
    requires { 0 < length bytes.now }
    ensures value { result ≡ function_color bytes.now }
    ensures range { IfSome result (λ c. IsInRange c) }
{
    let before = before_bracket(bytes);
    let parts = parts_of(inside(bytes, before))?;
    color_by(&bytes[..before], &parts)
}

// What follows `before` bytes and a bracket, without the bracket at the end.
fn inside(bytes: &[u8], before: usize) -> &[u8]
    requires some { 0 < length bytes.now }
    requires within { before ≤ length bytes.now }
    ensures { result.now ≡ drop (before + 1) (take (length bytes.now - 1) bytes.now) }
{
    let front = &bytes[..bytes.len() - 1];
    if before < front.len() {
        return &front[before + 1..];
    }
    &[]
}

// How many bytes are before the first bracket.
fn before_bracket(bytes: &[u8]) -> usize
    ensures value { result ≡ before_bracket bytes.now }
    ensures within { result ≤ length bytes.now }
{
    bytes.iter().take_while(|byte| **byte != b'(').count()
}

// The color by the name of its function.
fn color_by(name: &[u8], parts: &ColorArguments) -> Option<Color>
    ensures value { result ≡ color_by name.now (parts_view parts.now) }
    ensures range { IfSome result (λ c. IsInRange c) }
{
    if name.eq_ignore_ascii_case(b"rgb") || name.eq_ignore_ascii_case(b"rgba") {
        return rgb_color(parts);
    }
    if name.eq_ignore_ascii_case(b"hsl") || name.eq_ignore_ascii_case(b"hsla") {
        return hsl_color(parts);
    }
    None
}
