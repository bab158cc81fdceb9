//! Lines and columns.

ghost use Rattle.std.specs.Prelude.{◌≡◌, ◌+◌, ◌-◌, ◌<◌, ◌≤◌, ◌^◌, length, map, take, IfOk};
ghost use Rattle.text_places.specs.Counting.{IsCounted};
ghost use Rattle.text_places.specs.LineColumn.{after_byte, after_bytes, first_place, goes_on};
ghost use Rattle.text_places.specs.TextPlace.{place_before};

use std::alloc::{AllocError, Global};

/// A place in a text: its line, and its column in characters, both from 1.
#[derive(Clone, Copy, Debug, PartialEq, Eq)]
pub struct TextPlace {
    pub line: usize,
    pub column: usize,
}

/// The place of a byte of a text.
#[derive(Clone, Copy)]
pub(crate) struct CountedPlace {
    at: usize,
    place: TextPlace,
}

/// The line and column of the byte at a place of a text, or of the end of the text. Time is linear in the bytes before
/// it. Source: own.
pub fn byte_place(text: &[u8], at: usize) -> TextPlace
    requires { at ≤ length text.now }
    ensures { result ≡ after_bytes first_place (take at text.now) }
{
    let counted = counted_to(text, first_byte(), at);
    counted.place
}

/// The places where these counts of bytes are left of a text.
pub(crate) fn places_before(
    alloc: Global,
    text: &[u8],
    lefts: &[usize],
) -> Result<Vec<TextPlace>, AllocError>
    ensures { IfOk result (λ places. places.items ≡ map (place_before text.now) lefts.now) }
{
    let mut places = Vec::with_capacity(alloc, lefts.len())?;
    let mut counted = first_byte();
    for left in lefts {
        counted = counted_to(text, counted, text.len().saturating_sub(*left));
        places.push(counted.place)?;
    }
    Ok(places)
}

fn first_byte() -> CountedPlace
    ensures { result ≡ record { at = 0; place = first_place } }
{
    CountedPlace {
        at: 0,
        place: TextPlace { line: 1, column: 1 },
    }
}

// The place of a byte, counted on from that of another, or from the first where that comes later.
#[tactic(auto, using(crate::proofs::CountLaws::counted_line, crate::proofs::CountLaws::counted_column, crate::proofs::CountLaws::over_between))]
fn counted_to(text: &[u8], counted: CountedPlace, at: usize) -> CountedPlace
    requires counted { IsCounted text.now counted }
    requires within { at ≤ length text.now }
    ensures counted { IsCounted text.now result }
    ensures at { result.at ≡ at }
{
    let from = not_behind(text, counted, at);
    CountedPlace {
        at,
        place: counted_over(from.place, &text[from.at..at]),
    }
}

fn not_behind(text: &[u8], counted: CountedPlace, at: usize) -> CountedPlace
    requires { IsCounted text.now counted }
    ensures counted { IsCounted text.now result }
    ensures before { result.at ≤ at }
{
    if at < counted.at {
        return first_byte();
    }
    counted
}

// The place after bytes.
fn counted_over(place: TextPlace, bytes: &[u8]) -> TextPlace
    requires line { place.line + length bytes.now < 2 ^ 64 }
    requires column { place.column + length bytes.now < 2 ^ 64 }
    ensures { result ≡ after_bytes place bytes.now }
{
    let mut place = place;
    for byte in bytes {
        place = after_byte(place, *byte);
    }
    place
}

fn after_byte(place: TextPlace, byte: u8) -> TextPlace
    requires line { place.line < 2 ^ 64 - 1 }
    requires column { place.column < 2 ^ 64 - 1 }
    ensures place { result ≡ after_byte place byte }
    ensures line { result.line ≤ place.line + 1 }
    ensures column { result.column ≤ place.column + 1 }
{
    if byte == b'\n' {
        return TextPlace {
            line: place.line + 1,
            column: 1,
        };
    }
    if goes_on(byte) {
        return place;
    }
    TextPlace {
        line: place.line,
        column: place.column + 1,
    }
}

// Whether a byte goes on a character.
fn goes_on(byte: u8) -> bool
    ensures { result ≡ goes_on byte }
{
    byte >= 128 && byte <= 191
}
