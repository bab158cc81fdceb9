//! Positions in a text, counted in Unicode scalar values and not in bytes.
//!
//! ```text
//! length("Göteborg")               // 8, in 9 bytes
//! slice("Göteborg", 1, 3)          // "öt"
//! index_of("aXbX", "X", 2)         // Some(3)
//! ```
//!
//! What is promised: the answers are those of the list of scalar values. No call takes memory; each takes
//! time linear in its texts, since a position is found by one walk from the front.
//!
//! The text to believe is in `specs/`: `Position`.
#![tactic(auto)]

ghost use Rattle.std.specs.Prelude.{◌≡◌, ◌-◌, ◌≤◌, length, take, drop, IfSome};
ghost use Rattle.std.specs.Str.{chars};
ghost use Rattle.text_units.specs.Position.{first_place, place_from, IsFirstPlace};

/// How many scalar values `text` has.
pub fn length(text: &str) -> usize
    ensures values { result ≡ length (chars text.now) }
    ensures bytes { result ≤ length text.now }
{
    text.chars().count()
}

/// The scalar values of `text` from the position `from` up to `to`, which is not among them.
pub fn slice(text: &str, from: usize, to: usize) -> &str
    requires order { from ≤ to }
    requires within { to ≤ length (chars text.now) }
    ensures { chars result.now ≡ take (to - from) (drop from (chars text.now)) }
{
    let (_, rest) = split(text, from);
    let (part, _) = split(rest, to - from);
    part
}

/// The least position of `part` in `text` at or after `from`, or `None` where there is none. The empty part
/// is at each position up to the length of `text`.
pub fn index_of(text: &str, part: &str, from: usize) -> Option<usize>
    ensures place { result ≡ place_from (chars text.now) (chars part.now) from }
    ensures first { IsFirstPlace (chars text.now) (chars part.now) from result }
{
    if from > length(text) {
        return None;
    }
    let (_, rest) = split(text, from);
    match first(rest, part) {
        Some(place) => Some(from + place),
        None => None,
    }
}

// The least position of `part` in `text`.
fn first(text: &str, part: &str) -> Option<usize>
    ensures place { result ≡ first_place (chars text.now) (chars part.now) }
    ensures within { IfSome result (λ place. place ≤ length (chars text.now)) }
{
    match text.find(part) {
        Some(at) => {
            let (before, _) = text.split_at(at);
            Some(length(before))
        }
        None => None,
    }
}

// The first `position` scalar values of `text`, and the others.
fn split(text: &str, position: usize) -> (&str, &str)
    requires { position ≤ length (chars text.now) }
    ensures front { chars result.0.now ≡ take position (chars text.now) }
    ensures back { chars result.1.now ≡ drop position (chars text.now) }
{
    let mut rest = text.chars();
    for _index in 0..position {
        rest.next();
    }
    text.split_at(text.len() - rest.as_str().len())
}
