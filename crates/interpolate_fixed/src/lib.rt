//! Interpolation between the stops of a function, in exact arithmetic.
//!
//! ```text
//! // inputs 5, 10 with the outputs 1, 2, at 7.25
//! stop_place(&inputs, x);                          // StopPlace::Between(0)
//! linear(x, inputs[0], one, inputs[1], two)        // Ok(1.45)
//! ```
//!
//! What is promised: a number is a whole count of millionths. Each interpolation is the one formula
//! `a + (b - a) * (x - x0) / (x1 - x0)`, whose fraction is rounded once to the nearest millionth, halves away
//! from zero, and is Overflow exactly where `(b - a) * (x - x0)` is past 10^38. A result never is past the
//! bound of numbers, since it lies between a and b. An exponential curve is the line at a moved input: `warp`
//! gives it.
//!
//! Only `linear_list` takes memory.
//!
//! The text to believe is in `specs/`: `Places`, `PlaceFacts`, `Linear`, `LinearLists`, `Warp`, `Items`.
#![tactic(auto)]

mod color;
mod curve;
mod laws;
mod line;
mod list;
mod place;

pub use color::linear_color;
pub use curve::warp;
pub use laws::{
    colors_never_overflow, lines_lie_between_their_ends, moved_inputs_stay_between,
    places_are_greatest,
};
pub use line::linear;
pub use list::linear_list;
pub use place::{StopPlace, step_place, stop_place};
