//! Numbers as whole counts of millionths, with exact arithmetic, texts and reading.
//!
//! ```text
//! let two = read_decimal(b"2")?;
//! let three = read_decimal(b"3")?;
//! let mut out = [0; 48];
//! let length = two.div(three)?.write(&mut out);
//! // out[..length] is "0.666667"
//! ```
//!
//! What is promised: each answer of the arithmetic is the exact rational result, rounded once to the nearest
//! millionth with halves away from zero. It is a fault exactly where that is past 10^20 units or the divisor
//! is zero. The texts that are read are exactly the JSON numbers, of any length and any exponent, each as its
//! exact value rounded once. A written text is a JSON number too, and reads as the number that it is of. No
//! call takes memory, and each takes time linear in its text.
//!
//! The text to believe is in `specs/`: `Rounding`, `Number`, `NumberText`, `Decimal`, `ColorRange`. Laws of
//! it: `NumberGrammar`.
#![tactic(auto)]

mod color;
mod decimal;
mod digits;
mod fixed;
mod laws;
mod rounding;
mod text;

pub use color::Color;
pub use decimal::{NumFault, read_decimal};
pub use digits::{are_digits, begins_with, saturated_number, split_digits};
pub use fixed::{Arith, Fixed};
pub use laws::{
    floor_is_just_below, json_numbers_are_read, number_texts_are_the_grammar, remainder_is_left,
    written_numbers_are_read,
};
pub use rounding::{nearest, nearest_is_nearest};
