//! The colors of a style: which texts are colors, which color each is, and the text of a color.
//!
//! ```text
//! read_color(" HSL(205, 56%, 73%) ")    // Some, 147.594, 192.576, 224.706 and 1
//! read_color("lightgoldenrodyellow")    // Some, 250, 250, 210 and 1
//! read_color("rgb(0, 0, 0, 0, 0)")      // None
//! color_text(alloc, &color)?            // rgba(147.594,192.576,224.706,1)
//! ```
//!
//! What is promised, for all texts: `read_color` is the definition `color_of`, `Some` and `None` alike, and
//! its colors are in range. Each component is the exact value of its text, rounded once to the nearest
//! millionth; numbers are read at any length, but of a hue and of a saturation the digits past the
//! thousandth after the point are not counted. Reading takes no memory, and time linear in the text.
//! `color_text` is the text that `prop_values` writes.
//!
//! Definitions, in reading order: `specs/Parts.antt` (spaces, commas, arguments), `specs/ColorNumber.antt`,
//! `specs/ColorName.antt`, `specs/HexColor.antt`, `specs/RgbColor.antt`, `specs/HslColor.antt` and
//! `specs/ColorOf.antt`, which has the whole. Only `color_text` takes memory.
//!
//! The text to believe is in `specs/`: `Parts`, `ColorNumber`, `ColorName`, `HexColor`, `RgbColor`,
//! `HslColor`, `ColorOf`.
#![tactic(auto)]

mod amount;
mod color;
mod component;
mod hexadecimal;
mod hsl;
mod names;
mod number;
mod parts;
mod reading;
mod rgb;

pub use prop_values::color_text;
pub use reading::read_color;
