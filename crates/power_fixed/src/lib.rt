//! Square roots and powers of numbers, in their own exact arithmetic.
//!
//! ```text
//! let four = read_decimal(b"4")?;
//! let half = read_decimal(b"0.5")?;
//! root(four);          // 2
//! power(four, half)    // Ok(2)
//! ```
//!
//! What is promised: a power is what its definition in `specs/Power.antt` makes of sums, products and roots
//! of millionths: whole powers by squaring, the fraction of the exponent by twenty binary digits. Overflow
//! comes exactly where one of its products is past the bound. Nothing is promised of closeness to real
//! powers. No call takes memory. A power makes at most two products for each binary digit of the exponent's
//! whole part, and a product and a root for each digit of its fraction up to the last that is 1.
//!
//! The text to believe is in `specs/`: `Root`, `Power`.
#![tactic(auto)]

mod laws;
mod powers;
mod roots;

pub use laws::{powers_of_one_and_zero, roots_are_greatest, whole_powers_square};
pub use powers::{power, unit};
pub use roots::root;
