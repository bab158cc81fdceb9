//! What the operators of expressions give of the values of their arguments.
//!
//! ```text
//! // ["+", 1, 2] of values that were evaluated
//! sum(&[Value::Num(one), Value::Num(two)])            // Ok(Value::Num(three))
//! // ["slice", "Göteborg", 1, -5]
//! slice(alloc, &[text, one, minus_five])?             // Value::Text("öt")
//! // ["at", 7, ["literal", [1, 2]]]
//! item(&[seven, list])                                // Err(Halt::Fault(EvalFault::IndexOutside))
//! ```
//!
//! Each function takes the values of an operator's arguments in their order. A value of another form than the
//! operator's, or another number of values, is `WrongType`: an expression that was read has neither, since
//! its arguments are fitted to what the operator wants.
//!
//! What is promised, for all values: each function gives exactly the value or the fault of the definition of its name
//! in `specs/`; one that allocates gives that or `Halt::NoMemory`. Numbers, their rounding and their faults are those
//! of `fixed_num` and `interpolate_fixed`, positions in texts those of `text_units`, equality and order those of
//! `prop_values`.
//!
//! Each call takes time linear in its values. Texts and lists that stay whole are shared and not copied.
//!
//! The text to believe is in `specs/`: `Evaluated`, `Whole`, `Conversions`, `Arithmetic`, `Comparisons`,
//! `Sequences`, `Texts`, `Colors`, `Ramps`.
#![tactic(auto)]

mod arithmetic;
mod colors;
mod comparisons;
mod conversions;
mod ramps;
mod sequences;
mod texts;
mod whole;

pub use arithmetic::{
    absolute, ceiling, difference, floor, greatest, least, product, quotient, remainder, rounded,
    sum,
};
pub use colors::{color_parts, rgba};
pub use comparisons::{different, equal, greater, greater_or_equal, less, less_or_equal};
pub use conversions::{color_in, kind_of, negation, number_in, text_of, truth_of};
pub use ramps::value_between;
pub use sequences::{contains, index_of, item, length, slice};
pub use texts::concat;

/// Why an evaluation ends without a value.
pub type Halt = halts::Halt<prop_values::EvalFault>;
