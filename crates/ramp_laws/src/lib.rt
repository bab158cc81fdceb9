//! Laws of ramps: what is given at a stop is the output of the stop.
//!
//! ```text
//! ["interpolate",["exponential",2],["zoom"],5,0,9,1,14,["get","a"]]     // at zoom 9: 1, or the fault of "a"
//! {"base":2,"property":"rank","stops":[[0,1],[10,11]]}                  // of a feature whose rank is 10: 11
//! ```
//!
//! What is promised, of inputs that ascend, as they do in each expression and function that was read, and in
//! every world:
//!
//! - Where the value of an `interpolate` is one of its inputs, and the `interpolate` gives a value, it is the
//!   output of that input, whatever the curve is (`ramps_give_their_outputs`). At an input between others
//!   the next output is evaluated too, and its fault counts.
//! - Where the value of a `step` is one of its inputs, it gives what the output of that input gives, faults
//!   included (`steps_give_their_outputs`).
//! - Where a legacy function over numbers goes by the input of one of its stops, and it gives a value, it is
//!   the output of the stop (`functions_give_their_outputs`). One with rules for zooms gives at each of these
//!   zooms the result of the rule (`functions_give_their_rules`), and the rule at each of its stops the
//!   output of the stop (`rules_give_their_outputs`).
//!
//! Each law is a definition, and a function without arguments ensures it: a caller that calls the function
//! has the law.
//!
//! The text to believe is in `specs/`: `RampLaw`.
#![tactic(auto)]

mod laws;

pub use laws::{
    functions_give_their_outputs, functions_give_their_rules, ramps_give_their_outputs,
    rules_give_their_outputs, steps_give_their_outputs,
};
