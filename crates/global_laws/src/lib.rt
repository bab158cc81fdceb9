//! What the values of the global state change of a style: what expressions give, and never their form.
//!
//! ```text
//! ["+", ["global-state", "k"], 1]     // with "k" as 2: 3; with "k" as "x": the fault WrongType
//!                                     // with any values: kind Number; listed: WrongType, Overflow
//! ```
//!
//! What is promised, for each JSON tree, well formed or not, and any two lists of values of the global state:
//! it reads with one as with the other, as outside, as the same fault, or as expressions with the same
//! mentions, kinds, listed faults, codes and paths (`global_values_change_no_form`). A tree in which no text is
//! `global-state` reads the same with both (`other_trees_read_the_same`).
//!
//! Each law is a definition, and a function without arguments ensures it: a caller that calls the function
//! has the law.
//!
//! The text to believe is in `specs/`: `GlobalLaw`.
#![tactic(auto)]

mod laws;

pub use laws::{global_values_change_no_form, other_trees_read_the_same};
