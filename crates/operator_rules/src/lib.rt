//! What operators make of values: the leaves of every evaluator. Values are handed in, and no expression is.
//!
//! ```text
//! // the rule of an operator says how its arguments are evaluated
//! match rule_of(op) {
//!     OperatorRule::Each => node_value(alloc, op, &values, want, world)?,   // of the values of all arguments
//!     OperatorRule::Deciding => decided(op, value),                        // of one, and `undecided` of none
//!     ..
//! }
//! ```
//!
//! What is promised: each function gives exactly what the part of its rule says that is in the definitions of
//! `eval_face`, unless an allocation fails. `specs/RuleParts.antt` names the parts. A world is read through
//! [`WorldView`].
//!
//! A new operator that evaluates all its arguments has its line in `applied`, and one that stops at the argument that
//! decides has its line in `decides` and in `undecided`, all three in `applying.rt`. One whose parts decide has a
//! variant of `OperatorRule`.
//!
//! What is to be believed is in `eval_face`. The definitions in `specs/` are those of contracts here and of the
//! evaluators.
#![tactic(auto)]

mod applying;
mod inputs;
mod lookups;
mod rule;
mod sections;
mod sequences;
mod world_view;

pub use applying::{applied, asserts, decided, fitted, fitted_copy, node_value, undecided};
pub use inputs::{between, condition, number_of, warped};
pub use rule::{OperatorRule, rule_of};
pub use sequences::{as_sequence, is_sequence};
pub use world_view::{TestedContext, WorldView};
