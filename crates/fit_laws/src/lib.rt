//! What typing promises of tests: a value of a node that is marked as always fitting need not be tested.
//!
//! Typing finds for each node the want under which it is evaluated, and whether what it gives always fits that want
//! (`expr_types`: `Typed::want_at`, `Typed::always_at`). Evaluation fits the value of a node to its want (`eval_face`).
//!
//! ```text
//! ["+",["length",["get","a"]],1]     // `length` is wanted as a number, gives no other value, and is marked
//! ```
//!
//! What is promised, of an expression that was read and has a kind under a want: in every world, and in all names
//! around it whose outcomes are of their kinds, each of its nodes that is marked and fits its own value gives under its
//! want what it gives where anything is wanted, faults included (`marked_nodes_fit`). A value that is shown is made a
//! text, which is no test; and `case`, `match`, `step`, `interpolate` and `let` have none, since they hand their want
//! on. The same holds of an expression by itself with the places that its `Typed` gives up (`checked_nodes_fit`).
//!
//! `expr_resolving` leaves such tests out. `MarksHold` of `expr_nodes` is the form in which the law is stated.
//!
//! The text to believe is in `specs/`: `MarkedNodes`.
#![tactic(auto)]

mod laws;

pub use laws::{checked_nodes_fit, marked_nodes_fit};
