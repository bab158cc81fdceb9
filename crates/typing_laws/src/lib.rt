//! What typing promises of evaluation.
//!
//! Typing gives an expression a kind under a want, and lists the faults that it may give (`expr_types`). Its
//! meaning in a world is a value or a fault (`eval_face`). The laws of this crate join the two, for every
//! operator.
//!
//! ```text
//! ["+", ["get", "a"], 1]          // kind Number; listed: WrongType, Overflow
//! ["coalesce", ["id"], 0]         // kind Any; nothing is listed: it gives a value for every feature, at every zoom
//! ```
//!
//! What is promised, of an expression that was read and has a kind under a want, with no names around it, in
//! every world:
//!
//! - the fault that it gives is one of those that are listed (`faults_are_listed`);
//! - the value that it gives is of its kind, and fits the want as it is (`values_are_of_their_kinds`);
//! - where nothing is listed it gives a value (`nothing_fails_where_no_fault_is_listed`);
//! - it has as many places as nodes, so that `Typed::want_at` may be asked of each node
//!   (`each_node_has_a_place`).
//!
//! What `check` and `check_free` accept keeps these laws, in the words of `Typed`: `may`, `kind` and its
//! places (`checked_expressions_keep_the_laws`, `free_expressions_keep_the_laws`).
//!
//! No law says that the list is the least one, nor that a fault in it ever comes.
//!
//! The text to believe is in `specs/`: `OfKind`, which says when a value is of a kind, and `TypingLaws`, the
//! statements. A proof goes by the form of the expression, for any set of faults that has those of the root:
//! `proofs/TermLaws.antt` has a line for each operator, which names its lemma.
#![tactic(auto)]

mod laws;

pub use laws::{
    checked_expressions_keep_the_laws, each_node_has_a_place, faults_are_listed,
    free_expressions_keep_the_laws, nothing_fails_where_no_fault_is_listed,
    values_are_of_their_kinds,
};
