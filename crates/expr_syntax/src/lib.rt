//! Expressions as trees of operators, and their reading from JSON. Source: MapLibre style specification,
//! version 8, expressions.
//!
//! ```text
//! match read_expr(alloc, &json)? {
//!     Ok(Reading::Inside(expression)) => ..,      // ["<",["number",["get","r"]],10]
//!     Ok(Reading::Outside) => ..,                 // ["+",1,["sqrt",4]]
//!     Err(fault) => ..,                           // ["+",1,["foo"]]: fault.code is UnknownOperator, at fault.path, /2
//! }
//! ```
//!
//! What is promised, for all trees: `read_expr` and `read_with` give exactly what `specs/Reading.antt`
//! defines. An expression with a node that is outside of what is evaluated is outside, whatever else it
//! holds; else the first fault in document order is the answer, of two at one node the lesser; else the
//! expression. `uses_globals` says exactly whether a `global-state` node is in the tree, and
//! `operator_named` which operator has a name. An expression that was read is sound at each node
//! (`read_terms_are_sound`, by `specs/ReadTerms.antt`): its row allows so many elements, its parts are of
//! their form, and each `var` names a name of a `let` around it.
//!
//! What is known of an operator is in one place, its row in `names.rt`, which `specs/Names.antt` defines:
//! its name, how many elements may follow, which of them are arguments, what each is wanted as, how they are
//! evaluated, and what it reads of the world. An operator without parts has besides a line in each of the two
//! tables of `expression.rt`; one with parts has a layout of its own.
//!
//! Each text of the tree is shared and not copied, but for labels, and the names of a `let` of more than
//! eight, of which an index has a copy. Time is linear in the tree, but for the labels of a `match` and the
//! names of a `let`, which take n log n, and for each `var`, which asks each `let` around it in logarithmic
//! time. The recursion is as deep as the tree.
#![tactic(auto)]

mod bound_names;
mod elements;
mod expression;
mod fault;
mod label_index;
mod labels;
mod laws;
mod names;
mod parts;
mod reading;
mod rows;
mod scope;
mod sections;
mod standing;
mod text_numbers;
mod values;
mod world_parts;

pub use bound_names::{AskedName, Names};
pub use expression::{Arguments, Expr, Operator};
pub use fault::{SynCode, SynFault};
pub use laws::read_terms_are_sound;
pub use names::{Name, operator_named};
pub use parts::{FormatPiece, Inputs, Label, Labelled, Labels, Pieces, Ramp, Role};
pub use reading::{Reading, read_expr, read_with, uses_globals};
pub use rows::{
    Arity, ElementLayout, ElementPlace, Manner, OperatorRow, Reads, Wanted, Wants, ramp_want,
};
pub use world_parts::Mentions;
