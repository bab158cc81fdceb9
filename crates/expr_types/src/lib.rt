//! The types of expressions: the kind of what an expression gives, and the faults that its evaluation may end
//! with. Source: MapLibre style specification, version 8, types of expressions, as this project takes them.
//!
//! ```text
//! check(alloc, &expression, &Want::Number, Some(&row))?    // Err of Kind at /1 for ["+","a",1]
//! let typed = check_free(alloc, &expression)??;            // of ["+",["get","a"],1]
//! typed.kind()                                             // Kind::Number
//! typed.may()                                              // WrongType and Overflow
//! ```
//!
//! A kind fits a want always, maybe or never. A node whose kind never fits has no kind: that is the type
//! fault `Kind`, and `NotComparable` and `NotInterpolable` are those of comparisons and of `interpolate`. Of
//! the nodes that fail while their arguments do not, the first in document order counts. A fit that may fail
//! lists its faults, and each operator those that are its own.
//!
//! What is promised: `check_free` gives exactly the first type fault of `checked_free`, else the expression
//! with its want; `check` the same by `checked`, and then the first node that reads what its row, or a
//! filter, may not read, and then the first `zoom` that is elsewhere than at the input of the root. `kind`,
//! `may`, `want_at`, `always_at` and `into_places` are exactly what `typed` of `specs/Typing.antt` finds. That
//! evaluation gives no other fault, and only values of the kind, are laws of the crate `typing_laws`. `node_kind`,
//! `literal_kind_under` and `name_kind` give exactly the kinds of `specs/NodeKinds.antt`, for whoever has the
//! kinds of the arguments already.
//!
//! Time is linear in the expression, but for names: a `var` asks each `let` around it, which finds a name in
//! logarithmic time. The recursion is as deep as the tree. Memory is taken for a path of a fault, for the
//! kinds of arguments, and for what is known of each node.
//!
//! The text to believe is in `specs/`: `Fits`, `Literals`, `Own`, `Assertions`, `Sequences`, `Comparing`,
//! `Ramping`, `Arithmetics`, `OwnTable`, `ArgumentPaths`, `Typing`, `NodeKinds`, `Visits`, `Allowed`, `Checked`,
//! `Judged`, `JudgedFacts`.
#![tactic(auto)]

mod argument_paths;
mod arithmetic;
mod assertions;
mod bindings;
mod checking;
mod comparing;
mod fault;
mod fits;
mod literals;
mod misplaced_reads;
mod node_kinds;
mod nodes;
mod own;
mod placed;
mod ramping;
mod scope;
mod sequences;
mod standing;
mod table;
mod typed;
mod visiting;

pub use bindings::Bound;
pub use checking::argument_want;
pub use fault::{TypeCode, TypeFault};
pub use fits::{branch_kind, same_kind};
pub use node_kinds::{literal_kind_under, name_kind, node_kind};
pub use placed::Placed;
pub use scope::KindScope;
pub use typed::{Typed, check, check_free};
