//! Laws of reading: where the arguments of an expression come from, and which read the global state.
//!
//! ```text
//! ["match",["get","a"],"x",1,["+",2,"y"]]     // the last argument of `match` is read at /4,
//!                                             // so the code Kind of its second argument is at /4/2
//! ```
//!
//! What is promised, for each JSON tree, well formed or not, and any names around it: each argument of a node
//! that was read is what reading gives of the tree at the argument's path in the node's tree, inside of the
//! names around the argument (`arguments_are_read_at_their_paths`). Codes are reported at these paths. Of
//! `global-state`, which is read as a `get` in an object that has its value, nothing is said. A tree that is
//! read as one expression with all values of the global state has no `global-state` node
//! (`fixed_expressions_use_no_globals`).
//!
//! Each law is a definition, and a function without arguments ensures it: a caller that calls the function
//! has the law.
//!
//! The text to believe is in `specs/`: `ReadingLaw`, `GlobalUse`.
#![tactic(auto)]

mod laws;

pub use laws::{arguments_are_read_at_their_paths, fixed_expressions_use_no_globals};
