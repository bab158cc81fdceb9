//! Expressions become nodes without names: a `var` is the number of its binding, and a node knows what it is wanted as.
//!
//! ```text
//! // ["let","a",["+",1,1],["*",["var","a"],["var","a"]]] under Want::Number, an expression of 7 nodes
//! let (root, bindings) = resolve(alloc, expression, Want::Number)?;
//! // bindings: ["+",1,1]; root: ["*", binding 0, binding 0]
//! ```
//!
//! What is promised, for all expressions and wants: [`resolve`] gives exactly the node and the bindings of the
//! definition `resolve` of `expr_nodes`, and [`boxed`] gives nodes that mean in every world what the expression
//! means, faults included, with how many nodes the expression has, unless an allocation fails. An expression of 2^64
//! nodes or more, and no other, is refused by `boxed` as a failed allocation is.
//!
//! [`boxed_checked`] does the same and leaves out the tests that always succeed, by what a check of `expr_types` gives
//! up of the nodes. The law of `fit_laws` says that these nodes give the same without their tests. To find the marks of
//! an argument, the nodes of those before it are counted, once for each level of the expression.
//!
//! A literal list that is the second argument of `in` is kept with an index of its items (`searched.rt`), where they
//! are more than sixteen. It takes memory linear in them.
//!
//! An expression is taken by value: its operators are moved into the nodes. What is copied is the key of a property,
//! which is shared.
//!
//! The text to believe is in `specs/` of `expr_nodes`; the files of `specs/` here are of private functions alone.
#![tactic(auto)]

mod boxing;
mod marks;
mod name_role;
mod node_count;
mod number_scope;
mod property_key;
mod resolving;
mod searched;

pub use boxing::{boxed, boxed_checked};
pub use resolving::resolve;
