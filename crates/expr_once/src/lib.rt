//! Expressions that are evaluated a single time.
//!
//! ```text
//! // ["case",["<",["get","r"],10],["get","r"],10] over a feature whose property `r` is 3
//! let evaluated = evaluated_once(alloc, expression, Want::Number, &context, images, scripts)?;
//! // Ok(Value::Num(..)), 3; under Want::Boolean it is Err(EvalFault::WrongType)
//! ```
//!
//! What is promised, for all expressions, wants, contexts and tests: [`evaluated_once`] gives exactly the value or the
//! fault that is the expression's meaning, `mean` of `eval_face`, with no names bound around it, unless an allocation
//! fails. An expression of 2^64 nodes or more is refused as a failed allocation is.
//!
//! The expression becomes nodes without names (`expr_resolving`), which are evaluated as those of a listing are
//! (`expr_nodes`), with a counter of steps that nobody reads. Calls go as deep there, however bindings ask for one
//! another. `value` and the folding of `simplify` evaluate by it. No crate of a session depends on it.
//!
//! No text of its own is to be believed: the meaning is that of `eval_face`.
#![tactic(auto)]

mod once;

pub use once::evaluated_once;
