//! The values of expressions.
//!
//! ```text
//! // ["case",["<",["get","r"],10],["get","r"],10] over a feature whose property `r` is 3
//! let evaluated = eval_plain(alloc, &expression, &Want::Number, &context, images, scripts)?;
//! // Ok(Value::Num(..)), 3; under Want::Boolean it is Err(EvalFault::WrongType)
//! ```
//!
//! What is promised, for all expressions, wants, contexts and tests: `eval_plain` gives exactly the value or the fault
//! that is the expression's meaning, `mean` of `eval_face`, with no names bound around it, unless an allocation fails.
//!
//! Arguments are evaluated from left to right, each fitted to its want at once, and the first fault ends the
//! evaluation. `case` evaluates one output alone, and `number` nothing after the first number. A `match` finds its
//! output in logarithmic time. A binding of a `let` is evaluated when a `var` first asks for it, and never again.
//! Values are shared and not copied. A property of a literal key is borrowed, also as the first argument of a `number`,
//! `string` or `boolean`. An operator of one or two arguments takes no memory for them, and the values of more are on
//! one stack. The recursion is as deep as the expression, and deeper where bindings ask one another; an evaluation of
//! more than 2,400 nodes inside one another ends as one does for which there is no memory.
//!
//! No command evaluates by it: listings evaluate by the counted evaluators of `expr_nodes`, and `value` and `simplify`
//! by `expr_once`. The program `node_rows` compares these with it.
//!
//! A new operator has its row in `expr_syntax`, its rule in `eval_face` and its line in `operator_rules`. One whose
//! parts decide has a function here, which `nodes.rt` calls.
//!
//! No text of its own is to be believed: the meaning is that of `eval_face`.
#![tactic(auto)]

mod arguments;
mod bindings;
mod borrowed;
mod branches;
mod eval;
mod evaluation;
mod frames;
mod nodes;

pub use eval::eval_plain;
