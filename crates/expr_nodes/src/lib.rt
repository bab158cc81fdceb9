//! Expressions without names, as counted evaluators have them: nodes, what they give, and how an expression becomes
//! one.
//!
//! ```text
//! // ["let","a",["+",1,1],["*",["var","a"],["var","a"]]] under Want::Number, an expression of 7 nodes
//! // binding 0: ["+",1,1]; the root: ["*", binding 0, binding 0]
//! let mut workspace = Workspace::new(alloc);
//! evaluate(&mut workspace, root, &bindings, &world, &mut steps)?     // 4, in 6 steps
//! ```
//!
//! What is promised, for all nodes, bindings and worlds: `evaluate` gives exactly the value or the fault that is the
//! outcome of the node, `outcome` of `specs/Outcome.antt`, unless an allocation fails. It counts at least one step,
//! and at most as many as the node and its bindings have nodes, each counted once, also after a fault and where an
//! allocation fails. The same holds wherever nodes are kept: a [`NodeHandle`] reads a node, and [`Bindings`] are
//! those of an expression. A [`CountedEvaluator`] has many expressions by their numbers; [`Boxed`] is the one whose
//! nodes own their arguments. A resolved expression (`resolve`) gives in every world what the expression means,
//! faults included; its bindings can be evaluated in their order; and it has no more nodes
//! (`resolved_expressions_mean_the_same`). `Represents` says when a node and its bindings represent an expression
//! under a want. Nodes can be marked: the test of a marked node is left out, and the same holds where each marked node
//! gives under its want what it gives where anything is wanted (`marked_expressions_mean_the_same`).
//!
//! A [`Workspace`] is the memory of evaluations, made once. What it holds before an evaluation does not matter.
//!
//! A node knows what it is wanted as, and a literal is fitted already. The property of a literal key is a node of its
//! own. Names are gone: a `let` is its body, and its bindings are in one list, each after those that it asks for. A
//! binding is evaluated when it is first asked for, and its value is kept. Where more than three bindings ask for
//! others all are evaluated in turn before the node, each over what those before it gave (`in_turn.rt`, `given.rt`): a
//! value or a fault, which is one of the node only where it is asked for. So at most four bindings are evaluated inside
//! one another, however they ask for one another.
//!
//! The functions are those of `expr_plain`, over nodes (`evaluation.rt`, `arguments.rt`, `branches.rt`), and what
//! they make of values is in `operator_rules`. They are methods of the `Workspace`, which has what changes: a slot
//! for each binding, and the values of arguments whose node is not evaluated yet. A constant, or a property that is
//! wanted as it is, is read where it is (`borrowed.rt`): as the first argument of an assertion, the input of a `match`
//! and an output of an `interpolate`. A literal list that `in` searches may have an index of its
//! items beside it ([`Literal`]), and then a value is found in it without looking through it.
//!
//! The text to believe is in `specs/`: `Node`, `Outcome`, `Limits`, `Resolving`, `Marks`, `Resolved`, `Evaluators`.
#![tactic(auto)]

mod access;
mod arguments;
mod borrowed;
mod boxed;
mod boxed_expression;
mod boxed_node;
mod branches;
mod evaluation;
mod evaluator;
mod given;
mod in_turn;
mod known_numbers;
mod laws;
mod leaves;
mod literal;
mod workspace;

pub use access::{Bindings, NodeForm, NodeHandle};
pub use boxed::Boxed;
pub use boxed_expression::BoxedExpression;
pub use boxed_node::{BoxedBindings, BoxedNode};
pub use evaluation::{evaluate, value_or_fault};
pub use evaluator::CountedEvaluator;
pub use laws::{marked_expressions_mean_the_same, resolved_expressions_mean_the_same};
pub use literal::Literal;
pub use workspace::Workspace;
