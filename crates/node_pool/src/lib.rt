//! Expressions whose nodes are kept together, as a counted evaluator has them.
//!
//! ```text
//! let mut pool = Pool::new(alloc);
//! let slot = pool.put(boxed(alloc, expression, Want::Number)?)?;      // by expr_resolving
//! pool.evaluated(&mut workspace, slot, &world, &mut steps)?           // in at most pool.nodes(slot) steps
//! pool.put_at(slot, boxed(alloc, other, Want::Number)?)?;
//! ```
//!
//! What is promised, for all expressions: [`Pool`] is a `CountedEvaluator` of `expr_nodes`, so each expression gives
//! exactly its value or its fault, unless an allocation fails, in at least one step and at most as many as it has
//! nodes. `put` adds one after the others and `put_at` replaces one; all others stay what they are, and where an
//! allocation fails so do all.
//!
//! The nodes of an expression are one block of the pool's vector (`pooled_expression.rt`): the arguments of a node
//! are side by side before it, then come the bindings, then the root. Numbers are those in the block, so a block can
//! be moved (`gathering.rt`). A node is read by a handle, the block up to it (`block.rt`), and evaluated by the
//! `evaluate` of `expr_nodes`. Names are resolved before, by `expr_resolving`.
//!
//! The text to believe is in `specs/` of `expr_nodes`; the files of `specs/` here are of private functions alone.
#![tactic(auto)]

mod adding;
mod block;
mod flattening;
mod gathering;
mod pool;
mod pooled_expression;
mod pooled_node;

pub use pool::Pool;
