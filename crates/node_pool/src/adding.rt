//! The nodes of an expression are put after those of others.

ghost use Rattle.std.specs.Prelude.{◌≡◌, IfOk, OnErr};
ghost use Rattle.node_pool.specs.Blocks.{IsAdded};

use crate::flattening::flattened;
use crate::pooled_expression::PooledExpression;
use crate::pooled_node::PooledNode;
use expr_nodes::BoxedExpression;
use std::alloc::{AllocError, Global};

/// Puts the block of an expression at the end of some nodes.
pub(crate) fn added(
    alloc: Global,
    expression: BoxedExpression,
    nodes: &mut Vec<PooledNode>,
) -> Result<PooledExpression, AllocError>
    ensures ok { IfOk result (λ made. IsAdded made expression nodes.old.items nodes.new.items) }
    ensures err { OnErr result (nodes.new.items ≡ nodes.old.items) }
{
    let chained = expression.is_chained();
    let (root, boxed, count) = expression.into_parts();
    let bindings = boxed.as_slice().len();
    let (block, first) = flattened(alloc, root, boxed)?;
    let mut block = block;
    let start = nodes.as_slice().len();
    nodes.append(&mut block)?;
    Ok(PooledExpression {
        start,
        first,
        bindings,
        nodes: count,
        chained,
    })
}
