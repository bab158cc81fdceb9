//! Literal lists in which values are looked for.

ghost use Rattle.std.specs.Prelude.{◌≡◌, IfOk};
ghost use Rattle.expr_nodes.specs.Boxed.{boxed_node};

use expr_nodes::BoxedNode;
use expr_syntax::Operator;
use std::alloc::{AllocError, Global};

/// The node of an argument of an operator, by its place from 0. A literal list that `in` searches is kept with an index
/// of its items.
pub(crate) fn searched(
    alloc: Global,
    op: &Operator,
    place: usize,
    node: BoxedNode,
) -> Result<BoxedNode, AllocError>
    ensures { IfOk result (λ made. boxed_node made ≡ boxed_node node) }
{
    match (op, place) {
        (Operator::In, 1) => with_index(alloc, node),
        _ => Ok(node),
    }
}

fn with_index(alloc: Global, node: BoxedNode) -> Result<BoxedNode, AllocError>
    ensures { IfOk result (λ made. boxed_node made ≡ boxed_node node) }
{
    match node {
        BoxedNode::Constant(literal) => Ok(BoxedNode::Constant(literal.searched(alloc)?)),
        other => Ok(other),
    }
}
