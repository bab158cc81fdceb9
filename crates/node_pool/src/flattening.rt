//! The nodes of an expression are put side by side, each after its arguments.

ghost use Rattle.std.specs.Prelude.{◌≡◌, true, IfOk};
ghost use Rattle.expr_nodes.specs.Boxed.{boxed_node, boxed_nodes};
ghost use Rattle.node_pool.specs.Pooled.{are_ordered};
ghost use Rattle.node_pool.specs.Flattened.{IsFlattened, AreSideBySide, IsBlock};

use crate::pooled_node::PooledNode;
use expr_nodes::BoxedNode;
use std::alloc::{AllocError, Global};

/// The nodes of an expression, and the number of its first binding. The bindings come last, and then the root.
pub(crate) fn flattened(
    alloc: Global,
    root: BoxedNode,
    bindings: Vec<BoxedNode>,
) -> Result<(Vec<PooledNode>, usize), AllocError>
    ensures { IfOk result (λ made. IsBlock made.1 (boxed_node root) (boxed_nodes bindings.items) made.0.items) }
{
    let mut last = bindings;
    last.push(root)?;
    let mut nodes = Vec::new(alloc);
    let first = put_side_by_side(alloc, last, &mut nodes)?;
    Ok((nodes, first))
}

// Puts nodes side by side at the end of others, after their arguments. The number of the first is given.
#[cycle(flattening)]
fn put_side_by_side(
    alloc: Global,
    boxed: Vec<BoxedNode>,
    nodes: &mut Vec<PooledNode>,
) -> Result<usize, AllocError>
    requires { are_ordered 0 nodes.old.items ≡ true }
    ensures { IfOk result (λ first.
        AreSideBySide first (boxed_nodes boxed.items) nodes.old.items nodes.new.items) }
{
    let mut last = Vec::with_capacity(alloc, boxed.len())?;
    for node in boxed {
        last.push(flat_node(alloc, node, nodes)?)?;
    }
    let first = nodes.as_slice().len();
    nodes.append(&mut last)?;
    Ok(first)
}

// A node, whose arguments are put at the end of others.
#[cycle(flattening)]
fn flat_node(
    alloc: Global,
    node: BoxedNode,
    nodes: &mut Vec<PooledNode>,
) -> Result<PooledNode, AllocError>
    requires { are_ordered 0 nodes.old.items ≡ true }
    ensures { IfOk result (λ made. IsFlattened made (boxed_node node) nodes.old.items nodes.new.items) }
{
    match node {
        BoxedNode::Constant(literal) => Ok(PooledNode::Constant(literal)),
        BoxedNode::Faulty(fault) => Ok(PooledNode::Faulty(fault)),
        BoxedNode::Asked(slot, want) => Ok(PooledNode::Asked(slot, want)),
        BoxedNode::Property(key, want) => Ok(PooledNode::Property(key, want)),
        BoxedNode::Inner(want, op, arguments) => {
            let count = arguments.as_slice().len();
            let first = put_side_by_side(alloc, arguments, nodes)?;
            Ok(PooledNode::Inner(op, want, first, count))
        }
    }
}
