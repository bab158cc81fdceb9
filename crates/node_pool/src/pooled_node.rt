//! A node of a pool, as it is kept.

ghost use Rattle.std.specs.Prelude.{◌≡◌, List, IfSome, Ok};
ghost use Rattle.prop_values.specs.Data.{items_of, list};
ghost use Rattle.expr_nodes.specs.Node.{Node, constant};
ghost use Rattle.expr_nodes.specs.NodeForms.{IsForm};
ghost use Rattle.node_pool.specs.Pooled.{argument_range, node_by};

use decimal_json::Text;
use expr_nodes::{Literal, NodeForm};
use expr_syntax::Operator;
use item_index::IndexedList;
use prop_values::{EvalFault, Want};

/// A node, whose arguments are a range of numbers in its block.
#[derive(Drop)]
pub(crate) enum PooledNode {
    /// A literal that is fitted already.
    Constant(Literal),
    /// A literal that cannot be fitted.
    Faulty(EvalFault),
    /// The binding of a number, and what it is wanted as.
    Asked(usize, Want),
    /// The feature's property of a key, and what it is wanted as.
    Property(Text, Want),
    /// An operator, what it is wanted as, the number of its first argument, and how many there are.
    Inner(Operator, Want, usize, usize),
}

/// A node as the evaluator reads it.
pub(crate) fn form_of(node: &PooledNode) -> NodeForm<'_>
    ensures { (ns : List Node) → IsForm result (node_by node.now ns) }
{
    match node {
        PooledNode::Constant(literal) => NodeForm::Constant(literal.value()),
        PooledNode::Faulty(fault) => NodeForm::Faulty(*fault),
        PooledNode::Asked(slot, want) => NodeForm::Asked(*slot, *want),
        PooledNode::Property(key, want) => NodeForm::Property(key, *want),
        PooledNode::Inner(op, want, _, _) => NodeForm::Inner(op, *want),
    }
}

/// The literal list that a node is, where it is kept to be searched.
pub(crate) fn indexed_in(node: &PooledNode) -> Option<&IndexedList>
    ensures { IfSome result (λ items. (ns : List Node) →
        node_by node.now ns ≡ constant (Ok (list (items_of items.now)))) }
{
    match node {
        PooledNode::Constant(literal) => literal.indexed(),
        _ => None,
    }
}

/// The number of the first argument, and how many there are.
pub(crate) fn argument_range(node: &PooledNode) -> (usize, usize)
    ensures { result ≡ argument_range node.now }
{
    match node {
        PooledNode::Inner(_, _, first, count) => (*first, *count),
        _ => (0, 0),
    }
}
