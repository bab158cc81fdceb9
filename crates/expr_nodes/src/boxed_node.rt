//! Nodes that own their arguments.

ghost use Rattle.std.specs.Prelude.{◌≡◌, ◌<◌, length, map, IfSome, Ok, Some};
ghost use Rattle.std.specs.List.{slice_get};
ghost use Rattle.prop_values.specs.Data.{items_of, list};
ghost use Rattle.expr_nodes.specs.Node.{children, constant};
ghost use Rattle.expr_nodes.specs.NodeForms.{IsForm};
ghost use Rattle.expr_nodes.specs.Boxed.{boxed_node};

use crate::access::{Bindings, NodeForm, NodeHandle};
use crate::literal::Literal;
use decimal_json::Text;
use expr_syntax::Operator;
use item_index::IndexedList;
use prop_values::{EvalFault, Want};

/// A node with its arguments.
#[derive(Drop)]
pub enum BoxedNode {
    /// A literal that is fitted already.
    Constant(Literal),
    /// A literal that cannot be fitted.
    Faulty(EvalFault),
    /// The binding of a number, and what it is wanted as.
    Asked(usize, Want),
    /// The feature's property of a key, and what it is wanted as.
    Property(Text, Want),
    /// What an operator is wanted as, the operator, and its arguments: in this order a node takes 64 bytes.
    Inner(Want, Operator, Vec<BoxedNode>),
}

impl NodeHandle for &BoxedNode {
    ghost use Rattle.expr_nodes.specs.Boxed.{boxed_node};

    ghost node = { λ s. boxed_node s.now };

    fn form(&self) -> NodeForm<'_> {
        form_of(self)
    }

    fn indexed(&self) -> Option<&IndexedList> {
        indexed_in(self)
    }

    fn count(&self) -> usize {
        arguments_of(self).len()
    }

    fn child(&self, place: usize) -> Self {
        node_at(arguments_of(self), place)
    }
}

fn form_of(node: &BoxedNode) -> NodeForm<'_>
    ensures { IsForm result (boxed_node node.now) }
{
    match node {
        BoxedNode::Constant(literal) => NodeForm::Constant(literal.value()),
        BoxedNode::Faulty(fault) => NodeForm::Faulty(*fault),
        BoxedNode::Asked(slot, want) => NodeForm::Asked(*slot, *want),
        BoxedNode::Property(key, want) => NodeForm::Property(key, *want),
        BoxedNode::Inner(want, op, _) => NodeForm::Inner(op, *want),
    }
}

fn indexed_in(node: &BoxedNode) -> Option<&IndexedList>
    ensures { IfSome result (λ items. boxed_node node.now ≡ constant (Ok (list (items_of items.now)))) }
{
    match node {
        BoxedNode::Constant(literal) => literal.indexed(),
        _ => None,
    }
}

fn arguments_of(node: &BoxedNode) -> &[BoxedNode]
    ensures { children (boxed_node node.now) ≡ map boxed_node result.now }
{
    match node {
        BoxedNode::Inner(_, _, arguments) => arguments.as_slice(),
        _ => &[],
    }
}

fn node_at(nodes: &[BoxedNode], place: usize) -> &BoxedNode
    requires { place < length nodes.now }
    ensures { slice_get (map boxed_node nodes.now) place ≡ Some (boxed_node result.now) }
{
    &nodes[place]
}

/// The bindings of an expression, in order.
#[derive(Clone, Copy)]
pub struct BoxedBindings<'a> {
    pub nodes: &'a [BoxedNode],
    /// What [`are_chained`] says of them.
    pub chained: bool,
}

impl<'a> Bindings<&'a BoxedNode> for BoxedBindings<'a> {
    ghost use Rattle.std.specs.Prelude.{map};
    ghost use Rattle.expr_nodes.specs.Boxed.{boxed_node};

    ghost listed = { λ s. map boxed_node s.nodes.now };

    fn count(&self) -> usize {
        self.nodes.len()
    }

    fn binding(&self, slot: usize) -> &'a BoxedNode {
        node_at(self.nodes, slot)
    }

    fn are_chained(&self) -> bool {
        self.chained
    }
}

/// So many bindings that ask for others may be open inside one another with the one that asks for none, where each is
/// evaluated when it is first asked for. With no bound a hostile expression would overflow the stack.
const FEW: usize = 3;

/// Whether more bindings ask for others than may be open inside one another. Takes time linear in their nodes.
pub(crate) fn are_chained(bindings: &[BoxedNode]) -> bool {
    let mut asking: usize = 0;
    for binding in bindings {
        if asks(binding) {
            asking = asking.saturating_add(1);
        }
    }
    asking > FEW
}

// Whether a node asks for a binding.
#[cycle(asking)]
fn asks(node: &BoxedNode) -> bool {
    match node {
        BoxedNode::Asked(_, _) => true,
        BoxedNode::Inner(_, _, arguments) => ask(arguments.as_slice()),
        _ => false,
    }
}

#[cycle(asking)]
fn ask(nodes: &[BoxedNode]) -> bool {
    for node in nodes {
        if asks(node) {
            return true;
        }
    }
    false
}
