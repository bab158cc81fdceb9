//! Nodes whose bindings were evaluated before.

ghost use Rattle.std.specs.Prelude.{◌≡◌, ◌<◌, length, map, Some};
ghost use Rattle.std.specs.List.{slice_get};
ghost use Rattle.prop_values.specs.ViewParts.{evaluated_of};
ghost use Rattle.expr_nodes.specs.Filled.{given_or_asked};
ghost use Rattle.expr_nodes.specs.NodeForms.{IsForm};

use crate::access::{Bindings, NodeForm, NodeHandle};
use item_index::IndexedList;
use prop_values::{EvalFault, Value, Want};

/// A node, with what bindings gave in the place of where it asks for them: that of the first, and so on.
#[derive(Clone, Copy)]
pub(crate) struct GivenNode<'a, N> {
    pub(crate) node: N,
    pub(crate) given: &'a [Result<Value, EvalFault>],
}

impl<'a, N: NodeHandle> NodeHandle for GivenNode<'a, N> {
    ghost use Rattle.std.specs.Prelude.{map};
    ghost use Rattle.prop_values.specs.ViewParts.{evaluated_of};
    ghost use Rattle.expr_nodes.specs.Filled.{filled};

    ghost node = { λ s. filled (map evaluated_of s.given.now) (N.node s.node) };

    fn form(&self) -> NodeForm<'_> {
        match self.node.form() {
            NodeForm::Asked(slot, want) => form_at(self.given, slot, want),
            other => other,
        }
    }

    fn indexed(&self) -> Option<&IndexedList> {
        self.node.indexed()
    }

    fn count(&self) -> usize {
        self.node.count()
    }

    fn child(&self, place: usize) -> Self {
        GivenNode {
            node: self.node.child(place),
            given: self.given,
        }
    }
}

// What the binding of a number gave, where it was evaluated.
fn form_at(given: &[Result<Value, EvalFault>], slot: usize, want: Want) -> NodeForm<'_>
    ensures { IsForm result (given_or_asked (slice_get (map evaluated_of given.now) slot) slot want) }
{
    if slot >= given.len() {
        return NodeForm::Asked(slot, want);
    }
    match &given[slot] {
        Ok(value) => NodeForm::Given(value, want),
        Err(fault) => NodeForm::Faulty(*fault),
    }
}

/// Bindings that are listed.
#[derive(Clone, Copy)]
pub(crate) struct ListedBindings<'a, N> {
    pub(crate) nodes: &'a [N],
}

impl<'a, N: NodeHandle> Bindings<N> for ListedBindings<'a, N> {
    ghost use Rattle.std.specs.Prelude.{map};

    ghost listed = { λ s. map N.node s.nodes.now };

    fn count(&self) -> usize {
        self.nodes.len()
    }

    fn binding(&self, slot: usize) -> N {
        node_at(self.nodes, slot)
    }

    fn are_chained(&self) -> bool {
        false
    }
}

fn node_at<N: NodeHandle>(nodes: &[N], place: usize) -> N
    requires { place < length nodes.now }
    ensures { slice_get (map N.node nodes.now) place ≡ Some (N.node result) }
{
    nodes[place]
}
