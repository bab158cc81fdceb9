//! The block of one expression, as the evaluator reads it.

ghost use Rattle.std.specs.Prelude.{◌≡◌, ◌+◌, ◌-◌, ◌<◌, ◌≤◌, length, take, true, Some};
ghost use Rattle.std.specs.List.{slice_get};
ghost use Rattle.operator_values.specs.Evaluated.{GivesValue};
ghost use Rattle.expr_nodes.specs.Evaluators.{sized_node};
ghost use Rattle.node_pool.specs.Pooled.{are_ordered};
ghost use Rattle.node_pool.specs.Blocks.{IsHeld, block_of, bound_at, length_of};

use crate::pooled_expression::PooledExpression;
use crate::pooled_node::{PooledNode, argument_range, form_of, indexed_in};
use expr_nodes::{Bindings, NodeForm, NodeHandle, Workspace, evaluate};
use item_index::IndexedList;
use operator_rules::WorldView;
use operator_values::Halt;
use outside_io::Steps;
use prop_values::Value;
use std::sync::ledger::Ledger;

/// The last of some nodes, the numbers of whose arguments are those of the nodes before it.
#[derive(Clone, Copy)]
pub(crate) struct PoolNode<'a> {
    nodes: &'a [PooledNode],
    ghost ordered: { are_ordered 0 nodes.now ≡ true },
    ghost some: { 0 < length nodes.now },
}

impl<'a> NodeHandle for PoolNode<'a> {
    ghost use Rattle.node_pool.specs.Pooled.{last_node};

    ghost node = { λ s. last_node s.nodes.now };

    fn form(&self) -> NodeForm<'_> {
        form_of(last_of(self.nodes))
    }

    fn indexed(&self) -> Option<&IndexedList> {
        indexed_in(last_of(self.nodes))
    }

    fn count(&self) -> usize {
        argument_range(last_of(self.nodes)).1
    }

    fn child(&self, place: usize) -> Self {
        let first = argument_range(last_of(self.nodes)).0;
        PoolNode {
            nodes: up_to(self.nodes, first + place),
        }
    }
}

/// The bindings of an expression: so many of its nodes, from that of a number on.
#[derive(Clone, Copy)]
pub(crate) struct PoolBindings<'a> {
    nodes: &'a [PooledNode],
    first: usize,
    count: usize,
    chained: bool,
    ghost ordered: { are_ordered 0 nodes.now ≡ true },
    ghost within: { first + count ≤ length nodes.now },
}

impl<'a> Bindings<PoolNode<'a>> for PoolBindings<'a> {
    ghost use Rattle.node_pool.specs.Pooled.{nodes_from, pooled_nodes};

    ghost listed = { λ s. nodes_from (pooled_nodes s.nodes.now) s.first s.count };

    fn count(&self) -> usize {
        self.count
    }

    fn binding(&self, slot: usize) -> PoolNode<'a> {
        PoolNode {
            nodes: up_to(self.nodes, self.first + slot),
        }
    }

    fn are_chained(&self) -> bool {
        self.chained
    }
}

/// The value of an expression whose block is among these nodes, in a world, or its first fault.
pub(crate) fn evaluated<W: WorldView, L: Ledger>(
    nodes: &[PooledNode],
    expression: &PooledExpression,
    workspace: &mut Workspace,
    world: &W,
    steps: &mut Steps<L>,
) -> Result<Value, Halt>
    requires { IsHeld nodes.now expression.now }
    ensures meaning { GivesValue result ((sized_node (bound_at nodes.now expression.now)).0 (W.world world.now)) }
    ensures least { steps.old < steps.new }
    ensures most { steps.new ≤ steps.old + (sized_node (bound_at nodes.now expression.now)).1 }
{
    let block = block_of(nodes, expression);
    let bindings = PoolBindings {
        nodes: block,
        first: expression.first,
        count: expression.bindings,
        chained: expression.chained,
    };
    evaluate(
        workspace,
        PoolNode { nodes: block },
        &bindings,
        world,
        steps,
    )
}

fn block_of<'a>(nodes: &'a [PooledNode], expression: &PooledExpression) -> &'a [PooledNode]
    requires { expression.now.start + length_of expression.now ≤ length nodes.now }
    ensures { result.now ≡ block_of nodes.now expression.now }
{
    let length = expression.length();
    let rest = &nodes[expression.start..];
    &rest[..length]
}

fn last_of(nodes: &[PooledNode]) -> &PooledNode
    requires { 0 < length nodes.now }
    ensures { slice_get nodes.now (length nodes.now - 1) ≡ Some result.now }
{
    let number = nodes.len() - 1;
    &nodes[number]
}

// The node of a number, and those before it.
fn up_to(nodes: &[PooledNode], number: usize) -> &[PooledNode]
    requires { number < length nodes.now }
    ensures { result.now ≡ take (number + 1) nodes.now }
{
    &nodes[..number + 1]
}
