//! The nodes by which an expression is evaluated.

ghost use Rattle.std.specs.Prelude.{◌≡◌, ◌+◌, ◌<◌, ◌≤◌, map};
ghost use Rattle.operator_values.specs.Evaluated.{GivesValue};
ghost use Rattle.expr_nodes.specs.Boxed.{boxed_node};
ghost use Rattle.expr_nodes.specs.Evaluators.{IsEvaluable, sized_node};

use crate::boxed_node::{BoxedBindings, BoxedNode, are_chained};
use crate::evaluation::evaluate;
use crate::workspace::Workspace;
use operator_rules::WorldView;
use operator_values::Halt;
use outside_io::Steps;
use prop_values::Value;
use std::marker::Model;
use std::sync::ledger::Ledger;

/// The node of an expression under a want, its bindings, and how many nodes the expression has, literals
/// counted. The expression itself is not kept: its operators are those of the nodes.
#[derive(Drop)]
pub struct BoxedExpression {
    root: BoxedNode,
    bindings: Vec<BoxedNode>,
    nodes: u64,
    chained: bool,
}

impl Model for BoxedExpression {
    ghost use Rattle.expr_nodes.specs.NodeCode.{BoundNode, bound_node_code};

    ghost Value = { BoundNode };

    ghost coded = { bound_node_code };

    ghost use Rattle.std.specs.Prelude.{map};
    ghost use Rattle.expr_nodes.specs.Boxed.{boxed_node};
    ghost use Rattle.expr_nodes.specs.Evaluators.{IsEvaluable};

    ghost view = { λ a. (boxed_node a.root, map boxed_node a.bindings.items, a.nodes) };

    ghost invariant = { λ a. IsEvaluable (boxed_node a.root, map boxed_node a.bindings.items, a.nodes) };
}

impl BoxedExpression {
    /// A node with its bindings, of an expression of so many nodes.
    pub fn new(root: BoxedNode, bindings: Vec<BoxedNode>, nodes: u64) -> BoxedExpression
        requires { IsEvaluable (boxed_node root, map boxed_node bindings.items, nodes) }
        ensures { result ≡ (boxed_node root, map boxed_node bindings.items, nodes) }
    {
        let chained = are_chained(bindings.as_slice());
        BoxedExpression {
            root,
            bindings,
            nodes,
            chained,
        }
    }

    /// The node, its bindings, and how many nodes the expression has.
    pub fn into_parts(self) -> (BoxedNode, Vec<BoxedNode>, u64)
        ensures parts { (boxed_node result.0, map boxed_node result.1.items, result.2) ≡ self }
        ensures evaluable { IsEvaluable (boxed_node result.0, map boxed_node result.1.items, result.2) }
    {
        (self.root, self.bindings, self.nodes)
    }

    /// Whether its bindings are evaluated in turn: more than three of them ask for others.
    pub fn is_chained(&self) -> bool {
        self.chained
    }

    /// The value in a world, or the first fault.
    pub fn evaluated<W: WorldView, L: Ledger>(
        &self,
        workspace: &mut Workspace,
        world: &W,
        steps: &mut Steps<L>,
    ) -> Result<Value, Halt>
        ensures meaning { GivesValue result ((sized_node self.now).0 (W.world world.now)) }
        ensures least { steps.old < steps.new }
        ensures most { steps.new ≤ steps.old + (sized_node self.now).1 }
    {
        let bindings = BoxedBindings {
            nodes: self.bindings.as_slice(),
            chained: self.chained,
        };
        evaluate(workspace, &self.root, &bindings, world, steps)
    }

    /// How many nodes the expression has, literals counted.
    pub fn nodes(&self) -> u64
        ensures { result ≡ (sized_node self.now).1 }
    {
        self.nodes
    }
}
