//! What evaluates expressions and counts the nodes that it visits.

ghost use Rattle.std.specs.Prelude.{◌≡◌, ◌+◌, ◌<◌, ◌≤◌, List, length};
ghost use Rattle.expr_nodes.specs.Evaluators.{Sized, GivesAt, nodes_at};

use crate::workspace::Workspace;
use operator_rules::WorldView;
use operator_values::Halt;
use outside_io::Steps;
use prop_values::Value;
use std::sync::ledger::Ledger;

/// Expressions by their numbers, each under a want of its own, wherever their nodes are kept.
pub trait CountedEvaluator {
    /// What each expression gives in each world, and how many nodes it has, by their numbers.
    ghost slots: { Self → List Sized };

    /// The value of an expression in a world, or its first fault. At least one step is counted, and at most as
    /// many as the expression has nodes. Any workspace serves, and keeps its room for the next evaluation.
    fn evaluated<W: WorldView, L: Ledger>(
        &self,
        workspace: &mut Workspace,
        slot: u32,
        world: &W,
        steps: &mut Steps<L>,
    ) -> Result<Value, Halt>
        requires { slot < length (slots self.now) }
        ensures meaning { GivesAt result (slots self.now) slot (W.world world.now) }
        ensures least { steps.old < steps.new }
        ensures most { steps.new ≤ steps.old + nodes_at (slots self.now) slot };
}
