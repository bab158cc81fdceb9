//! Bindings of which many ask for others: they are evaluated in turn before the node that asks for them. No evaluation
//! of a binding is inside of that of another, however they ask for one another.

ghost use Rattle.std.specs.Prelude.{◌≡◌, ◌<◌, ◌≤◌, ◌+◌, [], length, map, IfOk};
ghost use Rattle.prop_values.specs.ViewParts.{evaluated_of};
ghost use Rattle.operator_values.specs.Evaluated.{GivesValue};
ghost use Rattle.expr_nodes.specs.Node.{size, total_size};
ghost use Rattle.expr_nodes.specs.Outcome.{outcome, promises};
ghost use Rattle.expr_nodes.specs.Limits.{AsksBelow, AskEarlier};

use crate::access::{Bindings, NodeHandle};
use crate::evaluation::{Surroundings, value_or_fault};
use crate::given::{GivenNode, ListedBindings};
use crate::workspace::{Workspace, empty};
use operator_rules::WorldView;
use operator_values::Halt;
use outside_io::Steps;
use prop_values::{EvalFault, Value};
use std::alloc::AllocError;
use std::mem;
use std::sync::ledger::Ledger;

impl Workspace {
    /// The value of a node, each of whose bindings is evaluated once before it, over those before. A fault of a binding
    /// is one of the node where it asks for it, and nowhere else.
    pub(crate) fn evaluate_in_turn<N: NodeHandle, B: Bindings<N>, W: WorldView, L: Ledger>(
        &mut self,
        tree: N,
        bindings: &B,
        world: &W,
        steps: &mut Steps<L>,
    ) -> Result<Value, Halt>
        requires below { AsksBelow (length (B.listed bindings.now)) (N.node tree) }
        requires earlier { AskEarlier (B.listed bindings.now) }
        ensures meaning { GivesValue result
            (outcome (N.node tree) (promises (B.listed bindings.now) (W.world world.now)) (W.world world.now)) }
        ensures least { steps.old < steps.new }
        ensures most { steps.new ≤ steps.old + size (N.node tree) + total_size (B.listed bindings.now) }
    {
        let mut given = mem::replace(&mut self.given, Vec::new(self.alloc));
        empty(&mut given);
        let result = self.evaluate_after::<N, B, W, L>(tree, bindings, world, &mut given, steps);
        empty(&mut given);
        self.given = given;
        result
    }

    // The same, where what bindings gave is put into a vector.
    fn evaluate_after<N: NodeHandle, B: Bindings<N>, W: WorldView, L: Ledger>(
        &mut self,
        tree: N,
        bindings: &B,
        world: &W,
        given: &mut Vec<Result<Value, EvalFault>>,
        steps: &mut Steps<L>,
    ) -> Result<Value, Halt>
        requires none { given.old.items ≡ [] }
        requires below { AsksBelow (length (B.listed bindings.now)) (N.node tree) }
        requires earlier { AskEarlier (B.listed bindings.now) }
        ensures meaning { GivesValue result
            (outcome (N.node tree) (promises (B.listed bindings.now) (W.world world.now)) (W.world world.now)) }
        ensures least { steps.old < steps.new }
        ensures most { steps.new ≤ steps.old + size (N.node tree) + total_size (B.listed bindings.now) }
    {
        let Ok(()) = self.evaluate_bindings::<N, B, W, L>(bindings, world, given, steps) else {
            steps.tick();
            return Err(Halt::NoMemory);
        };
        let known = given.as_slice();
        let root = GivenNode {
            node: tree,
            given: known,
        };
        self.evaluate_alone(root, world, steps)
    }

    // What each binding gives, a value or a fault.
    fn evaluate_bindings<N: NodeHandle, B: Bindings<N>, W: WorldView, L: Ledger>(
        &mut self,
        bindings: &B,
        world: &W,
        given: &mut Vec<Result<Value, EvalFault>>,
        steps: &mut Steps<L>,
    ) -> Result<(), AllocError>
        requires none { given.old.items ≡ [] }
        requires earlier { AskEarlier (B.listed bindings.now) }
        ensures given { IfOk result (λ _. map evaluated_of given.new.items
            ≡ promises (B.listed bindings.now) (W.world world.now)) }
        ensures least { steps.old ≤ steps.new }
        ensures most { steps.new ≤ steps.old + total_size (B.listed bindings.now) }
    {
        let count = bindings.count();
        given.reserve(count)?;
        for slot in 0..count {
            let binding = GivenNode {
                node: bindings.binding(slot),
                given: given.as_slice(),
            };
            let outcome = value_or_fault(self.evaluate_alone(binding, world, steps))?;
            given.push(outcome)?;
        }
        Ok(())
    }

    // The value of a node that asks for no binding.
    fn evaluate_alone<N: NodeHandle, W: WorldView, L: Ledger>(
        &mut self,
        tree: N,
        world: &W,
        steps: &mut Steps<L>,
    ) -> Result<Value, Halt>
        requires { AsksBelow 0 (N.node tree) }
        ensures meaning { GivesValue result (outcome (N.node tree) [] (W.world world.now)) }
        ensures least { steps.old < steps.new }
        ensures most { steps.new ≤ steps.old + size (N.node tree) }
    {
        self.clear();
        let none = ListedBindings { nodes: &[] };
        let around: Surroundings<'_, ListedBindings<'_, N>, W> = Surroundings {
            bindings: &none,
            world: &*world,
            limit: 0,
        };
        self.evaluate_node(tree, &around, steps)
    }
}
