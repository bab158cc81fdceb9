//! The value of a node. A binding is evaluated when it is first asked for, and never again, unless many ask for others.

ghost use Rattle.std.specs.Prelude.{◌≡◌, ◌<◌, ◌≤◌, ◌+◌, [], length, false, IfOk};
ghost use Rattle.eval_face.specs.Meaning.{node_meaning};
ghost use Rattle.eval_face.specs.Rules.{rule_of};
ghost use Rattle.property_tables.specs.Fitting.{fit};
ghost use Rattle.operator_values.specs.Evaluated.{Evaluated, GivesValue, then_value};
ghost use Rattle.prop_values.specs.ViewParts.{evaluated_of};
ghost use Rattle.expr_nodes.specs.Node.{children, size, total_size};
ghost use Rattle.expr_nodes.specs.Outcome.{outcome, promises};
ghost use Rattle.expr_nodes.specs.Limits.{AsksBelow, EachAsksBelow, AskEarlier, has_names};
ghost use Rattle.expr_nodes.specs.EvaluatesNode.{IsReady, EvaluatesNode, known_arguments, outcome_at};

use crate::access::{Bindings, NodeForm, NodeHandle};
use crate::borrowed::{constant_in, number_there};
use crate::leaves::property_value;
use crate::workspace::Workspace;
use expr_syntax::Operator;
use operator_rules::{OperatorRule, WorldView, fitted, fitted_copy, rule_of};
use operator_values::Halt;
use outside_io::Steps;
use prop_values::{EvalFault, Value, Want};
use std::alloc::AllocError;
use std::sync::ledger::Ledger;

/// What a node is evaluated in: the bindings, the world, and the number below which bindings are asked for.
#[derive(Drop)]
pub(crate) struct Surroundings<'x, B, W> {
    pub(crate) bindings: &'x B,
    pub(crate) world: &'x W,
    pub(crate) limit: usize,
}

/// The value of a node, with its bindings, in a world. At least one step is counted, and at most as many as
/// all of them have nodes: a binding is evaluated at most once, and only where it is asked for, unless more than three
/// ask for others. What the workspace holds before does not matter.
pub fn evaluate<N: NodeHandle, B: Bindings<N>, W: WorldView, L: Ledger>(
    workspace: &mut Workspace,
    tree: N,
    bindings: &B,
    world: &W,
    steps: &mut Steps<L>,
) -> Result<Value, Halt>
    requires below { AsksBelow (length (B.listed bindings.now)) (N.node tree) }
    requires earlier { AskEarlier (B.listed bindings.now) }
    ensures meaning { GivesValue result
        (outcome (N.node tree) (promises (B.listed bindings.now) (W.world world.now)) (W.world world.now)) }
    ensures least { steps.old < steps.new }
    ensures most { steps.new ≤ steps.old + size (N.node tree) + total_size (B.listed bindings.now) }
{
    if bindings.are_chained() {
        return workspace.evaluate_in_turn(tree, bindings, world, steps);
    }
    let limit = bindings.count();
    let Ok(()) = workspace.begin(limit) else {
        steps.tick();
        return Err(Halt::NoMemory);
    };
    let around = Surroundings {
        bindings: &*bindings,
        world: &*world,
        limit,
    };
    workspace.evaluate_node(tree, &around, steps)
}

/// What an evaluation gave, a value or a fault, unless an allocation failed.
pub fn value_or_fault(
    evaluated: Result<Value, Halt>,
) -> Result<Result<Value, EvalFault>, AllocError>
    ensures { IfOk result (λ given. (meant : Evaluated) → GivesValue evaluated meant → meant ≡ evaluated_of given) }
{
    match evaluated {
        Ok(value) => Ok(Ok(value)),
        Err(Halt::Fault(fault)) => Ok(Err(fault)),
        Err(Halt::NoMemory) => Err(AllocError),
    }
}

impl Workspace {
    /// The value of a node. Its step is counted.
    #[tactic(auto, using(crate::proofs::NodeLaws::below_at, crate::proofs::NodeLaws::child_size))]
    #[cycle(nodes)]
    pub(crate) fn evaluate_node<N: NodeHandle, B: Bindings<N>, W: WorldView, L: Ledger>(
        &mut self,
        tree: N,
        around: &Surroundings<'_, B, W>,
        steps: &mut Steps<L>,
    ) -> Result<Value, Halt>
        requires below { AsksBelow around.now.limit (N.node tree) }
        requires ready { IsReady around.now.limit (B.listed around.now.bindings.now)
            (W.world around.now.world.now) self.old }
        ensures least { steps.old < steps.new }
        ensures all { EvaluatesNode around.now.limit (B.listed around.now.bindings.now)
            (W.world around.now.world.now) result
            (outcome (N.node tree)
            (promises (B.listed around.now.bindings.now) (W.world around.now.world.now))
            (W.world around.now.world.now))
            (size (N.node tree)) self.old self.new steps.old steps.new }
    {
        steps.tick();
        match tree.form() {
            NodeForm::Constant(value) => fitted_copy(self.alloc, value, &Want::Any),
            NodeForm::Given(value, want) => fitted_copy(self.alloc, value, &want),
            NodeForm::Faulty(fault) => Err(Halt::Fault(fault)),
            NodeForm::Asked(slot, want) => self.evaluate_asked::<N, B, W, L>(
                slot, &want, around, steps,
            ),
            NodeForm::Property(key, want) => property_value(
                self.alloc,
                around.world.properties(),
                key,
                &want,
            ),
            NodeForm::Inner(op, want) => match number_there(&tree, op, &want, around.world) {
                Some(number) => Ok(Value::Num(number)),
                None => self.evaluate_inner(tree, op, &want, around, steps),
            },
        }
    }

    // What a binding gives, fitted. What it gave when it was first asked for is kept; a constant needs neither an
    // evaluation nor a copy that is kept.
    #[tactic(auto, using(crate::proofs::NodeLaws::below_at, crate::proofs::NodeLaws::child_size))]
    #[cycle(nodes)]
    fn evaluate_asked<N: NodeHandle, B: Bindings<N>, W: WorldView, L: Ledger>(
        &mut self,
        slot: usize,
        want: &Want,
        around: &Surroundings<'_, B, W>,
        steps: &mut Steps<L>,
    ) -> Result<Value, Halt>
        requires below { slot < around.now.limit }
        requires ready { IsReady around.now.limit (B.listed around.now.bindings.now)
            (W.world around.now.world.now) self.old }
        ensures { EvaluatesNode around.now.limit (B.listed around.now.bindings.now)
            (W.world around.now.world.now) result
            (then_value (outcome_at
            (promises (B.listed around.now.bindings.now) (W.world around.now.world.now)) slot) (fit want.now))
            0 self.old self.new steps.old steps.new }
    {
        if let Some(value) = self.kept(slot) {
            return fitted_copy(self.alloc, value, want);
        }
        let binding = around.bindings.binding(slot);
        if let Some(value) = constant_in(&binding) {
            return fitted_copy(self.alloc, value, want);
        }
        let inner = Surroundings {
            bindings: &*around.bindings,
            world: &*around.world,
            limit: slot,
        };
        let value = self.evaluate_node(binding, &inner, steps)?;
        self.keep(slot, &value)?;
        fitted(self.alloc, value, want)
    }

    // A node by the rule of its operator.
    #[tactic(auto, using(crate::proofs::NodeLaws::below_at, crate::proofs::NodeLaws::child_size))]
    #[cycle(nodes)]
    fn evaluate_inner<N: NodeHandle, B: Bindings<N>, W: WorldView, L: Ledger>(
        &mut self,
        tree: N,
        op: &Operator,
        want: &Want,
        around: &Surroundings<'_, B, W>,
        steps: &mut Steps<L>,
    ) -> Result<Value, Halt>
        requires nameless { has_names (rule_of op.now) ≡ false }
        requires below { EachAsksBelow around.now.limit (children (N.node tree)) }
        requires ready { IsReady around.now.limit (B.listed around.now.bindings.now)
            (W.world around.now.world.now) self.old }
        ensures { EvaluatesNode around.now.limit (B.listed around.now.bindings.now)
            (W.world around.now.world.now) result
            (node_meaning op.now
            (known_arguments (N.node tree) (B.listed around.now.bindings.now) (W.world around.now.world.now))
            want.now [] (W.world around.now.world.now))
            (total_size (children (N.node tree))) self.old self.new steps.old steps.new }
    {
        match rule_of(op) {
            OperatorRule::Each => self.evaluate_each(tree, op, want, around, steps),
            OperatorRule::Deciding => self.evaluate_deciding(tree, op, want, around, steps),
            OperatorRule::Cases => self.evaluate_case(tree, around, steps),
            OperatorRule::Labels(labels) => self.evaluate_match(tree, labels, around, steps),
            OperatorRule::Stops(inputs) => self.evaluate_step(tree, inputs, around, steps),
            OperatorRule::Ramp(ramp) => self.evaluate_ramp(tree, ramp, want, around, steps),
            OperatorRule::Bindings(_) | OperatorRule::Variable(_) => unreachable!(),
        }
    }
}
