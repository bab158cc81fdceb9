//! What decides between outputs, and the output that it chooses.

ghost use Rattle.std.specs.Prelude.{◌≡◌, ◌+◌, [], drop};
ghost use Rattle.interpolate_fixed.specs.PlaceFacts.{IsAscending};
ghost use Rattle.interpolate_fixed.specs.Places.{place_of};
ghost use Rattle.prop_values.specs.declared.kinds.Want.TheVariants.{Any};
ghost use Rattle.eval_face.specs.Branches.{case_of, match_of, step_of, ramp_of, ramp_at};
ghost use Rattle.expr_nodes.specs.Node.{children, total_size};
ghost use Rattle.expr_nodes.specs.Limits.{EachAsksBelow};
ghost use Rattle.expr_nodes.specs.EvaluatesNode.{IsReady, EvaluatesNode};
ghost use Rattle.expr_nodes.specs.EvaluatesNode.{known_arguments, arguments_of, outcome_at, size_in};

use crate::access::{Bindings, NodeHandle};
use crate::borrowed::{between_there, constant_in, output_there};
use crate::evaluation::Surroundings;
use crate::leaves::moved_input;
use crate::workspace::Workspace;
use expr_syntax::{Labels, Ramp};
use fixed_num::Fixed;
use interpolate_fixed::{StopPlace, step_place, stop_place};
use operator_rules::{WorldView, between, condition, fitted, fitted_copy, number_of};
use operator_values::Halt;
use outside_io::Steps;
use prop_values::{EvalFault, Value, Want};
use std::sync::ledger::Ledger;

impl Workspace {
    /// `case`.
    #[tactic(auto, using(crate::proofs::NodeLaws::below_at, crate::proofs::NodeLaws::child_size))]
    #[cycle(nodes)]
    pub(crate) fn evaluate_case<N: NodeHandle, B: Bindings<N>, W: WorldView, L: Ledger>(
        &mut self,
        tree: N,
        around: &Surroundings<'_, B, W>,
        steps: &mut Steps<L>,
    ) -> Result<Value, Halt>
        requires below { EachAsksBelow around.now.limit (children (N.node tree)) }
        requires ready { IsReady around.now.limit (B.listed around.now.bindings.now)
            (W.world around.now.world.now) self.old }
        ensures { EvaluatesNode around.now.limit (B.listed around.now.bindings.now)
            (W.world around.now.world.now) result
            (case_of
            (known_arguments (N.node tree) (B.listed around.now.bindings.now) (W.world around.now.world.now))
            Any [] (W.world around.now.world.now))
            (total_size (children (N.node tree))) self.old self.new steps.old steps.new }
    {
        let mut place = 0;
        let mut left = tree.count();
        while left >= 2 {
            if condition(self.evaluate_node(tree.child(place), around, steps)?)? {
                return self.evaluate_node(tree.child(place + 1), around, steps);
            }
            place += 2;
            left -= 2;
        }
        if left == 1 {
            self.evaluate_node(tree.child(place), around, steps)
        } else {
            Err(Halt::Fault(EvalFault::WrongType))
        }
    }

    /// `match`.
    #[tactic(auto, using(crate::proofs::NodeLaws::below_at, crate::proofs::NodeLaws::child_size))]
    #[cycle(nodes)]
    pub(crate) fn evaluate_match<N: NodeHandle, B: Bindings<N>, W: WorldView, L: Ledger>(
        &mut self,
        tree: N,
        labels: &Labels,
        around: &Surroundings<'_, B, W>,
        steps: &mut Steps<L>,
    ) -> Result<Value, Halt>
        requires below { EachAsksBelow around.now.limit (children (N.node tree)) }
        requires ready { IsReady around.now.limit (B.listed around.now.bindings.now)
            (W.world around.now.world.now) self.old }
        ensures { EvaluatesNode around.now.limit (B.listed around.now.bindings.now)
            (W.world around.now.world.now) result
            (match_of labels.now
            (known_arguments (N.node tree) (B.listed around.now.bindings.now) (W.world around.now.world.now))
            Any [] (W.world around.now.world.now))
            (total_size (children (N.node tree))) self.old self.new steps.old steps.new }
    {
        let count = tree.count();
        if count == 0 {
            return Err(Halt::Fault(EvalFault::WrongType));
        }
        if let Some(place) = output_there(&tree, labels, around.world) {
            steps.tick();
            return self.evaluate_output(tree, place, around, steps);
        }
        let value = self.evaluate_node(tree.child(0), around, steps)?;
        let place = labels.output_of(&value, (count - 1).saturating_sub(1));
        self.evaluate_output(tree, place, around, steps)
    }

    /// `step`.
    #[tactic(auto, using(crate::proofs::NodeLaws::below_at, crate::proofs::NodeLaws::child_size))]
    #[cycle(nodes)]
    pub(crate) fn evaluate_step<N: NodeHandle, B: Bindings<N>, W: WorldView, L: Ledger>(
        &mut self,
        tree: N,
        inputs: &[Fixed],
        around: &Surroundings<'_, B, W>,
        steps: &mut Steps<L>,
    ) -> Result<Value, Halt>
        requires ascending { IsAscending inputs.now }
        requires below { EachAsksBelow around.now.limit (children (N.node tree)) }
        requires ready { IsReady around.now.limit (B.listed around.now.bindings.now)
            (W.world around.now.world.now) self.old }
        ensures { EvaluatesNode around.now.limit (B.listed around.now.bindings.now)
            (W.world around.now.world.now) result
            (step_of inputs.now
            (known_arguments (N.node tree) (B.listed around.now.bindings.now) (W.world around.now.world.now))
            Any [] (W.world around.now.world.now))
            (total_size (children (N.node tree))) self.old self.new steps.old steps.new }
    {
        if tree.count() == 0 {
            return Err(Halt::Fault(EvalFault::WrongType));
        }
        let value = number_of(self.evaluate_node(tree.child(0), around, steps)?)?;
        self.evaluate_output(tree, step_place(inputs, value), around, steps)
    }

    /// `interpolate`.
    #[tactic(auto, using(crate::proofs::NodeLaws::below_at, crate::proofs::NodeLaws::child_size))]
    #[cycle(nodes)]
    pub(crate) fn evaluate_ramp<N: NodeHandle, B: Bindings<N>, W: WorldView, L: Ledger>(
        &mut self,
        tree: N,
        ramp: &Ramp,
        want: &Want,
        around: &Surroundings<'_, B, W>,
        steps: &mut Steps<L>,
    ) -> Result<Value, Halt>
        requires below { EachAsksBelow around.now.limit (children (N.node tree)) }
        requires ready { IsReady around.now.limit (B.listed around.now.bindings.now)
            (W.world around.now.world.now) self.old }
        ensures { EvaluatesNode around.now.limit (B.listed around.now.bindings.now)
            (W.world around.now.world.now) result
            (ramp_of ramp.now.0 ramp.now.1
            (known_arguments (N.node tree) (B.listed around.now.bindings.now) (W.world around.now.world.now))
            want.now [] (W.world around.now.world.now))
            (total_size (children (N.node tree))) self.old self.new steps.old steps.new }
    {
        if tree.count() == 0 {
            return Err(Halt::Fault(EvalFault::WrongType));
        }
        let given = self.evaluate_node(tree.child(0), around, steps)?;
        let at = moved_input(ramp, given)?;
        let value = self.evaluate_stop(tree, ramp, at, around, steps)?;
        fitted(self.alloc, value, want)
    }

    // The output at an input, or what is between two outputs.
    #[tactic(auto, using(crate::proofs::NodeLaws::below_at, crate::proofs::NodeLaws::child_size))]
    #[cycle(nodes)]
    fn evaluate_stop<N: NodeHandle, B: Bindings<N>, W: WorldView, L: Ledger>(
        &mut self,
        tree: N,
        ramp: &Ramp,
        at: Fixed,
        around: &Surroundings<'_, B, W>,
        steps: &mut Steps<L>,
    ) -> Result<Value, Halt>
        requires below { EachAsksBelow around.now.limit (children (N.node tree)) }
        requires ready { IsReady around.now.limit (B.listed around.now.bindings.now)
            (W.world around.now.world.now) self.old }
        ensures { EvaluatesNode around.now.limit (B.listed around.now.bindings.now)
            (W.world around.now.world.now) result
            (ramp_at ramp.now.1 (drop 1
            (known_arguments (N.node tree) (B.listed around.now.bindings.now) (W.world around.now.world.now))
            ) at (place_of ramp.now.1 at) Any [] (W.world around.now.world.now))
            (total_size (drop 1 (children (N.node tree)))) self.old self.new steps.old steps.new }
    {
        let inputs = ramp.inputs();
        match stop_place(inputs, at) {
            StopPlace::First => self.evaluate_output(tree, 0, around, steps),
            StopPlace::Last => self.evaluate_output(tree, inputs.len() - 1, around, steps),
            StopPlace::Between(i) => {
                if let Some(value) = between_there(self.alloc, &tree, inputs, at, i) {
                    steps.tick();
                    steps.tick();
                    return value;
                }
                let lower = self.evaluate_output(tree, i, around, steps)?;
                let upper = self.evaluate_output(tree, i + 1, around, steps)?;
                between(self.alloc, inputs, at, i, &lower, &upper)
            }
        }
    }

    // The output of a number from 0. The first argument is none.
    #[tactic(auto, using(crate::proofs::NodeLaws::below_at, crate::proofs::NodeLaws::child_size))]
    #[cycle(nodes)]
    fn evaluate_output<N: NodeHandle, B: Bindings<N>, W: WorldView, L: Ledger>(
        &mut self,
        tree: N,
        place: usize,
        around: &Surroundings<'_, B, W>,
        steps: &mut Steps<L>,
    ) -> Result<Value, Halt>
        requires below { EachAsksBelow around.now.limit (children (N.node tree)) }
        requires ready { IsReady around.now.limit (B.listed around.now.bindings.now)
            (W.world around.now.world.now) self.old }
        ensures { EvaluatesNode around.now.limit (B.listed around.now.bindings.now)
            (W.world around.now.world.now) result
            (outcome_at
            (arguments_of (N.node tree) (B.listed around.now.bindings.now) (W.world around.now.world.now))
            (place + 1))
            (size_in (children (N.node tree)) (place + 1)) self.old self.new steps.old steps.new }
    {
        let outputs = tree.count().saturating_sub(1);
        if place < outputs {
            let output = tree.child(place + 1);
            if let Some(value) = constant_in(&output) {
                steps.tick();
                return fitted_copy(self.alloc, value, &Want::Any);
            }
            self.evaluate_node(output, around, steps)
        } else {
            Err(Halt::Fault(EvalFault::WrongType))
        }
    }
}
