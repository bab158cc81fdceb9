//! What decides between outputs, and the output that it chooses.

ghost use Rattle.std.specs.Prelude.{◌≡◌, ◌<◌, ◌+◌, length};
ghost use Rattle.interpolate_fixed.specs.Places.{place_of};
ghost use Rattle.interpolate_fixed.specs.PlaceFacts.{IsAscending};
ghost use Rattle.eval_face.specs.Branches.{case_of, match_of, step_of, ramp_of, ramp_at, output_at};
ghost use Rattle.expr_plain.specs.Terms.{meanings};
ghost use Rattle.expr_plain.specs.Frames.{IsEntered};
ghost use Rattle.expr_plain.specs.Evaluates.{Evaluates};

use crate::evaluation::Evaluation;
use crate::frames::Environment;
use expr_syntax::{Expr, Labels, Ramp, ramp_want};
use fixed_num::Fixed;
use interpolate_fixed::{StopPlace, step_place, stop_place};
use operator_rules::{WorldView, between, condition, fitted, number_of, warped};
use operator_values::Halt;
use prop_values::{EvalFault, Value, Want};

impl Evaluation {
    /// `case`.
    #[tactic(auto, using(expr_syntax::proofs::Falls::argument_weight))]
    #[cycle(evaluation)]
    pub(crate) fn evaluate_case<'x, W: WorldView>(
        &mut self,
        arguments: &'x [Expr],
        want: &Want,
        environment: &Environment<'x, W>,
    ) -> Result<Value, Halt>
        requires { IsEntered environment.now.frames (W.world environment.now.world.now) self.old }
        ensures { Evaluates result (case_of (meanings arguments.now)) want.now
            environment.now.frames (W.world environment.now.world.now) self.old self.new }
    {
        let mut rest = arguments;
        while let [test, chosen, others @ ..] = rest {
            if condition(self.evaluate(test, &Want::Boolean, environment)?)? {
                return self.evaluate(chosen, want, environment);
            }
            rest = others;
        }
        match rest {
            [last] => self.evaluate(last, want, environment),
            _ => Err(Halt::Fault(EvalFault::WrongType)),
        }
    }

    /// `match`.
    #[tactic(auto, using(expr_syntax::proofs::Falls::argument_weight))]
    #[cycle(evaluation)]
    pub(crate) fn evaluate_match<'x, W: WorldView>(
        &mut self,
        labels: &'x Labels,
        arguments: &'x [Expr],
        want: &Want,
        environment: &Environment<'x, W>,
    ) -> Result<Value, Halt>
        requires { IsEntered environment.now.frames (W.world environment.now.world.now) self.old }
        ensures { Evaluates result (match_of labels.now (meanings arguments.now)) want.now
            environment.now.frames (W.world environment.now.world.now) self.old self.new }
    {
        let [input, outputs @ ..] = arguments else {
            return Err(Halt::Fault(EvalFault::WrongType));
        };
        let value = self.evaluate(input, &Want::Any, environment)?;
        let place = labels.output_of(&value, outputs.len().saturating_sub(1));
        self.evaluate_output(outputs, place, want, environment)
    }

    /// `step`.
    #[tactic(auto, using(expr_syntax::proofs::Falls::argument_weight))]
    #[cycle(evaluation)]
    pub(crate) fn evaluate_step<'x, W: WorldView>(
        &mut self,
        inputs: &'x [Fixed],
        arguments: &'x [Expr],
        want: &Want,
        environment: &Environment<'x, W>,
    ) -> Result<Value, Halt>
        requires entered { IsEntered environment.now.frames (W.world environment.now.world.now) self.old }
        requires ascending { IsAscending inputs.now }
        ensures { Evaluates result (step_of inputs.now (meanings arguments.now)) want.now
            environment.now.frames (W.world environment.now.world.now) self.old self.new }
    {
        let [input, outputs @ ..] = arguments else {
            return Err(Halt::Fault(EvalFault::WrongType));
        };
        let value = number_of(self.evaluate(input, &Want::Number, environment)?)?;
        self.evaluate_output(outputs, step_place(inputs, value), want, environment)
    }

    /// `interpolate`.
    #[tactic(auto, using(expr_syntax::proofs::Falls::argument_weight))]
    #[cycle(evaluation)]
    pub(crate) fn evaluate_ramp<'x, W: WorldView>(
        &mut self,
        ramp: &'x Ramp,
        arguments: &'x [Expr],
        want: &Want,
        environment: &Environment<'x, W>,
    ) -> Result<Value, Halt>
        requires { IsEntered environment.now.frames (W.world environment.now.world.now) self.old }
        ensures { Evaluates result (ramp_of ramp.now.0 ramp.now.1 (meanings arguments.now)) want.now
            environment.now.frames (W.world environment.now.world.now) self.old self.new }
    {
        let [input, outputs @ ..] = arguments else {
            return Err(Halt::Fault(EvalFault::WrongType));
        };
        let given = number_of(self.evaluate(input, &Want::Number, environment)?)?;
        let at = warped(ramp, given)?;
        let value = self.evaluate_stop(ramp, at, outputs, &ramp_want(want), environment)?;
        fitted(self.alloc, value, want)
    }

    // The output at an input, or what is between two outputs.
    #[cycle(evaluation)]
    fn evaluate_stop<'x, W: WorldView>(
        &mut self,
        ramp: &'x Ramp,
        at: Fixed,
        outputs: &'x [Expr],
        want: &Want,
        environment: &Environment<'x, W>,
    ) -> Result<Value, Halt>
        requires { IsEntered environment.now.frames (W.world environment.now.world.now) self.old }
        ensures { Evaluates result
            (ramp_at ramp.now.1 (meanings outputs.now) at (place_of ramp.now.1 at)) want.now
            environment.now.frames (W.world environment.now.world.now) self.old self.new }
    {
        let inputs = ramp.inputs();
        match stop_place(inputs, at) {
            StopPlace::First => self.evaluate_output(outputs, 0, want, environment),
            StopPlace::Last => self.evaluate_output(outputs, inputs.len() - 1, want, environment),
            StopPlace::Between(i) => {
                let lower = self.evaluate_output(outputs, i, want, environment)?;
                let upper = self.evaluate_output(outputs, i + 1, want, environment)?;
                between(self.alloc, inputs, at, i, &lower, &upper)
            }
        }
    }

    // The output of a number from 0.
    #[tactic(auto, using(expr_syntax::proofs::Falls::argument_weight, crate::proofs::BranchLaws::output_here, crate::proofs::BranchLaws::output_none))]
    #[cycle(evaluation)]
    fn evaluate_output<'x, W: WorldView>(
        &mut self,
        outputs: &'x [Expr],
        place: usize,
        want: &Want,
        environment: &Environment<'x, W>,
    ) -> Result<Value, Halt>
        requires { IsEntered environment.now.frames (W.world environment.now.world.now) self.old }
        ensures { Evaluates result (output_at (meanings outputs.now) place) want.now
            environment.now.frames (W.world environment.now.world.now) self.old self.new }
    {
        if place < outputs.len() {
            self.evaluate(&outputs[place], want, environment)
        } else {
            Err(Halt::Fault(EvalFault::WrongType))
        }
    }
}
