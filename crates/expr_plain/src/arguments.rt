//! Operators that evaluate their arguments from left to right: each is fitted at once, and the first fault is the
//! answer.

ghost use Rattle.std.specs.Prelude.{◌<◌, length};
ghost use Rattle.eval_face.specs.Meanings.{values_of};
ghost use Rattle.expr_plain.specs.Terms.{meanings};
ghost use Rattle.operator_rules.specs.RuleParts.{argument_at, each_of, deciding_of};
ghost use Rattle.expr_plain.specs.Frames.{IsEntered};
ghost use Rattle.expr_plain.specs.Evaluates.{Evaluates, EvaluatesAll};

use crate::borrowed::borrowed_decision;
use crate::evaluation::Evaluation;
use crate::frames::Environment;
use expr_syntax::{Expr, Operator};
use operator_rules::{
    WorldView, as_sequence, decided, fitted, fitted_copy, is_sequence, node_value, undecided,
};
use operator_values::Halt;
use prop_values::{Value, Want};

impl Evaluation {
    /// A node whose operator evaluates all its arguments. The values of one and of two take no memory.
    #[cycle(evaluation)]
    pub(crate) fn evaluate_each<'x, W: WorldView>(
        &mut self,
        op: &'x Operator,
        arguments: &'x [Expr],
        want: &Want,
        environment: &Environment<'x, W>,
    ) -> Result<Value, Halt>
        requires { IsEntered environment.now.frames (W.world environment.now.world.now) self.old }
        ensures { Evaluates result (each_of op.now (meanings arguments.now)) want.now
            environment.now.frames (W.world environment.now.world.now) self.old self.new }
    {
        match arguments.len() {
            1 => {
                let value = self.evaluate_argument(op, arguments, 0, want, environment)?;
                node_value(self.alloc, op, &[value], want, environment.world)
            }
            2 => {
                let first = self.evaluate_argument(op, arguments, 0, want, environment)?;
                let second = self.evaluate_argument(op, arguments, 1, want, environment)?;
                node_value(self.alloc, op, &[first, second], want, environment.world)
            }
            _ => self.evaluate_many(op, arguments, want, environment),
        }
    }

    // The values of the arguments are at the end of the stack of values while the node is evaluated.
    #[cycle(evaluation)]
    fn evaluate_many<'x, W: WorldView>(
        &mut self,
        op: &'x Operator,
        arguments: &'x [Expr],
        want: &Want,
        environment: &Environment<'x, W>,
    ) -> Result<Value, Halt>
        requires { IsEntered environment.now.frames (W.world environment.now.world.now) self.old }
        ensures { Evaluates result (each_of op.now (meanings arguments.now)) want.now
            environment.now.frames (W.world environment.now.world.now) self.old self.new }
    {
        let base = self.values.as_slice().len();
        self.evaluate_values(op, arguments, want, environment)?;
        self.take_value(op, base, want, environment.world)
    }

    #[cycle(evaluation)]
    fn evaluate_values<'x, W: WorldView>(
        &mut self,
        op: &'x Operator,
        arguments: &'x [Expr],
        want: &Want,
        environment: &Environment<'x, W>,
    ) -> Result<(), Halt>
        requires { IsEntered environment.now.frames (W.world environment.now.world.now) self.old }
        ensures { EvaluatesAll result
            (values_of op.now (length (meanings arguments.now)) 0 (meanings arguments.now)) want.now
            environment.now.frames (W.world environment.now.world.now) self.old self.new }
    {
        for place in 0..arguments.len() {
            let value = self.evaluate_argument(op, arguments, place, want, environment)?;
            self.values.push(value)?;
        }
        Ok(())
    }

    // The argument of a place from 0.
    #[tactic(auto, using(expr_syntax::proofs::Falls::argument_weight))]
    #[cycle(evaluation)]
    fn evaluate_argument<'x, W: WorldView>(
        &mut self,
        op: &'x Operator,
        arguments: &'x [Expr],
        place: usize,
        want: &Want,
        environment: &Environment<'x, W>,
    ) -> Result<Value, Halt>
        requires entered { IsEntered environment.now.frames (W.world environment.now.world.now) self.old }
        requires within { place < length arguments.now }
        ensures { Evaluates result (argument_at op.now (meanings arguments.now) place) want.now
            environment.now.frames (W.world environment.now.world.now) self.old self.new }
    {
        let own = op.wanted(arguments.len(), place).under(want);
        if !is_sequence(op, place) {
            return self.evaluate(&arguments[place], &own, environment);
        }
        let value = self.evaluate(&arguments[place], &own, environment)?;
        Ok(as_sequence(value)?)
    }

    /// A node whose operator stops at the argument that decides.
    #[cycle(evaluation)]
    pub(crate) fn evaluate_deciding<'x, W: WorldView>(
        &mut self,
        op: &'x Operator,
        arguments: &'x [Expr],
        want: &Want,
        environment: &Environment<'x, W>,
    ) -> Result<Value, Halt>
        requires { IsEntered environment.now.frames (W.world environment.now.world.now) self.old }
        ensures { Evaluates result (deciding_of op.now (meanings arguments.now)) want.now
            environment.now.frames (W.world environment.now.world.now) self.old self.new }
    {
        if let Some(value) = borrowed_decision(op, arguments, environment.world) {
            return fitted_copy(self.alloc, value, want);
        }
        for place in 0..arguments.len() {
            let value = self.evaluate_argument(op, arguments, place, want, environment)?;
            if let Some(found) = decided(op, value) {
                return fitted(self.alloc, found, want);
            }
        }
        fitted(self.alloc, undecided(op)?, want)
    }
}
