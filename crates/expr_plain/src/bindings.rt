//! `let` and `var`: a binding is evaluated when it is first asked for, in the names around its `let`.

ghost use Rattle.eval_face.specs.Bindings.{let_of, var_of};
ghost use Rattle.expr_plain.specs.Terms.{meanings};
ghost use Rattle.expr_plain.specs.Frames.{IsEntered};
ghost use Rattle.expr_plain.specs.Evaluates.{Evaluates};

use crate::evaluation::Evaluation;
use crate::frames::{BindingScope, Environment, Frames, binding_of};
use decimal_json::Text;
use expr_syntax::{Expr, Names};
use operator_rules::{WorldView, fitted, fitted_copy};
use operator_values::Halt;
use prop_values::{EvalFault, Value, Want};

impl Evaluation {
    /// `let`: its body, in a frame of its bindings.
    #[tactic(auto, using(expr_syntax::proofs::Falls::argument_weight))]
    #[cycle(evaluation)]
    pub(crate) fn evaluate_let<'x, W: WorldView>(
        &mut self,
        names: &'x Names,
        arguments: &'x [Expr],
        want: &Want,
        environment: &Environment<'x, W>,
    ) -> Result<Value, Halt>
        requires { IsEntered environment.now.frames (W.world environment.now.world.now) self.old }
        ensures { Evaluates result (let_of names.now (meanings arguments.now)) want.now
            environment.now.frames (W.world environment.now.world.now) self.old self.new }
    {
        let count = names.len();
        if arguments.len() != count + 1 {
            return Err(Halt::Fault(EvalFault::WrongType));
        }
        let bindings = &arguments[..count];
        let first = self.open_slots(bindings)?;
        let frame = BindingScope::Frame(
            names,
            bindings,
            first,
            &*environment.frames.scope,
            &*environment.frames.entered,
        );
        let frames = Frames {
            scope: &frame,
            entered: &frame,
        };
        let inner = Environment {
            world: &*environment.world,
            frames,
            depth_left: environment.depth_left,
        };
        let evaluated = self.evaluate(&arguments[count], want, &inner);
        self.close_slots(first);
        evaluated
    }

    /// `var`: what its binding gives, fitted. What a binding gives is kept.
    #[cycle(evaluation)]
    pub(crate) fn evaluate_var<'x, W: WorldView>(
        &mut self,
        name: &'x Text,
        want: &Want,
        environment: &Environment<'x, W>,
    ) -> Result<Value, Halt>
        requires { IsEntered environment.now.frames (W.world environment.now.world.now) self.old }
        ensures { Evaluates result (var_of name.now) want.now
            environment.now.frames (W.world environment.now.world.now) self.old self.new }
    {
        let slots = self.slots.as_slice().len();
        let Some(binding) = binding_of(name, environment.frames.scope, slots) else {
            return Err(Halt::Fault(EvalFault::WrongType));
        };
        if let Some(value) = self.kept(binding.slot) {
            return fitted_copy(self.alloc, value, want);
        }
        let frames = Frames {
            scope: binding.outer,
            entered: &*environment.frames.entered,
        };
        let around = Environment {
            world: &*environment.world,
            frames,
            depth_left: environment.depth_left,
        };
        let value = self.evaluate(binding.expression, &Want::Any, &around)?;
        self.keep(binding.slot, &value)?;
        fitted(self.alloc, value, want)
    }
}
