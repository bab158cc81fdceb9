//! The meaning of expressions: a literal as it is wanted, and a node by the rule of its operator.

ghost use Rattle.expr_syntax.specs.TermView.{term_of};
ghost use Rattle.eval_face.specs.Meaning.{mean, node_meaning};
ghost use Rattle.expr_plain.specs.Terms.{meanings};
ghost use Rattle.expr_plain.specs.Frames.{IsEntered};
ghost use Rattle.expr_plain.specs.Evaluates.{Evaluates};

use crate::borrowed::borrowed_property;
use crate::evaluation::Evaluation;
use crate::frames::{Environment, Frames};
use expr_syntax::{Expr, Operator};
use operator_rules::{OperatorRule, WorldView, fitted_copy, rule_of};
use operator_values::Halt;
use prop_values::{Value, Want};

impl Evaluation {
    /// The value of an expression under a want, or its first fault.
    #[cycle(evaluation)]
    pub(crate) fn evaluate<'x, W: WorldView>(
        &mut self,
        expression: &'x Expr,
        want: &Want,
        environment: &Environment<'x, W>,
    ) -> Result<Value, Halt>
        requires { IsEntered environment.now.frames (W.world environment.now.world.now) self.old }
        ensures { Evaluates result (mean (term_of expression.now)) want.now
            environment.now.frames (W.world environment.now.world.now) self.old self.new }
    {
        match expression {
            Expr::Literal(value) => fitted_copy(self.alloc, value, want),
            Expr::Node(op, arguments) => {
                if environment.depth_left == 0 {
                    return Err(Halt::NoMemory);
                }
                let inner = Environment {
                    world: &*environment.world,
                    frames: Frames {
                        scope: environment.frames.scope,
                        entered: environment.frames.entered,
                    },
                    depth_left: environment.depth_left - 1,
                };
                self.evaluate_node(op, arguments.as_slice(), want, &inner)
            }
        }
    }

    #[cycle(evaluation)]
    fn evaluate_node<'x, W: WorldView>(
        &mut self,
        op: &'x Operator,
        arguments: &'x [Expr],
        want: &Want,
        environment: &Environment<'x, W>,
    ) -> Result<Value, Halt>
        requires { IsEntered environment.now.frames (W.world environment.now.world.now) self.old }
        ensures { Evaluates result (node_meaning op.now (meanings arguments.now)) want.now
            environment.now.frames (W.world environment.now.world.now) self.old self.new }
    {
        if let Some(value) = borrowed_property(op, arguments, environment.world) {
            return fitted_copy(self.alloc, value, want);
        }
        match rule_of(op) {
            OperatorRule::Each => self.evaluate_each(op, arguments, want, environment),
            OperatorRule::Deciding => self.evaluate_deciding(op, arguments, want, environment),
            OperatorRule::Cases => self.evaluate_case(arguments, want, environment),
            OperatorRule::Labels(labels) => self.evaluate_match(
                labels,
                arguments,
                want,
                environment,
            ),
            OperatorRule::Stops(inputs) => self.evaluate_step(inputs, arguments, want, environment),
            OperatorRule::Ramp(ramp) => self.evaluate_ramp(ramp, arguments, want, environment),
            OperatorRule::Bindings(names) => self.evaluate_let(names, arguments, want, environment),
            OperatorRule::Variable(name) => self.evaluate_var(name, want, environment),
        }
    }
}
