ghost use Rattle.std.specs.Prelude.{◌≡◌, [], IfOk};
ghost use Rattle.prop_values.specs.ViewParts.{evaluated_of};
ghost use Rattle.expr_syntax.specs.TermView.{term_of};
ghost use Rattle.operator_values.specs.Evaluated.{GivesValue};
ghost use Rattle.eval_face.specs.World.{world_of};
ghost use Rattle.eval_face.specs.Meaning.{mean};
ghost use Rattle.expr_plain.specs.declared.frames.BindingScope.{Empty};

use crate::evaluation::Evaluation;
use crate::frames::{BindingScope, Environment, Frames, MOST_UNDER_WAY};
use eval_face::Context;
use expr_syntax::Expr;
use host_ops::HostOp;
use operator_rules::{TestedContext, WorldView};
use operator_values::Halt;
use prop_values::{EvalFault, Value, Want};
use std::alloc::{AllocError, Global};

/// The value that an expression has under a want, or its first fault (MapLibre style specification, version 8,
/// expressions). The tests answer for the names of images and for the texts whose scripts can be shown.
pub fn eval_plain(
    alloc: Global,
    expression: &Expr,
    want: &Want,
    context: &Context<'_>,
    images: &dyn HostOp,
    scripts: &dyn HostOp,
) -> Result<Result<Value, EvalFault>, AllocError>
    ensures { IfOk result (λ evaluated. evaluated_of evaluated
        ≡ mean (term_of expression.now) want.now []
        (world_of context.now (test images.now) (test scripts.now))) }
{
    let world = TestedContext {
        context,
        images: &images,
        scripts: &scripts,
    };
    match evaluated(alloc, &*expression, want, &world, &BindingScope::Empty) {
        Ok(value) => Ok(Ok(value)),
        Err(Halt::Fault(fault)) => Ok(Err(fault)),
        Err(Halt::NoMemory) => Err(AllocError),
    }
}

// The value in a world, with no names around the expression. The frames borrow the empty scope as long as
// the expression.
fn evaluated<'x, W: WorldView>(
    alloc: Global,
    expression: &'x Expr,
    want: &Want,
    world: &'x W,
    empty: &'x BindingScope<'x>,
) -> Result<Value, Halt>
    requires { empty.now ≡ Empty }
    ensures { GivesValue result (mean (term_of expression.now) want.now [] (W.world world.now)) }
{
    let frames = Frames {
        scope: &*empty,
        entered: &*empty,
    };
    let environment = Environment {
        world: &*world,
        frames,
        depth_left: MOST_UNDER_WAY,
    };
    let mut evaluation = Evaluation::new(alloc);
    evaluation.evaluate(expression, want, &environment)
}
