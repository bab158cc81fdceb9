ghost use Rattle.std.specs.Prelude.{◌≡◌, ◌<◌, [], IfOk};
ghost use Rattle.prop_values.specs.ViewParts.{evaluated_of};
ghost use Rattle.expr_syntax.specs.TermView.{term_of};
ghost use Rattle.operator_values.specs.Evaluated.{GivesValue};
ghost use Rattle.eval_face.specs.World.{world_of};
ghost use Rattle.eval_face.specs.Meaning.{mean};
ghost use Rattle.expr_nodes.specs.Evaluators.{sized_node};

use eval_face::Context;
use expr_nodes::{BoxedExpression, Workspace, value_or_fault};
use expr_resolving::boxed;
use expr_syntax::Expr;
use host_ops::HostOp;
use operator_rules::{TestedContext, WorldView};
use operator_values::Halt;
use outside_io::Steps;
use prop_values::{EvalFault, Value, Want};
use std::alloc::{AllocError, Global};
use std::marker::Brand;
use std::sync::ledger::{Blank, Ledger};

/// The value that an expression has under a want, or its first fault (MapLibre style specification, version 8,
/// expressions). The tests answer for the names of images and for the texts whose scripts can be shown.
pub fn evaluated_once(
    alloc: Global,
    expression: Expr,
    want: Want,
    context: &Context<'_>,
    images: &dyn HostOp,
    scripts: &dyn HostOp,
) -> Result<Result<Value, EvalFault>, AllocError>
    ensures { IfOk result (λ evaluated. evaluated_of evaluated
        ≡ mean (term_of expression) want []
        (world_of context.now (test images.now) (test scripts.now))) }
{
    let world = TestedContext {
        context,
        images: &images,
        scripts: &scripts,
    };
    let nodes = boxed(alloc, expression, want)?;
    value_or_fault(evaluated_in::<_, Brand>(alloc, &nodes, &world, Blank::new(1)))
}

// In a world, with a counter of steps of its own.
fn evaluated_in<W: WorldView, L: Ledger>(
    alloc: Global,
    expression: &BoxedExpression,
    world: &W,
    blank: Blank,
) -> Result<Value, Halt>
    requires name { blank.name ≡ L.name }
    requires parts { blank.parts ≡ L.parts }
    requires some { 0 < blank.parts }
    ensures { GivesValue result ((sized_node expression.now).0 (W.world world.now)) }
{
    let mut workspace = Workspace::new(alloc);
    let mut steps: Steps<L> = Steps::new(blank);
    expression.evaluated(&mut workspace, world, &mut steps)
}
