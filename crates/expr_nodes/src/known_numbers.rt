//! Numbers of arguments that are known without an evaluation.

ghost use Rattle.std.specs.Prelude.{◌≡◌, IfSome, List, Ok};
ghost use Rattle.prop_values.specs.Data.{number};
ghost use Rattle.prop_values.specs.View.{data_of};
ghost use Rattle.property_tables.specs.Fitting.{fit};
ghost use Rattle.operator_values.specs.Evaluated.{Evaluated};
ghost use Rattle.eval_face.specs.World.{World};
ghost use Rattle.expr_nodes.specs.Limits.{AsksBelow};
ghost use Rattle.expr_nodes.specs.Outcome.{outcome, promises};
ghost use Rattle.expr_nodes.specs.EvaluatesNode.{IsReady};

use crate::access::{Bindings, NodeForm, NodeHandle};
use crate::borrowed::{constant_in, number_there, takes_numbers};
use crate::evaluation::Surroundings;
use crate::workspace::Workspace;
use fixed_num::Fixed;
use operator_rules::WorldView;
use prop_values::{Value, Want};

impl Workspace {
    /// The numbers that two arguments give, where both are known. The second is looked at first: most often it is a
    /// constant.
    pub(crate) fn numbers_known<N: NodeHandle, B: Bindings<N>, W: WorldView>(
        &self,
        left: &N,
        right: &N,
        around: &Surroundings<'_, B, W>,
    ) -> Option<(Fixed, Fixed)>
        requires left { AsksBelow around.now.limit (N.node left.now) }
        requires right { AsksBelow around.now.limit (N.node right.now) }
        requires ready { IsReady around.now.limit (B.listed around.now.bindings.now)
            (W.world around.now.world.now) self.now }
        ensures left { IfSome result (λ known. outcome (N.node left.now)
            (promises (B.listed around.now.bindings.now) (W.world around.now.world.now))
            (W.world around.now.world.now) ≡ Ok (number known.0)) }
        ensures right { IfSome result (λ known. outcome (N.node right.now)
            (promises (B.listed around.now.bindings.now) (W.world around.now.world.now))
            (W.world around.now.world.now) ≡ Ok (number known.1)) }
    {
        let second = self.number_known(right, around)?;
        let first = self.number_known(left, around)?;
        Some((first, second))
    }

    // The number that an argument gives: a constant, a binding that was asked for before or is a constant, the zoom, or
    // the `number` of a property. A `get` by itself would be looked up a second time where its property is no number.
    fn number_known<N: NodeHandle, B: Bindings<N>, W: WorldView>(
        &self,
        node: &N,
        around: &Surroundings<'_, B, W>,
    ) -> Option<Fixed>
        requires below { AsksBelow around.now.limit (N.node node.now) }
        requires ready { IsReady around.now.limit (B.listed around.now.bindings.now)
            (W.world around.now.world.now) self.now }
        ensures { IfSome result (λ known. outcome (N.node node.now)
            (promises (B.listed around.now.bindings.now) (W.world around.now.world.now))
            (W.world around.now.world.now) ≡ Ok (number known)) }
    {
        match node.form() {
            NodeForm::Constant(value) => number_in_value(value),
            NodeForm::Given(value, want) => number_given(value, &want),
            NodeForm::Asked(slot, want) if takes_numbers(&want) => match self.kept(slot) {
                Some(value) => number_in_value(value),
                None => constant_number(&around.bindings.binding(slot)),
            },
            NodeForm::Inner(op, want) => number_there(node, op, &want, around.world),
            _ => None,
        }
    }
}

// The number that a given value is where it is fitted.
fn number_given(value: &Value, want: &Want) -> Option<Fixed>
    ensures { IfSome result (λ known. fit want.now (data_of value.now) ≡ Ok (number known)) }
{
    if !takes_numbers(want) {
        return None;
    }
    number_in_value(value)
}

fn number_in_value(value: &Value) -> Option<Fixed>
    ensures { IfSome result (λ known. data_of value.now ≡ number known) }
{
    match value {
        Value::Num(known) => Some(*known),
        _ => None,
    }
}

// The number that a literal is.
fn constant_number<N: NodeHandle>(node: &N) -> Option<Fixed>
    ensures { IfSome result (λ known. (promises : List Evaluated) (world : World) →
        outcome (N.node node.now) promises world ≡ Ok (number known)) }
{
    match constant_in(node) {
        Some(Value::Num(known)) => Some(*known),
        _ => None,
    }
}
