//! Values that are there without an evaluation: they are borrowed, and nothing is copied.

ghost use Rattle.std.specs.Prelude.{◌≡◌, IfSome, Ok};
ghost use Rattle.prop_values.specs.View.{data_of};
ghost use Rattle.prop_values.specs.declared.kinds.Want.{Want};
ghost use Rattle.property_tables.specs.Fitting.{fit};
ghost use Rattle.expr_syntax.specs.TermView.{term_of};
ghost use Rattle.eval_face.specs.Names.{BoundOutcomes};
ghost use Rattle.eval_face.specs.Meaning.{mean, node_meaning};
ghost use Rattle.operator_rules.specs.RuleParts.{decision_of};
ghost use Rattle.expr_plain.specs.Terms.{meanings};

use expr_syntax::{Expr, Operator};
use operator_rules::{WorldView, asserts};
use prop_values::Value;

/// A literal, or the property of a literal key: the value of the expression before it is fitted.
fn borrowed_value<'a, W: WorldView>(expression: &'a Expr, world: &'a W) -> Option<&'a Value>
    ensures { IfSome result (λ value. (want : Want) (names : BoundOutcomes) →
        mean (term_of expression.now) want names (W.world world.now) ≡ fit want (data_of value.now)) }
{
    match expression {
        Expr::Literal(value) => Some(value),
        Expr::Node(op, arguments) => borrowed_property(op, arguments.as_slice(), world),
    }
}

/// The property that a `get` of a literal key alone gives, where the feature has it.
pub(crate) fn borrowed_property<'a, W: WorldView>(
    op: &Operator,
    arguments: &[Expr],
    world: &'a W,
) -> Option<&'a Value>
    ensures { IfSome result (λ value. (want : Want) (names : BoundOutcomes) →
        node_meaning op.now (meanings arguments.now) want names (W.world world.now) ≡ fit want (data_of value.now)) }
{
    let Operator::Get = op else {
        return None;
    };
    let [Expr::Literal(Value::Text(key))] = arguments else {
        return None;
    };
    match world.properties() {
        Some(entries) => entries.get(key.as_str()),
        None => None,
    }
}

/// The first argument, where the operator gives it as it is whatever follows.
pub(crate) fn borrowed_decision<'a, W: WorldView>(
    op: &Operator,
    arguments: &'a [Expr],
    world: &'a W,
) -> Option<&'a Value>
    ensures { IfSome result (λ value. (want : Want) (names : BoundOutcomes) →
        decision_of op.now (meanings arguments.now) want names (W.world world.now) ≡ Ok (data_of value.now)) }
{
    let [first, ..] = arguments else {
        return None;
    };
    match borrowed_value(first, world) {
        Some(value) if asserts(op, value) => Some(value),
        _ => None,
    }
}
