//! What is made of values, without a further node. Nothing here is in the cycle of the evaluation, whose proof is
//! the dearest.

ghost use Rattle.std.specs.Prelude.{◌≡◌, ℕ, [], ◌∷◌, false};
ghost use Rattle.prop_values.specs.Data.{items_of, list, number, pairs_of};
ghost use Rattle.prop_values.specs.View.{data_of};
ghost use Rattle.property_tables.specs.Fitting.{fit};
ghost use Rattle.expr_syntax.specs.Names.{row};
ghost use Rattle.expr_syntax.specs.Operators.{operator_name};
ghost use Rattle.operator_values.specs.Arithmetic.{sum_of};
ghost use Rattle.operator_values.specs.Evaluated.{GivesValue, then_value};
ghost use Rattle.operator_values.specs.Sequences.{in_of};
ghost use Rattle.eval_face.specs.Lookups.{entry_at};
ghost use Rattle.eval_face.specs.Meanings.{as_sequence, is_sequence};
ghost use Rattle.eval_face.specs.Rules.{rule_of};
ghost use Rattle.eval_face.specs.World.{state_of};
ghost use Rattle.operator_rules.specs.RuleParts.{applied_by, undecided_by};
ghost use Rattle.expr_nodes.specs.MovedInput.{moved_in};

use crate::borrowed::property_at;
use decimal_json::Text;
use expr_syntax::{Operator, Ramp};
use fixed_num::Fixed;
use item_index::IndexedList;
use operator_rules::{
    WorldView, as_sequence, fitted, fitted_copy, node_value, number_of, undecided, warped,
};
use operator_values::Halt;
use prop_values::{EvalFault, Value, Want};
use std::alloc::Global;
use tile_reader::FeatureProperties;

/// The property of a key, fitted: null where there is none.
pub(crate) fn property_value(
    alloc: Global,
    properties: Option<&FeatureProperties>,
    key: &Text,
    want: &Want,
) -> Result<Value, Halt>
    ensures { GivesValue result (fit want.now (entry_at key.now (pairs_of (state_of properties.entry)))) }
{
    match property_at(properties, key) {
        Some(value) => fitted_copy(alloc, value, want),
        None => fitted(alloc, Value::Null, want),
    }
}

/// Whether one of an operator's arguments has to be a text or a list.
pub(crate) fn has_sequence(op: &Operator) -> bool
    ensures { result ≡ false → (place : ℕ) →
        is_sequence (row (operator_name op.now)).sequence place ≡ false }
{
    match op.row().sequence {
        Some(_) => true,
        None => false,
    }
}

/// The argument that has to be a text or a list.
pub(crate) fn sequence_value(value: Value) -> Result<Value, Halt>
    ensures { GivesValue result (as_sequence (data_of value)) }
{
    Ok(as_sequence(value)?)
}

/// What an operator gives of two values, fitted. Two numbers are added without a list of values.
pub(crate) fn pair_value<W: WorldView>(
    alloc: Global,
    op: &Operator,
    first: Value,
    second: Value,
    want: &Want,
    world: &W,
) -> Result<Value, Halt>
    ensures { GivesValue result
        (then_value (applied_by (rule_of op.now) (W.world world.now) (data_of first ∷ data_of second ∷ []))
        (fit want.now)) }
{
    if let (Operator::Add, Value::Num(a), Value::Num(b)) = (op, &first, &second) {
        return sum_value(alloc, *a, *b, want);
    }
    node_value(alloc, op, &[first, second], want, world)
}

// The sum of two numbers, fitted.
#[tactic(auto, using(crate::proofs::SumLaws::two_added))]
fn sum_value(alloc: Global, a: Fixed, b: Fixed, want: &Want) -> Result<Value, Halt>
    ensures { GivesValue result (then_value (sum_of (number a ∷ number b ∷ [])) (fit want.now)) }
{
    let _millionths = a.millionths();
    match (a.add(b), want) {
        (Ok(sum), Want::Any | Want::Number) => Ok(Value::Num(sum)),
        (Ok(sum), _) => fitted(alloc, Value::Num(sum), want),
        (Err(fault), _) => Err(Halt::Fault(EvalFault::from(fault))),
    }
}

/// Whether a value is an item of a list, fitted.
pub(crate) fn membership(
    alloc: Global,
    items: &IndexedList,
    value: &Value,
    want: &Want,
) -> Result<Value, Halt>
    ensures { GivesValue result
        (then_value (in_of (data_of value.now ∷ list (items_of items.now) ∷ [])) (fit want.now)) }
{
    fitted(alloc, Value::Bool(items.has(value)), want)
}

/// What a node gives none of whose arguments decides.
pub(crate) fn undecided_value(alloc: Global, op: &Operator, want: &Want) -> Result<Value, Halt>
    ensures { GivesValue result (then_value (undecided_by (rule_of op.now)) (fit want.now)) }
{
    fitted(alloc, undecided(op)?, want)
}

/// The input of a ramp, as its curve moves it.
pub(crate) fn moved_input(ramp: &Ramp, value: Value) -> Result<Fixed, EvalFault>
    ensures { result ≡ moved_in ramp.now.0 ramp.now.1 (data_of value) }
{
    warped(ramp, number_of(value)?)
}
