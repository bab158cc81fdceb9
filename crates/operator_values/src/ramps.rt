//! The value between two outputs of an interpolation.

ghost use Rattle.std.specs.Prelude.{◌≡◌, ◌≤ℤ◌, ◌<ℤ◌};
ghost use Rattle.std.specs.Result.{is_ok};
ghost use Rattle.prop_values.specs.View.{data_of};
ghost use Rattle.prop_values.specs.ViewParts.{items, evaluated_of};
ghost use Rattle.operator_values.specs.Evaluated.{GivesValue};
ghost use Rattle.operator_values.specs.Ramps.{between_of, list_between, number_between, pairs_in};

use crate::arithmetic::number_value;
use fixed_num::Fixed;
use halts::Halt;
use interpolate_fixed::{linear, linear_color};
use prop_values::{EvalFault, PackedColor, Value, Values};
use std::alloc::Global;

/// The value at `x` on the line from `a` at `x0` to `b` at `x1`, of two numbers, two colors or two lists of
/// numbers of one length; of any others it is `WrongType`.
pub fn value_between(
    alloc: Global,
    x: Fixed,
    x0: Fixed,
    a: &Value,
    x1: Fixed,
    b: &Value,
) -> Result<Value, Halt<EvalFault>>
    requires from { x0 ≤ℤ x }
    requires to { x ≤ℤ x1 }
    requires apart { x0 <ℤ x1 }
    ensures { GivesValue result (between_of x x0 (data_of a.now) x1 (data_of b.now)) }
{
    match (a, b) {
        (Value::Num(a), Value::Num(b)) => Ok(number_value(linear(x, x0, *a, x1, *b))?),
        (Value::Color(a), Value::Color(b)) => {
            let between = linear_color(x, x0, a.color(), x1, b.color());
            Ok(Value::Color(PackedColor::of(&between)))
        }
        (Value::List(a), Value::List(b)) => {
            list_between(alloc, x, x0, a.as_slice(), x1, b.as_slice())
        }
        _ => Err(Halt::Fault(EvalFault::WrongType)),
    }
}

#[tactic(auto, using(crate::proofs::Lists::wrong_list, crate::proofs::Lists::after_none))]
fn list_between(
    alloc: Global,
    x: Fixed,
    x0: Fixed,
    a: &[Value],
    x1: Fixed,
    b: &[Value],
) -> Result<Value, Halt<EvalFault>>
    requires from { x0 ≤ℤ x }
    requires to { x ≤ℤ x1 }
    requires apart { x0 <ℤ x1 }
    ensures { GivesValue result (list_between x x0 x1 (pairs_in (items a.now) (items b.now))) }
{
    if !are_pairs(a, b) {
        return Err(Halt::Fault(EvalFault::WrongType));
    }
    let mut between = Values::with_capacity(alloc, a.len())?;
    for (i, value) in a.iter().enumerate() {
        match item_between(x, x0, value, x1, &b[i]) {
            Ok(item) => between.push(item)?,
            Err(fault) => return Err(Halt::Fault(fault)),
        }
    }
    Ok(Value::List(between))
}

// Between two items, which are numbers.
fn item_between(x: Fixed, x0: Fixed, a: &Value, x1: Fixed, b: &Value) -> Result<Value, EvalFault>
    requires from { x0 ≤ℤ x }
    requires to { x ≤ℤ x1 }
    requires apart { x0 <ℤ x1 }
    ensures { evaluated_of result ≡ number_between x x0 (data_of a.now) x1 (data_of b.now) }
{
    match (a, b) {
        (Value::Num(a), Value::Num(b)) => number_value(linear(x, x0, *a, x1, *b)),
        _ => Err(EvalFault::WrongType),
    }
}

// Whether all items are numbers, as many in one list as in the other.
#[tactic(auto, using(crate::proofs::Lists::unequal_lengths))]
fn are_pairs(a: &[Value], b: &[Value]) -> bool
    ensures { result ≡ is_ok (pairs_in (items a.now) (items b.now)) }
{
    if a.len() != b.len() {
        return false;
    }
    for (i, value) in a.iter().enumerate() {
        match (value, &b[i]) {
            (Value::Num(_), Value::Num(_)) => {}
            _ => return false,
        }
    }
    true
}
