//! What decides between outputs: a truth value, or a number that a curve moves.

ghost use Rattle.std.specs.Prelude.{◌≡◌, ◌+◌};
ghost use Rattle.interpolate_fixed.specs.PlaceFacts.{IsBetween};
ghost use Rattle.interpolate_fixed.specs.Places.{input_at};
ghost use Rattle.interpolate_fixed.specs.Warp.{warp_of};
ghost use Rattle.prop_values.specs.View.{data_of};
ghost use Rattle.operator_values.specs.Evaluated.{GivesValue, or_fault};
ghost use Rattle.operator_values.specs.Ramps.{between_of};
ghost use Rattle.operator_rules.specs.Inputs.{condition_in, number_in};

use expr_syntax::Ramp;
use fixed_num::Fixed;
use interpolate_fixed::warp;
use operator_values::{Halt, value_between};
use prop_values::{EvalFault, Value};
use std::alloc::Global;

/// The input that a curve moves between its neighbours.
pub fn warped(ramp: &Ramp, given: Fixed) -> Result<Fixed, EvalFault>
    ensures { result ≡ or_fault (warp_of ramp.now.0 ramp.now.1 given) }
{
    Ok(warp(ramp.curve(), ramp.inputs(), given)?)
}

/// What is between the outputs of input i and of the next, at an input between the two.
pub fn between(
    alloc: Global,
    inputs: &[Fixed],
    at: Fixed,
    i: usize,
    lower: &Value,
    upper: &Value,
) -> Result<Value, Halt>
    requires { IsBetween inputs.now at i }
    ensures { GivesValue result
        (between_of at (input_at inputs.now i) (data_of lower.now)
        (input_at inputs.now (i + 1)) (data_of upper.now)) }
{
    value_between(alloc, at, inputs[i], lower, inputs[i + 1], upper)
}

/// The truth value that a condition is.
pub fn condition(value: Value) -> Result<bool, EvalFault>
    ensures { result ≡ condition_in (data_of value) }
{
    match value {
        Value::Bool(flag) => Ok(flag),
        _ => Err(EvalFault::WrongType),
    }
}

/// The number that an input is.
pub fn number_of(value: Value) -> Result<Fixed, EvalFault>
    ensures { result ≡ number_in (data_of value) }
{
    match value {
        Value::Num(number) => Ok(number),
        _ => Err(EvalFault::WrongType),
    }
}
