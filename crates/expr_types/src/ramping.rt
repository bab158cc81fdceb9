//! `interpolate`: what may be interpolated, and when a number may pass the bound.

ghost use Rattle.std.specs.Prelude.{◌≡◌, ◌-ℤ◌, unsigned_abs, IfOk, option_map};
ghost use Rattle.prop_values.specs.View.{data_of};
ghost use Rattle.prop_values.specs.ViewParts.{items};
ghost use Rattle.expr_types.specs.Ramping.{is_ramp_kind, is_interpolable, is_near, is_item_near, are_items_near};
ghost use Rattle.expr_types.specs.Ramping.{are_near, is_fitting, are_next_near, first_near, next_from, steps_are_near};
ghost use Rattle.expr_types.specs.Ramping.{may_pass, unless_interpolable, own_ramp};
ghost use Rattle.expr_types.specs.LiteralView.{literals_of};

use crate::fault::TypeCode;
use crate::fits::same_kind;
use crate::literals::{fits_value, literal_of};
use crate::own::{Own, common_kind, faults_if};
use expr_syntax::{Expr, Ramp, ramp_want};
use fixed_num::Fixed;
use prop_values::{Curve, EvalFault, Item, Kind, Value, Want};
use std::alloc::{AllocError, Global};

// The greatest magnitude of a product of two differences, in millionths of millionths.
const FARTHEST: u128 = 100_000_000_000_000_000_000_000_000_000_000_000_000;

fn is_ramp_kind(kind: Kind) -> bool
    ensures { result ≡ is_ramp_kind kind }
{
    match kind {
        Kind::Number => true,
        Kind::Color => true,
        Kind::List(Item::Number, Some(_)) => true,
        _ => false,
    }
}

// Whether outputs of a common kind can be interpolated under a want.
fn is_interpolable(want: &Want, kind: Kind) -> bool
    ensures { result ≡ is_interpolable want.now kind }
{
    match *want {
        Want::Number => true,
        Want::Color => true,
        Want::List(Item::Number, Some(_)) => true,
        Want::Any => is_ramp_kind(kind),
        Want::Shown => is_ramp_kind(kind),
        _ => false,
    }
}

// Whether no step from one stop to the next passes the bound.
fn is_near(x0: Fixed, a: Fixed, x1: Fixed, b: Fixed) -> bool
    ensures { result ≡ is_near x0 a x1 b }
{
    match distance(a, b).checked_mul(distance(x0, x1)) {
        Some(product) => product <= FARTHEST,
        None => false,
    }
}

fn distance(from: Fixed, to: Fixed) -> u128
    ensures { result ≡ unsigned_abs (to -ℤ from) }
{
    (to.millionths() - from.millionths()).unsigned_abs()
}

#[tactic(auto, using(crate::proofs::ItemLaws::unequal_lengths))]
fn are_items_near(x0: Fixed, from: &[Value], x1: Fixed, to: &[Value]) -> bool
    ensures { result ≡ are_items_near x0 (items from.now) x1 (items to.now) }
{
    if from.len() != to.len() {
        return false;
    }
    for (place, value) in from.iter().enumerate() {
        if !is_item_near(x0, value, x1, &to[place]) {
            return false;
        }
    }
    true
}

fn is_item_near(x0: Fixed, from: &Value, x1: Fixed, to: &Value) -> bool
    ensures { result ≡ is_item_near x0 (data_of from.now) x1 (data_of to.now) }
{
    match (from, to) {
        (Value::Num(a), Value::Num(b)) => is_near(x0, *a, x1, *b),
        _ => false,
    }
}

fn are_near(x0: Fixed, from: &Value, x1: Fixed, to: &Value) -> bool
    ensures { result ≡ are_near x0 (data_of from.now) x1 (data_of to.now) }
{
    match (from, to) {
        (Value::Num(a), Value::Num(b)) => is_near(x0, *a, x1, *b),
        (Value::List(from), Value::List(to)) => are_items_near(
            x0,
            from.as_slice(),
            x1,
            to.as_slice(),
        ),
        _ => false,
    }
}

// Whether an output is a literal that fits.
fn is_fitting(alloc: Global, want: &Want, literal: Option<&Value>) -> Result<bool, AllocError>
    ensures { IfOk result (λ holds. holds ≡ is_fitting want.now (option_map (λ v. data_of v.now) literal.entry)) }
{
    match literal {
        Some(value) => fits_value(alloc, want, value),
        None => Ok(false),
    }
}

fn are_next_near(x0: Fixed, from: Option<&Value>, x1: Fixed, to: Option<&Value>) -> bool
    ensures { result ≡ are_next_near x0 (option_map (λ v. data_of v.now) from.entry) x1
        (option_map (λ v. data_of v.now) to.entry) }
{
    match (from, to) {
        (Some(from), Some(to)) => are_near(x0, from, x1, to),
        _ => false,
    }
}

// Whether all outputs are literals that fit, and no number between two passes the bound.
#[tactic(auto, using(crate::proofs::StepLaws::unequal_steps, crate::proofs::StepLaws::steps_step))]
fn steps_are_near(
    alloc: Global,
    inputs: &[Fixed],
    want: &Want,
    outputs: &[Expr],
) -> Result<bool, AllocError>
    ensures { IfOk result (λ holds. holds ≡ steps_are_near inputs.now want.now (literals_of outputs.now)) }
{
    if inputs.len() != outputs.len() {
        return Ok(false);
    }
    for (place, output) in outputs.iter().enumerate() {
        if !is_fitting(alloc, want, literal_of(output))? {
            return Ok(false);
        }
        if !is_next_near(inputs.split_at(place).1, outputs.split_at(place).1) {
            return Ok(false);
        }
    }
    Ok(true)
}

// Whether no step from the first stop to the next passes the bound.
fn is_next_near(inputs: &[Fixed], outputs: &[Expr]) -> bool
    ensures { result ≡ next_from inputs.now (literals_of outputs.now) }
{
    match inputs {
        [x0, x1, ..] => are_first_near(*x0, *x1, outputs),
        _ => true,
    }
}

#[tactic(auto, using(crate::proofs::StepLaws::no_first))]
fn are_first_near(x0: Fixed, x1: Fixed, outputs: &[Expr]) -> bool
    ensures { result ≡ first_near x0 x1 (literals_of outputs.now) }
{
    match outputs {
        [from, to, ..] => are_next_near(x0, literal_of(from), x1, literal_of(to)),
        _ => true,
    }
}

// Whether a number on the curve may pass the bound.
fn may_pass(
    alloc: Global,
    ramp: &Ramp,
    want: &Want,
    outputs: &[Expr],
    kind: Kind,
) -> Result<bool, AllocError>
    ensures { IfOk result (λ holds. holds ≡ may_pass ramp.now.0 ramp.now.1 want.now (literals_of outputs.now) kind) }
{
    match ramp.curve() {
        Curve::Exponential(_) => Ok(true),
        Curve::Linear if same_kind(kind, Kind::Color) => Ok(false),
        Curve::Linear => Ok(!steps_are_near(alloc, ramp.inputs(), want, outputs)?),
    }
}

/// What an `interpolate` has of its own; its first argument is the input.
pub(crate) fn own_ramp(
    alloc: Global,
    ramp: &Ramp,
    want: &Want,
    arguments: &[Expr],
    kinds: &[Kind],
) -> Result<Own, AllocError>
    ensures { IfOk result (λ own. own ≡ own_ramp ramp.now.0 ramp.now.1 want.now (literals_of arguments.now) kinds.now) }
{
    let kind = common_kind(kinds.get(1..).unwrap_or(&[]));
    let outputs = arguments.get(1..).unwrap_or(&[]);
    let code = if is_interpolable(want, kind) {
        None
    } else {
        Some(TypeCode::NotInterpolable)
    };
    Ok(Own {
        kind,
        code,
        faults: faults_if(
            may_pass(alloc, ramp, &ramp_want(want), outputs, kind)?,
            EvalFault::Overflow,
        ),
    })
}
