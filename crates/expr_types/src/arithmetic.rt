//! Arithmetic: where a number may pass the bound, and where a divisor may be 0.

ghost use Rattle.std.specs.Prelude.{◌≡◌, option_map};
ghost use Rattle.prop_values.specs.View.{data_of};
ghost use Rattle.expr_types.specs.Arithmetics.{own_subtract, is_not_zero, has_divisor, own_divide, own_remainder};
ghost use Rattle.expr_types.specs.LiteralView.{literals_of};

use crate::literals::literal_of;
use crate::own::{Own, faults_if, ill_typed, owns};
use expr_syntax::Expr;
use prop_values::{EvalFault, FaultSet, Kind, Value};

pub(crate) fn own_subtract(kinds: &[Kind]) -> Own
    ensures { result ≡ own_subtract kinds.now }
{
    match kinds {
        [_] => owns(Kind::Number, FaultSet::empty()),
        [_, _] => owns(Kind::Number, FaultSet::one(EvalFault::Overflow)),
        _ => ill_typed(),
    }
}

fn is_not_zero(literal: Option<&Value>) -> bool
    ensures { result ≡ is_not_zero (option_map (λ v. data_of v.now) literal.entry) }
{
    match literal {
        Some(Value::Num(number)) => number.millionths() != 0,
        _ => false,
    }
}

// Whether the divisor is a literal other than 0.
#[tactic(auto, using(crate::proofs::StepLaws::no_divisor))]
fn has_divisor(arguments: &[Expr]) -> bool
    ensures { result ≡ has_divisor (literals_of arguments.now) }
{
    match arguments {
        [_, divisor, ..] => is_not_zero(literal_of(divisor)),
        _ => false,
    }
}

pub(crate) fn own_divide(arguments: &[Expr]) -> Own
    ensures { result ≡ own_divide (literals_of arguments.now) }
{
    let zero = faults_if(!has_divisor(arguments), EvalFault::DivideByZero);
    owns(Kind::Number, FaultSet::one(EvalFault::Overflow).union(zero))
}

pub(crate) fn own_remainder(arguments: &[Expr]) -> Own
    ensures { result ≡ own_remainder (literals_of arguments.now) }
{
    owns(
        Kind::Number,
        faults_if(!has_divisor(arguments), EvalFault::DivideByZero),
    )
}
