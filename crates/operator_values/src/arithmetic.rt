//! Operators of numbers.

ghost use Rattle.std.specs.Prelude.{◌≡◌};
ghost use Rattle.std.specs.Int.{int_min, int_max};
ghost use Rattle.fixed_num.specs.Number.{absolute, floor_of, ceil_of, round_of};
ghost use Rattle.prop_values.specs.ViewParts.{values_view, evaluated_of};
ghost use Rattle.operator_values.specs.Arithmetic.{sum_of, product_of, difference_of, quotient_of, remainder_of};
ghost use Rattle.operator_values.specs.Arithmetic.{of_number, least_of, greatest_of, chosen, the_number};

use crate::whole::whole;
use fixed_num::{Arith, Fixed};
use prop_values::{EvalFault, Value};

/// `+`: the sum of the numbers, from the left; of none it is 0.
pub fn sum(values: &[Value]) -> Result<Value, EvalFault>
    ensures { evaluated_of result ≡ sum_of (values_view values.now) }
{
    let mut sum = whole(0);
    for value in values {
        let Value::Num(term) = value else {
            return Err(EvalFault::WrongType);
        };
        sum = sum.add(*term)?;
    }
    Ok(Value::Num(sum))
}

/// `*`: the product of the numbers, from the left; of none it is 1.
pub fn product(values: &[Value]) -> Result<Value, EvalFault>
    ensures { evaluated_of result ≡ product_of (values_view values.now) }
{
    let mut product = whole(1);
    for value in values {
        let Value::Num(factor) = value else {
            return Err(EvalFault::WrongType);
        };
        product = product.mul(*factor)?;
    }
    Ok(Value::Num(product))
}

/// `-`: of two numbers, or of one from 0.
pub fn difference(values: &[Value]) -> Result<Value, EvalFault>
    ensures { evaluated_of result ≡ difference_of (values_view values.now) }
{
    match values {
        [Value::Num(a)] => Ok(Value::Num(a.neg())),
        [Value::Num(a), Value::Num(b)] => number_value(a.sub(*b)),
        _ => Err(EvalFault::WrongType),
    }
}

/// `/`.
pub fn quotient(values: &[Value]) -> Result<Value, EvalFault>
    ensures { evaluated_of result ≡ quotient_of (values_view values.now) }
{
    match values {
        [Value::Num(a), Value::Num(b)] => number_value(a.div(*b)),
        _ => Err(EvalFault::WrongType),
    }
}

/// `%`: of the sign of the first.
pub fn remainder(values: &[Value]) -> Result<Value, EvalFault>
    ensures { evaluated_of result ≡ remainder_of (values_view values.now) }
{
    match values {
        [Value::Num(a), Value::Num(b)] => number_value(a.rem(*b)),
        _ => Err(EvalFault::WrongType),
    }
}

/// `abs`.
pub fn absolute(values: &[Value]) -> Result<Value, EvalFault>
    ensures { evaluated_of result ≡ of_number absolute (values_view values.now) }
{
    match values {
        [Value::Num(number)] => Ok(Value::Num(number.abs())),
        _ => Err(EvalFault::WrongType),
    }
}

/// `ceil`: the least whole number that is not below.
pub fn ceiling(values: &[Value]) -> Result<Value, EvalFault>
    ensures { evaluated_of result ≡ of_number ceil_of (values_view values.now) }
{
    match values {
        [Value::Num(number)] => Ok(Value::Num(number.ceil())),
        _ => Err(EvalFault::WrongType),
    }
}

/// `floor`: the greatest whole number that is not above.
pub fn floor(values: &[Value]) -> Result<Value, EvalFault>
    ensures { evaluated_of result ≡ of_number floor_of (values_view values.now) }
{
    match values {
        [Value::Num(number)] => Ok(Value::Num(number.floor())),
        _ => Err(EvalFault::WrongType),
    }
}

/// `round`: the nearest whole number, halves away from zero.
pub fn rounded(values: &[Value]) -> Result<Value, EvalFault>
    ensures { evaluated_of result ≡ of_number round_of (values_view values.now) }
{
    match values {
        [Value::Num(number)] => Ok(Value::Num(number.round())),
        _ => Err(EvalFault::WrongType),
    }
}

/// `min`, of at least one number.
pub fn least(values: &[Value]) -> Result<Value, EvalFault>
    ensures { evaluated_of result ≡ least_of (values_view values.now) }
{
    match values {
        [Value::Num(first), ..] => least_from(*first, &values[1..]),
        _ => Err(EvalFault::WrongType),
    }
}

fn least_from(first: Fixed, rest: &[Value]) -> Result<Value, EvalFault>
    ensures { evaluated_of result ≡ chosen int_min first (values_view rest.now) }
{
    let mut least = first;
    for value in rest {
        let Value::Num(number) = value else {
            return Err(EvalFault::WrongType);
        };
        least = lesser(least, *number);
    }
    Ok(Value::Num(least))
}

/// `max`, of at least one number.
pub fn greatest(values: &[Value]) -> Result<Value, EvalFault>
    ensures { evaluated_of result ≡ greatest_of (values_view values.now) }
{
    match values {
        [Value::Num(first), ..] => greatest_from(*first, &values[1..]),
        _ => Err(EvalFault::WrongType),
    }
}

fn greatest_from(first: Fixed, rest: &[Value]) -> Result<Value, EvalFault>
    ensures { evaluated_of result ≡ chosen int_max first (values_view rest.now) }
{
    let mut greatest = first;
    for value in rest {
        let Value::Num(number) = value else {
            return Err(EvalFault::WrongType);
        };
        greatest = greater(greatest, *number);
    }
    Ok(Value::Num(greatest))
}

fn lesser(a: Fixed, b: Fixed) -> Fixed
    ensures { result ≡ int_min a b }
{
    if b < a { b } else { a }
}

fn greater(a: Fixed, b: Fixed) -> Fixed
    ensures { result ≡ int_max a b }
{
    if a < b { b } else { a }
}

/// The number that an operation gives, or its fault.
pub(crate) fn number_value(answer: Result<Fixed, Arith>) -> Result<Value, EvalFault>
    ensures { evaluated_of result ≡ the_number answer }
{
    Ok(Value::Num(answer?))
}
