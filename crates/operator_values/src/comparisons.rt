//! Operators that compare two values.

ghost use Rattle.std.specs.Prelude.{◌≡◌};
ghost use Rattle.prop_values.specs.ViewParts.{values_view, evaluated_of};
ghost use Rattle.operator_values.specs.Comparisons.{equal_of, different_of, ordered_of, order_in, is_less};
ghost use Rattle.operator_values.specs.Comparisons.{is_less_or_equal, is_greater, is_greater_or_equal};

use prop_values::{EvalFault, Value, equals, order};
use std::cmp::Ordering;

/// `==`.
pub fn equal(values: &[Value]) -> Result<Value, EvalFault>
    ensures { evaluated_of result ≡ equal_of (values_view values.now) }
{
    match values {
        [a, b] => Ok(Value::Bool(equals(a, b))),
        _ => Err(EvalFault::WrongType),
    }
}

/// `!=`.
pub fn different(values: &[Value]) -> Result<Value, EvalFault>
    ensures { evaluated_of result ≡ different_of (values_view values.now) }
{
    match values {
        [a, b] => Ok(Value::Bool(!equals(a, b))),
        _ => Err(EvalFault::WrongType),
    }
}

/// `<`, of two numbers or two texts.
pub fn less(values: &[Value]) -> Result<Value, EvalFault>
    ensures { evaluated_of result ≡ ordered_of is_less (values_view values.now) }
{
    match order_in(values)? {
        Ordering::Less => Ok(Value::Bool(true)),
        Ordering::Equal | Ordering::Greater => Ok(Value::Bool(false)),
    }
}

/// `<=`, of two numbers or two texts.
pub fn less_or_equal(values: &[Value]) -> Result<Value, EvalFault>
    ensures { evaluated_of result ≡ ordered_of is_less_or_equal (values_view values.now) }
{
    match order_in(values)? {
        Ordering::Less | Ordering::Equal => Ok(Value::Bool(true)),
        Ordering::Greater => Ok(Value::Bool(false)),
    }
}

/// `>`, of two numbers or two texts.
pub fn greater(values: &[Value]) -> Result<Value, EvalFault>
    ensures { evaluated_of result ≡ ordered_of is_greater (values_view values.now) }
{
    match order_in(values)? {
        Ordering::Less | Ordering::Equal => Ok(Value::Bool(false)),
        Ordering::Greater => Ok(Value::Bool(true)),
    }
}

/// `>=`, of two numbers or two texts.
pub fn greater_or_equal(values: &[Value]) -> Result<Value, EvalFault>
    ensures { evaluated_of result ≡ ordered_of is_greater_or_equal (values_view values.now) }
{
    match order_in(values)? {
        Ordering::Less => Ok(Value::Bool(false)),
        Ordering::Equal | Ordering::Greater => Ok(Value::Bool(true)),
    }
}

// The order of two values.
fn order_in(values: &[Value]) -> Result<Ordering, EvalFault>
    ensures { result ≡ order_in (values_view values.now) }
{
    match values {
        [a, b] => match order(a, b) {
            Some(order) => Ok(order),
            None => Err(EvalFault::NotOrdered),
        },
        _ => Err(EvalFault::WrongType),
    }
}
