//! Arguments that have to be a text or a list.

ghost use Rattle.std.specs.Prelude.{◌≡◌};
ghost use Rattle.prop_values.specs.View.{data_of};
ghost use Rattle.prop_values.specs.ViewParts.{evaluated_of};
ghost use Rattle.expr_syntax.specs.Names.{row};
ghost use Rattle.expr_syntax.specs.Operators.{operator_name};
ghost use Rattle.eval_face.specs.Meanings.{is_sequence, as_sequence};

use expr_syntax::Operator;
use prop_values::{EvalFault, Value};

/// Whether the argument of a place has to be a text or a list.
pub fn is_sequence(op: &Operator, place: usize) -> bool
    ensures { result ≡ is_sequence (row (operator_name op.now)).sequence place }
{
    match op.row().sequence {
        Some(asked) => asked == place,
        None => false,
    }
}

/// The argument that has to be a text or a list, looked at at once.
pub fn as_sequence(value: Value) -> Result<Value, EvalFault>
    ensures { evaluated_of result ≡ as_sequence (data_of value) }
{
    match value {
        Value::Text(text) => Ok(Value::Text(text)),
        Value::List(items) => Ok(Value::List(items)),
        _ => Err(EvalFault::WrongType),
    }
}
