//! What the operators that evaluate all their arguments give of the values.

ghost use Rattle.std.specs.Prelude.{◌≡◌, Ok, true};
ghost use Rattle.std.specs.Option.{option_map};
ghost use Rattle.prop_values.specs.View.{data_of};
ghost use Rattle.prop_values.specs.ViewParts.{values_view, evaluated_of};
ghost use Rattle.property_tables.specs.Fitting.{fit};
ghost use Rattle.operator_values.specs.Evaluated.{GivesValue, then_value};
ghost use Rattle.eval_face.specs.Rules.{rule_of, array_of};
ghost use Rattle.operator_rules.specs.RuleParts.{applied_by, decided_by, undecided_by, asserts, decides_as_it_is};

use crate::lookups::{
    all_properties, has_property, id_value, image, property, state_member, supported_script,
};
use crate::sections::sections;
use crate::world_view::WorldView;
use decimal_json::Text;
use expr_syntax::Operator;
use operator_values::{
    Halt, absolute, ceiling, color_in, color_parts, concat, contains, difference, different, equal,
    floor, greater, greater_or_equal, greatest, index_of, item, kind_of, least, length, less,
    less_or_equal, negation, number_in, product, quotient, remainder, rgba, rounded, slice, sum,
    text_of, truth_of,
};
use prop_values::{EvalFault, Item, PackedColor, Value, Want, copy};
use property_tables::fit;
use std::alloc::Global;

/// A value fitted to a want.
pub fn fitted(alloc: Global, value: Value, want: &Want) -> Result<Value, Halt>
    ensures { GivesValue result (fit want.now (data_of value)) }
{
    if is_fitted(&value, want) {
        return Ok(value);
    }
    Ok(fit(alloc, value, want)??)
}

/// A copy of a value, fitted to a want. A number, of which features have millions, is made anew: that takes less than
/// to move a value through the forms of an answer.
pub fn fitted_copy(alloc: Global, value: &Value, want: &Want) -> Result<Value, Halt>
    ensures { GivesValue result (fit want.now (data_of value.now)) }
{
    match (want, value) {
        (Want::Any | Want::Number, Value::Num(number)) => Ok(Value::Num(*number)),
        _ => fitted(alloc, copy(value)?, want),
    }
}

// Whether it is seen at once that a value is as it is wanted. Most are, and need not be moved through the forms of an
// answer.
fn is_fitted(value: &Value, want: &Want) -> bool
    ensures { result ≡ true → fit want.now (data_of value.now) ≡ Ok (data_of value.now) }
{
    match (want, value) {
        (Want::Any, _) => true,
        (Want::Number, Value::Num(_)) => true,
        (Want::Text, Value::Text(_)) => true,
        (Want::Boolean, Value::Bool(_)) => true,
        _ => false,
    }
}

/// What an operator gives of the values of all its arguments, fitted to the want of its node.
pub fn node_value<W: WorldView>(
    alloc: Global,
    op: &Operator,
    values: &[Value],
    want: &Want,
    world: &W,
) -> Result<Value, Halt>
    ensures { GivesValue result
        (then_value (applied_by (rule_of op.now) (W.world world.now) (values_view values.now)) (fit want.now)) }
{
    let value = applied(alloc, op, values, world)?;
    fitted(alloc, value, want)
}

/// What an operator that evaluates all its arguments gives of their values.
pub fn applied<W: WorldView>(
    alloc: Global,
    op: &Operator,
    values: &[Value],
    world: &W,
) -> Result<Value, Halt>
    ensures { GivesValue result (applied_by (rule_of op.now) (W.world world.now) (values_view values.now)) }
{
    match op {
        Operator::Array(item, length) => array(alloc, *item, *length, values),
        Operator::ToBoolean => Ok(truth_of(values)?),
        Operator::ToString => text_of(alloc, values),
        Operator::TypeOf => kind_of(alloc, values),
        Operator::Get => property(alloc, world.properties(), values),
        Operator::Has => Ok(has_property(world.properties(), values)?),
        Operator::Properties => Ok(all_properties(alloc, world.properties())?),
        Operator::Id => Ok(id_value(world.id())),
        Operator::GeometryType => Ok(Value::Text(Text::copy_of(alloc, world.shape().name())?)),
        Operator::FeatureState => state_member(alloc, world.state(), values),
        Operator::At => item(values),
        Operator::In => Ok(contains(values)?),
        Operator::IndexOf => Ok(index_of(values)?),
        Operator::Length => Ok(length(values)?),
        Operator::Slice => slice(alloc, values),
        Operator::Not => Ok(negation(values)?),
        Operator::Equal => Ok(equal(values)?),
        Operator::NotEqual => Ok(different(values)?),
        Operator::Less => Ok(less(values)?),
        Operator::LessOrEqual => Ok(less_or_equal(values)?),
        Operator::Greater => Ok(greater(values)?),
        Operator::GreaterOrEqual => Ok(greater_or_equal(values)?),
        Operator::Zoom => Ok(Value::Num(world.zoom())),
        Operator::Concat => Ok(concat(alloc, values)?),
        Operator::Rgb => Ok(rgba(values)?),
        Operator::Rgba => Ok(rgba(values)?),
        Operator::ToRgba => color_parts(alloc, values),
        Operator::Add => Ok(sum(values)?),
        Operator::Multiply => Ok(product(values)?),
        Operator::Subtract => Ok(difference(values)?),
        Operator::Divide => Ok(quotient(values)?),
        Operator::Remainder => Ok(remainder(values)?),
        Operator::Abs => Ok(absolute(values)?),
        Operator::Ceil => Ok(ceiling(values)?),
        Operator::Floor => Ok(floor(values)?),
        Operator::Round => Ok(rounded(values)?),
        Operator::Min => Ok(least(values)?),
        Operator::Max => Ok(greatest(values)?),
        Operator::Image => image(world, values),
        Operator::IsSupportedScript => Ok(supported_script(world, values)?),
        Operator::Format(pieces) => sections(alloc, pieces.as_slice(), values),
        _ => Err(Halt::Fault(EvalFault::WrongType)),
    }
}

// `array`: a list of these items, and of so many where a number is given.
fn array(
    alloc: Global,
    item: Option<Item>,
    length: Option<u32>,
    values: &[Value],
) -> Result<Value, Halt>
    ensures { GivesValue result (array_of item length (values_view values.now)) }
{
    let [value] = values else {
        return Err(Halt::Fault(EvalFault::WrongType));
    };
    let item = match item {
        Some(item) => item,
        None => Item::Any,
    };
    fitted(alloc, copy(value)?, &Want::List(item, length))
}

/// What a value decides for an operator that stops at the argument that decides, or `None` where it decides nothing.
pub fn decided(op: &Operator, value: Value) -> Option<Value>
    ensures { option_map data_of result ≡ decided_by (rule_of op.now) (data_of value) }
{
    match op {
        Operator::ToColor => match color_in(&value) {
            Some(color) => Some(Value::Color(PackedColor::of(&color))),
            None => None,
        },
        Operator::ToNumber => match number_in(&value) {
            Some(number) => Some(Value::Num(number)),
            None => None,
        },
        _ if decides(op, &value) => Some(value),
        _ => None,
    }
}

// Whether a value decides as it is.
fn decides(op: &Operator, value: &Value) -> bool
    ensures { decides_as_it_is op.now (data_of value.now) ≡ result }
{
    match op {
        Operator::Object => matches!(value, Value::Map(_)),
        Operator::All => matches!(value, Value::Bool(false)),
        Operator::Any => matches!(value, Value::Bool(true)),
        Operator::Coalesce => !matches!(value, Value::Null),
        _ => asserts(op, value),
    }
}

/// Whether an operator asserts the form that a value has, so that it gives the value as it is.
pub fn asserts(op: &Operator, value: &Value) -> bool
    ensures { result ≡ asserts op.now (data_of value.now) }
{
    match op {
        Operator::Number => matches!(value, Value::Num(_)),
        Operator::String => matches!(value, Value::Text(_)),
        Operator::Boolean => matches!(value, Value::Bool(_)),
        _ => false,
    }
}

/// What an operator gives where no argument decides.
pub fn undecided(op: &Operator) -> Result<Value, EvalFault>
    ensures { evaluated_of result ≡ undecided_by (rule_of op.now) }
{
    match op {
        Operator::ToColor => Err(EvalFault::NotColor),
        Operator::ToNumber => Err(EvalFault::NotNumberText),
        Operator::All => Ok(Value::Bool(true)),
        Operator::Any => Ok(Value::Bool(false)),
        Operator::Coalesce => Ok(Value::Null),
        _ => Err(EvalFault::WrongType),
    }
}
