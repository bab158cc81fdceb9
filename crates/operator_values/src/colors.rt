//! Operators of colors.

ghost use Rattle.std.specs.Prelude.{◌≡◌, IfSome};
ghost use Rattle.fixed_num.specs.ColorRange.{IsInRange};
ghost use Rattle.prop_values.specs.ViewParts.{values_view, evaluated_of};
ghost use Rattle.operator_values.specs.Evaluated.{GivesValue};
ghost use Rattle.operator_values.specs.Colors.{rgba_of, parts_of, color_or_range};

use crate::conversions::color_of_parts;
use crate::whole::whole;
use fixed_num::Color;
use halts::Halt;
use prop_values::{EvalFault, PackedColor, Value, Values};
use std::alloc::Global;

/// `rgb` and `rgba`: the color of three or four numbers, opaque without a fourth; `ColorRange` where one is
/// out of range.
pub fn rgba(values: &[Value]) -> Result<Value, EvalFault>
    ensures { evaluated_of result ≡ rgba_of (values_view values.now) }
{
    match values {
        [Value::Num(r), Value::Num(g), Value::Num(b)] => color_or_range(color_of_parts(
            *r,
            *g,
            *b,
            whole(1),
        )),
        [Value::Num(r), Value::Num(g), Value::Num(b), Value::Num(a)] => {
            color_or_range(color_of_parts(*r, *g, *b, *a))
        }
        _ => Err(EvalFault::WrongType),
    }
}

fn color_or_range(color: Option<Color>) -> Result<Value, EvalFault>
    requires { IfSome color (λ c. IsInRange c) }
    ensures { evaluated_of result ≡ color_or_range color }
{
    match color {
        Some(color) => Ok(Value::Color(PackedColor::of(&color))),
        None => Err(EvalFault::ColorRange),
    }
}

/// `to-rgba`: red, green and blue from 0 to 255, and the opacity from 0 to 1.
pub fn color_parts(alloc: Global, values: &[Value]) -> Result<Value, Halt<EvalFault>>
    ensures { GivesValue result (parts_of (values_view values.now)) }
{
    let [Value::Color(color)] = values else {
        return Err(Halt::Fault(EvalFault::WrongType));
    };
    let color = color.color();
    let mut parts = Values::with_capacity(alloc, 4)?;
    parts.push(Value::Num(color.r))?;
    parts.push(Value::Num(color.g))?;
    parts.push(Value::Num(color.b))?;
    parts.push(Value::Num(color.a))?;
    Ok(Value::List(parts))
}
