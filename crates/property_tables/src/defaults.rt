ghost use Rattle.std.specs.Prelude.{◌≡◌, IfOk, option_map, pos, replicate, [], ◌∷◌, codes};
ghost use Rattle.prop_values.specs.Data.{number, text};
ghost use Rattle.prop_values.specs.View.{data_of};
ghost use Rattle.prop_values.specs.ViewParts.{evaluated_of};
ghost use Rattle.property_tables.specs.Defaults.{default_of, written_default, fitted};
ghost use Rattle.property_tables.specs.RowView.{row_seen, fallback_seen};

use crate::fitting::fit;
use crate::property_row::{Fallback, Row};
use decimal_json::Text;
use fixed_num::Fixed;
use prop_values::{EvalFault, Value, Values};
use std::alloc::{AllocError, Global};

/// The default of a property of this row without a value of its own, fitted to what the row wants: the color
/// of a color's word, for example. `None` exactly where the row has no default.
pub fn default_value(alloc: Global, row: &Row) -> Result<Option<Value>, AllocError>
    ensures { IfOk result (λ value. option_map data_of value ≡ default_of (row_seen row.now)) }
{
    match written_default(alloc, &row.fallback)? {
        Some(value) => Ok(value_fitted(fit(alloc, value, &row.want)?)),
        None => Ok(None),
    }
}

// The default as the table writes it.
fn written_default(alloc: Global, fallback: &Fallback) -> Result<Option<Value>, AllocError>
    ensures { IfOk result (λ value. option_map data_of value ≡ written_default (fallback_seen fallback.now)) }
{
    match fallback {
        Fallback::Absent => Ok(None),
        Fallback::Flag(flag) => Ok(Some(Value::Bool(*flag))),
        Fallback::Number(number) => Ok(Some(Value::Num(*number))),
        Fallback::Word(word) => Ok(Some(Value::Text(Text::copy_of(alloc, word)?))),
        Fallback::Zeros(count) => Ok(Some(Value::List(zeros(alloc, *count)?))),
        Fallback::Fonts => Ok(Some(Value::List(fonts(alloc)?))),
    }
}

fn zeros(alloc: Global, count: u32) -> Result<Values, AllocError>
    ensures { IfOk result (λ made. made ≡ replicate count (number (pos 0))) }
{
    let mut made = Values::new(alloc);
    for _ in 0..count {
        made.push(Value::Num(Fixed::from_millionths(0).unwrap()))?;
    }
    Ok(made)
}

fn fonts(alloc: Global) -> Result<Values, AllocError>
    ensures { IfOk result (λ made. made ≡ text (codes "Open Sans Regular") ∷ text (codes "Arial Unicode MS Regular") ∷ []) }
{
    let mut made = Values::new(alloc);
    made.push(Value::Text(Text::copy_of(alloc, "Open Sans Regular")?))?;
    made.push(Value::Text(Text::copy_of(alloc, "Arial Unicode MS Regular")?))?;
    Ok(made)
}

/// What a fit gave, where it gave no fault.
pub(crate) fn value_fitted(read: Result<Value, EvalFault>) -> Option<Value>
    ensures { option_map data_of result ≡ fitted (evaluated_of read) }
{
    match read {
        Ok(value) => Some(value),
        Err(_) => None,
    }
}
