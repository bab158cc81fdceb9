ghost use Rattle.std.specs.Prelude.{◌≡◌, IfOk, option_map};
ghost use Rattle.decimal_json.specs.View.{tree_of};
ghost use Rattle.prop_values.specs.View.{data_of};
ghost use Rattle.prop_values.specs.ViewParts.{items};
ghost use Rattle.property_tables.specs.Literals.{literal_of, literal_data, has_form, is_at_least, is_at_most};
ghost use Rattle.property_tables.specs.Literals.{is_within, item_within, items_within, keeps_limits};
ghost use Rattle.property_tables.specs.RowView.{row_seen, limits_seen};

use crate::defaults::value_fitted;
use crate::fitting::fit;
use crate::property_row::Row;
use decimal_json::Json;
use fixed_num::Fixed;
use prop_values::{Value, Want, from_json};
use std::alloc::{AllocError, Global};

/// The value of a JSON literal of this row, or `None` exactly where the row does not take it: it is of
/// another form, a number is past the row's limits or past the bound, a text is in no set. No row takes null.
///
/// Texts are shared with the tree.
pub fn literal(alloc: Global, json: &Json, row: &Row) -> Result<Option<Value>, AllocError>
    ensures { IfOk result (λ value. option_map data_of value ≡ literal_of (tree_of json.now) (row_seen row.now)) }
{
    match from_json(alloc, json)? {
        Ok(value) => literal_value(alloc, value, row),
        Err(_) => Ok(None),
    }
}

fn literal_value(alloc: Global, value: Value, row: &Row) -> Result<Option<Value>, AllocError>
    ensures { IfOk result (λ literal. option_map data_of literal ≡ literal_data (row_seen row.now) (data_of value)) }
{
    if has_form(&row.want, &value) && keeps_limits(row, &value) {
        Ok(value_fitted(fit(alloc, value, &row.want)?))
    } else {
        Ok(None)
    }
}

// Whether a value has the form that a literal has beside fitting.
fn has_form(want: &Want, value: &Value) -> bool
    ensures { result ≡ has_form want.now (data_of value.now) }
{
    match want {
        Want::Shown | Want::Image => matches!(value, Value::Text(_)),
        _ => true,
    }
}

fn keeps_limits(row: &Row, value: &Value) -> bool
    ensures { result ≡ keeps_limits (limits_seen row.now) (data_of value.now) }
{
    match value {
        Value::List(values) => are_within(row, values.as_slice()),
        _ => item_within(row, value),
    }
}

fn are_within(row: &Row, values: &[Value]) -> bool
    ensures { result ≡ items_within (limits_seen row.now) (items values.now) }
{
    for value in values {
        if !item_within(row, value) {
            return false;
        }
    }
    true
}

fn item_within(row: &Row, value: &Value) -> bool
    ensures { result ≡ item_within (limits_seen row.now) (data_of value.now) }
{
    match value {
        Value::Num(number) => is_within(row, *number),
        _ => true,
    }
}

fn is_within(row: &Row, number: Fixed) -> bool
    ensures { result ≡ is_within (limits_seen row.now) number }
{
    is_at_least(row.least, number) && is_at_most(row.most, number)
}

fn is_at_least(least: Option<Fixed>, number: Fixed) -> bool
    ensures { result ≡ is_at_least least number }
{
    match least {
        Some(least) => least.millionths() <= number.millionths(),
        None => true,
    }
}

fn is_at_most(most: Option<Fixed>, number: Fixed) -> bool
    ensures { result ≡ is_at_most most number }
{
    match most {
        Some(most) => number.millionths() <= most.millionths(),
        None => true,
    }
}
