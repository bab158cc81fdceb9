//! The kinds of literals.

ghost use Rattle.std.specs.Prelude.{◌≡◌, None, IfOk, option_map};
ghost use Rattle.prop_values.specs.View.{data_of};
ghost use Rattle.prop_values.specs.declared.kinds.Want.TheVariants as wants;
ghost use Rattle.property_tables.specs.Fitting.{fit};
ghost use Rattle.expr_syntax.specs.TermView.{term_of};
ghost use Rattle.expr_types.specs.Literals.{is_value, count_of, literal_kind, surely_fits};
ghost use Rattle.expr_types.specs.LiteralView.{some_item_of};
ghost use Rattle.expr_types.specs.Typing.{literal_of};

use expr_syntax::Expr;
use prop_values::{Item, Kind, Value, Want, copy};
use property_tables::fit;
use std::alloc::{AllocError, Global};

pub(crate) fn fits_value(alloc: Global, want: &Want, value: &Value) -> Result<bool, AllocError>
    ensures { IfOk result (λ holds. holds ≡ is_value (fit want.now (data_of value.now))) }
{
    Ok(fit(alloc, copy(value)?, want)?.is_ok())
}

// Whether all items of a list are of a form.
fn are_all(alloc: Global, item: Item, values: &Value) -> Result<bool, AllocError>
    ensures { IfOk result (λ holds. holds ≡ is_value (fit (wants.List item None) (data_of values.now))) }
{
    fits_value(alloc, &Want::List(item, None), values)
}

// What all items of a list are.
fn some_item(alloc: Global, values: &Value) -> Result<Item, AllocError>
    ensures { IfOk result (λ item. item ≡ some_item_of (data_of values.now)) }
{
    if are_all(alloc, Item::Boolean, values)? {
        Ok(Item::Boolean)
    } else if are_all(alloc, Item::Number, values)? {
        Ok(Item::Number)
    } else if are_all(alloc, Item::Text, values)? {
        Ok(Item::Text)
    } else {
        Ok(Item::Any)
    }
}

/// A number of items, where it is below 2^32.
pub(crate) fn count_of(count: usize) -> Option<u32>
    ensures { result ≡ count_of count }
{
    if count < 4294967296 {
        Some(count as u32)
    } else {
        None
    }
}

#[tactic(auto, using(crate::proofs::ItemLaws::count_items, crate::proofs::ItemLaws::some_items, crate::proofs::ItemLaws::no_items_kind))]
pub(crate) fn literal_kind(alloc: Global, value: &Value) -> Result<Kind, AllocError>
    ensures { IfOk result (λ kind. kind ≡ literal_kind (data_of value.now)) }
{
    match value {
        Value::Null => Ok(Kind::Any),
        Value::Bool(_) => Ok(Kind::Boolean),
        Value::Num(_) => Ok(Kind::Number),
        Value::Text(_) => Ok(Kind::Text),
        Value::Color(_) => Ok(Kind::Color),
        Value::List(values) if values.as_slice().is_empty() => Ok(Kind::List(Item::Any, Some(0))),
        Value::List(values) => Ok(Kind::List(
            some_item(alloc, value)?,
            count_of(values.as_slice().len()),
        )),
        Value::Map(_) => Ok(Kind::Object),
    }
}

/// Whether a literal fits a want though its kind says no more than that it may.
pub(crate) fn surely_fits(alloc: Global, want: &Want, value: &Value) -> Result<bool, AllocError>
    ensures { IfOk result (λ holds. holds ≡ surely_fits want.now (data_of value.now)) }
{
    match (*want, value) {
        (Want::Color, Value::Text(_)) => fits_value(alloc, want, value),
        (Want::Enum(_), Value::Text(_)) => fits_value(alloc, want, value),
        (Want::EnumList(_), Value::List(_)) => fits_value(alloc, want, value),
        _ => Ok(false),
    }
}

pub(crate) fn literal_of(expression: &Expr) -> Option<&Value>
    ensures { option_map (λ v. data_of v.now) result ≡ literal_of (term_of expression.now) }
{
    match expression {
        Expr::Literal(value) => Some(value),
        Expr::Node(_, _) => None,
    }
}
