ghost use Rattle.std.specs.Prelude.{◌≡◌, IfOk};
ghost use Rattle.color_values.specs.ColorOf.{color_of};
ghost use Rattle.prop_values.specs.Data.{text};
ghost use Rattle.prop_values.specs.ValueText.{shown_text};
ghost use Rattle.prop_values.specs.View.{data_of};
ghost use Rattle.prop_values.specs.ViewParts.{evaluated_of, items};
ghost use Rattle.property_tables.specs.Fitting.{fit, fit_boolean, fit_number, fit_text, fit_color, fit_object};
ghost use Rattle.property_tables.specs.Fitting.{fit_image, fit_list, fit_choice, fit_choices, read_as_color, is_item};
ghost use Rattle.property_tables.specs.Fitting.{are_items, has_count, is_choice, are_choices};

use color_values::read_color;
use prop_values::{Choice, EvalFault, Item, PackedColor, Value, Want, to_text};
use std::alloc::{AllocError, Global};

/// Fits a value to a want: the value as it passes on, or its fault.
///
/// `Any` lets each value pass, and `Shown` gives the text of each. Every other want lets the form of its name
/// pass and has the fault `WrongType` for other forms. Beside that `Color` reads a text (`NotColor` where it
/// is none of a color), `Image` lets null pass, `List` asks for the form of each item and for their number,
/// and `Enum` and `EnumList` ask for texts of a set (`NotInEnum` for other texts).
///
/// Only the text of a value that is no text takes memory.
pub fn fit(alloc: Global, value: Value, want: &Want) -> Result<Result<Value, EvalFault>, AllocError>
    ensures { IfOk result (λ fitted. evaluated_of fitted ≡ fit want.now (data_of value)) }
{
    match want {
        Want::Any => Ok(Ok(value)),
        Want::Shown => Ok(Ok(shown(alloc, value)?)),
        Want::Boolean => Ok(fit_boolean(value)),
        Want::Number => Ok(fit_number(value)),
        Want::Text => Ok(fit_text(value)),
        Want::Color => Ok(fit_color(value)),
        Want::Object => Ok(fit_object(value)),
        Want::Image => Ok(fit_image(value)),
        Want::List(item, count) => Ok(fit_list(value, *item, *count)),
        Want::Enum(choice) => Ok(fit_choice(value, *choice)),
        Want::EnumList(choice) => Ok(fit_choices(value, *choice)),
    }
}

// The text of a value, which is the value itself where it is a text.
fn shown(alloc: Global, value: Value) -> Result<Value, AllocError>
    ensures { IfOk result (λ shown. data_of shown ≡ text (shown_text (data_of value))) }
{
    match value {
        Value::Text(text) => Ok(Value::Text(text)),
        other => Ok(Value::Text(to_text(alloc, &other)?)),
    }
}

fn fit_boolean(value: Value) -> Result<Value, EvalFault>
    ensures { evaluated_of result ≡ fit_boolean (data_of value) }
{
    match value {
        Value::Bool(flag) => Ok(Value::Bool(flag)),
        _ => Err(EvalFault::WrongType),
    }
}

fn fit_number(value: Value) -> Result<Value, EvalFault>
    ensures { evaluated_of result ≡ fit_number (data_of value) }
{
    match value {
        Value::Num(number) => Ok(Value::Num(number)),
        _ => Err(EvalFault::WrongType),
    }
}

fn fit_text(value: Value) -> Result<Value, EvalFault>
    ensures { evaluated_of result ≡ fit_text (data_of value) }
{
    match value {
        Value::Text(text) => Ok(Value::Text(text)),
        _ => Err(EvalFault::WrongType),
    }
}

fn fit_color(value: Value) -> Result<Value, EvalFault>
    ensures { evaluated_of result ≡ fit_color (data_of value) }
{
    match value {
        Value::Color(color) => Ok(Value::Color(color)),
        Value::Text(text) => color_of_text(text.as_str()),
        _ => Err(EvalFault::WrongType),
    }
}

fn color_of_text(text: &str) -> Result<Value, EvalFault>
    ensures { evaluated_of result ≡ read_as_color (color_of text.now) }
{
    match read_color(text) {
        Some(color) => Ok(Value::Color(PackedColor::of(&color))),
        None => Err(EvalFault::NotColor),
    }
}

fn fit_object(value: Value) -> Result<Value, EvalFault>
    ensures { evaluated_of result ≡ fit_object (data_of value) }
{
    match value {
        Value::Map(entries) => Ok(Value::Map(entries)),
        _ => Err(EvalFault::WrongType),
    }
}

fn fit_image(value: Value) -> Result<Value, EvalFault>
    ensures { evaluated_of result ≡ fit_image (data_of value) }
{
    match value {
        Value::Null => Ok(Value::Null),
        Value::Text(name) => Ok(Value::Text(name)),
        _ => Err(EvalFault::WrongType),
    }
}

fn fit_list(value: Value, item: Item, count: Option<u32>) -> Result<Value, EvalFault>
    ensures { evaluated_of result ≡ fit_list item count (data_of value) }
{
    let Value::List(values) = value else {
        return Err(EvalFault::WrongType);
    };
    if has_count(values.as_slice(), count) && are_items(values.as_slice(), item) {
        Ok(Value::List(values))
    } else {
        Err(EvalFault::WrongType)
    }
}

// Whether there are as many values as the number says, if there is one.
#[tactic(auto, using(crate::proofs::ItemCounts::count_items))]
fn has_count(values: &[Value], count: Option<u32>) -> bool
    ensures { result ≡ has_count count (items values.now) }
{
    match count {
        Some(count) => values.len() == count as usize,
        None => true,
    }
}

fn are_items(values: &[Value], item: Item) -> bool
    ensures { result ≡ are_items item (items values.now) }
{
    for value in values {
        if !is_item(value, item) {
            return false;
        }
    }
    true
}

fn is_item(value: &Value, item: Item) -> bool
    ensures { result ≡ is_item item (data_of value.now) }
{
    match item {
        Item::Any => true,
        Item::Boolean => matches!(value, Value::Bool(_)),
        Item::Number => matches!(value, Value::Num(_)),
        Item::Text => matches!(value, Value::Text(_)),
    }
}

fn fit_choice(value: Value, choice: Choice) -> Result<Value, EvalFault>
    ensures { evaluated_of result ≡ fit_choice choice (data_of value) }
{
    let Value::Text(text) = value else {
        return Err(EvalFault::WrongType);
    };
    if choice.holds(text.as_str()) {
        Ok(Value::Text(text))
    } else {
        Err(EvalFault::NotInEnum)
    }
}

fn fit_choices(value: Value, choice: Choice) -> Result<Value, EvalFault>
    ensures { evaluated_of result ≡ fit_choices choice (data_of value) }
{
    let Value::List(values) = value else {
        return Err(EvalFault::WrongType);
    };
    if !are_items(values.as_slice(), Item::Text) {
        return Err(EvalFault::WrongType);
    }
    if !are_choices(values.as_slice(), choice) {
        return Err(EvalFault::NotInEnum);
    }
    Ok(Value::List(values))
}

fn are_choices(values: &[Value], choice: Choice) -> bool
    ensures { result ≡ are_choices choice (items values.now) }
{
    for value in values {
        if !is_choice(value, choice) {
            return false;
        }
    }
    true
}

fn is_choice(value: &Value, choice: Choice) -> bool
    ensures { result ≡ is_choice choice (data_of value.now) }
{
    match value {
        Value::Text(text) => choice.holds(text.as_str()),
        _ => false,
    }
}
