//! Literals among simplified elements.

ghost use Rattle.std.specs.Prelude.{◌≡◌, Some, IfOk, option_map};
ghost use Rattle.decimal_json.specs.Tree.{list};
ghost use Rattle.decimal_json.specs.View.{tree_of, trees};
ghost use Rattle.prop_values.specs.View.{data_of};
ghost use Rattle.expr_syntax.specs.Elements.{second};
ghost use Rattle.style_simplify.specs.Literals.{begins_with, is_literal_node, value_at, literal_value, kind_of_value};
ghost use Rattle.style_simplify.specs.Literals.{literal_element, number_literal, bare_literal};
ghost use Rattle.style_simplify.specs.Simple.{literal_at};
ghost use Rattle.style_simplify.specs.View.{element_seen};

use crate::element::SimpleElement;
use decimal_json::{Json, NumText, copy};
use expr_types::literal_kind_under;
use fixed_num::{Fixed, json_numbers_are_read, written_numbers_are_read};
use prop_values::{Kind, Value, Want, from_json, to_text};
use std::alloc::{AllocError, Global};

/// Whether the first item of an array is a text.
pub(crate) fn begins_with(text: &str, items: &[Json]) -> bool
    ensures { result ≡ begins_with text.now (trees items.now) }
{
    match items {
        [Json::Text(first), ..] => first.as_str() == text,
        _ => false,
    }
}

/// Whether a node is a `literal` node.
pub(crate) fn is_literal_node(items: &[Json]) -> bool
    ensures { result ≡ is_literal_node (trees items.now) }
{
    begins_with("literal", items)
}

/// The value of a literal, bare or of a `literal` node, or `None` exactly where a tree is none.
pub(crate) fn literal_value(alloc: Global, json: &Json) -> Result<Option<Value>, AllocError>
    ensures { IfOk result (λ value. option_map data_of value ≡ literal_value (tree_of json.now)) }
{
    match json {
        Json::List(items) => node_value(alloc, items.as_slice()),
        Json::Object(_) => Ok(None),
        _ => value_in(alloc, json),
    }
}

fn node_value(alloc: Global, items: &[Json]) -> Result<Option<Value>, AllocError>
    ensures { IfOk result (λ value. option_map data_of value ≡ literal_value (list (trees items.now))) }
{
    if is_literal_node(items) {
        second_value(alloc, items)
    } else {
        Ok(None)
    }
}

#[tactic(auto, using(crate::proofs::NodeLaws::one_second))]
fn second_value(alloc: Global, items: &[Json]) -> Result<Option<Value>, AllocError>
    ensures { IfOk result (λ value. option_map data_of value ≡ value_at (second (trees items.now))) }
{
    match items {
        [] => Ok(None),
        [_] => Ok(None),
        [_, value, ..] => value_in(alloc, value),
    }
}

fn value_in(alloc: Global, json: &Json) -> Result<Option<Value>, AllocError>
    ensures { IfOk result (λ value. option_map data_of value ≡ value_at (Some (tree_of json.now))) }
{
    match from_json(alloc, json)? {
        Ok(value) => Ok(Some(value)),
        Err(_) => Ok(None),
    }
}

fn kind_of_value(
    alloc: Global,
    want: &Want,
    value: Option<Value>,
) -> Result<Option<Kind>, AllocError>
    ensures { IfOk result (λ kind. kind ≡ kind_of_value want.now (option_map data_of value)) }
{
    match value {
        Some(value) => literal_kind_under(alloc, &value, want),
        None => Ok(None),
    }
}

/// A literal as it is written, under a want.
pub(crate) fn literal_element(
    alloc: Global,
    want: &Want,
    json: Json,
) -> Result<SimpleElement, AllocError>
    ensures { IfOk result (λ made. element_seen made ≡ literal_element want.now (tree_of json)) }
{
    let value = literal_value(alloc, &json)?;
    let kind = kind_of_value(alloc, want, value)?;
    Ok(SimpleElement {
        json,
        is_part: false,
        kind,
        asks: Vec::new(alloc),
        reads: false,
    })
}

/// A literal that reads as a value, under a want.
pub(crate) fn literal_at(
    alloc: Global,
    value: &Value,
    want: &Want,
    json: &Json,
) -> Result<SimpleElement, AllocError>
    ensures { IfOk result (λ made. element_seen made ≡ literal_at (data_of value.now) want.now (tree_of json.now)) }
{
    Ok(SimpleElement {
        json: copy(alloc, json)?,
        is_part: false,
        kind: literal_kind_under(alloc, value, want)?,
        asks: Vec::new(alloc),
        reads: false,
    })
}

/// How a value is written as a bare literal, or `None` exactly where it is a color, a list or a map.
pub(crate) fn bare_literal(alloc: Global, value: Value) -> Result<Option<Json>, AllocError>
    ensures { IfOk result (λ json. option_map tree_of json ≡ bare_literal (data_of value)) }
{
    match value {
        Value::Null => Ok(Some(Json::Null)),
        Value::Bool(flag) => Ok(Some(Json::Bool(flag))),
        Value::Num(number) => Ok(Some(number_json(alloc, number)?)),
        Value::Text(text) => Ok(Some(Json::Text(text))),
        Value::Color(_) => Ok(None),
        Value::List(_) => Ok(None),
        Value::Map(_) => Ok(None),
    }
}

fn number_json(alloc: Global, number: Fixed) -> Result<Json, AllocError>
    ensures { IfOk result (λ made. Some (tree_of made) ≡ number_literal number) }
{
    written_numbers_are_read();
    json_numbers_are_read();
    let _bound = number.millionths();
    let text = to_text(alloc, &Value::Num(number))?;
    Ok(Json::Num(NumText::copy_of(alloc, text.as_str())?))
}
