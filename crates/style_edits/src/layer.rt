//! Copies of a layer in which one part is edited.

ghost use Rattle.std.specs.Prelude.{◌≡◌, IfOk};
ghost use Rattle.fixed_num.specs.NumberText.{number_text};
ghost use Rattle.decimal_json.specs.Tree.{number as number_tree};
ghost use Rattle.decimal_json.specs.View.{tree_of};
ghost use Rattle.style_edits.specs.Layer.{is_null, properties_at, with_property, with_filter, with_limit, with_range};
ghost use Rattle.style_edits.specs.Objects.{object_with, object_without, object_replacing};

use crate::objects::{object_with, object_without, replace_member};
use decimal_json::{Json, NumText, Text, copy};
use fixed_num::{Fixed, json_numbers_are_read, written_numbers_are_read};
use prop_values::{Value, to_text};
use std::alloc::{AllocError, Global};

pub(crate) fn is_null(json: &Json) -> bool
    ensures { result ≡ is_null (tree_of json.now) }
{
    match json {
        Json::Null => true,
        _ => false,
    }
}

/// A layer with a property of a key, `layout` or `paint`, set to a value, or taken away by null.
pub(crate) fn with_property(
    alloc: Global,
    layer: &Json,
    key: &str,
    name: &Text,
    value: &Json,
) -> Result<Json, AllocError>
    ensures { IfOk result (λ made. tree_of made
        ≡ with_property key.now name.now (tree_of value.now) (tree_of layer.now)) }
{
    let layer = copy(alloc, layer)?;
    if is_null(value) {
        return Ok(without_value(layer, key, name.as_str()));
    }
    with_value(alloc, layer, key, name, value)
}

// Without the property of a name.
#[tactic(auto, using(crate::proofs::ObjectLaws::object_replaced_again, crate::proofs::ObjectLaws::object_absent))]
fn without_value(layer: Json, key: &str, name: &str) -> Json
    ensures { tree_of result
        ≡ object_replacing key.now (object_without name.now (properties_at key.now (tree_of layer))) (tree_of layer) }
{
    let mut layer = layer;
    if let Some(properties) = replace_member(&mut layer, key, Json::Null) {
        let _ = replace_member(&mut layer, key, object_without(properties, name));
    }
    layer
}

// With a property set to a value.
#[tactic(auto, using(crate::proofs::ObjectLaws::object_put_again))]
fn with_value(
    alloc: Global,
    layer: Json,
    key: &str,
    name: &Text,
    value: &Json,
) -> Result<Json, AllocError>
    ensures { IfOk result (λ made. tree_of made
        ≡ object_with key.now (object_with name.now (tree_of value.now) (properties_at key.now (tree_of layer)))
        (tree_of layer)) }
{
    let mut layer = layer;
    let value = copy(alloc, value)?;
    let properties = match replace_member(&mut layer, key, Json::Null) {
        Some(properties) => properties,
        None => Json::Null,
    };
    let properties = object_with(alloc, properties, name.share()?, value)?;
    object_with(alloc, layer, Text::copy_of(alloc, key)?, properties)
}

/// A layer with a filter, or with none for null.
pub(crate) fn with_filter(alloc: Global, layer: &Json, filter: &Json) -> Result<Json, AllocError>
    ensures { IfOk result (λ made. tree_of made ≡ with_filter (tree_of filter.now) (tree_of layer.now)) }
{
    let layer = copy(alloc, layer)?;
    if is_null(filter) {
        return Ok(object_without(layer, "filter"));
    }
    let filter = copy(alloc, filter)?;
    object_with(alloc, layer, Text::copy_of(alloc, "filter")?, filter)
}

/// A layer with other limits of the zoom, and without those that are not given.
pub(crate) fn with_range(
    alloc: Global,
    layer: &Json,
    min: Option<Fixed>,
    max: Option<Fixed>,
) -> Result<Json, AllocError>
    ensures { IfOk result (λ made. tree_of made ≡ with_range min max (tree_of layer.now)) }
{
    let layer = object_without(copy(alloc, layer)?, "minzoom");
    let layer = object_without(layer, "maxzoom");
    let layer = with_limit(alloc, layer, "minzoom", min)?;
    with_limit(alloc, layer, "maxzoom", max)
}

fn with_limit(
    alloc: Global,
    layer: Json,
    key: &str,
    limit: Option<Fixed>,
) -> Result<Json, AllocError>
    ensures { IfOk result (λ made. tree_of made ≡ with_limit key.now limit (tree_of layer)) }
{
    match limit {
        None => Ok(layer),
        Some(zoom) => {
            let zoom = number_json(alloc, zoom)?;
            object_with(alloc, layer, Text::copy_of(alloc, key)?, zoom)
        }
    }
}

fn number_json(alloc: Global, number: Fixed) -> Result<Json, AllocError>
    ensures { IfOk result (λ made. tree_of made ≡ number_tree (number_text number)) }
{
    written_numbers_are_read();
    json_numbers_are_read();
    let _bound = number.millionths();
    let text = to_text(alloc, &Value::Num(number))?;
    Ok(Json::Num(NumText::copy_of(alloc, text.as_str())?))
}
