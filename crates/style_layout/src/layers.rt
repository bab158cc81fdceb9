//! What is prepared of the layers of a document.

ghost use Rattle.std.specs.Prelude.{◌≡◌, IfOk, option_map};
ghost use Rattle.decimal_json.specs.Tree.{object, fields_of};
ghost use Rattle.decimal_json.specs.View.{tree_of};
ghost use Rattle.style_layout.specs.CodeView.{layer_seen};
ghost use Rattle.style_layout.specs.Layers.{layer_of, typed_layer, text_of, limit_at, is_invisible};
ghost use Rattle.style_layout.specs.Outlines.{layer_outline};

use crate::forms::{LayerFilter, layer_filter};
use crate::properties::{Property, VISIBILITY, properties_of, set_value};
use decimal_json::{Json, Members, Text};
use fixed_num::Fixed;
use prop_values::Entries;
use property_tables::{LayerType, Place};
use std::alloc::{AllocError, Global};
use style_parts::number_in;
use value_forms::layer_type;

/// What is prepared of a layer of a style: of a value that is evaluated no more than that it is.
#[derive(Drop)]
pub struct StyleLayer {
    pub id: Text,
    pub layer_type: LayerType,
    /// Empty where there is none.
    pub source: Text,
    pub source_layer: Text,
    pub is_invisible: bool,
    pub min_zoom: Option<Fixed>,
    pub max_zoom: Option<Fixed>,
    pub filter: LayerFilter,
    /// In the order of the table.
    pub properties: Vec<Property>,
}

/// What is prepared of a layer, by the values of the global state; none where it has no type.
pub fn prepare_layer(
    alloc: Global,
    globals: &Entries,
    layer: &Json,
) -> Result<Option<StyleLayer>, AllocError>
    ensures { IfOk result (λ found. option_map layer_seen found
        ≡ option_map layer_outline (layer_of globals.now (tree_of layer.now))) }
{
    let Json::Object(members) = layer else {
        return Ok(None);
    };
    match layer_type(members) {
        Some(layer_type) => Ok(Some(typed_layer(alloc, globals, layer_type, members)?)),
        None => Ok(None),
    }
}

fn typed_layer(
    alloc: Global,
    globals: &Entries,
    layer_type: LayerType,
    layer: &Members,
) -> Result<StyleLayer, AllocError>
    ensures { IfOk result (λ made. layer_seen made
        ≡ layer_outline (typed_layer globals.now (object (fields_of layer.now)) layer_type)) }
{
    Ok(StyleLayer {
        id: text_of(alloc, layer, "id")?,
        layer_type,
        source: text_of(alloc, layer, "source")?,
        source_layer: text_of(alloc, layer, "source-layer")?,
        is_invisible: is_invisible(layer),
        min_zoom: limit_at(layer, "minzoom"),
        max_zoom: limit_at(layer, "maxzoom"),
        filter: layer_filter(alloc, globals, layer.get("filter"))?,
        properties: properties_of(alloc, globals, layer_type, layer)?,
    })
}

// The text of a member, and the empty one where there is none.
fn text_of(alloc: Global, layer: &Members, key: &str) -> Result<Text, AllocError>
    ensures { IfOk result (λ text. text ≡ text_of key.now (object (fields_of layer.now))) }
{
    match layer.get(key) {
        Some(Json::Text(text)) => text.share(),
        _ => Text::copy_of(alloc, ""),
    }
}

fn limit_at(layer: &Members, key: &str) -> Option<Fixed>
    ensures { result ≡ limit_at key.now (object (fields_of layer.now)) }
{
    match layer.get(key) {
        Some(json) => number_in(json),
        None => None,
    }
}

fn is_invisible(layer: &Members) -> bool
    ensures { result ≡ is_invisible (object (fields_of layer.now)) }
{
    match set_value(layer, Place::Layout, VISIBILITY) {
        Some(Json::Text(text)) => text.as_str() == "none",
        _ => false,
    }
}
