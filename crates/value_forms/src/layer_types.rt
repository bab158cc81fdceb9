//! The types of the layers of a document.

ghost use Rattle.std.specs.Prelude.{◌≡◌};
ghost use Rattle.decimal_json.specs.Tree.{object, fields_of};
ghost use Rattle.decimal_json.specs.View.{tree_of};
ghost use Rattle.value_forms.specs.LayerTypes.{is_unread_type, layer_type, tested_type, type_in};

use decimal_json::{Json, Members};
use property_tables::LayerType;

/// The type of a layer, or `None` exactly where it is not well formed or the layer has a `ref`.
pub fn layer_type(layer: &Members) -> Option<LayerType>
    ensures { result ≡ layer_type (object (fields_of layer.now)) }
{
    if layer.get("ref").is_some() {
        return None;
    }
    layer.get("type").and_then(type_in)
}

/// The type of a layer that a tree names, or `None` exactly where it names none.
pub fn type_in(json: &Json) -> Option<LayerType>
    ensures { result ≡ type_in (tree_of json.now) }
{
    json.as_text().and_then(LayerType::named)
}

/// The type of a layer whose layout and paint are tested: of hillshade and color-relief they pass unread.
pub fn tested_type(layer_type: Option<LayerType>) -> Option<LayerType>
    ensures { result ≡ tested_type layer_type }
{
    match layer_type {
        Some(layer_type) if is_unread_type(layer_type) => None,
        other => other,
    }
}

/// Whether the layout and paint of layers of a type pass unread.
pub fn is_unread_type(layer_type: LayerType) -> bool
    ensures { result ≡ is_unread_type layer_type }
{
    matches!(layer_type, LayerType::Hillshade | LayerType::ColorRelief)
}
