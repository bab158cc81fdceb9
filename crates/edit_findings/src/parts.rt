//! The findings of a property or a filter that is put into a layer.

ghost use Rattle.std.specs.Prelude.{◌≡◌, ◌<◌, length, map, slice_index_or, IfOk, IfSome};
ghost use Rattle.decimal_json.specs.Tree.{Tree};
ghost use Rattle.decimal_json.specs.View.{tree_of};
ghost use Rattle.style_edits.specs.Layer.{is_null};
ghost use Rattle.style_edits.specs.Layers.{layer_list};
ghost use Rattle.style_rules.specs.CodeView.{finding_seen};
ghost use Rattle.value_forms.specs.LayerTypes.{layer_type};
ghost use Rattle.edit_findings.specs.FoundAfter.{filter_found, properties_key, property_found};

use crate::layers::layer_list;
use decimal_json::{Here, Json, Text};
use property_tables::{LayerType, Place};
use std::alloc::{AllocError, Global};
use style_rules::{Findings, filter_findings, property_findings};
use value_forms::layer_type;

/// What a property breaks in a layer, by the place of the layer; null takes it away, and breaks nothing.
pub(crate) fn after_property(
    alloc: Global,
    document: &Json,
    layer: Option<usize>,
    place: Place,
    name: &Text,
    value: &Json,
) -> Result<Findings, AllocError>
    requires { IfSome layer (λ i. i < length (layer_list (tree_of document.now))) }
    ensures { IfOk result (λ found. map finding_seen found
        ≡ property_found (layer_list (tree_of document.now)) place layer name.now (tree_of value.now)) }
{
    let Some(layer) = layer else {
        return Ok(Findings::new(alloc));
    };
    if is_null(value) {
        return Ok(Findings::new(alloc));
    }
    let tested = type_at(document, layer);
    let layers = Here::Key("layers", &Here::Root);
    let here = Here::Index(layer, &layers);
    let properties = Here::Key(properties_key(place), &here);
    property_findings(alloc, tested, place, name.as_str(), value, &properties)
}

fn type_at(document: &Json, layer: usize) -> Option<LayerType>
    requires { layer < length (layer_list (tree_of document.now)) }
    ensures { (other : Tree) → result ≡ layer_type (slice_index_or (layer_list (tree_of document.now)) layer other) }
{
    type_of(&layer_list(document)[layer])
}

fn type_of(layer: &Json) -> Option<LayerType>
    ensures { result ≡ layer_type (tree_of layer.now) }
{
    layer_type(layer.as_members()?)
}

fn properties_key(place: Place) -> &'static str
    ensures { result.now ≡ properties_key place }
{
    match place {
        Place::Layout => "layout",
        Place::Paint => "paint",
    }
}

fn is_null(json: &Json) -> bool
    ensures { result ≡ is_null (tree_of json.now) }
{
    match json {
        Json::Null => true,
        _ => false,
    }
}

/// What a filter breaks in a layer, by the place of the layer; null takes it away, and breaks nothing.
pub(crate) fn after_filter(
    alloc: Global,
    layer: Option<usize>,
    filter: &Json,
) -> Result<Findings, AllocError>
    ensures { IfOk result (λ found. map finding_seen found ≡ filter_found layer (tree_of filter.now)) }
{
    let Some(layer) = layer else {
        return Ok(Findings::new(alloc));
    };
    if is_null(filter) {
        return Ok(Findings::new(alloc));
    }
    let layers = Here::Key("layers", &Here::Root);
    let here = Here::Index(layer, &layers);
    filter_findings(alloc, filter, &Here::Key("filter", &here))
}
