//! A layer of a document, beside what is prepared of it.

ghost use Rattle.std.specs.Prelude.{◌≡◌, ℕ, List, map, slice_get, Some, IfSome, option_map};
ghost use Rattle.decimal_json.specs.Tree.{Tree};
ghost use Rattle.prop_values.specs.Data.{Data};
ghost use Rattle.style_layout.specs.CodeView.{document_layer, document_property, filled_filter, filled_property};
ghost use Rattle.style_layout.specs.CodeView.{layer_seen};
ghost use Rattle.style_layout.specs.Forms.{is_outside};
ghost use Rattle.style_layout.specs.Layers.{is_below_min, is_hidden, is_max_or_above, property_named, show_of};
ghost use Rattle.style_layout.specs.Layers.{sort_property, sort_row};

use crate::features::has_features;
use crate::forms::LayerFilter;
use crate::layers::StyleLayer;
use crate::properties::Property;
use decimal_json::Json;
use fixed_num::Fixed;
use listing_text::Show;
use prop_values::Entries;
use property_tables::LayerType;
use value_forms::is_unread_type;

/// A layer of a document, and what is prepared of it by the values of the global state. Clauses see its values that are
/// evaluated in the document.
#[derive(Clone, Copy)]
pub struct DocumentLayer<'a> {
    pub prepared: &'a StyleLayer,
    pub json: &'a Json,
    pub globals: &'a Entries,
}

/// The property by which the features of a layer are ordered, and its place among the properties.
#[derive(Clone, Copy)]
pub struct SortProperty<'a> {
    pub place: usize,
    pub property: &'a Property,
}

impl<'a> DocumentLayer<'a> {
    /// How the layer is shown at a zoom.
    pub fn show(&self, zoom: Fixed) -> Show
        ensures { result ≡ show_of zoom (document_layer self.now) }
    {
        if is_hidden(self.prepared, zoom) {
            return Show::Hidden;
        }
        if is_unread_type(self.prepared.layer_type) {
            return Show::Unread;
        }
        if has_features(self.prepared.layer_type) && is_outside(&self.prepared.filter) {
            return Show::OutsideFilter;
        }
        Show::Plain
    }

    /// The property by which the features of the type are ordered, where it is set.
    pub fn sort_property(&self) -> Option<SortProperty<'a>>
        ensures property { option_map (λ sort. document_property self.now sort.property.now) result
            ≡ sort_property (document_layer self.now).type (document_layer self.now).properties }
        ensures place { IfSome result (λ sort. slice_get (document_layer self.now).properties sort.place
            ≡ Some (document_property self.now sort.property.now)) }
    {
        match sort_row(self.prepared.layer_type) {
            Some(name) => property_named(name, self.prepared.properties.as_slice()),
            None => None,
        }
    }
}

fn is_hidden(layer: &StyleLayer, zoom: Fixed) -> bool
    ensures { result ≡ is_hidden zoom (layer_seen layer.now) }
{
    layer.is_invisible
        || is_below_min(zoom, layer.min_zoom)
        || is_max_or_above(zoom, layer.max_zoom)
}

fn is_below_min(zoom: Fixed, min: Option<Fixed>) -> bool
    ensures { result ≡ is_below_min zoom min }
{
    match min {
        Some(min) => zoom < min,
        None => false,
    }
}

fn is_max_or_above(zoom: Fixed, max: Option<Fixed>) -> bool
    ensures { result ≡ is_max_or_above zoom max }
{
    match max {
        Some(max) => max <= zoom,
        None => false,
    }
}

#[tactic(auto, using(crate::proofs::FilledLayers::evaluated_is_inside))]
fn is_outside(filter: &LayerFilter) -> bool
    ensures { (globals : List (List ℕ × Data)) (layer : Tree) →
        result ≡ is_outside (filled_filter globals layer filter.now) }
{
    match filter {
        LayerFilter::Outside => true,
        _ => false,
    }
}

fn sort_row(layer_type: LayerType) -> Option<&'static str>
    ensures { option_map (λ name. name.now) result ≡ sort_row layer_type }
{
    match layer_type {
        LayerType::Fill => Some("fill-sort-key"),
        LayerType::Line => Some("line-sort-key"),
        LayerType::Symbol => Some("symbol-sort-key"),
        LayerType::Circle => Some("circle-sort-key"),
        _ => None,
    }
}

// By name, whatever the layer's values are that are evaluated.
fn property_named<'a>(name: &str, properties: &'a [Property]) -> Option<SortProperty<'a>>
    ensures property { (globals : List (List ℕ × Data)) (layer : Tree) →
        option_map (λ sort. filled_property globals layer sort.property.now) result
        ≡ property_named name.now (map (filled_property globals layer) properties.now) }
    ensures place { (globals : List (List ℕ × Data)) (layer : Tree) → IfSome result (λ sort.
        slice_get (map (filled_property globals layer) properties.now) sort.place
        ≡ Some (filled_property globals layer sort.property.now)) }
{
    for place in 0..properties.len() {
        let property = &properties[place];
        if property.row.name == name {
            return Some(SortProperty { place, property });
        }
    }
    None
}
