//! The fault of an edit.

ghost use Rattle.std.specs.Prelude.{◌≡◌, Some, None, is_none, ◌&&◌, if◌then◌else◌};
ghost use Rattle.decimal_json.specs.View.{items_view, tree_at, tree_of};
ghost use Rattle.edit_script.specs.View.{command_seen};
ghost use Rattle.style_edits.specs.ByPlace.{fault_at, is_missing, layer_at};
ghost use Rattle.style_edits.specs.Places.{places_of};
ghost use Rattle.style_edits.specs.Faults.{edit_fault, lacks_property, lacks_source, is_zoom_or_none};
ghost use Rattle.style_edits.specs.Layer.{is_null};
ghost use Rattle.style_edits.specs.Layers.{layer_list};
ghost use Rattle.style_edits.specs.declared.faults.EditFault.{EditFault};

use crate::layer::is_null;
use crate::places::EditPlaces;
use decimal_json::{Json, Text};
use edit_script::Command;
use fixed_num::Fixed;
use style_parts::{is_zoom, layers_of, source_at};

/// Why an edit cannot be made, in the order in which the causes are looked for.
#[derive(Clone, Copy, Debug, PartialEq, Eq)]
pub enum EditFault {
    /// The layer that it changes, removes or moves is not there.
    UnknownLayer,
    /// The layer before which it puts another is not there.
    UnknownBefore,
    /// Its source is not there.
    UnknownSource,
    /// A zoom of it is not from 0 to 24.
    ZoomRange,
    /// It takes away a property that is not set.
    UnknownProperty,
}

/// The fault of an edit of a document, or `None` exactly where it can be made. It asks the places of the layers that
/// the edit names, and looks up a few keys.
#[tactic(auto, using(crate::proofs::EditLaws::fault_by_place))]
pub fn edit_fault(style: &Json, places: EditPlaces, command: &Command) -> Option<EditFault>
    requires { places ≡ places_of (tree_of style.now) (command_seen command.now) }
    ensures { result ≡ edit_fault (tree_of style.now) (command_seen command.now) }
{
    fault_at(style, places, command)
}

fn fault_at(style: &Json, places: EditPlaces, command: &Command) -> Option<EditFault>
    ensures { result ≡ fault_at (tree_of style.now) (command_seen command.now) places }
{
    match command {
        Command::SetPaint(_, name, value) => property_fault(style, places, "paint", name, value),
        Command::SetLayout(_, name, value) => property_fault(style, places, "layout", name, value),
        Command::SetFilter(_, _) => layer_fault(places),
        Command::SetRange(_, min, max) => layer_fault(places).or(range_fault(*min, *max)),
        Command::AddLayer(_, before) => before_fault(places, before),
        Command::RemoveLayer(_) => layer_fault(places),
        Command::MoveLayer(_, before) => layer_fault(places).or(before_fault(places, before)),
        Command::SetZoom(zoom) => range_fault(Some(*zoom), None),
        Command::SetState(source, _, _, _) => source_fault(style, source),
        Command::RemoveState(source, _, _, _) => source_fault(style, source),
        _ => None,
    }
}

fn layer_fault(places: EditPlaces) -> Option<EditFault>
    ensures { result ≡ (if is_none places.layer then Some EditFault.UnknownLayer else None) }
{
    match places.layer {
        Some(_) => None,
        None => Some(EditFault::UnknownLayer),
    }
}

fn before_fault(places: EditPlaces, before: &Option<Text>) -> Option<EditFault>
    ensures { result ≡ (if is_missing before.now places.before then Some EditFault.UnknownBefore else None) }
{
    match (before, places.before) {
        (Some(_), None) => Some(EditFault::UnknownBefore),
        _ => None,
    }
}

fn range_fault(min: Option<Fixed>, max: Option<Fixed>) -> Option<EditFault>
    ensures { result ≡ (if is_zoom_or_none min && is_zoom_or_none max then None else Some EditFault.ZoomRange) }
{
    if is_zoom_or_none(min) && is_zoom_or_none(max) {
        return None;
    }
    Some(EditFault::ZoomRange)
}

fn is_zoom_or_none(zoom: Option<Fixed>) -> bool
    ensures { result ≡ is_zoom_or_none zoom }
{
    match zoom {
        Some(zoom) => is_zoom(zoom),
        None => true,
    }
}

fn source_fault(style: &Json, source: &Text) -> Option<EditFault>
    ensures { result ≡ (if lacks_source (tree_of style.now) (Some source.now)
        then Some EditFault.UnknownSource else None) }
{
    match source_at(style, source.as_str()) {
        Some(_) => None,
        None => Some(EditFault::UnknownSource),
    }
}

fn property_fault(
    style: &Json,
    places: EditPlaces,
    key: &str,
    name: &Text,
    value: &Json,
) -> Option<EditFault>
    ensures { let layer = layer_at places.layer (layer_list (tree_of style.now)) in
        result ≡ (if is_none places.layer then Some EditFault.UnknownLayer else
        if is_null (tree_of value.now) && lacks_property key.now name.now layer then Some EditFault.UnknownProperty
        else None) }
{
    let Some(place) = places.layer else {
        return Some(EditFault::UnknownLayer);
    };
    if is_null(value) && lacks_property(layer_list(style).get(place), key, name.as_str()) {
        return Some(EditFault::UnknownProperty);
    }
    None
}

#[tactic(auto, using(crate::proofs::DocumentLaws::layers_listed))]
fn layer_list(style: &Json) -> &[Json]
    ensures { items_view result.now ≡ layer_list (tree_of style.now) }
{
    layers_of(style)
}

fn lacks_property(layer: Option<&Json>, key: &str, name: &str) -> bool
    ensures { result ≡ lacks_property key.now name.now (tree_at layer.entry) }
{
    layer
        .and_then(|layer| layer.get(key))
        .and_then(|properties| properties.get(name))
        .is_none()
}
