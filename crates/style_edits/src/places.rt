//! The places of the layers that an edit names.

ghost use Rattle.std.specs.Prelude.{◌≡◌, codes, option_map};
ghost use Rattle.std.specs.List.{position};
ghost use Rattle.std.specs.Option.{option_and_then};
ghost use Rattle.decimal_json.specs.Accessors.{text_at};
ghost use Rattle.decimal_json.specs.View.{tree_of};
ghost use Rattle.edit_script.specs.View.{command_seen};
ghost use Rattle.style_edits.specs.Places.{added_id, layer_place, places_of};
ghost use Rattle.style_edits.specs.Faults.{named_layer, named_before};
ghost use Rattle.style_edits.specs.Layers.{layer_list};
ghost use Rattle.style_parts.specs.Parts.{is_id_of};

use decimal_json::{Json, Text};
use edit_script::Command;
use style_parts::{is_id_of, layers_of};

/// The places of the layers that an edit names, counted from 0: each where it names one that is there.
#[derive(Clone, Copy, Debug, PartialEq, Eq)]
pub struct EditPlaces {
    /// Of the layer that it changes, removes or moves.
    pub layer: Option<usize>,
    /// Of the layer before which it puts another.
    pub before: Option<usize>,
    /// Of the layer that has the id of the one that it adds.
    pub same: Option<usize>,
}

/// The places of the layers that an edit of a document names. Goes through the layers once for each name.
pub fn edit_places(style: &Json, command: &Command) -> EditPlaces
    ensures { result ≡ places_of (tree_of style.now) (command_seen command.now) }
{
    EditPlaces {
        layer: place_named(style, layer_named(command)),
        before: place_named(style, before_named(command)),
        same: place_named(style, id_added(command)),
    }
}

/// The id of the layer that an edit changes, removes or moves.
pub fn layer_named(command: &Command) -> Option<&Text>
    ensures { option_map (λ id. id.now) result ≡ named_layer (command_seen command.now) }
{
    match command {
        Command::SetPaint(layer, _, _) => Some(layer),
        Command::SetLayout(layer, _, _) => Some(layer),
        Command::SetFilter(layer, _) => Some(layer),
        Command::SetRange(layer, _, _) => Some(layer),
        Command::RemoveLayer(id) => Some(id),
        Command::MoveLayer(id, _) => Some(id),
        _ => None,
    }
}

/// The id of the layer before which an edit puts another.
pub fn before_named(command: &Command) -> Option<&Text>
    ensures { option_map (λ id. id.now) result ≡ named_before (command_seen command.now) }
{
    match command {
        Command::AddLayer(_, before) => before.as_ref(),
        Command::MoveLayer(_, before) => before.as_ref(),
        _ => None,
    }
}

/// The id of the layer that an edit adds; none where it is no text.
pub fn id_added(command: &Command) -> Option<&Text>
    ensures { option_map (λ id. id.now) result ≡ added_id (command_seen command.now) }
{
    match command {
        Command::AddLayer(layer, _) => text_id(layer),
        _ => None,
    }
}

/// The id of a layer; none where it is no text.
pub fn text_id(layer: &Json) -> Option<&Text>
    ensures { option_map (λ id. id.now) result ≡ text_at (codes "id") (tree_of layer.now) }
{
    match layer.get("id") {
        Some(Json::Text(id)) => Some(id),
        _ => None,
    }
}

fn place_named(style: &Json, name: Option<&Text>) -> Option<usize>
    ensures { result
        ≡ option_and_then (layer_place (layer_list (tree_of style.now))) (option_map (λ id. id.now) name.entry) }
{
    match name {
        Some(id) => layer_place(style, id.as_str()),
        None => None,
    }
}

/// The place of the layer that has this text as its id, counted from 0; of the first where several have it. Goes
/// through the layers.
#[tactic(auto, using(crate::proofs::PlaceLaws::place_seen, crate::proofs::DocumentLaws::layers_listed))]
pub fn layer_place(style: &Json, id: &str) -> Option<usize>
    ensures { result ≡ layer_place (layer_list (tree_of style.now)) id.now }
{
    place_in(layers_of(style), id)
}

fn place_in(layers: &[Json], id: &str) -> Option<usize>
    ensures { result ≡ position (λ layer. is_id_of id.now (tree_of layer)) layers.now }
{
    layers.iter().position(|layer| is_id_of(id, layer))
}
