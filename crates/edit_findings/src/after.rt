//! The findings of an edited document.

ghost use Rattle.std.specs.Prelude.{◌≡◌, ◌<◌, [], length, map, false, None, IfOk, IfSome, IsOk};
ghost use Rattle.std.specs.Option.{option_and_then};
ghost use Rattle.decimal_json.specs.View.{items_view, tree_of};
ghost use Rattle.edit_script.specs.View.{command_seen};
ghost use Rattle.style_edits.specs.Edited.{edited};
ghost use Rattle.style_edits.specs.Faults.{edit_fault};
ghost use Rattle.style_edits.specs.Layers.{layer_list};
ghost use Rattle.style_edits.specs.Needs.{takes_memory};
ghost use Rattle.style_edits.specs.Places.{added_id, layer_place, places_of};
ghost use Rattle.style_rules.specs.CodeView.{finding_seen};
ghost use Rattle.style_rules.specs.Findings.{findings};
ghost use Rattle.edit_findings.specs.FoundAfter.{found_by_edit, AreKeyed, HasKeysFor};

use crate::layers::{after_addition, layer_list};
use crate::parts::{after_filter, after_property};
use decimal_json::Json;
use edit_script::Command;
use property_tables::Place;
use std::alloc::{AllocError, Global};
use style_edits::{EditPlaces, edit_places};
use style_rules::{Findings, documents_have_distinct_members};

/// The findings that a document without findings has after an edit without fault. The document is not edited. Only an
/// edit that puts something into it takes memory.
pub fn findings_after(
    alloc: Global,
    document: &Json,
    command: &Command,
) -> Result<Findings, AllocError>
    requires sound { findings (tree_of document.now) ≡ [] }
    requires possible { edit_fault (tree_of document.now) (command_seen command.now) ≡ None }
    ensures found { IfOk result
        (λ found. map finding_seen found ≡ findings (edited (tree_of document.now) (command_seen command.now))) }
    ensures memory { takes_memory (command_seen command.now) ≡ false → IsOk result }
{
    note_keys(document, command);
    let places = edit_places(document, command);
    findings_at(alloc, document, places, command)
}

/// As `findings_after`, of an edit whose layers are at these places. No name occurs twice in a layer, where one is
/// added or moved: `layers_have_distinct_members` says it of a document.
pub fn findings_at(
    alloc: Global,
    document: &Json,
    places: EditPlaces,
    command: &Command,
) -> Result<Findings, AllocError>
    requires sound { findings (tree_of document.now) ≡ [] }
    requires possible { edit_fault (tree_of document.now) (command_seen command.now) ≡ None }
    requires places { places ≡ places_of (tree_of document.now) (command_seen command.now) }
    requires keys { HasKeysFor (command_seen command.now) (layer_list (tree_of document.now)) }
    ensures found { IfOk result
        (λ found. map finding_seen found ≡ findings (edited (tree_of document.now) (command_seen command.now))) }
    ensures memory { takes_memory (command_seen command.now) ≡ false → IsOk result }
{
    documents_have_distinct_members(document);
    found_by_edit(alloc, document, places, command)
}

fn found_by_edit(
    alloc: Global,
    document: &Json,
    places: EditPlaces,
    command: &Command,
) -> Result<Findings, AllocError>
    requires layer { IfSome places.layer (λ i. i < length (layer_list (tree_of document.now))) }
    requires before { IfSome places.before (λ i. i < length (layer_list (tree_of document.now))) }
    requires same { places.same
        ≡ option_and_then (layer_place (layer_list (tree_of document.now))) (added_id (command_seen command.now)) }
    ensures found { IfOk result
        (λ found. map finding_seen found ≡ found_by_edit (tree_of document.now) places (command_seen command.now)) }
    ensures memory { takes_memory (command_seen command.now) ≡ false → IsOk result }
{
    match command {
        Command::SetPaint(_, name, value) => {
            after_property(alloc, document, places.layer, Place::Paint, name, value)
        }
        Command::SetLayout(_, name, value) => {
            after_property(alloc, document, places.layer, Place::Layout, name, value)
        }
        Command::SetFilter(_, filter) => after_filter(alloc, places.layer, filter),
        Command::AddLayer(layer, _) => after_addition(alloc, document, places, layer),
        _ => Ok(Findings::new(alloc)),
    }
}

// No name occurs twice in a layer, where one is added or moved.
fn note_keys(document: &Json, command: &Command)
    ensures { HasKeysFor (command_seen command.now) (layer_list (tree_of document.now)) }
{
    match command {
        Command::AddLayer(_, _) => layers_have_distinct_members(layer_list(document)),
        Command::MoveLayer(_, _) => layers_have_distinct_members(layer_list(document)),
        _ => {}
    }
}

/// That no name occurs twice in any of these layers. Takes a look at each.
pub fn layers_have_distinct_members(layers: &[Json])
    ensures { AreKeyed (items_view layers.now) }
{
    for layer in layers {
        documents_have_distinct_members(layer);
    }
}
