//! How what is kept follows a command that was done.

ghost use Rattle.std.specs.Prelude.{◌≡◌, ℕ, List, Bool, map, false, true, IsOk, OnErr, OnOk};
ghost use Rattle.decimal_json.specs.View.{tree_of};
ghost use Rattle.edit_script.specs.View.{command_seen};
ghost use Rattle.edit_session.specs.Applied.{tells_image};
ghost use Rattle.edit_session.specs.Answering.{FollowsEdit, IsAccepted, IsOfAccepted, is_of_document, spares_memory};
ghost use Rattle.edit_session.specs.SessionState.{SessionState};
ghost use Rattle.edit_session.specs.View.{IsWholeDocument};
ghost use Rattle.feature_index.specs.Indexes.{AreIndexed};
ghost use Rattle.kept_layers.specs.KeptLayers.{prepared_layers};
ghost use Rattle.kept_layers.specs.View.{IsPrepared, globals_in, tiles_in, trees_in};
ghost use Rattle.style_edits.specs.Layers.{layer_list};
ghost use Rattle.style_layout.specs.CodeView.{tile_seen};
ghost use Rattle.style_layout.specs.Layers.{style_layers};

use crate::layers::PreparedLayers;
use crate::whole::note_types;
use decimal_json::Json;
use edit_script::Command;
use feature_index::FeatureIndexes;
use kept_layers::{KeptLayers, StyleLayers, follow};
use prop_values::Entries;
use std::alloc::{AllocError, Global};
use style_edits::EditPlaces;
use style_layout::{SourceTile, Zoom};
use style_parts::layers_of;

/// What is known of a session before an edit: the places of the layers that it names, and the zoom.
#[derive(Clone, Copy)]
pub(crate) struct BeforeEdit {
    pub(crate) places: EditPlaces,
    pub(crate) zoom: Zoom,
}

/// The layers of a document without findings, as what is kept sees them.
pub(crate) fn shown_style<'s>(
    document: &'s Json,
    layers: &'s PreparedLayers,
    globals: &'s Entries,
    tiles: &'s [SourceTile<'s>],
) -> StyleLayers<'s>
    requires { IsWholeDocument (map tile_seen tiles.now) globals.now (tree_of document.now) layers.now }
    ensures prepared { IsPrepared result }
    ensures layers { trees_in result ≡ layer_list (tree_of document.now) }
    ensures globals { globals_in result ≡ globals.now }
    ensures tiles { tiles_in result ≡ map tile_seen tiles.now }
    ensures style { prepared_layers (globals_in result) (trees_in result)
        ≡ style_layers globals.now (tree_of document.now) }
{
    note_types(document);
    StyleLayers {
        layers: layers_of(document),
        style: &layers.style,
        globals,
        tiles,
    }
}

/// Drops what a command that was done makes stale of what is kept; `style` is as it is after the command. An
/// expression that it changes is read anew.
pub(crate) fn follow_command(
    alloc: Global,
    kept: &mut KeptLayers,
    command: &Command,
    before: &BeforeEdit,
    indexes: &mut FeatureIndexes,
    style: &StyleLayers<'_>,
) -> Result<(), AllocError>
    requires prepared { IsPrepared style.now }
    requires indexed { AreIndexed (tiles_in style.now) indexes.old }
    requires accepted { IsOfAccepted (tiles_in style.now) (globals_in style.now) (trees_in style.now)
        (command_seen command.now) before.now kept.old }
    ensures followed { (scripts : List ℕ → Bool) (p : SessionState)
        → IsAccepted (tiles_in style.now) (globals_in style.now) (trees_in style.now)
        scripts p (command_seen command.now) before.now kept.old
        → OnOk result (FollowsEdit (tiles_in style.now) scripts p (command_seen command.now) kept.new) }
    ensures indexed { AreIndexed (tiles_in style.now) indexes.new }
    ensures images { OnErr result (tells_image (command_seen command.now) ≡ false) }
    ensures memory { spares_memory (command_seen command.now) ≡ true → IsOk result }
{
    match command {
        Command::SetZoom(zoom) => {
            kept.turn_zoom(before.zoom, Zoom::new(*zoom));
            Ok(())
        }
        Command::SetState(source, layer, id, _) => {
            kept.turn_state(source.as_str(), layer.as_str(), *id, indexes, style);
            Ok(())
        }
        Command::RemoveState(source, layer, id, _) => {
            kept.turn_state(source.as_str(), layer.as_str(), *id, indexes, style);
            Ok(())
        }
        Command::AddImage(_) => {
            kept.turn_images();
            Ok(())
        }
        Command::RemoveImage(_) => {
            kept.turn_images();
            Ok(())
        }
        Command::SetGlobal(_, _) => kept.turn_globals(alloc, style),
        _ => follow_document(alloc, kept, command, before, style),
    }
}

// The same of a command whose document may be another.
#[tactic(auto, using(crate::proofs::AppliedLaws::none_taken))]
fn follow_document(
    alloc: Global,
    kept: &mut KeptLayers,
    command: &Command,
    before: &BeforeEdit,
    style: &StyleLayers<'_>,
) -> Result<(), AllocError>
    requires prepared { IsPrepared style.now }
    requires accepted { IsOfAccepted (tiles_in style.now) (globals_in style.now) (trees_in style.now)
        (command_seen command.now) before.now kept.old }
    requires document { is_of_document (command_seen command.now) ≡ true }
    ensures followed { (scripts : List ℕ → Bool) (p : SessionState)
        → IsAccepted (tiles_in style.now) (globals_in style.now) (trees_in style.now)
        scripts p (command_seen command.now) before.now kept.old
        → OnOk result (FollowsEdit (tiles_in style.now) scripts p (command_seen command.now) kept.new) }
    ensures images { tells_image (command_seen command.now) ≡ false }
    ensures memory { spares_memory (command_seen command.now) ≡ true → IsOk result }
{
    follow(alloc, kept, command, before.places, style)
}
