//! Edits of a document.

ghost use Rattle.std.specs.Prelude.{◌≡◌, false, true, IsOk, IfOk, OnOk, OnErr};
ghost use Rattle.std.specs.Result.{result_err};
ghost use Rattle.decimal_json.specs.View.{tree_of};
ghost use Rattle.edit_script.specs.View.{command_seen};
ghost use Rattle.style_edits.specs.Places.{places_of};
ghost use Rattle.style_edits.specs.Edited.{edited};
ghost use Rattle.style_edits.specs.Faults.{edit_fault};
ghost use Rattle.style_edits.specs.Needs.{removes_layer, takes_memory};
ghost use Rattle.style_edits.specs.Undone.{IsUndo, adds_nothing, restores_layer};

use crate::document::{put_layers, take_layers};
use crate::faults::{EditFault, edit_fault};
use crate::layers::edit_layers;
use crate::places::{EditPlaces, edit_places};
use crate::undo::Undo;
use decimal_json::Json;
use edit_script::Command;
use std::alloc::{AllocError, Global};

/// Edits a document in place, and gives what takes the edit back; or gives its fault, and then the document stays. It
/// stays too when allocation fails. An edit of what is kept beside the document, as of the zoom or of a state, leaves
/// it as it is. Texts and numbers are shared with the command. Takes time linear in the number of layers, in the layer
/// that is edited and in the command.
pub fn edit_style(
    alloc: Global,
    style: &mut Json,
    command: &Command,
) -> Result<Result<Undo, EditFault>, AllocError>
    ensures fault { IfOk result (λ made.
        result_err made ≡ edit_fault (tree_of style.old) (command_seen command.now)) }
    ensures edited { IfOk result (λ made.
        OnOk made (tree_of style.new ≡ edited (tree_of style.old) (command_seen command.now))) }
    ensures undo { IfOk result (λ made. IfOk made (λ undo. IsUndo undo (tree_of style.old) (tree_of style.new))) }
    ensures refused { IfOk result (λ made. OnErr made (tree_of style.new ≡ tree_of style.old)) }
    ensures err { OnErr result (tree_of style.new ≡ tree_of style.old) }
    ensures restores { removes_layer (command_seen command.now) ≡ false
        → IfOk result (λ made. IfOk made (λ undo. restores_layer undo ≡ false)) }
    ensures memory { takes_memory (command_seen command.now) ≡ false → IsOk result }
{
    let places = edit_places(style, command);
    match edit_fault(style, places, command) {
        Some(fault) => Ok(Err(fault)),
        None => Ok(Ok(edit_at(alloc, style, places, command)?)),
    }
}

/// As `edit_style`, of an edit without fault whose layers are at these places.
pub fn edit_at(
    alloc: Global,
    style: &mut Json,
    places: EditPlaces,
    command: &Command,
) -> Result<Undo, AllocError>
    requires { places ≡ places_of (tree_of style.old) (command_seen command.now) }
    ensures edited { OnOk result (tree_of style.new ≡ edited (tree_of style.old) (command_seen command.now)) }
    ensures undo { IfOk result (λ undo. IsUndo undo (tree_of style.old) (tree_of style.new)) }
    ensures err { OnErr result (tree_of style.new ≡ tree_of style.old) }
    ensures restores { removes_layer (command_seen command.now) ≡ false
        → IfOk result (λ undo. restores_layer undo ≡ false) }
    ensures memory { takes_memory (command_seen command.now) ≡ false → IsOk result }
    ensures adds { takes_memory (command_seen command.now) ≡ false → IfOk result (λ undo. adds_nothing undo ≡ true) }
{
    let Some(mut layers) = take_layers(style) else {
        return Ok(Undo::Nothing);
    };
    let undo = edit_layers(alloc, &mut layers, places, command);
    put_layers(style, layers);
    undo
}
