//! What takes an edit back.

ghost use Rattle.std.specs.Prelude.{◌≡◌, false, IsOk, OnOk, OnErr};
ghost use Rattle.decimal_json.specs.View.{tree_of};
ghost use Rattle.style_edits.specs.Layers.{layer_list};
ghost use Rattle.style_edits.specs.Undone.{undone, undone_layers, restores_layer, IsWithin};

use crate::document::{put_layers, take_layers};
use decimal_json::{Items, Json};
use std::alloc::AllocError;

/// What takes an edit back. Places are those of layers, counted from 0.
#[derive(Drop)]
pub enum Undo {
    /// No layer changed.
    Nothing,
    /// The layer at the place was this one.
    Changed(usize, Json),
    /// The layer at the place was not there.
    Added(usize),
    /// This layer was at the place.
    Removed(usize, Json),
    /// The layer was moved from the first place to the second.
    Moved(usize, usize),
}

/// Takes an edit back: the document is the one before it. Only to put a layer back that was removed takes memory; when
/// allocation fails, the document stays. Takes time linear in the number of layers.
pub fn undo_edit(style: &mut Json, undo: Undo) -> Result<(), AllocError>
    requires { IsWithin undo (layer_list (tree_of style.old)) }
    ensures ok { OnOk result (tree_of style.new ≡ undone undo (tree_of style.old)) }
    ensures err { OnErr result (tree_of style.new ≡ tree_of style.old) }
    ensures memory { restores_layer undo ≡ false → IsOk result }
{
    let Some(mut layers) = take_layers(style) else {
        return Ok(());
    };
    let undone = undo_layers(&mut layers, undo);
    put_layers(style, layers);
    undone
}

fn undo_layers(layers: &mut Items, undo: Undo) -> Result<(), AllocError>
    requires { IsWithin undo layers.old }
    ensures ok { OnOk result (layers.new ≡ undone_layers undo layers.old) }
    ensures err { OnErr result (layers.new ≡ layers.old) }
    ensures memory { restores_layer undo ≡ false → IsOk result }
{
    match undo {
        Undo::Nothing => {}
        Undo::Changed(place, layer) => {
            let _ = layers.replace(place, layer);
        }
        Undo::Added(place) => {
            let _ = layers.remove(place);
        }
        Undo::Removed(place, layer) => layers.insert(place, layer)?,
        Undo::Moved(from, to) => layers.move_item(to, from),
    }
    Ok(())
}
