//! The edits of a script, made in a style.
//!
//! ```text
//! // {"id":"roads","type":"line","paint":{"line-width":2}} and ["set-paint","roads","line-width",null]
//! match edit_style(alloc, &mut style, &command)? {
//!     Ok(undo) => undo_edit(&mut style, undo)?,   // the layer had "paint":{}, and now it is as it was
//!     Err(fault) => ..,                           // UnknownLayer, UnknownProperty, ..
//! }
//! ```
//!
//! What is promised, for all JSON trees: `edit_style` gives the fault that `specs/Faults.antt` has for the edit of the
//! document, exactly where it has one, and the document stays. Else the document becomes the one of
//! `specs/Edited.antt`, and what is given takes the edit back (`specs/Undone.antt`): `undo_edit` then gives the
//! document before it. When allocation fails, the document stays. Edits that put nothing into the document take no
//! memory, nor does it take memory to take an edit back, but for a layer that was removed.
//!
//! `edit_style` goes through the layers for each id that the edit names (`layer_named`, `before_named`, `id_added`).
//! Whoever knows the places of layers calls `edit_fault` and `edit_at`, which are its parts after `edit_places`. One
//! layer is copied, the one that is edited; texts and numbers are shared with the document and the command.
//!
//! The text to believe is in `specs/`: `Objects`, `Layer`, `Layers`, `Edited`, `Causes`, `Faults`, `Places`, `Undone`.
#![tactic(auto)]

mod document;
mod editing;
mod faults;
mod layer;
mod layers;
mod objects;
mod places;
mod undo;

pub use editing::{edit_at, edit_style};
pub use faults::{EditFault, edit_fault};
pub use layers::place_moved_to;
pub use places::{
    EditPlaces, before_named, edit_places, id_added, layer_named, layer_place, text_id,
};
pub use undo::{Undo, undo_edit};
