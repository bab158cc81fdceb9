//! The kept cells of a style under edit, as one view of it has them: a listing evaluates those that are not kept, and
//! each change drops those that it makes stale.
//!
//! ```text
//! let mut kept = KeptLayers::of(alloc, &style)?;                   // nothing is kept
//! kept.list(alloc, &style, &scene, &mut steps, &mut out)?          // 3 evaluations; out has the listing
//! kept.turn_state("t", "p", 7, &mut indexes, &style);              // the state of a feature is another
//! kept.list(alloc, &style, &scene, &mut steps, &mut out)?          // 1
//! kept.change(alloc, 0, CellItem::Filter, &style.one(0))?;         // the filter of the first layer was edited
//! kept.remove(0);                                                  // and then the layer
//! follow(alloc, &mut kept, &command, places, &style)?;             // what this command did to the style
//! ```
//!
//! What is promised, where `kept_seen` is which cells of each layer are kept:
//! - `list` appends the listing of the layout, whole, in the scene that is handed in. It gives how many of the cells
//!   that the listing asks were not kept (`evaluations_of`), keeps those, and takes at least as many steps, and at most
//!   as many as their expressions have nodes, also where an allocation fails. `list_last` appends and counts the same,
//!   and nothing is said of what is kept afterwards.
//! - `turn_zoom`, `turn_images` and `turn_state` drop exactly the cells whose expressions read what changed: the zoom,
//!   where they see another one; the test of images; the state of the feature. `turn_globals` drops exactly those whose
//!   expressions use the global state, and reads these anew.
//! - `change` drops the cells of one item of a layer, and reads its expression anew. `add`, `remove` and `move_layer`
//!   drop no cell of another layer.
//! - `follow` takes what is kept through an edit of the layers: it leaves kept what `edited_kept` says, and nothing
//!   else. The cells of an edited property or filter go, and no others; a range of zooms changes nothing. An edit that
//!   concerns no layers, as of the zoom or of a state, is followed by nothing, since each has a call above. One that
//!   puts nothing into the style takes no memory.
//! - What is kept is what the cells mean in the scene that is shown (`IsRightIn`), before each call, and after each but
//!   `list_last`. Where an allocation fails, nothing is said of what is kept, and no further call is made.
//!
//! Layers have numbers in the buckets (`layer_buckets`) that stay theirs while they move; a number is used again once
//! its layer is gone. Expressions of items that were edited or removed stay in the evaluator until it has twice as many
//! as when all were of items; then `turn_globals` and `follow` put those of all items anew (`tidying.rt`). `list_last`
//! keeps no cell where none was kept before (`bare_listing`). `turn_globals` takes constant time as long as no
//! expression has used the global state. `turn_state` looks only at the layers of which an expression reads a state,
//! however many others there are, and finds their features of the id by `feature_index`, or by a walk where they are
//! not indexed.
//!
//! The text to believe is in `specs/`: `KeptLayers`, and `EditedKept` for `follow`.
#![tactic(auto)]

mod changes;
mod following;
mod globals;
mod kept_layers;
mod listing;
mod states;
mod style_layers;
mod tidying;

pub use following::follow;
pub use kept_layers::KeptLayers;
pub use style_layers::{OneLayer, StyleLayers};
