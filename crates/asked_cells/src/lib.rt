//! The cells that a listing asks of a layer: each is evaluated once, counted, and kept until it is dropped.
//!
//! ```text
//! let mut cells = ViewCells::new(alloc, evaluator)?;
//! cells.add_layer(alloc, 0, layer.prepared, &tiles)?;             // its features over the tiles are counted
//! cells.buckets.set_source(alloc, 0, &source)?;            // what gives the values of one of its items
//! let at = LayerAt { number: 0, layer, scene: &scene };
//! cells.ask_layer(&at, &tiles, &mut steps)?                // 3: as many were evaluated
//! cells.ask_layer(&at, &tiles, &mut steps)?                // 0: all are kept
//! cells.buckets.drop_cells(&Stale::State(0, 1));
//! cells.ask_layer(&at, &tiles, &mut steps)?                // 1
//! ```
//!
//! What is promised, of each layer in each scene over each evaluator, where the sources of its items are those of
//! their expressions (`HasExpressions`) and what is kept of it is right (`AreRight`):
//! - `ask_layer` asks the cells of `layer_asked`, where the expression of the filter says which features pass
//!   (`IsDecided`): the values that are listed with the layer; the cell of the filter, or one for each feature
//!   where the filter reads one or its state; and the values that are listed with each feature that passes. A
//!   hidden layer and an unread one ask none, and a layer whose filter is outside asks its own values alone.
//! - It answers how many of these were not kept, each counted once (`evaluations`). Afterwards each is kept with
//!   its `meaning`, the value or the fault that the expression of its item gives of its feature, and every other
//!   cell as before.
//! - It takes at least as many steps as it answers, and at most as many as the expressions of the cells that were
//!   not kept have nodes (`total_nodes`), also where an allocation fails. Then what was kept is still kept.
//! - Sources, numbers of features, the evaluator and what is kept of other layers stay.
//!
//! An item of a layer, its filter or a property, has cells exactly where it has an expression. A literal, what is
//! not evaluated, a filter that is a truth value and the filter of a layer whose type has no features have none, and
//! get no source. A layer is read as `style_layout` prepared it, beside its document. The listing itself is not written
//! here.
//!
//! The text to believe is in `specs/`: `Expressions`, `Asked`, `Counted`, `Asking`.
#![tactic(auto)]

mod asking;
mod cell_world;
mod filters;
mod view_cells;

pub use asking::{is_listed, zoom_for};
pub use cell_world::CellWorld;
pub use filters::{constant_answer, has_feature_cells, is_passed, sum_of};
pub use view_cells::{LayerAt, ViewCells};
