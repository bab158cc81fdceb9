//! Kept values of cells, each evaluated once, and dropped exactly where what it was made of has changed.
//!
//! A cell is a value of a layer: of its filter or of a property, for a feature or for all. Its item's source says which
//! expression of an evaluator gives it, and what that expression reads.
//!
//! ```text
//! buckets.add(alloc, 0, 3)?;                            // layer 0 has three features
//! buckets.set_source(alloc, 0, &source)?;               // what gives the values of one of its items
//! buckets.refresh(&mut workspace, &cell, &world, &mut steps)?    // 1: evaluated; 0 where it was kept
//! buckets.value(&cell)                                  // Some(Ok(value)), or Some(Err(fault))
//! buckets.drop_cells(&Stale::Zoom(false));              // paint cells that mention the zoom are not kept any more
//! ```
//!
//! What is promised:
//! - `drop_cells` drops exactly the cells that its cause names (`names_cell`); every other cell keeps its value.
//! - `refresh` answers 0 exactly where the cell was kept, and then counts no step. Else it answers 1, the cell is kept
//!   with what its expression gives in the world, and at least one step is counted, at most as many as the
//!   expression has nodes. No other cell changes, and none is lost when an allocation fails.
//! - `add` adds a layer without sources; it keeps and drops nothing. `set_source` and `remove_source` change the
//!   source of one item, and drop the cells of that item alone. `remove` takes a layer away with its sources and
//!   cells. When an allocation fails, all stays. `set_number` gives a source another number in the evaluator, and drops
//!   nothing: for an evaluator whose expressions are put anew.
//! - Each call leaves the evaluator as it was, but for `evaluator`, by which it is changed, and nothing else.
//! - A slot that keeps no value is in no list, so a cell that is dropped for one cause is in no list afterwards
//!   (`IsSound`, which each call asks and hands on).
//!
//! Cells that are dropped are found by lists: each slot is in the list of its item, and in those of the zoom, of
//! images and the global state, and of the state of its feature, where its source mentions them (`lists.rt`). What
//! is kept for a cell is found by its column (`columns.rt`) and a slot (`slots.rt`) that name each other. Slots are
//! given as cells come; one takes 84 bytes with its lists, and a row of a column 4. Layers, columns and lists of
//! states are kept for the next layer of the same number, so numbers of layers are small ones, used again.
//!
//! The text to believe is in `specs/`: `Cells`, `Seen`.
#![tactic(auto)]

mod buckets;
mod cell;
mod columns;
mod kept_cells;
mod layers;
mod lists;
mod slots;
mod table;

pub use buckets::Buckets;
pub use cell::{Cell, CellItem, Source, Stale};
