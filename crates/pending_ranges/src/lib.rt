//! Ranges of zooms that are still to be set of layers, by the places of the layers.
//!
//! ```text
//! let mut pending = PendingRanges::of(alloc, 3)?;   // none, none, none
//! pending.set(1, Some(five), None);                 // none, from 5 on, none
//! pending.move_slot(1, 0);                          // from 5 on, none, none
//! pending.take(0);                                  // none, none, none: and the range is given
//! ```
//!
//! What is promised: there is a slot for each layer, which follows it as layers come, go and move; a range that is set
//! is in its slot until it is taken. Only `of` and `insert` take memory. `bounds` are places between which all ranges
//! are that are there, so that a look at each place between costs little where the ranges are near each other.
//!
//! The text to believe is in `specs/`: `Pending`.
#![tactic(auto)]

mod ranges;

pub use ranges::{PendingRanges, ZoomRange};
