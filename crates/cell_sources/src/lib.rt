//! What gives the values of a layer's cells: each value that is no literal is an expression of a counted evaluator,
//! whatever its form is in the style.
//!
//! ```text
//! // {"id":"c","type":"circle","filter":["==","a",1],"paint":{"circle-radius":["get","r"],"circle-blur":2}}
//! add_sources(alloc, 0, &LayerValues { layer_type, members, globals }, &mut buckets)?;
//! // the filter has the source ["all",["has","a"],..], `circle-radius` has ["get","r"], and `circle-blur` needs none
//! set_item(alloc, 0, &edited, CellItem::Property(2), &mut buckets)?;
//! // `circle-radius` is 3 now: it has no source, and its values are dropped
//! ```
//!
//! What is promised:
//! - `add_sources` gives each item of a layer without sources the source of `item_expression` in
//!   `specs/CellExpressions.antt`, and none where that is none; the expressions come after those that the evaluator
//!   had. No value is kept that was not kept before. All else stays. Where an allocation fails, the layer has some of
//!   its sources, and all other layers are as they were.
//! - `set_item` drops the values of one item, whatever source it had, and gives it the source of its expression, or
//!   none. All other items and layers stay. Where an allocation fails, the item has no source and no kept value.
//! - `clear_expressions` empties the evaluator, and leaves each source as it is. `renew_sources` puts the expressions
//!   of a layer into it anew, so that those of items that were edited do not stay in it: each source stays but for its
//!   number, an item that had none gets none, and the sources of other layers stay with their numbers. So a layer that
//!   had the sources of its expressions has them. Neither call keeps or drops a value, also where an allocation fails.
//! - An item's expression gives what the layout lists for it, a value or its fault (`expressions_give_values`,
//!   `properties_are_given`), and reads the feature or its state exactly where the value is listed with each feature
//!   (`properties_are_read_by_expressions`). That of a filter says which features pass (`expressions_decide_filters`):
//!   of each feature, or of all by one cell where it reads none (`filters_are_decided`, which `asked_cells` asks for).
//! - A cell means the same in two scenes, and for two features, that agree on what its expression mentions
//!   (`cells_mean_the_same`). Other values of the global state change no expression of an item but one that has a
//!   `global-state` node (`globals_change_no_other`).
//!
//! Of a legacy function, a text with tokens and a legacy filter no expression is made. By `legacy_laws` each has one,
//! and what that mentions is read off the form; the evaluator has the form itself, a text by a handle.
//!
//! The text to believe is in `specs/`: `CellExpressions`, `Sourced`, `CellLaws`.
#![tactic(auto)]

mod expressions;
mod laws;
mod renewing;
mod sources;

pub use laws::{
    cells_mean_the_same, expressions_decide_filters, expressions_give_values, filters_are_decided,
    globals_change_no_other, properties_are_given, properties_are_read_by_expressions,
};
pub use renewing::{clear_expressions, renew_sources};
pub use sources::{LayerValues, add_sources, set_item};
