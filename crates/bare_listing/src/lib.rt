//! The lines of a layer, each cell evaluated where it is listed, and none kept.
//!
//! ```text
//! write_bare_layer(alloc, &mut cells, &at, &tiles, &mut steps, &mut pieces)?  // 3: as many cells were evaluated
//! // layer "place" symbol
//! //   text-size 16
//! //   feature 0 Point id 3
//! //     text-field "Oslo"
//! ```
//!
//! What is promised, of a layer that `IsBareListable`: its items have sources by expressions that give what is listed
//! for its properties and say which features pass (`cell_sources` gives them). `write_bare_layer` adds the lines of
//! the layer in the layout of `style_layout` to a text that is written out piece by piece. It evaluates each cell that
//! a listing asks of the layer (`layer_asked` of `asked_cells`) once, and answers their number. It takes at least as
//! many steps, and at most as many as their expressions have nodes, also where an allocation or a write fails. Nothing
//! is kept, and what was kept is not looked at.
//!
//! Time is linear in the features of the tiles, the steps and the lines, and with a sort key that reads features
//! n·log n in those that pass. Only such a layer takes memory for its features: for each that passes the value of its
//! key, which is not evaluated again.
//!
//! The text to believe is in `specs/`: `BareListing`.
#![tactic(auto)]

mod bare_layer;
mod feature_order;
mod filters;
mod listing;

pub use listing::write_bare_layer;
