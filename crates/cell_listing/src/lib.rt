//! The lines of a layer, by what is kept of its cells.
//!
//! ```text
//! cells.ask_layer(&at, &tiles, &mut steps)?;                        // what is not kept is evaluated
//! write_layer(alloc, &cells.buckets, &at, &tiles, &mut out)?;
//! // layer "place" symbol
//! //   text-size 16
//! //   feature 0 Point id 3
//! //     text-field "Oslo"
//! ```
//!
//! What is promised: `write_layer` appends the lines of the layer in the layout of `style_layout`, where the
//! layer is `IsListable`: each cell that a listing asks is kept with what it means (`asked_cells` asks them), and
//! the expressions of the cells give what the style lists (`cell_sources` gives them). Nothing is evaluated. A
//! value is written as it is kept; after a fault the default is written, with the name of the fault.
//!
//! Time is linear in the features of the tiles and in the lines, and with a sort key n·log n in those that pass.
//! Only a layer with a sort key keeps a list of its features. Beside that list no memory is taken except that of
//! `out`, for the default of a fault, and for each list or map a copy of its text.
//!
//! The text to believe is in `specs/`: `Listable`.
#![tactic(auto)]

mod feature_order;
mod kept_layer;
mod listing;

pub use feature_order::number_of;
pub use kept_layer::write_fault;
pub use listing::write_layer;
