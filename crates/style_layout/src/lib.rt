//! What a style shows: an outline of each layer of a document, prepared once, and the definition of its layout.
//!
//! ```text
//! let style = prepare(alloc, &document, &globals)?;          // a document without findings
//! if cell_count(&style, &tiles) <= 8_000_000 {
//!     let mut features = LayerFeatures::new(&style.layers[0], &tiles);
//!     features.next();                                       // the first feature of the first layer, and its number
//! }
//! ```
//!
//! What is promised: `prepare` reads each value of a layer once, and gives the outlines of the layers of
//! `specs/Layers.antt`: their literals, and of each other value only that it is evaluated, and whether it is listed
//! with each feature. `cell_count` is the layout's count of cells, or 2^128 - 1 where there are more. `LayerFeatures`
//! gives the features of a layer over tiles with their numbers, in their order. `globals_of` gives the values that the
//! names of the global state have from the document, and `global_default` that of one name. `PlacedLayer` gives the
//! values of a layer's properties.
//!
//! The layout itself, `layers_layout` of `specs/StyleLayout.antt`, is written by the crates above, from counted
//! evaluations. They read a layer as a `DocumentLayer`: what is prepared of it, beside the document that has its
//! values.
//!
//! The text to believe is in `specs/`: `Forms`, `Layers`, `Globals`, `SortKeys`, `Shown`, `StyleLayout`. `Outlines`
//! says what an outline is.
#![tactic(auto)]

mod cells;
mod document_layer;
mod features;
mod forms;
mod globals;
mod layers;
mod placed_layer;
mod prepared;
mod properties;
mod scene;
mod zoom;

pub use cells::{cell_count, layer_cells};
pub use document_layer::{DocumentLayer, SortProperty};
pub use features::{LayerFeature, LayerFeatures, state_of};
pub use forms::{LayerFilter, PropertyValue};
pub use globals::{global_default, globals_of};
pub use layers::{StyleLayer, prepare_layer};
pub use placed_layer::PlacedLayer;
pub use prepared::{PreparedStyle, prepare};
pub use properties::{Property, VISIBILITY, set_value};
pub use scene::{HostTests, Scene, SourceTile, TextTests};
pub use zoom::Zoom;
