//! What the value of a property is, and what the type of a layer is, for all who read a style document.
//!
//! ```text
//! form_of(&line_width, &json)     // Form::Function for {"stops":[..]}, Form::Expression for ["zoom"]
//! layer_type(layer)               // Some(LayerType::Line) for {"type":"line"}, None beside a `ref`
//! tested_type(Some(hillshade))    // None: its `layout` and `paint` pass unread
//! ```
//!
//! What is promised, for all JSON trees, documents with findings too: each call gives exactly what the
//! definition of its name says. Nothing takes memory.
//!
//! The text to believe is in `specs/`: `LayerTypes`, `Forms`.
#![tactic(auto)]

mod forms;
mod layer_types;

pub use forms::{Form, form_of};
pub use layer_types::{is_unread_type, layer_type, tested_type, type_in};
