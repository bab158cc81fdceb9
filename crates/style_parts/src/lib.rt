//! The parts of a style document, for all who read one: its layers, its sources, and the numbers that its
//! trees say.
//!
//! ```text
//! // {"sources":{"town":{"type":"vector"}},"layers":[{"id":"roads","minzoom":12.5}]}
//! layers_of(&style)               // one layer
//! source_at(&style, "town")       // Some({"type":"vector"})
//! number_in(&min_zoom)            // Some(12.5), 12,500,000 millionths
//! ```
//!
//! What is promised, for all JSON trees, documents with findings too: each call gives exactly what the
//! definition of its name says. A part that is missing or has another form is none, or has no items. Nothing
//! takes memory.
//!
//! The text to believe is in `specs/`: `Parts`, `Numbers`.
#![tactic(auto)]

mod numbers;
mod parts;

pub use numbers::{is_between, is_zoom, number_in};
pub use parts::{is_id_of, layers_of, source_at, sources_of};
