//! A style in expressions: the same meaning, and the rest untouched to the digit.
//!
//! ```text
//! // of a circle layer: "filter":["<=","rank",4], "circle-radius":{"stops":[[10,12],[14,20]]}
//! migrate(alloc, &style)?
//! // "filter":["all",["==",["typeof",["get","rank"]],"number"],["<=",["get","rank"],4]],
//! // "circle-radius":["interpolate",["linear"],["zoom"],10,12,14,20]
//! ```
//!
//! What is promised, for all JSON trees: `migrate` gives the document that `specs/Migrated.antt` defines.
//! Each legacy filter, each legacy function that is not outside, and each token text is replaced by its
//! expression. Order, names, other values and number texts stay. Texts and numbers are shared with the
//! document: none is copied.
//!
//! The text to believe is in `specs/`: `Migrated`.
#![tactic(auto)]

mod document;
mod layers;
mod properties;
mod values;

pub use document::migrate;
