//! Laws of migrated styles under edit: they open and are listed as the styles are.
//!
//! ```text
//! eval STYLE 5 map=a.mvt            // a listing, or too many cells
//! eval MIGRATED 5 map=a.mvt         // the same, where MIGRATED is what `migrate STYLE` prints
//! ```
//!
//! What is promised, over all tiles: a migrated document has as many cells as the document, with any values
//! of the global state (`migrated_documents_have_as_many_cells`). A document without findings opens after it
//! was migrated where it opened before, and else has the same fault, at every zoom
//! (`migrated_styles_open_alike`). A session that is opened over the migrated document begins as over the
//! document, but for the document itself (`migrated_sessions_begin_alike`). A session over the migrated document
//! has the listing that it has over the document, whatever its zoom, states, images, values of the global state
//! and kept cells are (`migrated_styles_are_listed_alike`).
//!
//! Not promised: that its listings make as many evaluations.
//!
//! Each law is a definition, and a function without arguments ensures it: a caller that calls the function
//! has the law.
//!
//! The text to believe is in `specs/`: `OpeningLaw`.
#![tactic(auto)]

mod laws;

pub use laws::{
    migrated_documents_have_as_many_cells, migrated_sessions_begin_alike,
    migrated_styles_are_listed_alike, migrated_styles_open_alike,
};
