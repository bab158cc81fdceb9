//! Laws of migration: a migrated document says what the document said.
//!
//! ```text
//! {"property":"rank","stops":[[0,1],[10,11]]}          // on circle-radius, of a feature whose rank is 3: 4; "low": 5
//! ["case",["==",["typeof",["get","rank"]],"number"],["interpolate",["linear"],["get","rank"],0,1,10,11],5]
//!                                                      // the same; migrated again it stays
//! ```
//!
//! What is promised, for each JSON tree, well formed or not: migrating it again changes nothing
//! (`migrating_twice_changes_nothing`). A migrated value of a row of the table is listed as the value is, at
//! every zoom, of every feature and state, and for all tests of images and scripts, and reads the same of the
//! world (`migrated_values_are_the_same`). A migrated filter lets the same features pass as the filter, and
//! reads the same of the world (`migrated_filters_are_the_same`). So the migrated document has the layout
//! that the document has, over all tiles (`migrated_documents_have_the_same_layout`), and it gives the same
//! values of the global state (`migrated_documents_give_the_same_globals`). A migrated value has a
//! `global-state` node exactly where the value has one, and so has a migrated filter
//! (`migrated_values_use_the_same_globals`, `migrated_filters_use_the_same_globals`; a legacy filter has none).
//!
//! Each law is a definition, and a function without arguments ensures it: a caller that calls the function
//! has the law.
//!
//! The text to believe is in `specs/`: `MigratedLaw`, `GlobalUses`.
#![tactic(auto)]

mod laws;

pub use laws::{
    migrated_documents_give_the_same_globals, migrated_documents_have_the_same_layout,
    migrated_filters_are_the_same, migrated_filters_use_the_same_globals,
    migrated_values_are_the_same, migrated_values_use_the_same_globals,
    migrating_twice_changes_nothing,
};
