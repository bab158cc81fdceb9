//! A migrated document is sound JSON where the document is.
//!
//! ```text
//! {"property":"rank","stops":[[0,1],[10,11]]}     // on circle-radius: three of its arrays and objects are open at 11
//! ["case",["==",["typeof",["get","rank"]],"number"],["interpolate",["linear"],["get","rank"],0,1,10,11],5]
//!                                                 // migrated: four are open at "rank"
//! ```
//!
//! What is promised, for each JSON tree: where at most 64 arrays and objects are open at one place, each
//! number is one of at most 64 bytes, texts are UTF-8 and no object has a key twice, all that holds of the
//! migrated document (`migrated_documents_are_sound`). So the text that is written of it is JSON under every
//! rule, and spells the migrated document (`migrated_texts_are_spelled`). Values of rows of the table
//! (`migrated_values_are_sound`) and filters (`migrated_filters_are_sound`) stay sound where a document has
//! them.
//!
//! Each law is a definition, and a function ensures it: a caller that calls the function has the law.
//!
//! The text to believe is in `specs/`: `SoundTreesLaw`.
#![tactic(auto)]

mod laws;

pub use laws::{
    migrated_documents_are_sound, migrated_filters_are_sound, migrated_texts_are_spelled,
    migrated_values_are_sound,
};
