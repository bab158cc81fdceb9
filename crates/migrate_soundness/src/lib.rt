//! Migrating brings no finding: a document without findings has none after it was migrated.
//!
//! ```text
//! {"property":"rank","stops":[[0,1],[10,11]]}     // on circle-radius: no finding
//! ["case",["==",["typeof",["get","rank"]],"number"],["interpolate",["linear"],["get","rank"],0,1,10,11],5]
//!                                                 // migrated: well typed, and reads what circle-radius may
//! ```
//!
//! What is promised, for each JSON tree whose root has no name twice: where no place breaks a rule, none does
//! after the document was migrated (`sound_documents_stay_sound`), and the same values and filters are
//! outside (`sound_documents_keep_their_notes`). The root of a JSON value never has a name twice
//! (`style_rules::documents_have_distinct_members`).
//!
//! Each law is a definition, and a function ensures it: a caller that calls the function has the law.
//!
//! The text to believe is in `specs/`: `SoundnessLaw`.
#![tactic(auto)]

mod laws;

pub use laws::{sound_documents_keep_their_notes, sound_documents_stay_sound};
