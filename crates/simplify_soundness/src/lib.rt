//! Simplifying brings no finding: a document without findings has none after it was simplified.
//!
//! ```text
//! ["case",["has","r"],["get","r"],["all"],["number",["get","s"]],5]          // on circle-radius: no finding
//! ["case",["has","r"],["get","r"],["number",["get","s"]]]                    // simplified: typed as it was, and none
//! ```
//!
//! What is promised, for each sound JSON tree, as each that is read is one: where no place breaks a rule, none does
//! after the document was simplified (`simplified_documents_have_no_finding`), and the same values and filters are
//! outside (`simplified_documents_keep_their_notes`).
//!
//! Each law is a definition, and a function without arguments ensures it: a caller that calls the function has the
//! law.
//!
//! The text to believe is in `specs/`: `NoFindingsLaw`.
#![tactic(auto)]

mod laws;

pub use laws::{simplified_documents_have_no_finding, simplified_documents_keep_their_notes};
