//! Laws that join what `validate` reports of a style with what its layouts show.
//!
//! ```text
//! {"line-width":["+",["get","a"],1]}       // validate: may "/layers/0/paint/line-width" WrongType Overflow
//!                                          // in every listing: a number, or 1!WrongType, or 1!Overflow
//! ```
//!
//! What is promised, of each document without findings, at every zoom, over all tiles, and whatever the
//! states of features, the tests of images and scripts, and the values of the global state are:
//!
//! - Each fault that marks a value is in the `may` line of the path of the value, so a value without a line
//!   has no mark (`marked_faults_are_listed`).
//! - Each value that is listed as `?` has a note, and so has the filter of a layer that is shown with `?`
//!   (`outside_values_have_notes`).
//! - Each note is of a value or a filter, and of one that is shown as `?`: the value in each listing that has
//!   the values of its layer, and the filter where the layer shows features (`noted_values_are_outside`; of
//!   documents in which no object has a key twice).
//!
//! Of documents with findings too: the zoom, a feature, its state and the test of images count for a value
//! and for a filter only where it mentions them, a legacy one where its expression does
//! (`values_go_by_their_mentions`, `filters_go_by_their_mentions`).
//!
//! Each law is a definition, and a function without arguments ensures it: a caller that calls the function
//! has the law.
//!
//! The text to believe is in `specs/`: `StyleLaw`, `NoteLaw`, `MentionLaw`.
#![tactic(auto)]

mod laws;

pub use laws::{
    filters_go_by_their_mentions, marked_faults_are_listed, noted_values_are_outside,
    outside_values_have_notes, values_go_by_their_mentions,
};
