//! Features of tiles by their ids: a change of a feature's state finds the features of the id without a walk over all.
//!
//! ```text
//! let mut indexes = FeatureIndexes::new(alloc);
//! indexes.note(&layer, &tiles);                     // each time that features are looked for; the sixteenth indexes them
//! if let Some(index) = indexes.find(&layer) {
//!     let mut numbers = index.numbers(7);           // the numbers of the features whose id is 7, the last first
//!     while let Some(number) = numbers.next() {}
//! }
//! ```
//!
//! What is promised: an `IdIndex` that represents a list of ids (`IsIndexed`) gives for each id all the numbers that
//! have it, and no other, each once. An index that `find` gives is that of the features that the layer shows over the
//! tiles, in the order of their list. How often features were looked for, and that an allocation failed, changes what
//! is indexed, and no answer.
//!
//! The text to believe is in `specs/`: `Ids`, `Indexes`. That a number is among those of an id exactly where the list
//! has this id there is a law (`proofs/ChainLaws.antt`, `among_all`).
#![tactic(auto)]

mod ids;
mod indexes;

pub use ids::{IdIndex, NumbersWithId};
pub use indexes::FeatureIndexes;
