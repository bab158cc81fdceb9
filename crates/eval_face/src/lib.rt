//! What expressions mean, and where they are evaluated.
//!
//! What is promised: the meaning is a definition. `mean` of `specs/Meaning.antt` gives the value or the fault
//! of a term under a want, in the names of the bindings around it and in a world. A world
//! (`specs/World.antt`) is what expressions read: the zoom, a feature, its state, and the tests on images and
//! scripts. A [`Context`] is the world of a program, without the two tests.
//!
//! Every value that an expression gives under a want is fitted to it (`values_are_fitted`). Two worlds that
//! agree on what an expression mentions give it one meaning (`agreeing_worlds_give_one_meaning`).
//!
//! The text to believe is in `specs/`: `World`, `Names`, `Meanings`, `Lookups`, `Decisions`, `Branches`,
//! `Bindings`, `Sections`, `Rules`, `Meaning`, `Resolved`. Laws of it: `Fitted`, `Agreement`, `JoinedContents`.
#![tactic(auto)]

mod context;
mod laws;

pub use context::Context;
pub use laws::{agreeing_worlds_give_one_meaning, formats_join_their_contents, values_are_fitted};
