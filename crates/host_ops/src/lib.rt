//! Tests on texts that are handed in by whoever runs a style: which images there are, and which scripts can
//! be shown.
//!
//! ```
//! fn shown(scripts: &dyn HostOp, text: &str) -> bool {
//!     scripts.answer(text)
//! }
//!
//! shown(&ScriptTest::new(), "Aleppo")
//! ```
//!
//! What is promised:
//! - The meaning of a [`HostOp`] is a test on texts, and `answer` gives it.
//! - `tell` changes the test at the text that it names, or refuses and changes nothing. It answers `Fixed`
//!   exactly where the test cannot change, and no call changes whether it can. Of a test that can change the
//!   calls of `tell` are counted, whatever they answer.
//! - [`ImageSet`] lets no name pass when it is made, and then those that the last `tell` of each made
//! present.
//! - [`ScriptTest`] answers false exactly where a text has a scalar value from U+0590 to U+08FF.
//!
//! The text to believe is in `specs/`: `Change`, `Script`, `Images`.
#![tactic(auto)]

mod host_op;
mod image_set;
mod script_test;
mod text_test;

pub use host_op::{HostOp, TellFault};
pub use image_set::ImageSet;
pub use script_test::ScriptTest;
pub use text_test::TextTest;
