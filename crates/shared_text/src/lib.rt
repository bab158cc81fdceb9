//! Texts that are ranges of one shared document: a text of a file is taken without a copy of its bytes.
//!
//! ```text
//! let document = Document::copy_of(alloc, b"{\"kind\":1}")?;
//! let key = Text::of_range(&document, 2, 6)?;      // kind
//! key.share()?.as_str();                          // the same text: counted, and not copied
//! ```
//!
//! What is promised: a `Text` is seen as the list of its bytes, which are UTF-8, whatever document it is a
//! range of. `of_range` and `of_rest` give exactly the bytes of that range, `share` and `copy_of` the same
//! bytes, and `onward` bytes that begin with them; texts are ordered as std orders `str`, by their bytes. A
//! document has at most `LONGEST` bytes, so that a text takes 16 bytes; for a longer one the answer is
//! `AllocError`. A text keeps its whole document: `copy_of` lets go of it.
//!
//! The text to believe is in `specs/`: `Ranges`.
#![tactic(auto)]

mod document;
mod text;

pub use document::{Document, LONGEST};
pub use text::Text;
