//! A text that is put together in memory and written out piece by piece.
//!
//! ```text
//! let mut pieces = TextPieces { text: Vec::new(alloc), out };
//! pieces.text.extend_from_slice(b"zoom 3\n")?;    // waits
//! pieces.pour_piece()?;                           // is written out once 65,536 bytes wait
//! pieces.pour()?;                                 // is written out
//! ```
//!
//! What is promised, of each call that adds a text (`Adds`): once it is done, what was written out and what waits are
//! what was there before and the text. Where it breaks off, what was written out is a front of that, and the count of
//! failed writes says why: it rose by one where the sink did not take a piece, and else memory was missing. Whoever
//! begins with no text and pours at the end has written the text whole, or a front of it (`WritesText`).
//!
//! So a text of any length takes the memory of a piece and of what is added at once.
//!
//! The text to believe is in `specs/`: `Pieces`, `Adding`.
#![tactic(auto)]

mod pieces;

pub use pieces::TextPieces;
