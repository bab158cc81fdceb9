//! The sentence of a finding: what is wanted at its place, and what was found.
//!
//! ```text
//! // the finding V16 at /layers/0/paint/line-width, whose value is ["get"]
//! write_subject(&document, &path, &mut out)?;       // layer "roads", line-width
//! write_sentence(&document, &path, 16, &mut out)?;  // get takes 1 or 2 arguments, found 0
//! ```
//!
//! What is promised: each call appends exactly the text that `specs/` defines. The cause of a finding is found again
//! from the document and the path, so a sentence takes the time of its value once more.
//!
//! The text to believe is in `specs/`: `Words`, `Pairs`, `Wanted`, `Subject`, `LiteralSentence`, `ExpressionSentence`,
//! `FunctionSentence`, `FilterSentence`, `MaySentence`, `TextSentence`, `Sentence`.
#![tactic(auto)]

mod broken_text;
mod expression_sentence;
mod filter_sentence;
mod function_sentence;
mod layer_sentence;
mod literal_sentence;
mod may_sentence;
mod misspelled;
mod node_words;
mod pairs;
mod sentence;
mod stop_sentence;
mod subject;
mod wanted;
mod wanted_node;
mod words;

pub use broken_text::text_sentence;
pub use may_sentence::write_may;
pub use sentence::write_sentence;
pub use subject::write_subject;
