//! The lines of `lint`: what `validate` reports of a style, each with its file, line and column and a sentence.
//!
//! ```text
//! let linted = lint_style(alloc, LintForm::Plain, "style.json", &bytes)?;
//! // style.json:12:9: error: layer "roads", line-width: get takes 1 or 2 arguments, found 0 [V16 Arity]
//! ```
//!
//! What is promised: the text has a line for each finding, note and may line of `validate`, in its order, and no other;
//! and how many of them are errors and warnings. A finding is an error, a may line a warning. A file that is no JSON
//! text, or is longer than a style may be, has one line, which is an error. The place is that of the member's name or
//! of the element, as `text_places` has it, and the sentence that of `finding_sentences`. Where the text spells the
//! style, the text at the place of a line spells what the line is about (`lines_spell_their_values`). A file has one
//! lint (`files_have_one_lint`).
//!
//! Time is that of `validate`, and linear in the text and in the lines: one walk finds the places of all lines.
//!
//! The text to believe is in `specs/`: `LintLine`, `LineText`, `Diagnostics`, `DiagnosticLine`, `BrokenText`,
//! `LintedStyle`. Laws of it: `PlaceLaw`, `OneLint`.
#![tactic(auto)]

mod counting;
mod diagnostic;
mod form;
mod laws;
mod line;
mod linted;
mod message;
mod style;
mod writing;

pub use form::LintForm;
pub use laws::{files_have_one_lint, lines_spell_their_values};
pub use linted::{Linted, lint_broken_text, lint_file_error, lint_long_file};
pub use style::{STYLE_LIMIT, lint_document, lint_style};
