//! The run of `lint`: the lines of one or more styles, and how many of them are errors and warnings.
//!
//! ```text
//! let answer = answer_lint(alloc, LintForm::Plain, names, files)?;
//! // a.json:1:13: error: no JSON text: the text ends before the value does [Syntax]
//! // 1 errors, 0 warnings in 2 styles
//! ```
//!
//! What is promised: the answer is the outcome of `lint_run` of `specs/LintRun.antt`, which reads the styles in the
//! order of the words, each once. A style that is too long or is no JSON text has one line, which is an error, and the
//! next one is read. A file that cannot be read halts the run. Of the styles one is held at a time, beside the text of
//! the lines.
//!
//! The text to believe is in `specs/`: `LintRun`.
#![tactic(auto)]

mod answer;
mod one_style;
mod styles;

pub use answer::answer_lint;
pub use lint_texts::LintForm;
