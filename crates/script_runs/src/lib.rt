//! A script over a style under edit: its lines, what each is answered, and the run that they make.
//!
//! ```text
//! let ending = answer_script(session, b"[\"list\"]\n[\"set-zoom\",30]\n", images, scripts, &mut out, steps)?;
//! // out gains the listing, and then `refused 2 ZoomRange\n`; the ending is `Found`
//! ```
//!
//! What is promised: out gains the text of the outcome of `script_run` of `specs/ScriptRun.antt`: line by line what the
//! line's command is answered by `applied` of `edit_session`, in the texts of `specs/AnswerTexts.antt`; and the ending
//! is `Found` exactly where a line was refused. The steps rise by at least and at most what the evaluations of its
//! listings count. Each answer is written when it is made, so where an allocation or a write fails out has gained what
//! the run had come to write. What the commands of the lines report to the test of images is reported once, in their
//! order. If that test can change, it then answers by the last report of each name, and for all others as before; where
//! the run fails, by the lines that it had come to (`specs/ImageReports.antt`). `answer_line` is one step of it, for
//! callers that make their lines.
//!
//! The text to believe is in `specs/`: `ScriptLines`, `AnswerTexts`, `ScriptRun`, `ImageReports`.
#![tactic(auto)]

mod answers;
mod lines;
mod script;

pub use answers::{answer_of, fault_answer, ok_answer, refused_answer};
pub use lines::next_line;
pub use script::{LineAnswer, ScriptLine, answer_line, answer_script, ending_by};
