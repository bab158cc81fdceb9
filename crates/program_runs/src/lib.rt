//! Runs of the program as data: what is read, in which order, and what comes of it.
//!
//! ```text
//! // a command that reads a style: its run reads the file, parses its bytes, and then ends with an outcome
//! let style = read_json(alloc, &Subject::Style, name, STYLE_LIMIT, files)?;
//! // a file that is too long or no JSON text halts the run with its refusal: `refused style json Syntax 7`
//! ```
//!
//! What is promised: a run is one value of `Run` in `specs/Runs.antt`: it ends with an outcome, or writes a text
//! and goes on, or makes evaluations and goes on, or reads a file and goes on, or parses bytes and goes on. A file
//! that is too long and bytes that are no JSON text end it, or are what it goes on with. What an outcome of it is,
//! which files it has read by then, what it has come to write, how many steps its evaluations may have counted, and
//! what has to be known of files for it to be certain are said once, by recursion on that value, and no run has two
//! outcomes (`each_run_has_one_outcome`). What a run has come to write begins the text of its outcome, so a caller
//! may write each text once the run comes to it (`HasWritten` in `specs/Progress.antt`). Each call here that reads
//! something says to which rest of the run it leads, and each halt is an outcome of the run, a failed read of a file
//! that the run came to, or a failed allocation.
//!
//! The text to believe is in `specs/`: `Outcome`, `Ending`, `Refusals`, `Runs`, `Parts`, `FailedReads`,
//! `Written`. Law of it: `Laws`.
#![tactic(auto)]

mod answer;
mod finishing;
mod halt;
mod laws;
mod reading;
mod refusals;
mod status;
mod subject;

pub use answer::{RunOutput, answer_out, answer_refused, answer_said, answer_usage, begin_refusal};
pub use finishing::{write_answer, write_piece, write_unread};
pub use halt::{RunHalt, RunStop, WriteStop};
pub use laws::each_run_has_one_outcome;
pub use reading::{may_read_file, parse_json, read_file, read_json};
pub use refusals::{no_json, too_long};
pub use status::{Ending, Status};
pub use subject::{Subject, write_number, write_subject};
