//! The whole of a run: from the words of the command line to the bytes that are written.
//!
//! ```text
//! let status = run_style(alloc, words, &mut files, &mut out, &mut err, images, scripts, &mut steps);
//! // words `value` and `["+",0.1,0.2]`: out holds `0.3` and an LF more, and the status is `Fine`
//! ```
//!
//! What is promised: `run_style` is proved over one value: `run_of` of `specs/Commands.antt` gives the words'
//! run, which says what is read, in which order, and which out text, err text and ending come of it
//! (`program_runs`); no words have two outcomes (`words_have_one_outcome`). Where nothing outside fails and
//! memory suffices, the run has its outcome, and the steps rise as it says; in every run what is written is a prefix
//! of it, or of the line that says which file could not be read, and the steps rise by no more than it says; and each
//! status has its cause. A command that lists nothing counts no step.
//!
//! The text to believe is in `specs/`: `Words`, `Refusals`, `ValueRun`, `StyleFile`, `ValidateRun`,
//! `MigrateRun`, `SimplifyRun`, `ShownRun`, `EvalRun`, `ReplayRun`, `TileRun`, `GenerateRun`, `Commands`, `Promises`,
//! `ListedFaults`. Law of it: `OneOutcome`.
#![tactic(auto)]

mod eval_command;
mod generate_command;
mod laws;
mod loading;
mod migrate_command;
mod opened_run;
mod refusals;
mod replay_command;
mod reply;
mod simplify_command;
mod style_file;
mod tile_command;
mod top;
mod validate_command;
mod value_command;
mod words;

pub use laws::words_have_one_outcome;
pub use program_runs::Status;
pub use top::run_style;
