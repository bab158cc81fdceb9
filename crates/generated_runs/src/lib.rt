//! The run of `generate`: a tile and a script that are made from a number of features, and the counts of what `replay`
//! writes of them.
//!
//! ```text
//! let tile = generated_tile(alloc, 2)?;              // a layer `p` of two points, each with its rank as `r`
//! // over a session of GENERATED_STYLE and this tile at zoom 0:
//! answer_counted(session, 2, images, scripts, steps) // features 2 lines 30 bytes 491
//! ```
//!
//! What is promised: `generated_tile` is exactly the tile of its definition. `answer_counted` answers the outcome of
//! the script's lines with the line of counts in the place of their text: how many LF bytes and how many bytes that
//! text has (`counted` over `lines_run`, which is the run of every script), and the steps rise by at least and at most
//! what that outcome says. The test of images has the reports of the lines, and then answers by them (`ImageReports` of
//! `script_runs`). The text of one answer is in memory at a time.
//!
//! The text to believe is in `specs/`: `Ranks`, `GeneratedTile`, `GeneratedScript`, `Counted`.
#![tactic(auto)]

mod counting;
mod lines;
mod ranks;
mod tile;

pub use counting::answer_counted;
pub use lines::GENERATED_STYLE;
pub use tile::generated_tile;
