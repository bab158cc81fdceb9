//! A style over tiles, under edit: a session opens it, and answers commands one by one.
//!
//! ```text
//! let mut session = Session::open(alloc, style, tiles, zoom)??;
//! session.apply(&command, images, scripts, &mut steps)?   // of `["set-paint","roads","line-width",2]`: Done
//! session.apply(&list, images, scripts, &mut steps)?      // Listing(text)
//! session.apply(&stats, images, scripts, &mut steps)?     // Stats(n): the number of its evaluations
//! ```
//!
//! What is promised, where `session_state` says what a session represents: a document, a zoom, states of features,
//! images, values of the global state, the most cells that the document may have, which cells of its layers are kept,
//! and the number of evaluations of the last listing:
//! - `open` gives a session that represents the style before any edit (`opened`), or exactly the first cause why it
//!   cannot (`open_fault`).
//! - `apply` answers by `applied`: a command is refused by the first cause that holds, and then nothing changes; else
//!   the session represents what is after the edit; a listing is that of the full layout of the document as it then is,
//!   whatever is kept. `set-global` is never refused. `add-image` and `remove-image` report to the test of images once,
//!   and nothing else does (`tell_count_after`).
//! - A listing evaluates the cells that it asks and that are not kept, counts them, and keeps them (`listed_after`). It
//!   takes at least as many steps, and at most as many as their expressions have nodes, also where an allocation fails
//!   (`least_steps`, `most_steps`). No other command counts a step. What an edit drops is one function of it
//!   (`kept_left`).
//! - `write_listing` writes the listing of a session that ends with it piece by piece, with the same bounds of steps.
//! - Several views show one style (`OpenViews`). `open_view` opens one. `apply_in` does a command of a view in it, as
//!   if the session had its zoom, its states, its kept cells and the number of its last listing, and leaves the
//!   session's own. `apply_to_all` does a command of the style, which is one in every view (`in_each`).
//! - Once allocation fails in `apply`, `apply_in` or `apply_to_all`, every later call answers so, and the test of
//!   images that was borrowed lets the texts pass that it let pass. `stats`, `set-zoom`, `remove-state`, `set-range`,
//!   `remove-layer` and `move-layer` are not what it fails in (`needs_no_memory`).
//!
//! A range of zooms that is set takes no memory, since it is noted beside the document (`ranged_document`) until a
//! command needs the document as it is then: all but those that ask nothing of it, and those by which layers go and
//! move (`lets_ranges_be`).
//!
//! Of an edit of layers only the part that it changes is checked against the rules, and only the layer that it changes
//! is prepared anew and its cells counted. A layer is found by a mark of its id, eight bytes for each
//! (`layer_marks.rt`), and looked for first near the place where it was last, of which nothing is believed
//! (`place_hints.rt`). A value of the global state is set in time logarithmic in their number, and prepares the layers
//! anew only where a text in them is `global-state`, or was before an edit.
//!
//! The text to believe is in `specs/`: `SessionState`, `Ranges`, `Opening`, `Applied`, `OpenViews`, `View`.
#![tactic(auto)]

mod answer;
mod answering;
mod commands;
mod following;
mod globals;
mod layer_marks;
mod layers;
mod opening;
mod place_hints;
mod plain;
mod ranges;
mod session;
mod view;
mod whole;

pub use answer::{Answer, Refusal};
pub use opening::{CELL_LIMIT, OpenFault};
pub use session::Session;
pub use view::View;
