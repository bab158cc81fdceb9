//! Several views over one style: each has its own zoom, its own states of features and its own kept cells, and all show
//! the style as it is edited.
//!
//! ```text
//! let mut desk = Desk::new(session);
//! desk.line(b"[\"open-view\",\"map\",3]", images, scripts, steps)?;                // Done
//! desk.line(b"[\"view\",\"map\",[\"list\"]]", images, scripts, steps)?;             // View("map", Listing(..))
//! desk.line(b"[\"view\",\"map\",[\"stats\"]]", images, scripts, steps)?;            // View("map", Stats(..))
//! desk.line(b"[\"set-paint\",\"c\",\"circle-radius\",2]", images, scripts, steps)?; // Style(Done): in every view
//! ```
//!
//! What is promised: `desk_state` says what a desk represents: a style under edit, and the views that are open, each
//! with its name, its zoom, the states of features, the cells that it keeps, and the number of evaluations of its last
//! listing. `line` answers the bytes of a line by `desk_applied`: a line that opens or closes a view, a line of one
//! view, which leaves the style and the other views, or a line of the style, which is answered as a session answers it
//! and done in each view. A listing in a view counts at least `desk_least` and at most `desk_most` steps, and no other
//! line counts any. `add-image` and `remove-image` report to the test of images once, however many views are open, and
//! no other line does (`desk_image_reports_after`). Once allocation fails a desk answers so ever after.
//! `answer_desk` writes the text of each answer before the next line is looked at: the outcome of `desk_script_run` of
//! `specs/DeskRun.antt`. The test of images then answers by the lines of the style (`desk_images_after`); where the
//! run fails, by those that it had come to.
//!
//! At most eight views are open, so that a view is found by its name along the list of them.
//!
//! The text to believe is in `specs/`: `DeskLines`, `DeskState`, `DeskRun`, `View`.
#![tactic(auto)]

mod answers;
mod desk;
mod lines;
mod script;

pub use answers::{DeskAnswer, DeskRefusal};
pub use desk::{DESK_LIMIT, Desk};
pub use script::answer_desk;
