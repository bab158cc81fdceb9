//! Lines and columns of the values of a JSON text.
//!
//! ```text
//! // the text `{\n  "layers": [7]\n}` and its tree, the paths /layers and /layers/0
//! text_places(alloc, text, &json, &[&layers, &first])?;   // line 2 column 3, line 2 column 14
//! ```
//!
//! What is promised: each path has the place that `specs/TextPlace.antt` defines: of a member that of its name, else
//! that of the value; of a path that leads further than the tree, that of its last part that is there. Where the text
//! spells the tree by the grammar of `decimal_json`, the text at the place spells the member or value at the path
//! (`places_spell_their_values`).
//!
//! Lines and columns count from 1, and a column is a character. For paths in the order of the text the whole text is
//! gone through once, the text of a value once more for each value around it that has a path in it, and once for the
//! lines; at most 64 values are around one.
//!
//! The text to believe is in `specs/`: `Skipping`, `ValuePlace`, `LineColumn`, `TextPlace`. Law of it: `PlaceLaw`.
#![tactic(auto)]

mod finding;
mod laws;
mod place;
mod skipping;
mod starts;
mod text_place;

pub use laws::places_spell_their_values;
pub use place::{TextPlace, byte_place};
pub use text_place::text_places;
