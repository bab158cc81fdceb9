//! Laws of views: what holds of the lines of every script of a desk.
//!
//! ```text
//! ["open-view","map",3]               // ok 1
//! ["open-view","inset",9]             // ok 2
//! ["view","inset",["set-zoom",4]]     // as if this line were not there
//! ["view","map",["list"]]             // view "map", and then what replay writes at zoom 3
//! ["view","map",["stats"]]            // view "map", and the number of evaluations of a first listing there
//! ```
//!
//! What is promised: from the line that opens a view until one that closes it, each line of the view is answered as
//! `replay` of the style answers it in the script of the lines of the style and of this view alone, begun at the view's
//! first zoom (`each_view_is_a_replay`): no other view is noticed. So it is with the answers to `stats` too: what is
//! kept of a view is what would be kept there, and nothing is when it opens, whatever was listed before.
//!
//! The law is a definition, and a function without arguments ensures it: a caller that calls the function has the law.
//!
//! The text to believe is in `specs/`: `ViewLaw`.
#![tactic(auto)]

mod laws;

pub use laws::each_view_is_a_replay;
