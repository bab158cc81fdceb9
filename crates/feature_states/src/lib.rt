//! The states of features: for each feature, named by its source, its layer and its id, a map of members.
//!
//! ```text
//! let mut states = States::new(alloc);
//! states.merge("tiles", "roads", 7, members)?;            // sets each of the members
//! states.get("tiles", "roads", 7);                        // Some(the members of that feature)
//! states.remove("tiles", "roads", 7, Some("hover"));      // removes one of them
//! states.remove("tiles", "roads", 7, None);               // removes all
//! ```
//!
//! What is promised: contracts see the members of every feature (`members_at`). Each call says which members
//! the feature that it names has afterwards, and that every other feature has the members that it had. `get`
//! is `None` exactly where a feature has no members, and no feature without members takes memory: what is kept
//! for an id is never empty, which its type says. When allocation fails all features have the members that they
//! had, and `remove` can't fail. The last member takes the place of one that is removed, in time logarithmic in
//! the members; no listing shows their order. A source without layers keeps its features under the layer of the
//! empty name.
//!
//! The text to believe is in `specs/`: `Features`, `Members`.
#![tactic(auto)]

mod feature_members;
mod kept;
mod states;

pub use states::States;
