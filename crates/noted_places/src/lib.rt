//! Places of elements of a list, of which some are noted: they follow their elements as elements come, go and move.
//!
//! ```text
//! let mut noted = NotedPlaces::new(alloc);
//! noted.note_if(true, 3)?;          // 3
//! noted.follow_insert(1, 8);        // 4: an element came before the one at 1 of eight
//! noted.follow_move(4, 0);          // 0: the one at 4 moved to the front
//! noted.follow_remove(0);           // none: it went
//! ```
//!
//! What is promised: after each change of the list the noted places are where their elements are (`after_insert`,
//! `after_remove`, `after_move`), and no others are noted.
//!
//! Each call takes time linear in the noted places at most, however long the list is. For that they are kept in
//! ascending order, each once; no clause speaks of the order.
//!
//! The text to believe is in `specs/`: `Places`. Laws say that what holds of all elements that are not noted still does
//! after a change (`proofs/NotedLaws.antt`).
#![tactic(auto)]

mod following;
mod places;

pub use places::NotedPlaces;
