//! Disjoint lists of slots, in which a slot is put, moved and taken out in constant time.
//!
//! Whoever keeps values in slots, numbered from 0, can keep the slots in lists besides: each slot is in one
//! list or in none.
//!
//! ```
//! let mut links = Links::new(alloc, 5, 2)?;    // five slots, two empty lists
//! links.push_last(0, 3);                       // list 0 is 3
//! links.push_last(0, 1);                       // list 0 is 3, 1
//! links.move_before(1, 3);                     // list 0 is 1, 3
//! links.unlink(3);                             // list 0 is 1
//! links.first(0)                               // Some(1)
//! ```
//!
//! What is promised:
//! - Contracts see the lists, as lists of slots by the numbers of the lists. Each call says exactly which
//!   lists it leaves; a list that it does not name stays.
//! - The lists are disjoint: no slot occurs twice in them (`are_disjoint`).
//! - `first` and `next` answer `None` exactly where the list is empty, and where the slot is the last of its
//!   list or in none.
//! - Only `new` and `grow` take memory. Each other call takes constant time: it reads and writes at most four
//!   links.
//!
//! Which list a slot is in is a function too: `Holds` says that the lists have just what such a function gives, and
//! laws say so after an edit (`proofs/Holding.antt`).
//!
//! The text to believe is in `specs/`: `SlotLists`, `Holds`.
#![tactic(auto)]

mod nodes;
mod slot_lists;

pub use slot_lists::Links;
