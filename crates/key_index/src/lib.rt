//! An index from each key of a list of distinct keys to its place, for the members of objects and the entries
//! of maps.
//!
//! The list and its keys are the caller's: the index keeps places alone. Up to sixteen keys are compared one
//! by one. More keys that ascend are looked for by halves, and take no memory; a key above the last is seen
//! to be new at once. Once a key comes that is not above the one before, or is longer than 64 bytes, the keys
//! after the first sixteen are in buckets by a hash of their bytes, and a key whose bucket is full is in an
//! ordered map. So a look-up takes constant time, or time logarithmic in the keys where these ascend or were
//! chosen so that their hashes agree. Of a long key the hash takes the ends alone, so that noting it takes
//! constant time too. Once an entry is taken out of more than sixteen, all keys are in an ordered map until
//! fewer are left: so many entries may go, each in time logarithmic in them.
//!
//! ```text
//! let mut index = KeyIndex::new();
//! index.note_next(alloc, entries.as_slice(), key)?;       // the key that is added to the entries next
//! index.find(entries.as_slice(), key);                    // Some(the place of the entry that has the key)
//! index.note_taken(alloc, entries.as_slice(), place);     // the entry that goes next; the last takes its place
//! index.renew(alloc, entries.as_slice());                 // entries that were changed in another way
//! ```
//!
//! What is promised: an index that represents a list of keys (`IsIndexed`) finds each of them at its place,
//! and no other key. `note_next` gives the index that represents the longer list, or one that still
//! represents the list as it is: never while the list has fewer than sixteen keys, and else when allocation
//! fails. `note_taken` gives the index of the list without one key, whose place the last has then (`taken_out`),
//! and `renew` one that represents any entries: both look through them one by one when allocation fails.
//!
//! The text to believe is in `specs/`: `Keys`, `Index`.
#![tactic(auto)]

mod ascending;
mod hash;
mod index;
mod keyed;
mod places;
mod table;

pub use index::KeyIndex;
pub use keyed::Keyed;
