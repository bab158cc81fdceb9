//! A list with an index of its items, by which it is found at once whether a value is one of them.
//!
//! ```text
//! let list = IndexedList::of(alloc, items)?;       // the items ["a", "b", 1, null]
//! list.value();                                    // the list, as it was
//! list.has(&Value::Null);                          // true
//! ```
//!
//! What is promised: an [`IndexedList`] is the list of the items of which it was made, and has a value exactly where
//! one of the items is equal to it, by the equality of `prop_values`.
//!
//! Up to sixteen items are compared one by one, and have no index. Of more, texts are looked for in constant time, or
//! in time logarithmic in their number where they ascend or were chosen so that their hashes agree (`key_index`), and
//! numbers in logarithmic time. Null and the truth values are noted each. A value of another form is compared with the
//! items of such forms alone. An index of n items takes memory linear in n and is made in n log n; texts, and items of
//! other forms, are shared with the list.
//!
//! What is to be believed is in `prop_values`: `Equality`, `View`. The file of `specs/` here is of private functions
//! alone.
#![tactic(auto)]

mod index;
mod indexed_list;

pub use indexed_list::IndexedList;
