//! Values of style properties, features and expressions, with what is known and wanted of them.
//!
//! ```text
//! let mut entries = Entries::new(alloc);
//! entries.push(Text::copy_of(alloc, "kind")?, Value::Bool(true))?;
//! entries.get("kind");                                    // Some(Value::Bool(true))
//! entries.set(Text::copy_of(alloc, "width")?, Value::Null)?;
//! entries.remove("width");
//! let map = Value::Map(SharedEntries::of(alloc, entries)?);
//! to_text(alloc, &copy(&map)?)?.as_str();          // {"kind":true}
//! ```
//!
//! What is promised, for all values: equality (maps in any order), order, kind text, truth, text and listed
//! text are those of the definitions in `specs/`; a JSON tree gives the value that it says, or the fault of
//! its first number past the bound. A map's keys differ, and its `get` takes at most time by the logarithm of
//! its entries, so `equals` takes n log n and no memory. Two maps are equal exactly where at each key both
//! have nothing or equal values, and equality is reflexive and symmetric: laws on `maps_are_equal_by_keys`
//! and the two beside it.
//!
//! A copy is the same value, and takes constant time: texts, lists and maps are counted and not copied. A
//! list that is shared is taken apart when an item is pushed, and a map when its entries are taken out to be
//! changed. `Entries` by themselves are never shared, so that `remove` needs no memory.
//!
//! Maps change at their keys: `set` and `merge` replace a value in its place or add an entry at the end, and
//! when allocation fails the map is as before. `merge` takes n log n of the members. `remove` puts the last
//! entry in the place of the one that goes, in time logarithmic in the entries, and can't fail: where there
//! is no memory for an index of the keys, they are looked for one by one until the next entry is added. The
//! clauses `at` of the three say what is at each key then.
//!
//! Contracts see a value through `data_of`, a list as a list of data, and a map as a list of pairs of a key
//! and data (`specs/Data.antt`, `specs/View.antt`). `proofs/Falls.antt` has the lemmas by which a recursion
//! over values ends, and `proofs/KeyLaws.antt` those on what is at a key.
//!
//! The text to believe is in `specs/`: `Data`, `View`, `ViewParts`, `Faults`, `Equality`, `Choices`, `Forms`,
//! `ColorText`, `ValueText`, `JsonData`, `Changes`. Laws of it: `EqualityLaws`.
#![tactic(auto)]

mod choice;
mod comparing;
mod copying;
mod fault;
mod kinds;
mod laws;
mod outcome;
mod packed_color;
mod text;
mod value;

pub use choice::Choice;
pub use comparing::{equals, kind_text, order, truth};
pub use copying::{copy, copy_entries, from_json};
pub use fault::{EvalFault, FaultSet};
pub use kinds::{Item, Kind, Want};
pub use laws::{equality_is_reflexive, equality_is_symmetric, maps_are_equal_by_keys};
pub use outcome::{Curve, Outcome};
pub use packed_color::PackedColor;
pub use text::{color_text, to_text, write_color, write_listed};
pub use value::{Entries, Entry, SharedEntries, Value, Values};
