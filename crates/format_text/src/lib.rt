//! Sections of formatted texts as values and as texts. Source: MapLibre style specification, version 8,
//! `format`.
//!
//! ```text
//! // ["format", "a", {"font-scale": 0.8}, "b"]
//! section(alloc, a, Some(scale), None, None)?                     // ["a",{"font-scale":0.8}]
//! let sections = read_sections(alloc, "[[\"a\",{\"font-scale\":0.8}],[\"b\",{}]]")?;
//! plain(alloc, &sections.unwrap())?                               // ab
//! ```
//!
//! What is promised, for all values:
//! - A section is the list of its content and of the map of its options, in the order `font-scale`,
//!   `text-font`, `text-color`.
//! - `read_sections` gives sections exactly where the text is the text of their list and each font is a list
//!   of texts, and `None` where it is the text of no such list. No text is that of two lists
//!   (`texts_are_of_one_list`).
//! - `plain` joins the contents.
//!
//! The text to believe is in `specs/`: `Sections`, `SectionLists`, `ReadText`.
#![tactic(auto)]

mod colors;
mod contents;
mod formatted;
mod laws;
mod reading;
mod values;

pub use contents::plain;
pub use formatted::{Section, Sections};
pub use laws::texts_are_of_one_list;
pub use reading::read_sections;
pub use values::section;
