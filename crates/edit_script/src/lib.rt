//! The lines of an edit script: each is a JSON array that names a command and gives its parts.
//!
//! ```text
//! match read_line(alloc, b"[\"set-range\",\"roads\",5,null]")? {
//!     Ok(Command::SetRange(layer, min, max)) => ..,   // "roads", Some(5), None
//!     Ok(command) => ..,
//!     Err(fault) => ..,                               // Json, Form or Number
//! }
//! ```
//!
//! What is promised, for all lines and all JSON trees: `read_command` gives the edit that the table of forms in
//! `specs/Form.antt` has for the tree, or its fault by `specs/Command.antt`: `Form` where it has none of the forms, and
//! `Number` where it has one and a number of it is past its range. `read_line` gives the same of the tree that the
//! bytes spell, and `Json` where they spell none. No tree gives `Json` (`each_tree_is_read`).
//!
//! Texts and numbers are shared with the line's document, and trees are copied by `decimal_json::copy`. Each call takes
//! time linear in the line, and at most n log n of the members of an object, whose keys are looked up.
//!
//! The text to believe is in `specs/`: `Edit`, `View`, `Form`, `Command`, `Line`. Laws of it: `Laws`.
#![tactic(auto)]

mod command;
mod laws;
mod numbers;
mod reading;

pub use command::{Command, LineFault};
pub use laws::each_tree_is_read;
pub use reading::{read_command, read_line};
