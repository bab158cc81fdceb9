//! JSON whose numbers stay text: the trees that a style is read from and written as.
//!
//! `parse` reads a whole byte string, `write` appends the text of a tree, and a `Path` names a place in
//! a tree. Nothing here turns a number into an amount: a `NumText` is the text as it is. `parse` copies the
//! bytes once, and `parse_owned` takes them over; texts without escapes and numbers are ranges of these
//! bytes, which a tree keeps whole.
//!
//! ```text
//! match parse(alloc, b"[\"+\", 0.1, 1.50]")? {
//!     Ok(json) => write(&json, &mut out)?,    // ["+",0.1,1.50]
//!     Err(fault) => ..,                       // they spell no tree
//! }
//! ```
//!
//! What is promised: `parse` and `parse_owned` give a tree exactly where the bytes spell it by the grammar of
//! `specs/Grammar.antt`, which is RFC 8259 with five rules of `json_tokens`, and no byte string spells two
//! trees. Where they spell none, the fault's place is the length of the longest front that begins an
//! accepted text, and its kind the rule that, dropped alone, lets that front and the next byte begin
//! one; `specs/Parsed.antt` says so. `write`, `write_text` and `write_path` append exactly the text that is
//! defined in `specs/JsonText.antt` and `specs/Place.antt`; when allocation fails a prefix of it may have
//! been appended. The text of a tree that is sound, as `specs/Sound.antt` says it, spells that tree. The
//! items of an array and the members of an object are edited in place, as `specs/Editing.antt` says; when
//! allocation fails, nothing changes.
//!
//! `read_number` and `read_text` read one token at the place of a cursor, whatever follows it. `read_number` takes the
//! longest number there and gives its text; or it stops at the place before which the bytes can still become a number
//! of at most 64 bytes, and with the next byte can't, and names the rule: `NumberLength` where the number could go on
//! without it, else `Syntax`. It takes no memory. It walks an automaton (`specs/Automaton.antt`) over at most 65 bytes,
//! which accepts the numbers of the grammar of RFC 8259 §6 and nothing else (`automaton_accepts_numbers`). `read_text`
//! gives the text that the bytes spell; or it stops at the first byte with which no text goes on, and names the rule
//! that, dropped alone, lets it go on (`specs/TextToken.antt` of `json_tokens`). A text without escapes is a range of
//! the document, and takes no memory.
//!
//! The text to believe is in `specs/`: `Tree`, `View`, `Accessors`, `Editing`, `Grammar`, `Parses`, `Parsed`,
//! `JsonText`, `Place`, `Automaton`. Laws of it: `OneTree`, `OneFault`, `Sound`, `RoundTrip`.
#![tactic(auto)]

mod accessors;
mod chars;
mod copying;
mod editing;
mod escape;
mod fault;
mod laws;
mod number_laws;
mod number_token;
mod paths;
mod phase;
mod piece;
mod plain;
mod plain_text;
mod reading;
mod text_token;
mod texts;
mod tokens;
mod tree;
mod unit;
mod walk;
mod writing;

pub use copying::copy;
pub use fault::JsonFault;
pub use json_tokens::JsonKind;
pub use laws::{spells_one_tree, texts_have_one_fault, written_trees_are_spelled};
pub use number_laws::automaton_accepts_numbers;
pub use number_token::read_number;
pub use paths::{Here, Path, PathPart, path_to};
pub use reading::{parse, parse_owned};
pub use shared_text::Text;
pub use text_token::read_text;
pub use texts::{Bytes, NumText};
pub use tree::{Items, Json, Member, Members};
pub use writing::{write, write_path, write_text};
