//! Reads the fields of a Protocol Buffers message from its bytes, with the offset of each.
//!
//! ```text
//! let mut fields = Fields::new(&[0x08, 0x96, 0x01], 0);
//! fields.next();      // Some(Ok(Field { number: 1, at: 0, wire: Wire::Varint(150) }))
//! fields.next();      // None
//! ```
//!
//! A field that holds bytes may hold a message again. Its content ends where the next field begins, so after
//! `next` gave `Wire::Bytes(content)`, `Fields::new(content, fields.offset() - content.len())` reads it with
//! true offsets.
//!
//! What is promised, for all bytes: each field is the one that the encoding gives, a fault comes exactly
//! where the encoding has one, with its kind and place, and nothing is read after a fault. No call takes
//! memory, each takes time linear in what it reads, and contents are borrowed and not copied.
//!
//! Contracts speak in the words of `specs/Message.antt`: `field_at` for one field, `ReadsFields` for the fields
//! that a loop has read so far, `AreFields` for all of them with the fault or none. `proofs/Walks.antt` joins
//! the three.
//!
//! The text to believe is in `specs/`: `Varint`, `Message`, `View`. Laws of it: `Laws`.
#![tactic(auto)]

mod field;
mod fields;
mod laws;
mod wire;

pub use field::{Field, Wire, WireFault};
pub use fields::Fields;
pub use laws::{messages_are_fields, varints_are_spelled};
pub use wire::{WireKind, varint};
