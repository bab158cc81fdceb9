//! Why a function that reads or evaluates goes no further.
//!
//! ```text
//! fn read(bytes: &[u8]) -> Result<Tree, Halt<JsonKind>>     // `?` carries a fault or a failed allocation
//! ```
//!
//! What is promised: a failed allocation becomes `NoMemory`, whatever the type of the faults. The crate of a fault has
//! the conversion of that fault.
#![tactic(auto)]

mod halt;

pub use halt::Halt;
