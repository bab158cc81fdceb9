//! The world outside a run: files that are read by name, sinks that are written piece by piece, and a counter
//! of steps.
//!
//! A program takes its files and sinks as type parameters, so that the same proved code runs over real ones
//! and over ones in memory:
//!
//! ```
//! fn show<F: Files, S: Sink>(alloc: Global, name: &str, files: &mut F, out: &mut S) -> Result<(), SinkFailed> {
//!     let mut bytes = Vec::new(alloc);
//!     match files.read(alloc, name, 1024, &mut bytes) {
//!         ReadAnswer::Done => out.write(bytes.as_slice()),
//!         _ => out.write(b"unread\n"),
//!     }
//! }
//! ```
//!
//! What is promised:
//! - A read that is done gives the known bytes of the file of that name, and none that is too long is given
//!   in part. A write that is `Ok` leaves the sink with the piece more, and one that fails with a prefix of
//!   it more.
//! - A read or a write that fails raises the count of faults by one, and no other does, so that whoever sees
//!   a failure can show its cause, and a count that did not change shows that nothing failed.
//! - Each read adds its name to the names that were asked, so that whoever reads can promise which files, in which
//!   order, and how often.
//! - [`FilesInMemory`], [`SureFiles`] and [`SinkInMemory`] have known bytes; what each call does to them is
//!   given exactly.
//! - [`HostFiles`] and [`HostSink`] reach real files and streams. Their bytes are unknown: they are the edge
//!   that is trusted.
//! - [`Steps`] counts in the contracts alone. It takes no bytes and no time.
//!
//! The text to believe is in `specs/`: `Counts`, `Reading`, `ReadAnswers`, `Writing`, `Contents`, `FilesState`,
//! `SinkState`, `HostState`.
#![tactic(auto)]

mod asked_names;
mod counter;
mod files_in_memory;
mod host_files;
mod host_sink;
mod named_files;
mod reading;
mod sink_in_memory;
mod sure;
mod writing;

pub use counter::Steps;
pub use files_in_memory::FilesInMemory;
pub use host_files::HostFiles;
pub use host_sink::HostSink;
pub use reading::{Files, ReadAnswer};
pub use sink_in_memory::SinkInMemory;
pub use sure::{SureFiles, SureSink};
pub use writing::{Sink, SinkFailed};
