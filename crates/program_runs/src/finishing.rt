//! How the end of a run is written.

ghost use Rattle.std.specs.Prelude.{◌≡◌, ◌⊎◌, ◌<◌, length, OnOk, OnErr, IfOk};
ghost use Rattle.outside_io.specs.Counts.{raised};
ghost use Rattle.outside_io.specs.Writing.{Gains, GainsPrefix};
ghost use Rattle.program_runs.specs.Written.{unread_line, EndsUnread};

use crate::answer::RunOutput;
use crate::status::Status;
use decimal_json::write_text;
use outside_io::{Sink, SinkFailed};
use std::alloc::{AllocError, Global};

/// Writes both texts, that of standard output first.
pub fn write_answer<O: Sink, E: Sink>(
    answer: &RunOutput,
    out: &mut O,
    err: &mut E,
) -> Result<(), SinkFailed>
    ensures out { GainsPrefix (O.held out.old) (O.held out.new) answer.now.out.items }
    ensures err { GainsPrefix (E.held err.old) (E.held err.new) answer.now.err.items }
    ensures ok { OnOk result
        (Gains (O.held out.old) (O.held out.new) answer.now.out.items
        × Gains (E.held err.old) (E.held err.new) answer.now.err.items) }
    ensures none_failed { OnOk result
        ((O.faults out.new ≡ O.faults out.old) × (E.faults err.new ≡ E.faults err.old)) }
    ensures one_failed { OnErr result
        (((0 < length answer.now.out.items)
        × (O.faults out.new ≡ raised (O.faults out.old))
        × (E.faults err.new ≡ E.faults err.old))
        ⊎ ((0 < length answer.now.err.items)
        × (O.faults out.new ≡ O.faults out.old)
        × (E.faults err.new ≡ raised (E.faults err.old)))) }
{
    if !answer.out.is_empty() {
        out.write(answer.out.as_slice())?;
    }
    if !answer.err.is_empty() {
        err.write(answer.err.as_slice())?;
    }
    Ok(())
}

/// Writes a piece of what standard output is to hold; nothing is asked of it where the piece is empty.
pub fn write_piece<O: Sink>(piece: &[u8], out: &mut O) -> Result<(), SinkFailed>
    ensures ok { OnOk result (Gains (O.held out.old) (O.held out.new) piece.now) }
    ensures none_failed { OnOk result (O.faults out.new ≡ O.faults out.old) }
    ensures err { OnErr result (GainsPrefix (O.held out.old) (O.held out.new) piece.now) }
    ensures one_failed { OnErr result ((0 < length piece.now) × (O.faults out.new ≡ raised (O.faults out.old))) }
{
    if piece.is_empty() {
        return Ok(());
    }
    out.write(piece)
}

/// Writes the line of a file that could not be read.
pub fn write_unread<E: Sink>(alloc: Global, name: &str, err: &mut E) -> Status
    ensures status { EndsUnread result (E.held err.old) (E.held err.new)
        (E.faults err.old) (E.faults err.new) name.now }
    ensures front { GainsPrefix (E.held err.old) (E.held err.new) (unread_line name.now) }
{
    let Ok(line) = unread_line(alloc, name) else {
        return Status::NoMemory;
    };
    match err.write(line.as_slice()) {
        Ok(()) => Status::ReadFault,
        Err(_) => Status::WriteFault,
    }
}

fn unread_line(alloc: Global, name: &str) -> Result<Vec<u8>, AllocError>
    ensures { IfOk result (λ line. line.items ≡ unread_line name.now) }
{
    let mut line = Vec::new(alloc);
    line.extend_from_slice(b"read ")?;
    write_text(name, &mut line)?;
    line.push(b'\n')?;
    Ok(line)
}
