//! One run of the program, and what it gave beside what it must give.

ghost use Rattle.std.specs.Prelude.{◌≡◌, ◌<◌};

use crate::row::{TestRow, WantedRun};
use host_ops::{HostOp, ImageSet, ScriptTest};
use outside_io::{SinkInMemory, Steps};
use std::alloc::{AllocError, Global};
use std::marker::Brand;
use std::sync::ledger::{Blank, Ledger};
use style_program::{Status, run_style};

/// Room for more than is wanted, so that a text that is too long shows itself.
const MORE: usize = 4096;

/// Runs a row, and says what differs, or nothing where the run gave what it must.
pub fn difference(alloc: Global, row: &mut TestRow) -> Result<Option<String>, AllocError> {
    let mut out = sink_for(alloc, &row.wanted.out, &row.out_fails)?;
    let mut err = sink_for(alloc, &row.wanted.err, &row.err_fails)?;
    let status = run_counted::<Brand>(alloc, row, &mut out, &mut err, Blank::new(1))?;
    compare(alloc, &row.wanted, status, out.bytes(), err.bytes())
}

fn sink_for(
    alloc: Global,
    wanted: &Vec<u8>,
    fails: &Vec<(u64, usize)>,
) -> Result<SinkInMemory, AllocError> {
    let room = wanted.len().saturating_add(MORE);
    SinkInMemory::new(alloc, room, fails.as_slice())
}

fn run_counted<L: Ledger>(
    alloc: Global,
    row: &mut TestRow,
    out: &mut SinkInMemory,
    err: &mut SinkInMemory,
    blank: Blank,
) -> Result<Status, AllocError>
    requires name { blank.name ≡ L.name }
    requires parts { blank.parts ≡ L.parts }
    requires some { 0 < blank.parts }
{
    let mut steps: Steps<L> = Steps::new(blank);
    let images: Box<dyn HostOp> = if row.has_fixed_images {
        Box::new(alloc, ScriptTest::new())?
    } else {
        Box::new(alloc, ImageSet::new(alloc))?
    };
    let scripts = Box::new(alloc, ScriptTest::new())?;
    let words = row.words.as_slice();
    let files = &mut row.files;
    Ok(run_style(alloc, words, files, out, err, images, scripts, &mut steps))
}

fn compare(
    alloc: Global,
    wanted: &WantedRun,
    status: Status,
    out: &[u8],
    err: &[u8],
) -> Result<Option<String>, AllocError> {
    let code = u64::from(status.code());
    if code != wanted.status {
        let told = String::from_utf8_lossy(alloc, err)?;
        return Ok(Some(format!(in alloc; "status {code}, {told}")?));
    }
    if out != wanted.out.as_slice() {
        return Ok(Some(text_difference(alloc, "out", out)?));
    }
    if err != wanted.err.as_slice() {
        return Ok(Some(text_difference(alloc, "err", err)?));
    }
    Ok(None)
}

/// What a sink holds, which is not what it must hold.
fn text_difference(alloc: Global, sink: &str, held: &[u8]) -> Result<String, AllocError> {
    let held = String::from_utf8_lossy(alloc, held)?;
    format!(in alloc; "{sink} holds {held}")
}
