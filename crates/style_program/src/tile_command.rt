//! `tile`: what a tile holds.

ghost use Rattle.std.specs.Prelude.{◌≡◌, OnOk, IfOk, IfErr};
ghost use Rattle.program_runs.specs.FailedReads.{NoneFailed};
ghost use Rattle.program_runs.specs.Progress.{outcome_of, HaltsAt};
ghost use Rattle.program_runs.specs.Runs.{HasOutcome};
ghost use Rattle.style_program.specs.TileRun.{tile_run, tile_outcome};

use crate::loading::TILE_LIMIT;
use crate::refusals::no_tile;
use outside_io::Files;
use program_runs::{Ending, RunHalt, RunOutput, Subject, answer_out, read_file};
use std::alloc::{AllocError, Global};
use tile_listing::write_tile;
use tile_reader::read_tile;

/// The layers of a tile with their features and properties, or why it is refused. The tile is of `TILE_LIMIT` bytes at
/// most.
pub fn answer_tile<'a, F: Files>(
    alloc: Global,
    name: &'a str,
    files: &mut F,
) -> Result<RunOutput, RunHalt<'a>>
    ensures told { F.told files.new ≡ F.told files.old }
    ensures failed { OnOk result
        (NoneFailed (F.faults files.old) (F.faults files.new) (F.failed files.old) (F.failed files.new)) }
    ensures answer { IfOk result (λ answer. HasOutcome (F.told files.old) (tile_run name.now)
        (F.asked files.old) (F.asked files.new) (outcome_of answer)) }
    ensures halt { IfErr result (λ halt. HaltsAt (F.told files.old) (tile_run name.now)
        (F.faults files.old) (F.faults files.new) (F.failed files.old) (F.failed files.new) (F.asked files.old)
        (F.asked files.new) halt) }
{
    let bytes = read_file(alloc, &Subject::Tile(name, 0), name, TILE_LIMIT, files)?;
    Ok(answer_bytes(alloc, name, bytes.as_slice())?)
}

fn answer_bytes(alloc: Global, name: &str, bytes: &[u8]) -> Result<RunOutput, AllocError>
    ensures { IfOk result (λ answer. outcome_of answer ≡ tile_outcome name.now bytes.now) }
{
    match read_tile(alloc, bytes)? {
        Ok(tile) => {
            let mut out = Vec::new(alloc);
            write_tile(bytes, &tile, &mut out)?;
            Ok(answer_out(alloc, out, Ending::Fine))
        }
        Err(fault) => no_tile(alloc, name, 0, fault),
    }
}
