//! A style and tiles of its sources, as `eval` and `replay` read and open them.

ghost use Rattle.std.specs.Prelude.{◌≡◌, ◌+◌, ◌<◌, ◌≤◌, ℕ, List, [], length, map};
ghost use Rattle.std.specs.Prelude.{Bool, None, Option, OnOk, IfOk, IfErr};
ghost use Rattle.decimal_json.specs.View.{tree_of};
ghost use Rattle.edit_session.specs.Opening.{cell_limit, tiles_fault};
ghost use Rattle.edit_session.specs.SessionState.{opened};
ghost use Rattle.edit_session.specs.View.{session_state, tiles_of, IsSoundSession};
ghost use Rattle.program_runs.specs.FailedReads.{NoneFailed};
ghost use Rattle.program_runs.specs.Progress.{GoesOn, Halts, HaltsAt, ComesTo};
ghost use Rattle.program_runs.specs.Runs.{Run};
ghost use Rattle.style_layout.specs.CodeView.{tile_seen};
ghost use Rattle.style_layout.specs.Shown as shown;
ghost use Rattle.style_program.specs.EvalRun.{opened_or_refused};
ghost use Rattle.style_program.specs.ShownRun.{load_part, sound_or_broken, tile_from, tile_part, tiles_part};
ghost use Rattle.style_program.specs.TileRunView.{tiles_from, shown_seen};
ghost use Rattle.style_program.specs.WordsView.{eval_words, tile_word};
ghost use Rattle.style_rules.specs.CodeView.{finding_seen};
ghost use Rattle.style_rules.specs.Findings.{findings};

use crate::refusals::{no_tile, not_opened};
use crate::style_file::STYLE_LIMIT;
use crate::validate_command::answer_broken;
use crate::words::{EvalRequest, TileWord, count_of};
use decimal_json::Json;
use edit_session::Session;
use fixed_num::Fixed;
use outside_io::Files;
use program_runs::{RunHalt, RunStop, Subject, read_file, read_json};
use std::alloc::Global;
use style_layout::SourceTile;
use style_rules::{Finding, findings};
use tile_reader::{Tile, read_tile};

/// The longest tile, in bytes.
pub(crate) const TILE_LIMIT: usize = 16_777_216;

/// All tiles of a run, in bytes.
const TILES_LIMIT: usize = 33_554_432;

/// A style without findings, and tiles.
#[derive(Drop)]
pub struct LoadedStyle<'a> {
    pub style: Json,
    pub tiles: Vec<SourceTile<'a>>,
}

/// The style and the tiles of words. The style is read before its tiles, and one with findings halts the run.
pub fn read_shown<'a, F: Files>(
    alloc: Global,
    request: &EvalRequest<'a>,
    files: &mut F,
) -> Result<LoadedStyle<'a>, RunHalt<'a>>
    ensures told { F.told files.new ≡ F.told files.old }
    ensures failed { OnOk result
        (NoneFailed (F.faults files.old) (F.faults files.new) (F.failed files.old) (F.failed files.new)) }
    ensures on { IfOk result (λ shown. GoesOn (F.told files.old) (load_part (eval_words request.now))
        (F.asked files.old) (F.asked files.new) (shown_seen shown)) }
    ensures sound { IfOk result (λ shown. findings (tree_of shown.style) ≡ []) }
    ensures halt { IfErr result (λ halt. Halts (F.told files.old) (load_part (eval_words request.now))
        (F.faults files.old) (F.faults files.new) (F.failed files.old) (F.failed files.new) (F.asked files.old)
        (F.asked files.new) halt) }
{
    let style = read_json(alloc, &Subject::Style, request.style, STYLE_LIMIT, files)?;
    refuse_broken(alloc, &style)?;
    let tiles = read_tiles(alloc, request.tiles.as_slice(), files)?;
    Ok(LoadedStyle { style, tiles })
}

/// A style without findings, opened over its tiles at a zoom, or why it is refused. It has at most `limit` cells.
pub(crate) fn open_shown<'a>(
    alloc: Global,
    loaded: LoadedStyle<'a>,
    zoom: Fixed,
    limit: u64,
) -> Result<Session<'a>, RunHalt<'a>>
    requires sound { findings (tree_of loaded.style) ≡ [] }
    requires few { limit ≤ cell_limit }
    ensures sound { (images scripts : List ℕ → Bool) → IfOk result (λ session. IsSoundSession session images scripts) }
    ensures tiles { IfOk result (λ session. tiles_of session ≡ (shown_seen loaded.entry).1) }
    ensures opened { IfOk result (λ session. (has_image : List ℕ → Bool)
        → session_state session has_image ≡ opened limit (shown_seen loaded.entry).0 zoom has_image) }
    ensures none { OnOk result (None ≡ tiles_fault limit (shown_seen loaded.entry).0 (shown_seen loaded.entry).1 zoom) }
    ensures halt { (files : List ℕ → Option (List ℕ)) (count : ℕ) (failed : Option (List ℕ)) (asked : List (List ℕ))
        (next : Run) → IfErr result (λ halt. HaltsAt files
        (opened_or_refused (tiles_fault limit (shown_seen loaded.entry).0 (shown_seen loaded.entry).1 zoom) next)
        count count failed failed asked asked halt) }
{
    match Session::open_sound(alloc, loaded.style, loaded.tiles, zoom, limit)? {
        Ok(session) => Ok(session),
        Err(fault) => Err(RunHalt::Refused(not_opened(alloc, &fault)?)),
    }
}

/// Halts the run where the style has findings.
pub(crate) fn refuse_broken<'a>(alloc: Global, style: &Json) -> Result<(), RunHalt<'a>>
    ensures sound { OnOk result (findings (tree_of style.now) ≡ []) }
    ensures halt { (files : List ℕ → Option (List ℕ)) (count : ℕ) (failed : Option (List ℕ)) (asked : List (List ℕ))
        (next : Run) → IfErr result (λ halt. HaltsAt files
        (sound_or_broken (findings (tree_of style.now)) next) count count failed failed asked asked halt) }
{
    let found = findings(alloc, style)?;
    refuse_found(alloc, found.as_slice())
}

fn refuse_found<'a>(alloc: Global, found: &[Finding]) -> Result<(), RunHalt<'a>>
    ensures sound { OnOk result (map finding_seen found.now ≡ []) }
    ensures halt { (files : List ℕ → Option (List ℕ)) (count : ℕ) (failed : Option (List ℕ)) (asked : List (List ℕ))
        (next : Run) → IfErr result (λ halt. HaltsAt files
        (sound_or_broken (map finding_seen found.now) next) count count failed failed asked asked halt) }
{
    match found {
        [] => Ok(()),
        _ => Err(RunHalt::Refused(answer_broken(alloc, found)?)),
    }
}

// The tiles of words, in their order.
fn read_tiles<'a, F: Files>(
    alloc: Global,
    words: &[TileWord<'a>],
    files: &mut F,
) -> Result<Vec<SourceTile<'a>>, RunHalt<'a>>
    ensures told { F.told files.new ≡ F.told files.old }
    ensures failed { OnOk result
        (NoneFailed (F.faults files.old) (F.faults files.new) (F.failed files.old) (F.failed files.new)) }
    ensures on { IfOk result (λ tiles. GoesOn (F.told files.old) (tiles_part (map tile_word words.now))
        (F.asked files.old) (F.asked files.new) (map tile_seen tiles.items)) }
    ensures halt { IfErr result (λ halt. Halts (F.told files.old) (tiles_part (map tile_word words.now))
        (F.faults files.old) (F.faults files.new) (F.failed files.old) (F.failed files.new) (F.asked files.old)
        (F.asked files.new) halt) }
{
    let mut tiles = Vec::new(alloc);
    let mut left = TILES_LIMIT;
    for i in 0..words.len() {
        left = read_next(alloc, words, i, left, &mut tiles, files)?;
    }
    Ok(tiles)
}

// Reads the tile of a word, where `left` bytes are left for tiles, and says how many are left after it.
fn read_next<'a, F: Files>(
    alloc: Global,
    words: &[TileWord<'a>],
    i: usize,
    left: usize,
    tiles: &mut Vec<SourceTile<'a>>,
    files: &mut F,
) -> Result<usize, RunHalt<'a>>
    requires { i < length words.now }
    ensures told { F.told files.new ≡ F.told files.old }
    ensures failed { OnOk result
        (NoneFailed (F.faults files.old) (F.faults files.new) (F.failed files.old) (F.failed files.new)) }
    ensures on { IfOk result (λ rest. (after : List shown.SourceTile → Run) → ComesTo (F.told files.old)
        (tiles_from i words.now (map tile_seen tiles.old.items) left after)
        (tiles_from (i + 1) words.now (map tile_seen tiles.new.items) rest after)
        (F.asked files.old) (F.asked files.new)) }
    ensures halt { IfErr result
        (λ halt. Halts (F.told files.old) (tiles_from i words.now (map tile_seen tiles.old.items) left)
        (F.faults files.old) (F.faults files.new) (F.failed files.old) (F.failed files.new) (F.asked files.old)
        (F.asked files.new) halt) }
{
    let word = words[i];
    let number = count_of(word.source, &words[..i]);
    let limit = left.min(TILE_LIMIT);
    let (size, tile) = read_one(alloc, word.source, number, word.tile, limit, files)?;
    let source = word.source;
    let Ok(()) = tiles.push(SourceTile { source, tile }) else {
        return Err(RunHalt::Stopped(RunStop::NoMemory));
    };
    Ok(left.saturating_sub(size))
}

// A tile in a file of at most `limit` bytes, and how many it has.
fn read_one<'a, F: Files>(
    alloc: Global,
    source: &str,
    number: usize,
    name: &'a str,
    at_most: usize,
    files: &mut F,
) -> Result<(usize, Tile), RunHalt<'a>>
    ensures told { F.told files.new ≡ F.told files.old }
    ensures failed { OnOk result
        (NoneFailed (F.faults files.old) (F.faults files.new) (F.failed files.old) (F.failed files.new)) }
    ensures on { IfOk result (λ read. GoesOn (F.told files.old) (tile_part number at_most (source.now, name.now))
        (F.asked files.old) (F.asked files.new) (read.0, read.1)) }
    ensures halt { IfErr result (λ halt. Halts (F.told files.old) (tile_part number at_most (source.now, name.now))
        (F.faults files.old) (F.faults files.new) (F.failed files.old) (F.failed files.new) (F.asked files.old)
        (F.asked files.new) halt) }
{
    let bytes = read_file(alloc, &Subject::Tile(source, number), name, at_most, files)?;
    tile_in(alloc, source, number, bytes.as_slice())
}

// The tile that these bytes are, and how many they are.
fn tile_in<'a>(
    alloc: Global,
    source: &str,
    number: usize,
    bytes: &[u8],
) -> Result<(usize, Tile), RunHalt<'a>>
    ensures on { (files : List ℕ → Option (List ℕ)) (asked : List (List ℕ)) → IfOk result (λ read. GoesOn files
        (tile_from number source.now bytes.now) asked asked (read.0, read.1)) }
    ensures halt { (files : List ℕ → Option (List ℕ)) (count : ℕ) (failed : Option (List ℕ)) (asked : List (List ℕ))
        → IfErr result (λ halt. Halts files
        (tile_from number source.now bytes.now) count count failed failed asked asked halt) }
{
    match read_tile(alloc, bytes)? {
        Ok(tile) => Ok((bytes.len(), tile)),
        Err(fault) => Err(RunHalt::Refused(no_tile(alloc, source, number, fault)?)),
    }
}
