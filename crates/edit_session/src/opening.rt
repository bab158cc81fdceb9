//! What a session over a style begins with, or why it cannot be opened.

ghost use Rattle.std.specs.Prelude.{◌≡◌, ◌≤◌, ℕ, ◌-◌, ◌^◌, [], map, min, option_map, true, IfOk};
ghost use Rattle.std.specs.Result.{result_err};
ghost use Rattle.decimal_json.specs.View.{tree_of};
ghost use Rattle.style_parts.specs.Parts.{source_at};
ghost use Rattle.edit_session.specs.Opening.{cell_limit, first_failing, has_source, is_vector, tiles_fault};
ghost use Rattle.edit_session.specs.Opening.{within_limit};
ghost use Rattle.edit_session.specs.View.{IsWholeDocument, fault_seen};
ghost use Rattle.style_layout.specs.CodeView.{tile_seen};
ghost use Rattle.style_layout.specs.Globals.{globals_of};
ghost use Rattle.style_rules.specs.Findings.{findings};

use crate::layers::PreparedLayers;
use decimal_json::Json;
use fixed_num::Fixed;
use prop_values::Entries;
use std::alloc::{AllocError, Global};
use style_layout::{SourceTile, globals_of};
use style_parts::{is_zoom, source_at};

/// Why a session cannot be opened, in the order in which the causes are looked for.
#[derive(Clone, Copy, Debug, PartialEq, Eq)]
pub enum OpenFault<'a> {
    /// The style breaks a rule.
    Findings,
    /// The first tile whose source is none of the style's is of this source.
    UnknownSource(&'a str),
    /// The first tile whose source is not of type `vector` is of this source.
    NotVector(&'a str),
    /// The style has too many cells over the tiles: so many, counted up to `u128::MAX`.
    CellLimit(u128),
    /// The zoom is not from 0 to 24.
    ZoomRange,
}

/// The most cells that a style may have over the tiles of a session that is alone.
pub const CELL_LIMIT: u64 = 8_000_000;

/// The layers of a style, by the values that the global state has at first.
#[derive(Drop)]
pub(crate) struct OpenedLayers {
    pub(crate) globals: Entries,
    pub(crate) layers: PreparedLayers,
}

/// The layers of a style without findings over tiles, at a zoom, which may have so many cells; or why they cannot be
/// shown, the first cause that holds.
pub(crate) fn open_layers<'a>(
    alloc: Global,
    style: &Json,
    tiles: &[SourceTile<'a>],
    zoom: Fixed,
    limit: u64,
) -> Result<Result<OpenedLayers, OpenFault<'a>>, AllocError>
    requires sound { findings (tree_of style.now) ≡ [] }
    requires few { limit ≤ cell_limit }
    ensures fault { IfOk result (λ made. option_map fault_seen (result_err made)
        ≡ tiles_fault limit (tree_of style.now) (map tile_seen tiles.now) zoom) }
    ensures globals { IfOk result (λ made. IfOk made (λ opened. opened.globals ≡ globals_of (tree_of style.now))) }
    ensures whole { IfOk result (λ made. IfOk made (λ opened.
        IsWholeDocument (map tile_seen tiles.now) opened.globals (tree_of style.now) opened.layers)) }
    ensures limit { IfOk result (λ made. IfOk made (λ opened. opened.layers.limit ≡ limit)) }
{
    if let Some(source) = first_unknown(style, tiles) {
        return Ok(Err(OpenFault::UnknownSource(source)));
    }
    if let Some(source) = first_of_no_vector(style, tiles) {
        return Ok(Err(OpenFault::NotVector(source)));
    }
    let globals = globals_of(alloc, style)?;
    let layers = PreparedLayers::of(alloc, style, &globals, tiles, limit)?;
    let cells = layers.cells();
    if !is_within_limit(limit, cells) {
        return Ok(Err(OpenFault::CellLimit(cells)));
    }
    if !is_zoom(zoom) {
        return Ok(Err(OpenFault::ZoomRange));
    }
    Ok(Ok(OpenedLayers { globals, layers }))
}

/// The source of the first tile whose source is none of the style's.
pub(crate) fn first_unknown<'a>(style: &Json, tiles: &[SourceTile<'a>]) -> Option<&'a str>
    ensures { option_map (λ source. source.now) result
        ≡ first_failing (has_source (tree_of style.now)) (map tile_seen tiles.now) }
{
    for tile in tiles {
        if source_at(style, tile.source).is_none() {
            return Some(tile.source);
        }
    }
    None
}

/// The source of the first tile whose source is not of type `vector`.
pub(crate) fn first_of_no_vector<'a>(style: &Json, tiles: &[SourceTile<'a>]) -> Option<&'a str>
    ensures { option_map (λ source. source.now) result
        ≡ first_failing (is_vector (tree_of style.now)) (map tile_seen tiles.now) }
{
    for tile in tiles {
        if !is_vector(style, tile.source) {
            return Some(tile.source);
        }
    }
    None
}

fn is_vector(style: &Json, name: &str) -> bool
    ensures { result ≡ is_vector (tree_of style.now) name.now }
{
    let Some(source) = source_at(style, name) else {
        return false;
    };
    match source.get("type").and_then(Json::as_text) {
        Some(source_type) => source_type == "vector",
        None => false,
    }
}

/// Whether so many cells, counted up to `u128::MAX`, are no more than this limit.
#[tactic(auto, using(crate::proofs::CountLaws::limit_at, crate::proofs::CountLaws::exact_within))]
pub(crate) fn is_within_limit(limit: u64, cells: u128) -> bool
    ensures within { result ≡ within_limit limit cells }
    ensures limit { (count : ℕ) → cells ≡ min count (2 ^ 128 - 1) → result ≡ within_limit limit count }
    ensures exact { (count : ℕ) → cells ≡ min count (2 ^ 128 - 1) → result ≡ true → cells ≡ count }
{
    cells <= limit as u128
}
