//! The first nodes that are where they may not be.

ghost use Rattle.std.specs.Prelude.{◌≡◌, IfOk, option_map};
ghost use Rattle.decimal_json.specs.View.{path_of};
ghost use Rattle.property_tables.specs.RowView.{row_seen};
ghost use Rattle.expr_types.specs.Allowed.{allowed_by, is_input};
ghost use Rattle.expr_types.specs.MisplacedReads.{first_path, path_if, noted_if, none_noted};

use crate::standing::Standing;
use decimal_json::{Here, Path, path_to};
use expr_syntax::Mentions;
use property_tables::Row;
use std::alloc::{AllocError, Global};

/// What a walk over the nodes of an expression in document order has found: the first that reads what it may
/// not, the first `zoom` that is not the input of the root, or is after another, and whether there was a
/// `zoom`.
#[derive(Drop)]
pub(crate) struct MisplacedReads {
    pub(crate) unread: Option<Path>,
    pub(crate) zoom: Option<Path>,
    pub(crate) has_zoom: bool,
}

impl MisplacedReads {
    pub(crate) fn none() -> MisplacedReads
        ensures { result ≡ none_noted }
    {
        MisplacedReads {
            unread: None,
            zoom: None,
            has_zoom: false,
        }
    }
}

/// Whether a value of a row, or a filter where there is none, may read so much.
pub(crate) fn allows(row: Option<&Row>, reads: Mentions) -> bool
    ensures { result ≡ allowed_by (option_map (λ r. row_seen r.now) row.entry) reads }
{
    match row {
        Some(row) => (row.zoom || !reads.zoom)
            && ((row.feature || !reads.feature) && (row.state || !reads.state)),
        None => !reads.state,
    }
}

fn is_input(standing: Standing) -> bool
    ensures { result ≡ is_input standing }
{
    match standing {
        Standing::Input => true,
        _ => false,
    }
}

fn first_path(
    alloc: Global,
    found: Option<Path>,
    is_misplaced: bool,
    here: &Here<'_>,
) -> Result<Option<Path>, AllocError>
    ensures { IfOk result (λ path. path ≡ first_path found (path_if is_misplaced (path_of here.now))) }
{
    match found {
        Some(path) => Ok(Some(path)),
        None if is_misplaced => Ok(Some(path_to(alloc, here)?)),
        None => Ok(None),
    }
}

/// What was found, and one node more.
pub(crate) fn noted(
    alloc: Global,
    found: MisplacedReads,
    allowed: bool,
    reads: Mentions,
    standing: Standing,
    here: &Here<'_>,
) -> Result<MisplacedReads, AllocError>
    ensures { IfOk result
        (λ s. s ≡ noted_if allowed (record { reads = reads; standing = standing; path = path_of here.now }) found) }
{
    let MisplacedReads {
        unread,
        zoom,
        has_zoom,
    } = found;
    let is_misplaced = reads.zoom && (has_zoom || !is_input(standing));
    Ok(MisplacedReads {
        unread: first_path(alloc, unread, !allowed, here)?,
        zoom: first_path(alloc, zoom, is_misplaced, here)?,
        has_zoom: has_zoom || reads.zoom,
    })
}
