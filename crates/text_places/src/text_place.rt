ghost use Rattle.std.specs.Prelude.{◌≡◌, map, IfOk};
ghost use Rattle.decimal_json.specs.View.{tree_of};
ghost use Rattle.text_places.specs.Starts.{paths_seen};
ghost use Rattle.text_places.specs.TextPlace.{text_place};

use crate::finding::find_places;
use crate::place::{TextPlace, places_before};
use crate::skipping::after_spaces;
use crate::starts::PlacedJson;
use decimal_json::{Json, Path};
use std::alloc::{AllocError, Global};

/// The line and column of the member or value at each path of a tree, in the text that spells it.
///
/// Of a member it is the place of its name, of an item or the root that of the value. Time is linear in the text where
/// the paths are in its order. Source: own.
#[tactic(auto, using(crate::proofs::PathLaws::places_of_lefts))]
pub fn text_places(
    alloc: Global,
    text: &[u8],
    json: &Json,
    paths: &[&Path],
) -> Result<Vec<TextPlace>, AllocError>
    ensures { IfOk result
        (λ places. places.items ≡ map (text_place text.now (tree_of json.now)) (paths_seen paths.now)) }
{
    let first = after_spaces(text);
    let placed = PlacedJson {
        json,
        name: first,
        value: first,
    };
    let mut lefts = Vec::with_capacity(alloc, paths.len())?;
    find_places(&placed, paths, 0, &mut lefts)?;
    places_before(alloc, text, lefts.as_slice())
}
