//! The filters that became false.

ghost use Rattle.std.specs.Prelude.{◌≡◌, IfOk};
ghost use Rattle.std.specs.List.{slice_get};
ghost use Rattle.decimal_json.specs.View.{tree_of, tree_at, items_view};
ghost use Rattle.style_parts.specs.Parts.{layers_of};
ghost use Rattle.style_simplify.specs.Simple.{listed};
ghost use Rattle.style_simplify.specs.SimplifiedStyle.{became_false, filter_of, filter_path, is_false, never_from};
ghost use Rattle.style_simplify.specs.SimplifiedStyle.{never_passed};

use decimal_json::{Json, Path, PathPart, Text};
use std::alloc::{AllocError, Global};
use style_parts::layers_of;

/// The paths of the filters that are false in the one document and not in the other.
#[tactic(auto, using(crate::proofs::NodeLaws::listed_again))]
pub(crate) fn never_passed(
    alloc: Global,
    before: &Json,
    after: &Json,
) -> Result<Vec<Path>, AllocError>
    ensures { IfOk result (λ made. made.items ≡ never_passed (tree_of before.now) (tree_of after.now)) }
{
    never_from(alloc, layers_of(before), layers_of(after))
}

fn never_from(alloc: Global, before: &[Json], after: &[Json]) -> Result<Vec<Path>, AllocError>
    ensures { IfOk result (λ made. made.items ≡ never_from 0 (items_view before.now) (items_view after.now)) }
{
    let mut made = Vec::new(alloc);
    for (number, layer) in before.iter().enumerate() {
        if became_false(layer, layer_at(number, after)) {
            made.push(filter_path(alloc, number)?)?;
        }
    }
    Ok(made)
}

#[tactic(auto, using(crate::proofs::NodeLaws::tree_got))]
fn layer_at(number: usize, layers: &[Json]) -> Option<&Json>
    ensures { tree_at result ≡ slice_get (items_view layers.now) number }
{
    layers.get(number)
}

fn became_false(before: &Json, after: Option<&Json>) -> bool
    ensures { result ≡ became_false (tree_of before.now) (tree_at after.entry) }
{
    match after {
        Some(after) => is_false(after.get("filter")) && !is_false(before.get("filter")),
        None => false,
    }
}

fn is_false(filter: Option<&Json>) -> bool
    ensures { result ≡ is_false (tree_at filter.entry) }
{
    match filter {
        Some(Json::Bool(false)) => true,
        _ => false,
    }
}

fn filter_path(alloc: Global, number: usize) -> Result<Path, AllocError>
    ensures { IfOk result (λ path. path ≡ filter_path number) }
{
    let mut path = Path::new(alloc);
    path.push(PathPart::Key(Text::copy_of(alloc, "layers")?))?;
    path.push(PathPart::Index(number))?;
    path.push(PathPart::Key(Text::copy_of(alloc, "filter")?))?;
    Ok(path)
}
