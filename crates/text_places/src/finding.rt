//! A walk down a tree and its text, to the places of paths.

ghost use Rattle.std.specs.Prelude.{◌≡◌, ◌+◌, ◌<◌, ◌≤◌, ◌^◌, ◌++◌, true, drop, length, option_map, replicate};
ghost use Rattle.std.specs.Prelude.{slice_get, take, IfOk, OnOk, IfSome};
ghost use Rattle.decimal_json.specs.View.{tree_of};
ghost use Rattle.text_places.specs.Starts.{AreAlike, AreStarts, first_part, lefts_below, paths_seen, placed_seen};
ghost use Rattle.text_places.specs.Starts.{step_at};

use crate::starts::{PlacedJson, Starts, part_of, starts_of};
use decimal_json::{Path, PathPart};
use std::alloc::AllocError;

/// Adds for each path, which goes on from a value at a depth, how many bytes of the text there are from its place on.
#[tactic(auto, using(crate::proofs::PathLaws::none_left))]
#[cycle(finding)]
pub(crate) fn find_places(
    placed: &PlacedJson<'_>,
    paths: &[&Path],
    depth: usize,
    found: &mut Vec<usize>,
) -> Result<(), AllocError>
    ensures { OnOk result (found.new.items
        ≡ found.old.items ++ lefts_below depth (placed_seen placed.now) (paths_seen paths.now)) }
{
    let starts = starts_of(*found.allocator(), placed.json, placed.value)?;
    let mut at = 0;
    while at < paths.len() {
        at = find_next(&*placed, &starts, &*paths, at, depth, found)?;
    }
    Ok(())
}

// The same of the paths from one on that have the same part at the depth, and which path comes after them.
#[tactic(auto, using(crate::proofs::PathLaws::run_found))]
#[cycle(finding)]
fn find_next(
    placed: &PlacedJson<'_>,
    starts: &Starts<'_>,
    paths: &[&Path],
    at: usize,
    depth: usize,
    found: &mut Vec<usize>,
) -> Result<usize, AllocError>
    requires starts { AreStarts starts.now (tree_of placed.now.json.now) placed.now.value.now }
    requires within { at < length paths.now }
    ensures left { IfOk result
        (λ end. found.new.items ++ lefts_below depth (placed_seen placed.now) (paths_seen (drop end paths.now))
        ≡ found.old.items ++ lefts_below depth (placed_seen placed.now) (paths_seen (drop at paths.now))) }
    ensures further { IfOk result (λ end. at < end) }
    ensures within { IfOk result (λ end. end ≤ length paths.now) }
{
    let (_, later) = paths.split_at(at);
    let (run, _) = later.split_at(run_length(later, depth));
    find_run(&*placed, &*starts, run, depth, found)?;
    Ok(at + run.len())
}

// The same of paths that have the same part at the depth.
#[cycle(finding)]
fn find_run(
    placed: &PlacedJson<'_>,
    starts: &Starts<'_>,
    run: &[&Path],
    depth: usize,
    found: &mut Vec<usize>,
) -> Result<(), AllocError>
    requires starts { AreStarts starts.now (tree_of placed.now.json.now) placed.now.value.now }
    requires alike { AreAlike depth (first_part depth (paths_seen run.now)) (paths_seen run.now) }
    requires some { 0 < length run.now }
    ensures { OnOk result (found.new.items
        ≡ found.old.items ++ lefts_below depth (placed_seen placed.now) (paths_seen run.now)) }
{
    match step_of(&*placed, &*starts, run[0], depth) {
        Some(next) => find_places(&next, &*run, depth + 1, found),
        None => find_here(placed.name, run.len(), found),
    }
}

// How many of the first paths have the same part at a depth.
fn run_length(paths: &[&Path], depth: usize) -> usize
    requires { 0 < length paths.now }
    ensures some { 0 < result }
    ensures within { result ≤ length paths.now }
    ensures alike { AreAlike depth (first_part depth (paths_seen paths.now)) (paths_seen (take result paths.now)) }
{
    let mut count = 1;
    while count < paths.len() && has_same_part(paths[0], paths[count], depth) {
        count += 1;
    }
    count
}

fn has_same_part(first: &Path, other: &Path, depth: usize) -> bool
    ensures { result ≡ true → slice_get other.now depth ≡ slice_get first.now depth }
{
    let first = first.as_slice();
    let other = other.as_slice();
    if depth >= first.len() {
        return false;
    }
    if depth >= other.len() {
        return false;
    }
    is_same_part(&first[depth], &other[depth])
}

fn is_same_part(first: &PathPart, other: &PathPart) -> bool
    ensures { result ≡ true → other.now ≡ first.now }
{
    match first {
        PathPart::Key(key) => match other {
            PathPart::Key(name) => key.as_str() == name.as_str(),
            PathPart::Index(_) => false,
        },
        PathPart::Index(place) => match other {
            PathPart::Key(_) => false,
            PathPart::Index(index) => place == index,
        },
    }
}

// The part of a value to which a path leads that goes on from it at a depth.
fn step_of<'a>(
    placed: &PlacedJson<'a>,
    starts: &Starts<'a>,
    path: &Path,
    depth: usize,
) -> Option<PlacedJson<'a>>
    requires { AreStarts starts.now (tree_of placed.now.json.now) placed.now.value.now }
    ensures step { option_map placed_seen result ≡ step_at (slice_get path.now depth) (placed_seen placed.now) }
    ensures room { IfSome result (λ _. depth + 1 < 2 ^ 64) }
{
    let parts = path.as_slice();
    if depth >= parts.len() {
        return None;
    }
    part_of(placed, starts, &parts[depth])
}

// Adds the place of a value so many times.
fn find_here(name: &[u8], count: usize, found: &mut Vec<usize>) -> Result<(), AllocError>
    ensures { OnOk result (found.new.items ≡ found.old.items ++ replicate count (length name.now)) }
{
    let mut left = count;
    while left > 0 {
        found.push(name.len())?;
        left -= 1;
    }
    Ok(())
}
