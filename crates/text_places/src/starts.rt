//! Where the parts of a value begin.

ghost use Rattle.std.specs.Prelude.{◌≡◌, List, ℕ, Some, option_map, IfOk};
ghost use Rattle.decimal_json.specs.Tree.{fields_of};
ghost use Rattle.decimal_json.specs.View.{tree_of, trees, fields, member_keys};
ghost use Rattle.key_index.specs.Index.{IsIndexed};
ghost use Rattle.key_index.specs.Keys.{place_from};
ghost use Rattle.text_places.specs.Starts.{AreStarts, item_starts, keys_of, member_starts, placed_seen, slices_seen};
ghost use Rattle.text_places.specs.ValuePlace.{item_at, member_at, part_at};

use crate::skipping::{after_mark, member_value, next_item, next_member};
use decimal_json::{Json, Member, Members, PathPart};
use key_index::KeyIndex;
use std::alloc::{AllocError, Global};

/// A value, and the text from its name on and from the value on; the two are the same of what is no member.
#[derive(Clone, Copy)]
pub(crate) struct PlacedJson<'a> {
    pub(crate) json: &'a Json,
    pub(crate) name: &'a [u8],
    pub(crate) value: &'a [u8],
}

/// The text from each item or member of a value on, in order, and an index of the keys of members.
#[derive(Drop)]
pub(crate) struct Starts<'a> {
    parts: Vec<&'a [u8]>,
    index: KeyIndex,
}

/// The starts of the parts of a value that the text begins with.
pub(crate) fn starts_of<'a>(
    alloc: Global,
    json: &Json,
    text: &'a [u8],
) -> Result<Starts<'a>, AllocError>
    ensures { IfOk result (λ starts. AreStarts starts (tree_of json.now) text.now) }
{
    match json {
        Json::List(items) => items_started(alloc, items.as_slice(), after_mark(text)),
        Json::Object(members) => members_started(alloc, members, after_mark(text)),
        _ => Ok(Starts {
            parts: Vec::new(alloc),
            index: KeyIndex::new(),
        }),
    }
}

fn items_started<'a>(
    alloc: Global,
    items: &[Json],
    text: &'a [u8],
) -> Result<Starts<'a>, AllocError>
    ensures { IfOk result (λ starts. slices_seen starts.parts.items ≡ item_starts (trees items.now) text.now) }
{
    let mut parts = Vec::with_capacity(alloc, items.len())?;
    let mut rest = text;
    for item in items {
        parts.push(rest)?;
        rest = next_item(item, rest);
    }
    Ok(Starts {
        parts,
        index: KeyIndex::new(),
    })
}

#[tactic(auto, using(crate::proofs::StartLaws::keys_seen))]
fn members_started<'a>(
    alloc: Global,
    members: &Members,
    text: &'a [u8],
) -> Result<Starts<'a>, AllocError>
    ensures starts { IfOk result
        (λ starts. slices_seen starts.parts.items ≡ member_starts (fields_of members.now) text.now) }
    ensures index { IfOk result (λ starts. IsIndexed starts.index (keys_of (fields_of members.now))) }
{
    let index = index_of(alloc, members);
    let parts = member_starts(alloc, members.as_slice(), text)?;
    Ok(Starts { parts, index })
}

#[tactic(auto, using(crate::proofs::StartLaws::distinct_keys, crate::proofs::StartLaws::keys_seen))]
fn index_of(alloc: Global, members: &Members) -> KeyIndex
    ensures { IsIndexed result (keys_of (fields_of members.now)) }
{
    let mut index = KeyIndex::new();
    index.renew(alloc, members.as_slice());
    index
}

fn member_starts<'a>(
    alloc: Global,
    members: &[Member],
    text: &'a [u8],
) -> Result<Vec<&'a [u8]>, AllocError>
    ensures { IfOk result (λ starts. slices_seen starts.items ≡ member_starts (fields members.now) text.now) }
{
    let mut starts = Vec::with_capacity(alloc, members.len())?;
    let mut rest = text;
    for member in members {
        starts.push(rest)?;
        rest = next_member(&member.value, rest);
    }
    Ok(starts)
}

/// The part of a value one step down.
#[tactic(auto, using(crate::proofs::StartLaws::keys_seen))]
pub(crate) fn part_of<'a>(
    placed: &PlacedJson<'a>,
    starts: &Starts<'a>,
    part: &PathPart,
) -> Option<PlacedJson<'a>>
    requires { AreStarts starts.now (tree_of placed.now.json.now) placed.now.value.now }
    ensures { option_map placed_seen result ≡ part_at part.now (tree_of placed.now.json.now) placed.now.value.now }
{
    match placed.json {
        Json::List(items) => match part {
            PathPart::Index(place) => {
                item_placed(items.as_slice(), starts.parts.as_slice(), *place)
            }
            PathPart::Key(_) => None,
        },
        Json::Object(members) => match part {
            PathPart::Key(key) => member_placed(
                members.as_slice(),
                starts.parts.as_slice(),
                &starts.index,
                key.as_str(),
            ),
            PathPart::Index(_) => None,
        },
        _ => None,
    }
}

fn item_placed<'a>(items: &'a [Json], starts: &[&'a [u8]], place: usize) -> Option<PlacedJson<'a>>
    ensures { (b : List ℕ) → slices_seen starts.now ≡ item_starts (trees items.now) b
        → option_map placed_seen result ≡ item_at place (trees items.now) b }
{
    if place >= items.len() {
        return None;
    }
    if place >= starts.len() {
        return None;
    }
    Some(PlacedJson {
        json: &items[place],
        name: starts[place],
        value: starts[place],
    })
}

fn member_placed<'a>(
    members: &'a [Member],
    starts: &[&'a [u8]],
    index: &KeyIndex,
    key: &str,
) -> Option<PlacedJson<'a>>
    requires { IsIndexed index.now (member_keys members.now) }
    ensures { (b : List ℕ) → slices_seen starts.now ≡ member_starts (fields members.now) b
        → option_map placed_seen result ≡ member_at key.now (fields members.now) b }
{
    match index.find(members, key) {
        None => None,
        Some(place) => started_member(members, starts, place),
    }
}

// The member at the place of its key.
fn started_member<'a>(
    members: &'a [Member],
    starts: &[&'a [u8]],
    place: usize,
) -> Option<PlacedJson<'a>>
    ensures { (b key : List ℕ) → place_from 0 key (member_keys members.now) ≡ Some place
        → slices_seen starts.now ≡ member_starts (fields members.now) b
        → option_map placed_seen result ≡ member_at key (fields members.now) b }
{
    if place >= members.len() {
        return None;
    }
    if place >= starts.len() {
        return None;
    }
    Some(PlacedJson {
        json: &members[place].value,
        name: starts[place],
        value: member_value(starts[place]),
    })
}
