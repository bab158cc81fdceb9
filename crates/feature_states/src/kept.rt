ghost use Rattle.std.specs.Prelude.{◌≡◌, ◌<◌, ℕ, List, [], length, ◌&&◌, nat_eq, OnOk, OnErr, option_map};
ghost use Rattle.std.specs.Prelude.{if◌then◌else◌};
ghost use Rattle.std.specs.Str.{bytes_eq};
ghost use Rattle.prop_values.specs.Changes.{merged, without_key};
ghost use Rattle.feature_states.specs.Features.{same_feature, left_of};
ghost use Rattle.feature_states.specs.Members.{members_of_id, members_in_layer, members_in_source};

use crate::feature_members::FeatureMembers;
use indexmap::IndexMap;
use prop_values::Entries;
use std::alloc::{AllocError, Global};

/// The members of the features of one layer, by id.
pub(crate) type Ids = IndexMap<u64, FeatureMembers>;

/// The ids of one source, by layer.
pub(crate) type Layers = IndexMap<String, Ids>;

/// The layers of all sources, by source.
pub(crate) type Sources = IndexMap<String, Layers>;

/// Sets each of the members for an id, of which there is at least one.
#[tactic(auto, using(crate::proofs::SomeMembers::merged_given))]
pub(crate) fn merge_id(
    alloc: Global,
    ids: &mut Ids,
    id: u64,
    members: Entries,
) -> Result<(), AllocError>
    requires { 0 < length members }
    ensures ok { OnOk result ((i : ℕ)
        → members_of_id ids.new i
        ≡ (if nat_eq id i then merged (members_of_id ids.old i) members else members_of_id ids.old i)) }
    ensures err { OnErr result ((i : ℕ) → members_of_id ids.new i ≡ members_of_id ids.old i) }
{
    match ids.get_mut(&id) {
        Some(kept) => kept.merge(members),
        None => {
            let mut kept = Entries::new(alloc);
            kept.merge(members)?;
            let Ok(_) = ids.insert(id, FeatureMembers::new(kept)) else {
                return Err(AllocError);
            };
            Ok(())
        }
    }
}

/// Sets each of the members for an id of a layer, of which there is at least one.
pub(crate) fn merge_layer(
    alloc: Global,
    layers: &mut Layers,
    layer: &str,
    id: u64,
    members: Entries,
) -> Result<(), AllocError>
    requires { 0 < length members }
    ensures ok { OnOk result ((l : List ℕ) (i : ℕ) → members_in_layer layers.new l i
        ≡ (if bytes_eq layer.now l && nat_eq id i then merged (members_in_layer layers.old l i) members
        else members_in_layer layers.old l i)) }
    ensures err { OnErr result
        ((l : List ℕ) (i : ℕ) → members_in_layer layers.new l i ≡ members_in_layer layers.old l i) }
{
    match layers.get_mut(layer) {
        Some(ids) => merge_id(alloc, ids, id, members),
        None => {
            let mut ids = IndexMap::new(alloc);
            merge_id(alloc, &mut ids, id, members)?;
            let Ok(_) = layers.insert(String::from_str(alloc, layer)?, ids) else {
                return Err(AllocError);
            };
            Ok(())
        }
    }
}

/// Sets each of the members for an id of a layer of a source, of which there is at least one.
pub(crate) fn merge_source(
    alloc: Global,
    sources: &mut Sources,
    source: &str,
    layer: &str,
    id: u64,
    members: Entries,
) -> Result<(), AllocError>
    requires { 0 < length members }
    ensures ok { OnOk result ((s l : List ℕ) (i : ℕ) → members_in_source sources.new s l i
        ≡ (if same_feature source.now layer.now id s l i then merged (members_in_source sources.old s l i) members
        else members_in_source sources.old s l i)) }
    ensures err { OnErr result
        ((s l : List ℕ) (i : ℕ) → members_in_source sources.new s l i ≡ members_in_source sources.old s l i) }
{
    match sources.get_mut(source) {
        Some(layers) => merge_layer(alloc, layers, layer, id, members),
        None => {
            let mut layers = IndexMap::new(alloc);
            merge_layer(alloc, &mut layers, layer, id, members)?;
            let Ok(_) = sources.insert(String::from_str(alloc, source)?, layers) else {
                return Err(AllocError);
            };
            Ok(())
        }
    }
}

/// Removes a member of an id, or all.
pub(crate) fn remove_id(ids: &mut Ids, id: u64, key: Option<&str>)
    ensures { (i : ℕ) → members_of_id ids.new i
        ≡ (if nat_eq id i then left_of (option_map (λ k. k.now) key.entry) (members_of_id ids.old i)
        else members_of_id ids.old i) }
{
    match key {
        Some(key) => remove_key(ids, id, key),
        None => remove_all(ids, id),
    }
}

// Removes a member of an id.
fn remove_key(ids: &mut Ids, id: u64, key: &str)
    ensures { (i : ℕ) → members_of_id ids.new i
        ≡ (if nat_eq id i then without_key key.now (members_of_id ids.old i) else members_of_id ids.old i) }
{
    let Some(kept) = ids.get_mut(&id) else {
        return;
    };
    if kept.is_only(key) {
        remove_all(ids, id);
    } else {
        kept.remove(key);
    }
}

// Removes an id. No text shows the order of ids, so the last takes its place.
fn remove_all(ids: &mut Ids, id: u64)
    ensures { (i : ℕ) → members_of_id ids.new i ≡ (if nat_eq id i then [] else members_of_id ids.old i) }
{
    let _ = ids.swap_remove(&id);
}

/// Removes a member of an id of a layer, or all.
pub(crate) fn remove_in_layer(layers: &mut Layers, layer: &str, id: u64, key: Option<&str>)
    ensures { (l : List ℕ) (i : ℕ) → members_in_layer layers.new l i
        ≡ (if bytes_eq layer.now l && nat_eq id i
        then left_of (option_map (λ k. k.now) key.entry) (members_in_layer layers.old l i)
        else members_in_layer layers.old l i) }
{
    if let Some(ids) = layers.get_mut(layer) {
        remove_id(ids, id, key);
    }
}

/// Removes a member of an id of a layer of a source, or all.
pub(crate) fn remove_in_source(
    sources: &mut Sources,
    source: &str,
    layer: &str,
    id: u64,
    key: Option<&str>,
)
    ensures { (s l : List ℕ) (i : ℕ)
        → members_in_source sources.new s l i
        ≡ (if same_feature source.now layer.now id s l i
        then left_of (option_map (λ k. k.now) key.entry) (members_in_source sources.old s l i)
        else members_in_source sources.old s l i) }
{
    if let Some(layers) = sources.get_mut(source) {
        remove_in_layer(layers, layer, id, key);
    }
}
