ghost use Rattle.std.specs.Prelude.{◌≡◌, ◌↔◌, ℕ, List, [], OnOk, OnErr, IsOk, IsNone, option_map, unwrap_or};
ghost use Rattle.std.specs.Prelude.{if◌then◌else◌};
ghost use Rattle.prop_values.specs.Changes.{merged};

use crate::kept::{Sources, merge_source, remove_in_source};
use indexmap::IndexMap;
use prop_values::Entries;
use std::alloc::{AllocError, Global};

/// The members of features, by source, layer and id.
#[derive(Drop)]
pub struct States {
    sources: Sources,
    alloc: Global,
}

impl States {
    ghost use Rattle.feature_states.specs.Features.{same_feature, left_of};
    ghost use Rattle.feature_states.specs.Members.{members_at};

    /// States in which no feature has a member.
    pub fn new(alloc: Global) -> States
        ensures { (s l : List ℕ) (i : ℕ) → members_at result s l i ≡ [] }
    {
        States {
            sources: IndexMap::new(alloc),
            alloc,
        }
    }

    /// Sets each of the members for one feature: where a key is there, its value is replaced, and new keys
    /// follow the others in their order. Without members nothing changes, and no memory is taken.
    pub fn merge(
        &mut self,
        source: &str,
        layer: &str,
        id: u64,
        members: Entries,
    ) -> Result<(), AllocError>
        ensures ok { OnOk result ((s l : List ℕ) (i : ℕ) → members_at self.new s l i
            ≡ (if same_feature source.now layer.now id s l i then merged (members_at self.old s l i) members
            else members_at self.old s l i)) }
        ensures err { OnErr result ((s l : List ℕ) (i : ℕ) → members_at self.new s l i ≡ members_at self.old s l i) }
        ensures nothing { members ≡ [] → IsOk result }
    {
        if members.as_slice().is_empty() {
            return Ok(());
        }
        merge_source(self.alloc, &mut self.sources, source, layer, id, members)
    }

    /// Removes one member of a feature, by its key, or all where no key is given. What is not there stays
    /// away.
    pub fn remove(&mut self, source: &str, layer: &str, id: u64, key: Option<&str>)
        ensures { (s l : List ℕ) (i : ℕ) → members_at self.new s l i
            ≡ (if same_feature source.now layer.now id s l i
            then left_of (option_map (λ k. k.now) key.entry) (members_at self.old s l i)
            else members_at self.old s l i) }
    {
        remove_in_source(&mut self.sources, source, layer, id, key);
    }

    /// The members of a feature, or `None` exactly where it has none.
    pub fn get(&self, source: &str, layer: &str, id: u64) -> Option<&Entries>
        ensures members { unwrap_or (option_map (λ members. members.now) result) []
            ≡ members_at self.now source.now layer.now id }
        ensures none { IsNone result ↔ (members_at self.now source.now layer.now id ≡ []) }
    {
        let kept = self.sources.get(source)?.get(layer)?.get(&id)?;
        Some(kept.entries())
    }
}
