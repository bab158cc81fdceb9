ghost use Rattle.std.specs.Prelude.{◌≡◌, ◌<◌, [], length, true, false, OnOk, OnErr};
ghost use Rattle.prop_values.specs.Changes.{merged, without_key};

use prop_values::Entries;
use std::alloc::AllocError;
use std::marker::Model;

/// The members of a feature that has at least one, which clauses see as a list of pairs of a key and data.
#[derive(Drop)]
pub(crate) struct FeatureMembers {
    entries: Entries,
}

impl Model for FeatureMembers {
    ghost use Rattle.std.specs.Prelude.{List, ℕ, ◌<◌, length};
    ghost use Rattle.prop_values.specs.Data.{Data};
    ghost use Rattle.prop_values.specs.DataCode.{pairs_code};

    ghost Value = { List (List ℕ × Data) };

    ghost coded = { pairs_code };

    ghost view = { λ a. a.entries };

    ghost invariant = { λ a. 0 < length a.entries };
}

impl FeatureMembers {
    pub(crate) fn new(entries: Entries) -> FeatureMembers
        requires { 0 < length entries }
        ensures { result ≡ entries }
    {
        FeatureMembers { entries }
    }

    pub(crate) fn entries(&self) -> &Entries
        ensures entries { result.now ≡ self.now }
        ensures some { 0 < length self.now }
    {
        &self.entries
    }

    /// Sets each of the members, or none when allocation fails.
    #[tactic(auto, using(crate::proofs::SomeMembers::merged_stays))]
    pub(crate) fn merge(&mut self, members: Entries) -> Result<(), AllocError>
        ensures ok { OnOk result (self.new ≡ merged self.old members) }
        ensures err { OnErr result (self.new ≡ self.old) }
    {
        self.entries.merge(members)?;
        Ok(())
    }

    /// Whether the member of a key is there, and no other.
    #[tactic(auto, using(crate::proofs::SomeMembers::only_goes, crate::proofs::SomeMembers::more_stay, crate::proofs::SomeMembers::lacking_stay))]
    pub(crate) fn is_only(&self, key: &str) -> bool
        ensures only { result ≡ true → without_key key.now self.now ≡ [] }
        ensures others { result ≡ false → 0 < length (without_key key.now self.now) }
    {
        match self.entries.get(key) {
            Some(_) => self.entries.as_slice().len() == 1,
            None => false,
        }
    }

    /// Removes the member of a key, which is not the only one.
    pub(crate) fn remove(&mut self, key: &str)
        requires { 0 < length (without_key key.now self.old) }
        ensures { self.new ≡ without_key key.now self.old }
    {
        self.entries.remove(key);
    }
}
