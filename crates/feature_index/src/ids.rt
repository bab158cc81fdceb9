//! An index of numbers by ids.

ghost use Rattle.std.specs.Prelude.{◌≡◌, ◌<◌, ℕ, List, [], ◌∷◌, ◌++◌, length, nat_eq, slice_index_or, Option, Some};
ghost use Rattle.std.specs.Prelude.{None, MatchOption, OnOk, if◌then◌else◌};
ghost use Rattle.std.specs.BTreeMap.{get};
ghost use Rattle.std.specs.Ordering.{nat_cmp};
ghost use Rattle.feature_index.specs.Ids.{IsIndexed, IsIdWalk, numbers_left, numbers_of};

use std::alloc::{AllocError, Global};
use std::collections::BTreeMap;

/// The numbers of a list of ids, from 0 on, by their ids. Takes some 40 bytes of memory for each.
#[derive(Drop)]
pub struct IdIndex {
    /// The last number of each id.
    pub(crate) last: BTreeMap<u64, u32>,
    /// For each number, the one before it that has the same id, so that an id of many numbers takes no list of its own.
    pub(crate) before: Vec<Option<u32>>,
}

impl IdIndex {
    /// The index of no ids. Takes no memory.
    pub fn new(alloc: Global) -> IdIndex
        ensures { IsIndexed result [] }
    {
        IdIndex {
            last: BTreeMap::new(alloc),
            before: Vec::new(alloc),
        }
    }

    /// Gives the next number an id, or none. Takes time logarithmic in the ids. Where an allocation fails, nothing is
    /// said of the index.
    pub fn push(&mut self, id: Option<u64>) -> Result<(), AllocError>
        requires { length self.old.before.items < 4294967295 }
        ensures { (ids : List (Option ℕ)) → IsIndexed self.old ids → OnOk result (IsIndexed self.new (ids ++ id ∷ [])) }
    {
        let number = self.before.len() as u32;
        match id {
            Some(id) => {
                let before = last_number(&self.last, id);
                self.before.push(before)?;
                note_last(&mut self.last, id, number)
            }
            None => {
                self.before.push(None)?;
                Ok(())
            }
        }
    }

    /// The numbers that have an id, to be taken one after another, the last first. Takes time logarithmic in the ids.
    pub fn numbers(&self, id: u64) -> NumbersWithId<'_>
        ensures left { numbers_left result ≡ numbers_of self.now id }
        ensures walk { (ids : List (Option ℕ)) → IsIndexed self.now ids → IsIdWalk result }
    {
        NumbersWithId {
            before: self.before.as_slice(),
            at: last_number(&self.last, id),
        }
    }
}

fn last_number(last: &BTreeMap<u64, u32>, id: u64) -> Option<u32>
    ensures { result ≡ get nat_cmp last.now id }
{
    last.get(&id).copied()
}

fn note_last(last: &mut BTreeMap<u64, u32>, id: u64, number: u32) -> Result<(), AllocError>
    ensures { OnOk result ((i : ℕ) → get nat_cmp last.new i
        ≡ (if nat_eq id i then Some number else get nat_cmp last.old i)) }
{
    let Ok(_) = last.insert(id, number) else {
        return Err(AllocError);
    };
    Ok(())
}

/// The numbers of an id that are not taken yet.
#[derive(Drop)]
pub struct NumbersWithId<'a> {
    pub(crate) before: &'a [Option<u32>],
    pub(crate) at: Option<u32>,
}

impl NumbersWithId<'_> {
    /// Takes the next one. Takes constant time.
    pub fn next(&mut self) -> Option<u32>
        requires { IsIdWalk self.old }
        ensures left { MatchOption result (numbers_left self.old ≡ [])
            (λ n. numbers_left self.old ≡ n ∷ numbers_left self.new) }
        ensures walk { IsIdWalk self.new }
    {
        match self.at {
            Some(number) => {
                self.at = self.before[number as usize];
                Some(number)
            }
            None => None,
        }
    }
}
