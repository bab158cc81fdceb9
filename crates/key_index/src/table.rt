ghost use Rattle.std.specs.Prelude.{◌≡◌, ℕ, ◌<◌, ◌≤◌, ◌++◌, ◌∷◌, [], List, length, map, slice_set, slice_index_or};
ghost use Rattle.std.specs.Prelude.{OnOk, OnErr, IfOk, IfSome};
ghost use Rattle.key_index.specs.Keys.{LacksKey, HasDistinctKeys, place_from};
ghost use Rattle.key_index.specs.Table.{IsFree, IsTable, later_place, slot_place};

use crate::hash::key_hash;
use crate::index::FIRST;
use crate::keyed::{Keyed, has_key};
use crate::places::{Places, note_place};
use std::alloc::{AllocError, Global};
use std::collections::BTreeMap;

// How many keys a bucket has room for.
const SLOTS: usize = 8;

/// The place of one key, with its hash. The place 0 says that the slot is free, since the first entries are
/// in no table.
#[derive(Clone, Copy)]
pub(crate) struct Slot {
    pub(crate) hash: u32,
    pub(crate) place: u32,
}

const FREE: Slot = Slot { hash: 0, place: 0 };

/// The keys whose hashes lead to one bucket.
#[derive(Clone, Copy)]
pub(crate) struct Bucket {
    pub(crate) slots: [Slot; SLOTS],
}

/// The places of keys.
#[derive(Drop)]
pub(crate) struct Table {
    pub(crate) buckets: Vec<Bucket>,
    /// The keys whose buckets were full.
    pub(crate) crowded: Places,
}

impl Table {
    /// The table of the keys of entries, all but the first `FIRST`.
    pub(crate) fn of<T: Keyed>(alloc: Global, entries: &[T]) -> Result<Table, AllocError>
        requires many { FIRST ≤ length entries.now }
        requires distinct { HasDistinctKeys (map T.key entries.now) }
        ensures { IfOk result (λ table. IsTable table (map T.key entries.now)) }
    {
        let count = entries.len() - FIRST + 4;
        let mut table = Table::with_buckets(alloc, count)?;
        for place in FIRST..entries.len() {
            table.note(alloc, entries[place].key(), place)?;
        }
        Ok(table)
    }

    // A table of no keys.
    fn with_buckets(alloc: Global, count: usize) -> Result<Table, AllocError>
        requires { 0 < count }
        ensures { IfOk result (λ table. (keys : List (List ℕ)) → length keys ≡ FIRST → IsTable table keys) }
    {
        let mut buckets = Vec::new(alloc);
        buckets.resize(
            count,
            Bucket {
                slots: [FREE; SLOTS],
            },
        )?;
        Ok(Table {
            buckets,
            crowded: BTreeMap::new(alloc),
        })
    }

    /// Whether the buckets have as many keys as they should, with the first entries left out of this count.
    pub(crate) fn is_crowded(&self, count: usize) -> bool {
        count / 2 >= self.buckets.len()
    }

    /// Notes a key that is not there, at the place after the others.
    pub(crate) fn note(&mut self, alloc: Global, key: &str, place: usize) -> Result<(), AllocError>
        requires { 0 < length self.old.buckets.items }
        ensures ok { OnOk result ((keys : List (List ℕ)) → IsTable self.old keys → LacksKey key.now keys
            → length keys ≡ place → IsTable self.new (keys ++ key.now ∷ [])) }
        ensures err { OnErr result ((keys : List (List ℕ)) → IsTable self.old keys → IsTable self.new keys) }
    {
        let Ok(short) = u32::try_from(place) else {
            return Err(AllocError);
        };
        let hash = key_hash(key);
        let home = hash as usize % self.buckets.len();
        match free_slot(&self.buckets[home]) {
            Some(i) => {
                put_slot(&mut self.buckets, home, i, Slot { hash, place: short });
                Ok(())
            }
            None => note_place(alloc, &mut self.crowded, key, place),
        }
    }

    /// The place of a key after the first `FIRST`.
    pub(crate) fn find<T: Keyed>(&self, entries: &[T], key: &str) -> Option<usize>
        requires { 0 < length self.now.buckets.items }
        ensures { result ≡ later_place self.now (map T.key entries.now) key.now }
    {
        let hash = key_hash(key);
        let home = hash as usize % self.buckets.len();
        match find_slot(&self.buckets[home].slots, entries, hash, key) {
            Some(place) => Some(place),
            None => self.crowded.get(key).copied(),
        }
    }
}

// The place of a key in the slots of its bucket.
fn find_slot<T: Keyed>(slots: &[Slot], entries: &[T], hash: u32, key: &str) -> Option<usize>
    ensures { result ≡ slot_place hash key.now (map T.key entries.now) slots.now }
{
    for slot in slots {
        let place = slot.place as usize;
        if slot.hash == hash && place != 0 && has_key(entries, place, key) {
            return Some(place);
        }
    }
    None
}

// The first slot of a bucket that is free.
fn free_slot(bucket: &Bucket) -> Option<usize>
    ensures { IfSome result (λ i. (i < SLOTS) × IsFree i bucket.now.slots) }
{
    for (i, slot) in bucket.slots.iter().enumerate() {
        if slot.place == 0 {
            return Some(i);
        }
    }
    None
}

// Puts a slot into a bucket.
fn put_slot(buckets: &mut Vec<Bucket>, home: usize, i: usize, slot: Slot)
    requires home { home < length buckets.old.items }
    requires within { i < SLOTS }
    ensures { (b : Bucket) → buckets.new.items
        ≡ slice_set buckets.old.items home
        (record { slots = slice_set (slice_index_or buckets.old.items home b).slots i slot }) }
{
    buckets[home].slots[i] = slot;
}
