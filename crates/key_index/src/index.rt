ghost use Rattle.std.specs.Prelude.{◌≡◌, ◌<◌, ◌≤◌, ◌++◌, ◌∷◌, [], true, length, map, IfOk, OnOk, OnErr};
ghost use Rattle.std.specs.Result.{IsOk};
ghost use Rattle.key_index.specs.Keys.{LacksKey, HasDistinctKeys, place_from, taken_out};
ghost use Rattle.key_index.specs.Ascending.{IsAscending};
ghost use Rattle.key_index.specs.Index.{IsIndexed, IsSearch};
ghost use Rattle.key_index.specs.Places.{ArePlacesOf, noted};
ghost use Rattle.key_index.specs.Table.{IsTable};

use crate::ascending::{are_ascending, ascending_place, is_above};
use crate::keyed::{Keyed, first_place};
use crate::places::{Places, note_ordered, places_of, take_place};
use crate::table::Table;
use std::alloc::{AllocError, Global};

/// How many entries are compared one by one, and are in no table.
pub(crate) const FIRST: usize = 16;

/// The places of the keys of a list. The list is its caller's.
#[derive(Drop)]
pub struct KeyIndex {
    search: Search,
}

/// How keys are looked for.
#[derive(Drop)]
enum Search {
    /// One by one: they are few, or there was no memory for a table.
    OneByOne,
    /// By halves: they ascend.
    ByHalves,
    ByTable(Box<Table>),
    /// By their order: entries were taken out.
    ByOrder(Box<Places>),
}

impl KeyIndex {
    /// The index of no keys. It takes no memory.
    pub fn new() -> KeyIndex
        ensures { IsIndexed result [] }
    {
        KeyIndex {
            search: Search::OneByOne,
        }
    }

    /// The place of the entry that has a key, or `None` exactly where no entry has it.
    pub fn find<T: Keyed>(&self, entries: &[T], key: &str) -> Option<usize>
        requires { IsIndexed self.now (map T.key entries.now) }
        ensures { result ≡ place_from 0 key.now (map T.key entries.now) }
    {
        match &self.search {
            Search::OneByOne => first_place(entries, key),
            Search::ByHalves => find_ascending(entries, key),
            Search::ByTable(table) => find_tabled(table, entries, key),
            Search::ByOrder(places) => find_ordered(places, key),
        }
    }

    /// Notes the key of the entry that is added after these next. No entry may have the key. It takes no
    /// memory, and can't fail, while the entries are fewer than sixteen.
    pub fn note_next<T: Keyed>(
        &mut self,
        alloc: Global,
        entries: &[T],
        key: &str,
    ) -> Result<(), AllocError>
        requires indexed { IsIndexed self.old (map T.key entries.now) }
        requires distinct { HasDistinctKeys (map T.key entries.now) }
        requires lacks { LacksKey key.now (map T.key entries.now) }
        ensures ok { OnOk result (IsIndexed self.new (map T.key entries.now ++ key.now ∷ [])) }
        ensures err { OnErr result (IsIndexed self.new (map T.key entries.now)) }
        ensures few { length entries.now < 16 → IsOk result }
    {
        let place = entries.len();
        if place < FIRST {
            self.search = Search::OneByOne;
            return Ok(());
        }
        match &mut self.search {
            Search::ByTable(table) if !table.is_crowded(place - FIRST) => table.note(
                alloc, key, place,
            ),
            Search::ByHalves if is_above(entries, key) => Ok(()),
            Search::ByOrder(places) => note_ordered(alloc, places, entries, key),
            _ => {
                self.search = search_with(alloc, entries, key)?;
                Ok(())
            }
        }
    }

    /// Notes that the entry at a place is taken out of these next, and that the last takes its place. When
    /// allocation fails, entries are looked through one by one until the next key is noted.
    pub fn note_taken<T: Keyed>(&mut self, alloc: Global, entries: &[T], place: usize)
        requires indexed { IsIndexed self.old (map T.key entries.now) }
        requires distinct { HasDistinctKeys (map T.key entries.now) }
        requires within { place < length entries.now }
        ensures { IsIndexed self.new (taken_out place (map T.key entries.now)) }
    {
        self.order(alloc, entries);
        if !self.take_ordered(alloc, entries, place) {
            self.search = Search::OneByOne;
        }
    }

    // Takes the key at a place away where keys are looked for by their order, and says whether that is done.
    fn take_ordered<T: Keyed>(&mut self, alloc: Global, entries: &[T], place: usize) -> bool
        requires indexed { IsIndexed self.old (map T.key entries.now) }
        requires distinct { HasDistinctKeys (map T.key entries.now) }
        requires within { place < length entries.now }
        ensures { result ≡ true → IsIndexed self.new (taken_out place (map T.key entries.now)) }
    {
        match &mut self.search {
            Search::ByOrder(places) => take_place(alloc, places, entries, place).is_ok(),
            _ => false,
        }
    }

    // Looks for keys by their order, or one by one where they are few or there is no memory.
    fn order<T: Keyed>(&mut self, alloc: Global, entries: &[T])
        requires indexed { IsIndexed self.old (map T.key entries.now) }
        requires distinct { HasDistinctKeys (map T.key entries.now) }
        ensures { IsIndexed self.new (map T.key entries.now) }
    {
        match self.search {
            Search::ByOrder(_) => {}
            _ => self.search = ordered_search(alloc, entries),
        }
    }

    /// Makes the index represent these entries, whatever it represented. When allocation fails, entries are
    /// looked through one by one until the next key is noted.
    pub fn renew<T: Keyed>(&mut self, alloc: Global, entries: &[T])
        requires { HasDistinctKeys (map T.key entries.now) }
        ensures { IsIndexed self.new (map T.key entries.now) }
    {
        self.search = match search_of(alloc, entries) {
            Ok(search) => search,
            Err(_) => Search::OneByOne,
        };
    }
}

// The place of a key among keys that ascend. A key that comes after them, as where keys come in order, is not
// among them.
fn find_ascending<T: Keyed>(entries: &[T], key: &str) -> Option<usize>
    requires { IsAscending (map T.key entries.now) }
    ensures { result ≡ place_from 0 key.now (map T.key entries.now) }
{
    if is_above(entries, key) {
        return None;
    }
    ascending_place(entries, key)
}

// The place of a key among the first `FIRST` entries, else in the table.
fn find_tabled<T: Keyed>(table: &Table, entries: &[T], key: &str) -> Option<usize>
    requires { IsTable table.now (map T.key entries.now) }
    ensures { result ≡ place_from 0 key.now (map T.key entries.now) }
{
    match first_place(&entries[..FIRST], key) {
        Some(place) => Some(place),
        None => table.find(entries, key),
    }
}

// The place of a key that is noted for it.
fn find_ordered(places: &Places, key: &str) -> Option<usize>
    ensures { result ≡ noted places.now key.now }
{
    places.get(key).copied()
}

// How keys are looked for of which some are to be taken out.
fn ordered_search<T: Keyed>(alloc: Global, entries: &[T]) -> Search
    requires { HasDistinctKeys (map T.key entries.now) }
    ensures { IsSearch result (map T.key entries.now) }
{
    if entries.len() <= FIRST {
        return Search::OneByOne;
    }
    match boxed_places(alloc, entries) {
        Ok(places) => Search::ByOrder(places),
        Err(_) => Search::OneByOne,
    }
}

fn boxed_places<T: Keyed>(alloc: Global, entries: &[T]) -> Result<Box<Places>, AllocError>
    requires { HasDistinctKeys (map T.key entries.now) }
    ensures { IfOk result (λ places. ArePlacesOf places.value (map T.key entries.now)) }
{
    let places = places_of(alloc, entries)?;
    Ok(Box::new(alloc, places)?)
}

// How the keys of entries and one more are looked for.
fn search_with<T: Keyed>(alloc: Global, entries: &[T], key: &str) -> Result<Search, AllocError>
    requires many { FIRST ≤ length entries.now }
    requires distinct { HasDistinctKeys (map T.key entries.now) }
    requires lacks { LacksKey key.now (map T.key entries.now) }
    ensures { IfOk result (λ search. IsSearch search (map T.key entries.now ++ key.now ∷ [])) }
{
    if is_above(entries, key) && are_ascending(entries) {
        return Ok(Search::ByHalves);
    }
    let mut table = Table::of(alloc, entries)?;
    table.note(alloc, key, entries.len())?;
    Ok(Search::ByTable(Box::new(alloc, table)?))
}

// How the keys of entries are looked for.
fn search_of<T: Keyed>(alloc: Global, entries: &[T]) -> Result<Search, AllocError>
    requires { HasDistinctKeys (map T.key entries.now) }
    ensures { IfOk result (λ search. IsSearch search (map T.key entries.now)) }
{
    if entries.len() <= FIRST {
        return Ok(Search::OneByOne);
    }
    if are_ascending(entries) {
        return Ok(Search::ByHalves);
    }
    let table = Table::of(alloc, entries)?;
    Ok(Search::ByTable(Box::new(alloc, table)?))
}
