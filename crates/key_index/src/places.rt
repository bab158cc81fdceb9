ghost use Rattle.std.specs.Prelude.{◌≡◌, ℕ, ◌<◌, ◌++◌, ◌∷◌, [], List, length, map, OnOk, OnErr, IfOk, Some, None};
ghost use Rattle.std.specs.Prelude.{if◌then◌else◌};
ghost use Rattle.std.specs.Str.{bytes_eq};
ghost use Rattle.key_index.specs.Keys.{LacksKey, HasDistinctKeys, taken_out};
ghost use Rattle.key_index.specs.Places.{ArePlacesOf, noted};

use crate::keyed::Keyed;
use std::alloc::{AllocError, Global};
use std::collections::BTreeMap;

/// The places of keys, in the order of the keys.
pub(crate) type Places = BTreeMap<String, usize>;

/// The places of the keys of entries.
pub(crate) fn places_of<T: Keyed>(alloc: Global, entries: &[T]) -> Result<Places, AllocError>
    requires { HasDistinctKeys (map T.key entries.now) }
    ensures { IfOk result (λ places. ArePlacesOf places (map T.key entries.now)) }
{
    let mut places = BTreeMap::new(alloc);
    for place in 0..entries.len() {
        note_place(alloc, &mut places, entries[place].key(), place)?;
    }
    Ok(places)
}

/// Notes the place of a key, in place of the one that is noted for it.
pub(crate) fn note_place(
    alloc: Global,
    places: &mut Places,
    key: &str,
    place: usize,
) -> Result<(), AllocError>
    ensures ok { OnOk result ((q : List ℕ)
        → noted places.new q ≡ (if bytes_eq key.now q then Some place else noted places.old q)) }
    ensures err { OnErr result ((q : List ℕ) → noted places.new q ≡ noted places.old q) }
{
    let name = String::from_str(alloc, key)?;
    let Ok(_) = places.insert(name, place) else {
        return Err(AllocError);
    };
    Ok(())
}

/// Notes the key of the entry that is added after these next.
pub(crate) fn note_ordered<T: Keyed>(
    alloc: Global,
    places: &mut Places,
    entries: &[T],
    key: &str,
) -> Result<(), AllocError>
    requires places { ArePlacesOf places.old (map T.key entries.now) }
    requires lacks { LacksKey key.now (map T.key entries.now) }
    ensures ok { OnOk result (ArePlacesOf places.new (map T.key entries.now ++ key.now ∷ [])) }
    ensures err { OnErr result (ArePlacesOf places.new (map T.key entries.now)) }
{
    note_place(alloc, places, key, entries.len())
}

/// Takes away the key of the entry at a place, which the last key gets.
pub(crate) fn take_place<T: Keyed>(
    alloc: Global,
    places: &mut Places,
    entries: &[T],
    place: usize,
) -> Result<(), AllocError>
    requires places { ArePlacesOf places.old (map T.key entries.now) }
    requires distinct { HasDistinctKeys (map T.key entries.now) }
    requires within { place < length entries.now }
    ensures { OnOk result (ArePlacesOf places.new (taken_out place (map T.key entries.now))) }
{
    let last = entries[entries.len() - 1].key();
    give_place(alloc, places, entries[place].key(), last, place)
}

// Takes a key away, whose place the last key has then.
fn give_place(
    alloc: Global,
    places: &mut Places,
    key: &str,
    last: &str,
    place: usize,
) -> Result<(), AllocError>
    ensures { OnOk result ((q : List ℕ) → noted places.new q
        ≡ (if bytes_eq key.now q then None else (if bytes_eq last.now q then Some place else noted places.old q))) }
{
    note_place(alloc, places, last, place)?;
    remove_place(places, key);
    Ok(())
}

fn remove_place(places: &mut Places, key: &str)
    ensures { (q : List ℕ) → noted places.new q ≡ (if bytes_eq key.now q then None else noted places.old q) }
{
    let _ = places.remove(key);
}
