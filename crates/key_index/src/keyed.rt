ghost use Rattle.std.specs.Prelude.{◌≡◌, ℕ, List, map};
ghost use Rattle.key_index.specs.Keys.{is_at, place_from};

pub trait Keyed {
    /// The bytes of the key.
    ghost key: { Self → List ℕ };

    fn key(&self) -> &str
        ensures { result.now ≡ key self.now };
}

/// Whether there is an entry at a place and it has this key.
pub(crate) fn has_key<T: Keyed>(entries: &[T], place: usize, key: &str) -> bool
    ensures { result ≡ is_at key.now (map T.key entries.now) place }
{
    match entries.get(place) {
        Some(entry) => entry.key() == key,
        None => false,
    }
}

/// The first place of a key, looked for in one entry after the other.
pub(crate) fn first_place<T: Keyed>(entries: &[T], key: &str) -> Option<usize>
    ensures { result ≡ place_from 0 key.now (map T.key entries.now) }
{
    for (i, entry) in entries.iter().enumerate() {
        if entry.key() == key {
            return Some(i);
        }
    }
    None
}
