ghost use Rattle.std.specs.Prelude.{◌≡◌, ◌++◌, ◌∷◌, [], true, map};
ghost use Rattle.key_index.specs.Ascending.{IsAscending};
ghost use Rattle.key_index.specs.Keys.{place_from};

use crate::keyed::Keyed;
use std::cmp::Ordering;

/// How long a key may be that is compared with others for its order, so that a comparison takes constant
/// time.
const LONGEST: usize = 64;

/// Whether a key that is not long comes after the last of these, if there is one, in the order of bytes.
pub(crate) fn is_above<T: Keyed>(entries: &[T], key: &str) -> bool
    ensures { result ≡ true → IsAscending (map T.key entries.now)
        → IsAscending (map T.key entries.now ++ key.now ∷ []) }
{
    if key.len() > LONGEST {
        return false;
    }
    match entries.last() {
        Some(entry) => entry.key() < key,
        None => true,
    }
}

/// Whether each key is above the one before it.
pub(crate) fn are_ascending<T: Keyed>(entries: &[T]) -> bool
    ensures { result ≡ true → IsAscending (map T.key entries.now) }
{
    for place in 0..entries.len() {
        if !is_above(&entries[..place], entries[place].key()) {
            return false;
        }
    }
    true
}

/// The place of a key among keys that ascend, found by halves.
pub(crate) fn ascending_place<T: Keyed>(entries: &[T], key: &str) -> Option<usize>
    requires { IsAscending (map T.key entries.now) }
    ensures { result ≡ place_from 0 key.now (map T.key entries.now) }
{
    let mut low = 0;
    let mut high = entries.len();
    while low < high {
        let middle = low + (high - low) / 2;
        match entries[middle].key().cmp(key) {
            Ordering::Less => low = middle + 1,
            Ordering::Equal => return Some(middle),
            Ordering::Greater => high = middle,
        }
    }
    None
}
