//! Where elements are after a change of their list.

ghost use Rattle.std.specs.Prelude.{◌≡◌, ◌≢◌, ◌<◌, map};
ghost use Rattle.noted_places.specs.Places.{AreBelow, after_insert, after_move, after_remove};

/// An element came before the one at a place, or last.
pub(crate) fn insert_before(places: &mut [usize], place: usize)
    requires { AreBelow 18446744073709551615 places.old }
    ensures { places.new ≡ map (after_insert place) places.old }
{
    for noted in places.iter_mut() {
        *noted = after_insert(place, *noted);
    }
}

/// The element at a place, which is none of these, went.
pub(crate) fn remove_one(places: &mut [usize], place: usize)
    ensures { places.new ≡ map (after_remove place) places.old }
{
    for noted in places.iter_mut() {
        *noted = after_remove(place, *noted);
    }
}

/// The element at a place moved to another.
pub(crate) fn move_one(places: &mut [usize], from: usize, to: usize)
    ensures { places.new ≡ map (after_move from to) places.old }
{
    for noted in places.iter_mut() {
        *noted = after_move(from, to, *noted);
    }
}

fn after_insert(place: usize, at: usize) -> usize
    requires { at < 18446744073709551615 }
    ensures { result ≡ after_insert place at }
{
    if at < place { at } else { at + 1 }
}

fn after_remove(place: usize, at: usize) -> usize
    ensures { result ≡ after_remove place at }
{
    if place < at { at - 1 } else { at }
}

fn after_move(from: usize, to: usize, at: usize) -> usize
    ensures { result ≡ after_move from to at }
{
    if at == from {
        to
    } else {
        after_insert(to, after_remove(from, at))
    }
}
