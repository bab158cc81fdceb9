//! The noted places.

ghost use Rattle.std.specs.Prelude.{◌≡◌, ◌<◌, ◌≤◌, [], length, map, slice_index_or, true, OnErr, OnOk};
ghost use Rattle.noted_places.specs.Places.{AreBelow, AreSamePlaces, NotesIf, after_insert, after_move, after_remove};
ghost use Rattle.noted_places.specs.Places.{is_noted, places_in, without_place};

use crate::following::{insert_before, move_one, remove_one};
use std::alloc::{AllocError, Global};

/// Places of elements of a list, in ascending order and each once, so that one is fast to find.
#[derive(Drop)]
pub struct NotedPlaces {
    pub(crate) places: Vec<usize>,
}

impl NotedPlaces {
    /// None is noted.
    pub fn new(alloc: Global) -> NotedPlaces
        ensures { places_in result ≡ [] }
    {
        NotedPlaces {
            places: Vec::new(alloc),
        }
    }

    /// How many are noted.
    pub fn len(&self) -> usize
        ensures { result ≡ length (places_in self.now) }
    {
        self.places.len()
    }

    /// One of them. Takes constant time.
    pub fn at(&self, index: usize) -> usize
        requires { index < length (places_in self.now) }
        ensures { result ≡ slice_index_or (places_in self.now) index result }
    {
        self.places[index]
    }

    /// Notes a place where something holds, unless it is noted. Takes time by the logarithm of how many are noted, and
    /// linear in how many of them come later.
    pub fn note_if(&mut self, holds: bool, place: usize) -> Result<(), AllocError>
        ensures ok { OnOk result (NotesIf holds place (places_in self.old) (places_in self.new)) }
        ensures err { OnErr result (places_in self.new ≡ places_in self.old) }
    {
        if !holds {
            return Ok(());
        }
        let index = index_of(self.places.as_slice(), place);
        if is_at(self.places.as_slice(), index, place) {
            return Ok(());
        }
        let Ok(()) = self.places.insert(index, place) else {
            return Err(AllocError);
        };
        Ok(())
    }

    /// An element came before the one at a place of a list of so many, or last. Takes time linear in how many are
    /// noted, and constant time where it came last.
    pub fn follow_insert(&mut self, place: usize, count: usize)
        requires { AreBelow count (places_in self.old) }
        ensures { places_in self.new ≡ map (after_insert place) (places_in self.old) }
    {
        if place < count {
            insert_before(self.places.as_mut_slice(), place);
        }
    }

    /// The element at a place went. Takes time linear in how many are noted.
    pub fn follow_remove(&mut self, place: usize)
        ensures { places_in self.new ≡ map (after_remove place) (without_place place (places_in self.old)) }
    {
        self.places.retain(|noted| *noted != place);
        remove_one(self.places.as_mut_slice(), place);
    }

    /// The element at a place moved to another. Takes time linear in how many are noted.
    pub fn follow_move(&mut self, from: usize, to: usize)
        ensures { AreSamePlaces (places_in self.new) (map (after_move from to) (places_in self.old)) }
    {
        let index = index_of(self.places.as_slice(), from);
        let is_noted = is_at(self.places.as_slice(), index, from);
        move_one(self.places.as_mut_slice(), from, to);
        if is_noted {
            self.settle(index);
        }
    }

    // Brings the place at an index to where it belongs in ascending order.
    fn settle(&mut self, index: usize)
        requires { index < length (places_in self.old) }
        ensures { AreSamePlaces (places_in self.new) (places_in self.old) }
    {
        let place = self.places.remove(index);
        let other = index_of(self.places.as_slice(), place);
        let Ok(()) = self.places.insert(other, place) else {
            unreachable!()
        };
    }
}

// Where a place is among places in ascending order, or would come.
fn index_of(places: &[usize], place: usize) -> usize
    ensures { result ≤ length places.now }
{
    places.partition_point(|noted| *noted < place)
}

// Whether a place is at an index.
fn is_at(places: &[usize], index: usize, place: usize) -> bool
    ensures noted { result ≡ true → is_noted places.now place ≡ true }
    ensures within { result ≡ true → index < length places.now }
{
    match places.get(index) {
        Some(noted) => *noted == place,
        None => false,
    }
}
