//! Where layers of a mark were last found.

use std::alloc::{AllocError, Global};

// So many layers on each side of a hint are looked at, since other layers move past.
const NEAR: usize = 64;

// So many hints are kept for each layer, so that few layers share one.
const HINTS: usize = 4;

/// By the remainder of a mark, where a layer of such a mark was last found. A hint may be wrong, since others move past
/// it or share it: what is found by one is looked at before it is believed.
#[derive(Drop)]
pub struct PlaceHints {
    places: Vec<u32>,
}

impl PlaceHints {
    /// The hints of no mark.
    pub(crate) fn new(alloc: Global) -> PlaceHints {
        PlaceHints {
            places: Vec::new(alloc),
        }
    }

    /// Notes where the layer of a mark is.
    pub(crate) fn note(&mut self, mark: u64, place: usize) {
        let count = self.places.len();
        let Ok(place) = u32::try_from(place) else {
            return;
        };
        if count > 0 {
            self.places[mark as usize % count] = place;
        }
    }

    /// Makes room where there are more marks than hints, and then notes each.
    pub(crate) fn make_room(&mut self, marks: &[u64]) -> Result<(), AllocError> {
        if marks.len() <= self.places.len() {
            return Ok(());
        }
        self.places.resize(marks.len().saturating_mul(HINTS), 0)?;
        for (place, mark) in marks.iter().enumerate() {
            self.note(*mark, place);
        }
        Ok(())
    }

    /// Where one of these marks may be. Takes the time of a look at a few of them.
    pub(crate) fn place_near(&self, marks: &[u64], mark: u64) -> Option<usize> {
        let count = self.places.len();
        if count == 0 {
            return None;
        }
        let hint = self.places[mark as usize % count] as usize;
        let end = marks.len().min(hint + NEAR);
        let start = end.saturating_sub(2 * NEAR);
        let found = marks[start..end].iter().position(|one| *one == mark)?;
        Some(start.saturating_add(found))
    }
}
