//! The zoom of a layout.

ghost use Rattle.std.specs.Prelude.{◌≡◌};
ghost use Rattle.fixed_num.specs.Number.{floor_of};

use fixed_num::Fixed;
use std::marker::Model;

/// A zoom with its floor, which clauses see as the zoom.
#[derive(Clone, Copy)]
pub struct Zoom {
    exact: Fixed,
    floor: Fixed,
}

impl Model for Zoom {
    ghost use Rattle.std.specs.Prelude.{◌≡◌, ℤ};
    ghost use Rattle.fixed_num.specs.Number.{floor_of};

    ghost Value = { ℤ };

    ghost view = { λ a. a.exact };

    ghost invariant = { λ a. a.floor ≡ floor_of a.exact };

    ghost inverse = { λ z. record { exact = z; floor = floor_of z } };

    ghost use Rattle.std.proofs.Common.{sym};

    ghost inverse_ok = { λ a h. λ i. record { exact = a.exact; floor = sym h i } };
}

impl Zoom {
    pub fn new(zoom: Fixed) -> Zoom
        ensures { result ≡ zoom }
    {
        Zoom {
            exact: zoom,
            floor: zoom.floor(),
        }
    }

    /// What a paint value sees.
    pub fn exact(self) -> Fixed
        ensures { result ≡ self }
    {
        self.exact
    }

    /// What a layout value and a filter see.
    pub fn floor(self) -> Fixed
        ensures { result ≡ floor_of self }
    {
        self.floor
    }
}
