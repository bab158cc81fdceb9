ghost use Rattle.std.specs.Prelude.{◌≡◌};

use std::marker::Model;

/// The id of a feature, or that it has none, which clauses see as that option. It takes 12 bytes in place of 16, so
/// that a feature takes 40.
#[derive(Drop)]
pub struct FeatureId {
    high: u32,
    low: u32,
    is_given: bool,
}

impl Model for FeatureId {
    ghost use Rattle.std.specs.Prelude.{ℕ, ◌+◌, ◌*◌, Option, Some, None, if◌then◌else◌};

    ghost Value = { Option ℕ };

    ghost view = { λ a. if a.is_given then Some (a.high * 4294967296 + a.low) else None };
}

impl FeatureId {
    #[inline(always)]
    pub fn of(id: Option<u64>) -> FeatureId
        ensures { result ≡ id }
    {
        match id {
            Some(id) => FeatureId {
                high: (id / PART) as u32,
                low: (id % PART) as u32,
                is_given: true,
            },
            None => FeatureId {
                high: 0,
                low: 0,
                is_given: false,
            },
        }
    }

    pub fn get(&self) -> Option<u64>
        ensures { result ≡ self.now }
    {
        if self.is_given {
            Some(u64::from(self.high) * PART + u64::from(self.low))
        } else {
            None
        }
    }
}

// How many numbers have 32 bits.
const PART: u64 = 4_294_967_296;
