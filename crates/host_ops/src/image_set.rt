ghost use Rattle.std.specs.Prelude.{◌≡◌, ℕ, List, true, false};
ghost use Rattle.host_ops.specs.Images.{has_name};

use crate::host_op::{HostOp, TellFault};
use indexmap::IndexSet;
use std::alloc::Global;

/// The test of images: it lets the names pass that are present. It can change.
#[derive(Drop)]
pub struct ImageSet {
    names: IndexSet<String>,
    /// How often `tell` was called. It stops at the greatest number.
    calls: u64,
}

impl ImageSet {
    /// The test that lets no name pass. It takes no memory.
    pub fn new(alloc: Global) -> ImageSet
        ensures test { (text : List ℕ) → ⟦<ImageSet as HostOp>⟧.test result text ≡ false }
        ensures changes { ⟦<ImageSet as HostOp>⟧.changes result ≡ true }
        ensures count { ⟦<ImageSet as HostOp>⟧.tell_count result ≡ 0 }
    {
        ImageSet {
            names: IndexSet::new(alloc),
            calls: 0,
        }
    }
}

impl HostOp for ImageSet {
    ghost test = { λ images. has_name images };

    ghost changes = { λ _. true };

    ghost tell_count = { λ images. images.calls };

    fn answer(&self, text: &str) -> bool {
        self.names.contains(text)
    }

    fn can_change(&self) -> bool {
        true
    }

    // What is known already takes no memory. No call shows the order of the names, so a name that goes is
    // replaced by the last, in constant time.
    fn tell(&mut self, alloc: Global, text: &str, present: bool) -> Result<(), TellFault> {
        self.calls = self.calls.saturating_add(1);
        if self.names.contains(text) == present {
            return Ok(());
        }
        if !present {
            self.names.swap_remove(text);
            return Ok(());
        }
        let Ok(name) = String::from_str(alloc, text) else {
            return Err(TellFault::NoMemory);
        };
        let Ok(_) = self.names.insert(name) else {
            return Err(TellFault::NoMemory);
        };
        Ok(())
    }
}
