ghost use Rattle.std.specs.Prelude.{◌≡◌, ℕ, ◌↔◌, List, Bool, false, IsErrOf, OnOk, OnErr};
ghost use Rattle.host_ops.specs.Change.{ChangesAt, IsSameTest, count_after};

use std::alloc::Global;

/// Why a test was not changed.
#[derive(Clone, Copy, Debug, PartialEq, Eq)]
pub enum TellFault {
    /// The test cannot change.
    Fixed,
    /// An allocation failed.
    NoMemory,
}

/// A test on texts.
pub trait HostOp: Drop {
    /// What is answered for each text, given by its bytes.
    ghost test: { Self → List ℕ → Bool };

    /// Whether the test can change.
    ghost changes: { Self → Bool };

    /// How often `tell` was called, while the test can change: whatever it answered, and at most 2^64 - 1.
    ghost tell_count: { Self → ℕ };

    /// Whether the text passes the test.
    fn answer(&self, text: &str) -> bool
        ensures { result ≡ test self.now text.now };

    /// Whether `tell` can change the test.
    fn can_change(&self) -> bool
        ensures { result ≡ changes self.now };

    /// Lets the text pass from now on, where it is `present`, or not pass. After a fault the test is as
    /// before.
    fn tell(&mut self, alloc: Global, text: &str, present: bool) -> Result<(), TellFault>
        ensures fixed { IsErrOf result TellFault.Fixed ↔ (changes self.old ≡ false) }
        ensures kind { changes self.new ≡ changes self.old }
        ensures count { tell_count self.new ≡ count_after (changes self.old) (tell_count self.old) }
        ensures ok { OnOk result (ChangesAt (test self.old) (test self.new) text.now present) }
        ensures err { OnErr result (IsSameTest (test self.old) (test self.new)) };
}
