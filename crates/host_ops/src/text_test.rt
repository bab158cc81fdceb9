ghost use Rattle.std.specs.Prelude.{◌≡◌, ℕ, List, Bool};

use crate::host_op::HostOp;

/// A test on texts, as a bound. Functions that call each other take their tests by this bound, since a trait
/// object may not be in their signatures; `&dyn HostOp` implements it.
pub trait TextTest {
    /// What is answered for each text, given by its bytes.
    ghost holds: { Self → List ℕ → Bool };

    /// Whether the text passes the test.
    fn is_held(&self, text: &str) -> bool
        ensures { result ≡ holds self.now text.now };
}

impl TextTest for &dyn HostOp {
    ghost holds = { λ s. (HostOp-dyn s.now).test s.now.1 };

    fn is_held(&self, text: &str) -> bool {
        self.answer(text)
    }
}
