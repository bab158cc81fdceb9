ghost use Rattle.std.specs.Prelude.{◌≡◌, false};
ghost use Rattle.host_ops.specs.Script.{is_plain};

use crate::host_op::{HostOp, TellFault};
use std::alloc::Global;

/// The test of scripts: it lets a text pass that has no scalar value from U+0590 to U+08FF. It cannot change.
#[derive(Clone, Copy, Debug)]
pub struct ScriptTest;

impl ScriptTest {
    pub fn new() -> ScriptTest
        ensures test { ⟦<ScriptTest as HostOp>⟧.test result ≡ is_plain }
        ensures fixed { ⟦<ScriptTest as HostOp>⟧.changes result ≡ false }
        ensures count { ⟦<ScriptTest as HostOp>⟧.tell_count result ≡ 0 }
    {
        ScriptTest
    }
}

impl HostOp for ScriptTest {
    ghost test = { λ _. is_plain };

    ghost changes = { λ _. false };

    ghost tell_count = { λ _. 0 };

    fn answer(&self, text: &str) -> bool {
        !text.chars().any(|c| c >= '\u{590}' && c <= '\u{8FF}')
    }

    fn can_change(&self) -> bool {
        false
    }

    fn tell(&mut self, _alloc: Global, _text: &str, _present: bool) -> Result<(), TellFault> {
        Err(TellFault::Fixed)
    }
}
