//! The lines of a script.

ghost use Rattle.std.specs.Prelude.{◌≡◌, ◌<◌, [], ◌∷◌, length, IfSome, IfNone};
ghost use Rattle.script_runs.specs.ScriptLines.{script_lines};

use memchr::memchr;

/// The first line of a script, and what follows it; or `None` where the script is empty.
pub fn next_line(script: &[u8]) -> Option<(&[u8], &[u8])>
    ensures some { IfSome result (λ cut. script_lines script.now ≡ cut.0.now ∷ script_lines cut.1.now) }
    ensures shorter { IfSome result (λ cut. length cut.1.now < length script.now) }
    ensures none { IfNone result (script_lines script.now ≡ []) }
{
    if script.is_empty() {
        return None;
    }
    match memchr(b'\n', script) {
        Some(place) => Some((&script[..place], &script[place + 1..])),
        None => Some((script, &script[script.len()..])),
    }
}
