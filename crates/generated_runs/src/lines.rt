//! The style and the script of the generator.

ghost use Rattle.std.specs.Prelude.{◌≡◌, ◌+◌, ◌^◌, ◌<◌, ◌∷◌, drop, length, OnOk};
ghost use Rattle.generated_runs.specs.GeneratedScript.{generated_lines, state_line};

use itoa::Buffer;
use std::alloc::AllocError;

/// The style, as JSON.
pub const GENERATED_STYLE: &[u8] =
    b"{\"version\":8,\"sources\":{\"t\":{\"type\":\"vector\"}},\"layers\":[{\"id\":\"p\",\"type\":\"circle\",\"source\":\"t\",\"source-layer\":\"p\",\"filter\":[\"<\",[\"number\",[\"get\",\"r\"]],50],\"paint\":{\"circle-radius\":[\"interpolate\",[\"linear\"],[\"zoom\"],0,1,10,[\"number\",[\"get\",\"r\"]]],\"circle-opacity\":[\"number\",[\"feature-state\",\"o\"],1]}}]}";

const LIST_LINE: &[u8] = b"[\"list\"]";

const ZOOM_LINE: &[u8] = b"[\"set-zoom\",5]";

/// How many lines the script of so many features has.
#[tactic(auto, using(crate::proofs::LineLaws::lines_count))]
pub(crate) fn line_count_of(features: u32) -> u64
    ensures count { result ≡ length (generated_lines features) }
    ensures few { result < 2 ^ 33 }
{
    features as u64 + 4
}

/// Puts a line of the script of so many features, by its place from 0, in the place of a line.
#[tactic(auto, using(crate::proofs::LineLaws::listed_at, crate::proofs::LineLaws::state_there))]
pub(crate) fn put_line(features: u32, place: u64, line: &mut Vec<u8>) -> Result<(), AllocError>
    requires { place < length (generated_lines features) }
    ensures { OnOk result (drop place (generated_lines features)
        ≡ line.new.items ∷ drop (place + 1) (generated_lines features)) }
{
    if place == 1 {
        return put(ZOOM_LINE, line);
    }
    if place >= 3 && place < features as u64 + 3 {
        return put_state_line(place - 2, line);
    }
    put(LIST_LINE, line)
}

fn put(text: &[u8], line: &mut Vec<u8>) -> Result<(), AllocError>
    ensures { OnOk result (line.new.items ≡ text.now) }
{
    line.clear();
    line.extend_from_slice(text)?;
    Ok(())
}

// The line by which the feature of an id gets a state.
fn put_state_line(id: u64, line: &mut Vec<u8>) -> Result<(), AllocError>
    ensures { OnOk result (line.new.items ≡ state_line id) }
{
    let mut digits = Buffer::new();
    line.clear();
    line.extend_from_slice(b"[\"set-state\",\"t\",\"p\",")?;
    line.extend_from_slice(digits.format(id).as_bytes())?;
    line.extend_from_slice(b",{\"o\":0.5}]")?;
    Ok(())
}
