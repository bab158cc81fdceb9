//! Both texts of a run, and how it ends.

ghost use Rattle.std.specs.Prelude.{◌≡◌, [], ◌∷◌, ◌++◌, codes, IfOk};
ghost use Rattle.program_runs.specs.Outcome.{plain_outcome, said, told};
ghost use Rattle.program_runs.specs.Progress.{outcome_of};

use crate::status::Ending;
use std::alloc::{AllocError, Global};

/// What is to be written, and how the run then ends.
#[derive(Drop)]
pub struct RunOutput {
    pub out: Vec<u8>,
    pub err: Vec<u8>,
    pub ending: Ending,
}

/// A text for standard output alone.
pub fn answer_said(alloc: Global, text: &[u8]) -> Result<RunOutput, AllocError>
    ensures { IfOk result (λ answer. outcome_of answer ≡ said text.now Ending.Fine) }
{
    let mut out = Vec::new(alloc);
    out.extend_from_slice(text)?;
    Ok(answer_out(alloc, out, Ending::Fine))
}

/// These bytes for standard output alone.
pub fn answer_out(alloc: Global, out: Vec<u8>, ending: Ending) -> RunOutput
    ensures { outcome_of result ≡ said out.items ending }
{
    RunOutput {
        out,
        err: Vec::new(alloc),
        ending,
    }
}

/// The line for an unknown command or wrong arguments.
pub fn answer_usage(alloc: Global) -> Result<RunOutput, AllocError>
    ensures { IfOk result (λ answer. outcome_of answer ≡ told (codes "usage") Ending.Usage) }
{
    let mut err = Vec::new(alloc);
    err.extend_from_slice(b"usage\n")?;
    Ok(answer_err(alloc, err, Ending::Usage))
}

/// The begin of the line of a refusal.
pub fn begin_refusal(alloc: Global) -> Result<Vec<u8>, AllocError>
    ensures { IfOk result (λ line. line.items ≡ codes "refused ") }
{
    let mut line = Vec::new(alloc);
    line.extend_from_slice(b"refused ")?;
    Ok(line)
}

/// A refusal by its line, which yet lacks its LF.
pub fn answer_refused(alloc: Global, line: Vec<u8>) -> Result<RunOutput, AllocError>
    ensures { IfOk result (λ answer. outcome_of answer ≡ plain_outcome [] (line.items ++ 10 ∷ []) Ending.Refused) }
{
    let mut err = line;
    err.push(b'\n')?;
    Ok(answer_err(alloc, err, Ending::Refused))
}

fn answer_err(alloc: Global, err: Vec<u8>, ending: Ending) -> RunOutput
    ensures { outcome_of result ≡ plain_outcome [] err.items ending }
{
    RunOutput {
        out: Vec::new(alloc),
        err,
        ending,
    }
}
