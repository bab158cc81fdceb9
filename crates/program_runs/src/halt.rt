use crate::answer::RunOutput;
use std::alloc::AllocError;

/// Why a run has no answer.
#[derive(Clone, Copy, Debug)]
pub enum RunStop<'a> {
    NoMemory,
    /// The file of this name could not be read.
    Unread(&'a str),
}

/// Why not all answers of a run were written.
#[derive(Clone, Copy, Debug)]
pub enum WriteStop {
    NoMemory,
    /// Standard output did not take the whole of an answer.
    Unwritten,
}

/// Why a run goes no further.
#[derive(Drop)]
pub enum RunHalt<'a> {
    /// It has no answer.
    Stopped(RunStop<'a>),
    /// What was read is not accepted, and this is the answer.
    Refused(RunOutput),
}

impl From<AllocError> for RunHalt<'_> {
    ghost use Rattle.std.specs.Prelude.{◌≡◌};
    ghost use Rattle.program_runs.specs.declared.halt.RunHalt.TheVariants.{Stopped};
    ghost use Rattle.program_runs.specs.declared.halt.RunStop.TheVariants.{NoMemory};

    ghost from_gives = { λ _ halt. halt ≡ Stopped NoMemory };

    fn from(_: AllocError) -> Self {
        RunHalt::Stopped(RunStop::NoMemory)
    }
}
