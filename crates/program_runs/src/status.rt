ghost use Rattle.std.specs.Prelude.{◌≡◌};
ghost use Rattle.program_runs.specs.Ending.{status_of, code_of};

/// How a run ended.
#[derive(Clone, Copy, Debug, PartialEq, Eq)]
pub enum Status {
    /// Everything was written, and nothing was found to report.
    Fine,
    /// Everything was written, and something was found to report: `value` ended in an evaluation error, a
    /// document has findings, or a line of a script was refused. A fault in a listing is none of these.
    Found,
    /// An unknown command or wrong arguments.
    Usage,
    /// What was handed in is not accepted; the err line says why.
    Refused,
    /// A file could not be read.
    ReadFault,
    /// Standard output or standard error could not be written.
    WriteFault,
    /// An allocation failed.
    NoMemory,
}

impl Status {
    /// The program's exit status.
    pub fn code(self) -> u8
        ensures { result ≡ code_of self }
    {
        match self {
            Status::Fine => 0,
            Status::Found => 1,
            Status::Usage => 2,
            Status::Refused => 3,
            Status::ReadFault => 4,
            Status::WriteFault => 5,
            Status::NoMemory => 6,
        }
    }
}

/// How a run ends where nothing outside fails.
#[derive(Clone, Copy, Debug, PartialEq, Eq)]
pub enum Ending {
    Fine,
    Found,
    Usage,
    Refused,
}

impl Ending {
    /// The status of a run that ends so.
    pub fn status(self) -> Status
        ensures { result ≡ status_of self }
    {
        match self {
            Ending::Fine => Status::Fine,
            Ending::Found => Status::Found,
            Ending::Usage => Status::Usage,
            Ending::Refused => Status::Refused,
        }
    }
}
