// How the program ends.
ghost use Rattle.std.specs.Prelude.{◌≡◌};
ghost use Rattle.rx_top.specs.Codes.{code_of};

/// How the program ends.
#[derive(Clone, Copy, Debug, PartialEq, Eq)]
pub enum Status {
    /// The command's work is done.
    Done,
    /// The report is not that of a run.
    No,
    /// The words are not valid.
    Usage,
    /// The source failed.
    ReadFault,
    /// The sink failed.
    WriteFault,
    /// The input is longer than it may be.
    TooLong,
    /// The program is refused.
    ProgramRefused,
    /// The script is refused.
    ScriptRefused,
    /// Out of memory.
    OutOfMemory,
}

impl Status {
    /// The number that the process ends with: 0 if the work is done, 1 if a report is not that of a run, and 2 to 8 for the others.
    pub fn code(self) -> u8
        ensures { result ≡ code_of self }
    {
        match self {
            Status::Done => 0,
            Status::No => 1,
            Status::Usage => 2,
            Status::ReadFault => 3,
            Status::WriteFault => 4,
            Status::TooLong => 5,
            Status::ProgramRefused => 6,
            Status::ScriptRefused => 7,
            Status::OutOfMemory => 8,
        }
    }
}
