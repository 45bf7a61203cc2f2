// How the program ends.

/// How the program ends, with the numbers that `fiber_run run` has for the same causes.
#[derive(Clone, Copy, Debug, PartialEq, Eq)]
pub(crate) enum Status {
    /// The page is written.
    Done,
    /// There are words.
    Usage,
    /// The source failed.
    ReadFault,
    /// The sink failed.
    WriteFault,
    /// The input is longer than it may be.
    TooLong,
    /// The program is refused.
    ProgramRefused,
    /// The script is refused.
    ScriptRefused,
    /// Out of memory.
    OutOfMemory,
}

impl Status {
    /// The number that the process ends with.
    pub(crate) fn code(self) -> u8 {
        match self {
            Status::Done => 0,
            Status::Usage => 2,
            Status::ReadFault => 3,
            Status::WriteFault => 4,
            Status::TooLong => 5,
            Status::ProgramRefused => 6,
            Status::ScriptRefused => 7,
            Status::OutOfMemory => 8,
        }
    }
}
