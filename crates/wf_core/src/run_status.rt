ghost use Rattle.std.specs.Prelude.{◌≡◌};
ghost use Rattle.wf_core.specs.Statuses.{status_number};

/// How a run ended.
#[derive(Clone, Copy, Debug, PartialEq, Eq)]
pub enum RunStatus {
    /// The whole text was written.
    Done,
    /// The trace has no reading; its first faulty line was written.
    Refused,
    /// The words are not of the command's form; the usage line was written.
    Usage,
    /// A read failed; nothing was written.
    ReadFault,
    /// A write failed; a front of the text was written.
    WriteFault,
    /// Memory ran out; nothing was written.
    NoMemory,
    /// The input is too long; nothing was written.
    TooLong,
}

impl RunStatus {
    /// The exit status of the process, 0 to 6.
    pub fn number(self) -> u8
        ensures { result ≡ status_number self }
    {
        match self {
            RunStatus::Done => 0,
            RunStatus::Refused => 1,
            RunStatus::Usage => 2,
            RunStatus::ReadFault => 3,
            RunStatus::WriteFault => 4,
            RunStatus::NoMemory => 5,
            RunStatus::TooLong => 6,
        }
    }
}
