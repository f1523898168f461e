ghost use Rattle.std.specs.Prelude.{◌≡◌};
ghost use Rattle.trace_text.specs.Refusals.{fault_word};
ghost use Rattle.trace_text.specs.declared.refusal.TraceRefusal.TheVariants.{NoMemory};

use std::alloc::AllocError;

/// Why a line of a trace is faulty.
#[derive(Clone, Copy, Debug, PartialEq, Eq)]
pub enum Fault {
    /// Line 1 is not the header line; also of an empty input, which has no line 1.
    Header,
    /// The first field, or the word of a call, is none that can stand there.
    UnknownWord,
    /// The fields after the words are too few, too many, or spelled otherwise.
    BadArgument,
    /// A call is of a thread that no line before declares.
    UnknownName,
    /// A name is declared that is declared already, or `main`.
    DuplicateName,
    /// The line has more than `LINE_MAX` bytes.
    LineTooLong,
    /// There are `CALLS_MAX` calls before.
    TooManyCalls,
    /// There are `THREADS_MAX` threads before.
    TooManyThreads,
    /// There are `BACKENDS_MAX` backends before, the root's among them.
    TooManyBackends,
    /// The last line lacks its byte 10.
    MissingNewline,
}

impl Fault {
    /// The fault's word, as `Header`.
    pub fn word(self) -> &'static str
        ensures { result.now ≡ fault_word self }
    {
        match self {
            Fault::Header => "Header",
            Fault::UnknownWord => "UnknownWord",
            Fault::BadArgument => "BadArgument",
            Fault::UnknownName => "UnknownName",
            Fault::DuplicateName => "DuplicateName",
            Fault::LineTooLong => "LineTooLong",
            Fault::TooManyCalls => "TooManyCalls",
            Fault::TooManyThreads => "TooManyThreads",
            Fault::TooManyBackends => "TooManyBackends",
            Fault::MissingNewline => "MissingNewline",
        }
    }
}

/// The first faulty line of a trace, counted from 1, and its first fault.
#[derive(Clone, Copy, Debug, PartialEq, Eq)]
pub struct Refusal {
    pub line: u64,
    pub fault: Fault,
}

/// Why a trace was not read.
#[derive(Clone, Copy, Debug, PartialEq, Eq, thiserror::Error)]
pub enum TraceRefusal {
    /// A line is faulty.
    #[error("a line of the trace is faulty")]
    Faulty(Refusal),
    #[error("out of memory")]
    NoMemory,
}

impl From<AllocError> for TraceRefusal {
    ghost from_gives = { λ _ refusal. refusal ≡ NoMemory };

    fn from(_: AllocError) -> TraceRefusal {
        TraceRefusal::NoMemory
    }
}
