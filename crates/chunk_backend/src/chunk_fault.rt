ghost use Rattle.std.specs.Prelude.{◌≡◌, IfOk};
ghost use Rattle.chunk_backend.specs.Inputs.{chunk_fault_word, chunk_refusal_text};
ghost use Rattle.chunk_backend.specs.declared.chunk_fault.InputRefusal.TheVariants.{NoMemory};

use std::alloc::{AllocError, Global};
use trace_text::Fault;

/// Why a line of the input of `chunks` is faulty.
#[derive(Clone, Copy, Debug, PartialEq, Eq)]
pub enum ChunkFault {
    /// A fault that the line of a trace may have too.
    Line(Fault),
    /// There are `FILES_MAX` files before.
    TooManyFiles,
}

impl ChunkFault {
    /// The fault's word, as `TooManyFiles`.
    pub fn word(self) -> &'static str
        ensures { result.now ≡ chunk_fault_word self }
    {
        match self {
            ChunkFault::Line(fault) => fault.word(),
            ChunkFault::TooManyFiles => "TooManyFiles",
        }
    }
}

/// The first faulty line of an input, counted from 1, and its first fault.
#[derive(Clone, Copy, Debug, PartialEq, Eq)]
pub struct ChunkRefusal {
    pub line: u64,
    pub fault: ChunkFault,
}

/// Why an input was not read.
#[derive(Clone, Copy, Debug, PartialEq, Eq)]
pub enum InputRefusal {
    /// A line is faulty.
    Faulty(ChunkRefusal),
    NoMemory,
}

impl From<AllocError> for InputRefusal {
    ghost from_gives = { λ _ refusal. refusal ≡ NoMemory };

    fn from(_: AllocError) -> InputRefusal {
        InputRefusal::NoMemory
    }
}

/// `line N: WORD` with its byte 10.
pub(crate) fn refusal_line(alloc: Global, refusal: ChunkRefusal) -> Result<Vec<u8>, AllocError>
    ensures { IfOk result (λ text. text.items ≡ chunk_refusal_text refusal) }
{
    let line = refusal.line;
    let word = refusal.fault.word();
    Ok(format!(in alloc; "line {line}: {word}\n")?.into_bytes())
}
