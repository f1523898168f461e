ghost use Rattle.std.specs.Prelude.{◌≡◌};
ghost use Rattle.chunk_backend.specs.declared.chunk_answer.ReadFault.TheVariants.{NoMemory};

use std::alloc::AllocError;
use wf_core::Text;

/// What a read by chunks comes to.
#[derive(Debug, Drop)]
pub enum ChunkAnswer {
    /// The bytes that were read; none from the end of the file on.
    Bytes(Text),
    /// There is no such file.
    NoFile,
    /// The offset is below 0.
    Negative,
    /// A fetch failed.
    Fault,
    NoMemory,
}

/// What a read comes to, and how many of the chunks that it needed were in the cache.
#[derive(Drop)]
pub(crate) struct Served {
    pub(crate) answer: ChunkAnswer,
    pub(crate) hits: u32,
}

impl Served {
    /// Of a read that looked at no chunk.
    pub(crate) fn without_chunks(answer: ChunkAnswer) -> Served
        ensures answer { result.answer ≡ answer }
        ensures hits { result.hits ≡ 0 }
    {
        Served { answer, hits: 0 }
    }
}

/// Why a chunk cannot be read.
#[derive(Clone, Copy, Debug, PartialEq, Eq)]
pub(crate) enum ReadFault {
    /// Its fetch failed.
    Failed,
    NoMemory,
}

impl From<AllocError> for ReadFault {
    ghost from_gives = { λ _ fault. fault ≡ NoMemory };

    fn from(_: AllocError) -> ReadFault {
        ReadFault::NoMemory
    }
}
