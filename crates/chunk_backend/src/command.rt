ghost use Rattle.std.specs.Prelude.{◌≡◌, map};
ghost use Rattle.std.specs.String.{string_bytes};
ghost use Rattle.wf_core.specs.Runs.{streams};
ghost use Rattle.chunk_backend.specs.ChunksText.{IsChunksText, chunks_refusal};
ghost use Rattle.chunk_backend.specs.Command.{IsChunksRun, chunks_usage, is_chunks};

use crate::chunk_fault::{InputRefusal, refusal_line};
use crate::chunks_text::run_input;
use crate::input::read_chunks;
use std::alloc::{AllocError, Global};
use wf_core::{Command, Due, RunStatus, Sink, Source, run_command};

/// Runs the reads that the input spells on its files, and writes their answers and how many chunks were fetched and found.
///
/// The words are right where they are `chunks` alone. The input has at most `INPUT_MAX` bytes.
pub fn chunks<S: Source, K: Sink>(
    alloc: Global,
    words: &[String],
    src: &mut S,
    out: &mut K,
) -> RunStatus
    ensures { IsChunksRun (map string_bytes words.now) result
        (streams (S.left src.old) (S.given src.old) (S.faults src.old)
        (K.written out.old) (K.faults out.old))
        (streams (S.left src.new) (S.given src.new) (S.faults src.new)
        (K.written out.new) (K.faults out.new)) }
{
    run_command(alloc, &ChunksCommand, is_chunks(words), src, out)
}

fn is_chunks(words: &[String]) -> bool
    ensures { result ≡ is_chunks (map string_bytes words.now) }
{
    match words {
        [word] => word.as_bytes() == b"chunks".as_slice(),
        _ => false,
    }
}

/// The command `chunks`.
struct ChunksCommand;

impl Command for ChunksCommand {
    ghost usage_line = { chunks_usage };

    ghost refusal = { chunks_refusal };

    ghost IsText = { IsChunksText };

    fn usage(&self) -> &[u8] {
        b"usage: wasmfs-run chunks\n"
    }

    fn due(&self, alloc: Global, input: &[u8]) -> Result<Due, AllocError> {
        match read_chunks(alloc, input) {
            Ok(input) => Ok(Due::Text(run_input(alloc, input)?)),
            Err(InputRefusal::NoMemory) => Err(AllocError),
            Err(InputRefusal::Faulty(refusal)) => Ok(Due::Refusal(refusal_line(alloc, refusal)?)),
        }
    }
}
