ghost use Rattle.std.specs.Prelude.{◌≡◌, map};
ghost use Rattle.std.specs.String.{string_bytes};
ghost use Rattle.wf_core.specs.Runs.{streams};
ghost use Rattle.wasmfs_run.specs.Program.{IsProgramRun, has_first, picked};

use chunk_backend::chunks;
use run_engine::{generate, solo};
use std::alloc::Global;
use wf_core::{Gate, RunStatus, Sink, Source};

/// The calls that words may pick.
enum TopCall {
    Solo,
    Generate,
    Chunks,
}

/// Runs the command that the words after the program's name give, by the first of them: `gen`, `chunks`, and else `solo`,
/// which answers words that are not its own. None of them passes a gate.
pub fn run<S: Source, K: Sink, G: Gate>(
    alloc: Global,
    words: &[String],
    src: &mut S,
    out: &mut K,
    _gate: &G,
) -> RunStatus
    ensures { IsProgramRun (map string_bytes words.now) result
        (streams (S.left src.old) (S.given src.old) (S.faults src.old)
        (K.written out.old) (K.faults out.old))
        (streams (S.left src.new) (S.given src.new) (S.faults src.new)
        (K.written out.new) (K.faults out.new)) }
{
    match picked(words) {
        TopCall::Generate => generate(alloc, words, out),
        TopCall::Chunks => chunks(alloc, words, src, out),
        TopCall::Solo => solo(alloc, words, src, out),
    }
}

fn picked(words: &[String]) -> TopCall
    ensures { result ≡ picked (map string_bytes words.now) }
{
    if has_first(b"gen", words) {
        return TopCall::Generate;
    }
    if has_first(b"chunks", words) {
        return TopCall::Chunks;
    }
    TopCall::Solo
}

fn has_first(text: &[u8], words: &[String]) -> bool
    ensures { result ≡ has_first text.now (map string_bytes words.now) }
{
    match words {
        [word, ..] => word.as_bytes() == text,
        [] => false,
    }
}
