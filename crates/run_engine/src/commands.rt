ghost use Rattle.std.specs.Prelude.{◌≡◌, map, IfOk};
ghost use Rattle.std.specs.String.{string_bytes};
ghost use Rattle.wf_core.specs.Runs.{streams};
ghost use Rattle.trace_text.specs.declared.trace.Mode.TheVariants.{Plain};
ghost use Rattle.trace_text.specs.SoloText.{IsSoloText};
ghost use Rattle.run_engine.specs.Generate.{IsGenerateRun, seed_in, seed_of, without_source};
ghost use Rattle.run_engine.specs.Generated.{generated_trace};
ghost use Rattle.run_engine.specs.Solo.{IsSoloRun, is_solo, trace_refusal, usage_text};
ghost use Rattle.run_engine.specs.Summary.{summary_text};

use crate::solo_run::run_solo;
use crate::summary::run_summary;
use crate::trace_maker::generated_trace;
use std::alloc::{AllocError, Global};
use trace_text::{Mode, TraceRefusal, read_number, read_trace, refusal_line};
use wf_core::{Command, Due, RunStatus, Sink, Source, finish, run_command};

/// The line that wrong words are answered with.
const USAGE: &[u8] = b"usage: wasmfs-run solo|threads|gen N\n";

/// Runs the trace that the input spells, in one thread, and writes each call's reply and the tree.
///
/// The words are right where they are `solo` alone. The input has at most `INPUT_MAX` bytes.
pub fn solo<S: Source, K: Sink>(
    alloc: Global,
    words: &[String],
    src: &mut S,
    out: &mut K,
) -> RunStatus
    ensures { IsSoloRun (map string_bytes words.now) result
        (streams (S.left src.old) (S.given src.old) (S.faults src.old)
        (K.written out.old) (K.faults out.old))
        (streams (S.left src.new) (S.given src.new) (S.faults src.new)
        (K.written out.new) (K.faults out.new)) }
{
    run_command(alloc, &SoloCommand, is_solo(words), src, out)
}

fn is_solo(words: &[String]) -> bool
    ensures { result ≡ is_solo (map string_bytes words.now) }
{
    match words {
        [word] => word.as_bytes() == b"solo".as_slice(),
        _ => false,
    }
}

/// The command `solo`.
struct SoloCommand;

impl Command for SoloCommand {
    ghost usage_line = { usage_text };

    ghost refusal = { trace_refusal Plain };

    ghost IsText = { IsSoloText Plain };

    fn usage(&self) -> &[u8] {
        USAGE
    }

    fn due(&self, alloc: Global, input: &[u8]) -> Result<Due, AllocError> {
        match read_trace(alloc, input, Mode::Plain) {
            Ok(trace) => Ok(Due::Text(run_solo(alloc, trace)?)),
            Err(TraceRefusal::NoMemory) => Err(AllocError),
            Err(TraceRefusal::Faulty(refusal)) => Ok(Due::Refusal(refusal_line(alloc, refusal)?)),
        }
    }
}

/// The greatest number of a trace.
const SEED_MAX: u64 = 4_294_967_295;

/// Runs the trace that a number makes, in one thread, and writes how often each reply came and what is in the tree.
///
/// The words are right where they are `gen` and a decimal from 0 to 4,294,967,295 without leading zeros.
pub fn generate<K: Sink>(alloc: Global, words: &[String], out: &mut K) -> RunStatus
    ensures { IsGenerateRun (map string_bytes words.now) result
        (without_source (K.written out.old) (K.faults out.old))
        (without_source (K.written out.new) (K.faults out.new)) }
{
    let Some(seed) = seed_in(words) else {
        return finish(out, USAGE, RunStatus::Usage);
    };
    match summary_of(alloc, seed) {
        Ok(text) => finish(out, text.as_slice(), RunStatus::Done),
        Err(AllocError) => RunStatus::NoMemory,
    }
}

fn seed_in(words: &[String]) -> Option<u64>
    ensures { result ≡ seed_in (map string_bytes words.now) }
{
    match words {
        [word, number] => seed_of(word.as_bytes(), number.as_bytes()),
        _ => None,
    }
}

fn seed_of(word: &[u8], number: &[u8]) -> Option<u64>
    ensures { result ≡ seed_of word.now number.now }
{
    if word != b"gen".as_slice() {
        return None;
    }
    read_number(number, SEED_MAX)
}

/// The summary of the trace of a number.
fn summary_of(alloc: Global, seed: u64) -> Result<Vec<u8>, AllocError>
    ensures { IfOk result (λ text. text.items ≡ summary_text (generated_trace seed)) }
{
    run_summary(alloc, generated_trace(alloc, seed)?)
}
