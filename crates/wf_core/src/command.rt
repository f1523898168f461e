ghost use Rattle.std.specs.Prelude.{◌≡◌, ◌≢◌, ◌≤◌, ◌⊎◌, List, ℕ, Option, IfOk};
ghost use Rattle.std.specs.Io.KnownBytes.{Appends};
ghost use Rattle.wf_core.specs.Bytes.{AppendsFront};
ghost use Rattle.wf_core.specs.Faults.{Rose};
ghost use Rattle.wf_core.specs.Runs.{IsDueFor, IsRun, streams};

use crate::limits::INPUT_MAX;
use crate::run_status::RunStatus;
use crate::sink::{Sink, write_text};
use crate::source::{InputFault, Source, read_input};
use std::alloc::{AllocError, Global};

/// What is due for an input.
#[derive(Debug, Drop)]
pub enum Due {
    /// The whole text.
    Text(Vec<u8>),
    /// The line that a faulty input is refused with.
    Refusal(Vec<u8>),
}

/// What a top call makes of the input that it reads.
pub trait Command {
    /// The line that wrong words are answered with.
    ghost usage_line: { List ℕ };

    /// The line that an input is refused with, where it is.
    ghost refusal: { List ℕ → Option (List ℕ) };

    /// The texts of an input that is not refused.
    ghost IsText: { List ℕ → List ℕ → Type 0 };

    /// The line that wrong words are answered with.
    fn usage(&self) -> &[u8]
        ensures { result.now ≡ usage_line };

    /// The text of an input, or the line that it is refused with.
    fn due(&self, alloc: Global, input: &[u8]) -> Result<Due, AllocError>
        ensures { IfOk result (λ due. IsDueFor refusal IsText input.now due) };
}

/// Reads the whole input and writes what is due for it, or writes the usage line where the words are wrong.
///
/// The input has at most `INPUT_MAX` bytes. The whole text is made before its first byte is written.
pub fn run_command<C: Command, S: Source, K: Sink>(
    alloc: Global,
    command: &C,
    is_right: bool,
    src: &mut S,
    out: &mut K,
) -> RunStatus
    ensures { IsRun C.usage_line C.refusal C.IsText is_right result
        (streams (S.left src.old) (S.given src.old) (S.faults src.old)
        (K.written out.old) (K.faults out.old))
        (streams (S.left src.new) (S.given src.new) (S.faults src.new)
        (K.written out.new) (K.faults out.new)) }
{
    if !is_right {
        return finish(out, command.usage(), RunStatus::Usage);
    }
    let input = match read_input(alloc, src, INPUT_MAX) {
        Ok(input) => input,
        Err(InputFault::ReadFault) => return RunStatus::ReadFault,
        Err(InputFault::TooLong) => return RunStatus::TooLong,
        Err(InputFault::NoMemory) => return RunStatus::NoMemory,
    };
    match command.due(alloc, input.as_slice()) {
        Ok(Due::Text(text)) => finish(out, text.as_slice(), RunStatus::Done),
        Ok(Due::Refusal(line)) => finish(out, line.as_slice(), RunStatus::Refused),
        Err(AllocError) => RunStatus::NoMemory,
    }
}

/// Writes the text that is due, and answers its status where no write failed. It takes no memory.
pub fn finish<K: Sink>(out: &mut K, text: &[u8], status: RunStatus) -> RunStatus
    ensures whole { result ≢ RunStatus.WriteFault
        → (result ≡ status) × Appends (K.written out.old) (K.written out.new) text.now }
    ensures front { AppendsFront (K.written out.old) (K.written out.new) text.now }
    ensures fault { result ≡ RunStatus.WriteFault → status ≢ RunStatus.WriteFault
        → Rose (K.faults out.old) (K.faults out.new) }
    ensures status { (result ≡ status) ⊎ (result ≡ RunStatus.WriteFault) }
    ensures later { K.faults out.old ≤ K.faults out.new }
{
    match write_text(out, text) {
        Ok(()) => status,
        Err(_) => RunStatus::WriteFault,
    }
}
