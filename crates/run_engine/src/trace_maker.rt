ghost use Rattle.std.specs.Prelude.{◌≡◌, ◌-◌, ◌<◌, ◌^◌, ◌++◌, ◌∷◌, [], length, IfOk, OnOk};
ghost use Rattle.trace_text.specs.Traces.{backend_line, traced};
ghost use Rattle.run_engine.specs.Generated.{generated_backends, generated_threads, generated_trace, next_line};

use crate::draws::{Draws, Generator};
use std::alloc::{AllocError, Global};
use std::marker::Model;
use trace_text::{BackendLine, CallLine, Trace, Version};
use wf_core::Text;

/// How many calls a generated trace has.
const GENERATED_CALLS: u32 = 2000;

/// How many threads make them.
const THREAD_COUNT: usize = 4;

/// The lines of calls, seen as their list, with the number of calls of each thread.
#[derive(Drop)]
struct Lines {
    lines: Vec<CallLine>,
    counts: [u32; THREAD_COUNT],
}

impl Model for Lines {
    ghost use Rattle.std.specs.Prelude.{◌≡◌, ◌<◌, ℕ, List, slice_index_or};
    ghost use Rattle.trace_text.specs.declared.trace.CallLine.{CallLine};
    ghost use Rattle.trace_text.specs.Traces.{calls_of};

    ghost Value = { List CallLine };

    ghost view = { λ l. l.lines.items };

    ghost invariant = { λ l. (thread : ℕ) → thread < 4
        → slice_index_or l.counts thread 0 ≡ calls_of thread l.lines.items };
}

impl Lines {
    fn new(alloc: Global) -> Lines
        ensures { result ≡ [] }
    {
        Lines {
            lines: Vec::new(alloc),
            counts: [0; THREAD_COUNT],
        }
    }

    /// Adds the call that draws are.
    fn push(&mut self, alloc: Global, draws: Draws) -> Result<(), AllocError>
        requires { length self.old < 2 ^ 32 - 1 }
        ensures { OnOk result (self.new ≡ self.old ++ next_line self.old draws ∷ []) }
    {
        let thread = draws.thread();
        let call = draws.call(alloc)?;
        let number = self.counts[thread as usize] + 1;
        self.lines.push(CallLine {
            thread,
            number,
            call,
        })?;
        self.counts[thread as usize] = number;
        Ok(())
    }

    fn into_lines(self) -> Vec<CallLine>
        ensures { result.items ≡ self }
    {
        let Lines { lines, .. } = self;
        lines
    }
}

fn threads(alloc: Global) -> Result<Vec<Text>, AllocError>
    ensures { IfOk result (λ threads. threads.items ≡ generated_threads) }
{
    let mut threads = Vec::with_capacity(alloc, THREAD_COUNT)?;
    threads.push(Text::read(alloc, b"A")?)?;
    threads.push(Text::read(alloc, b"B")?)?;
    threads.push(Text::read(alloc, b"C")?)?;
    threads.push(Text::read(alloc, b"D")?)?;
    Ok(threads)
}

fn backend(alloc: Global, name: &[u8], proxied: bool) -> Result<BackendLine, AllocError>
    ensures { IfOk result (λ backend. backend ≡ backend_line name.now proxied) }
{
    let name = Text::read(alloc, name)?;
    Ok(BackendLine { name, proxied })
}

fn backends(alloc: Global) -> Result<Vec<BackendLine>, AllocError>
    ensures { IfOk result (λ backends. backends.items ≡ generated_backends) }
{
    let mut backends = Vec::with_capacity(alloc, 2)?;
    backends.push(backend(alloc, b"m", false)?)?;
    backends.push(backend(alloc, b"p", true)?)?;
    Ok(backends)
}

/// The trace of a number: `GENERATED_CALLS` calls of four threads, on three backends.
pub fn generated_trace(alloc: Global, seed: u64) -> Result<Trace, AllocError>
    ensures { IfOk result (λ trace. traced trace ≡ generated_trace seed) }
{
    let mut generator = Generator::new(seed);
    let mut lines = Lines::new(alloc);
    for _ in 0..GENERATED_CALLS {
        lines.push(alloc, generator.draws())?;
    }
    Ok(Trace {
        version: Version::One,
        threads: threads(alloc)?,
        backends: backends(alloc)?,
        calls: lines.into_lines(),
    })
}
