ghost use Rattle.std.specs.Prelude.{◌≡◌, ◌<◌, ◌++◌, ◌∷◌, [], length, replicate, slice_index_or, slice_set, IfOk, OnErr, OnOk};
ghost use Rattle.wf_core.specs.Limits.{threads_max};
ghost use Rattle.trace_text.specs.Openings.{is_opening, is_opening_at};

use crate::trace_call::{AtCall, TraceCall};
use std::alloc::{AllocError, Global};
use std::marker::Model;
use wf_core::THREADS_MAX;

/// Whether a call's reply has a descriptor's number.
pub(crate) fn is_opening(call: &TraceCall) -> bool
    ensures { result ≡ is_opening call.now }
{
    match call {
        TraceCall::Open(_, _) | TraceCall::Dup(_) | TraceCall::Dup2(_, _) => true,
        TraceCall::At(AtCall::Openat(_, _, _)) => true,
        _ => false,
    }
}

/// Whether a thread's call of that number is an opening call.
pub(crate) fn is_opening_at(openings: &[bool], number: u32) -> bool
    ensures { result ≡ is_opening_at openings.now number }
{
    let Some(before) = number.checked_sub(1) else {
        return false;
    };
    match openings.get(before as usize) {
        Some(opening) => *opening,
        None => false,
    }
}

/// Which calls of one thread are opening calls.
#[derive(Drop)]
struct ThreadOpenings {
    calls: Vec<bool>,
}

impl Model for ThreadOpenings {
    ghost use Rattle.std.specs.Prelude.{Bool, List};

    ghost Value = { List Bool };

    ghost view = { λ o. o.calls.items };
}

impl ThreadOpenings {
    fn new(alloc: Global) -> ThreadOpenings
        ensures { result ≡ [] }
    {
        ThreadOpenings {
            calls: Vec::new(alloc),
        }
    }

    fn push(&mut self, opening: bool) -> Result<(), AllocError>
        ensures ok { OnOk result (self.new ≡ self.old ++ opening ∷ []) }
        ensures err { OnErr result (self.new ≡ self.old) }
    {
        self.calls.push(opening)?;
        Ok(())
    }
}

/// Which calls of each thread are opening calls, by the threads' numbers.
#[derive(Drop)]
pub(crate) struct Openings {
    threads: Vec<ThreadOpenings>,
}

impl Model for Openings {
    ghost use Rattle.std.specs.Prelude.{◌≡◌, Bool, List, length};
    ghost use Rattle.wf_core.specs.Limits.{threads_max};

    ghost Value = { List (List Bool) };

    ghost view = { λ o. o.threads.items };

    ghost invariant = { λ o. length o.threads.items ≡ threads_max };
}

impl Openings {
    pub(crate) fn new(alloc: Global) -> Result<Openings, AllocError>
        ensures { IfOk result (λ openings. openings ≡ replicate threads_max []) }
    {
        let mut threads = Vec::with_capacity(alloc, THREADS_MAX)?;
        for _ in 0..THREADS_MAX {
            threads.push(ThreadOpenings::new(alloc))?;
        }
        Ok(Openings { threads })
    }

    /// Those of a thread.
    pub(crate) fn of(&self, thread: usize) -> &[bool]
        requires { thread < threads_max }
        ensures { result.now ≡ slice_index_or self.now thread [] }
    {
        self.threads[thread].calls.as_slice()
    }

    /// Adds a thread's next call.
    pub(crate) fn push(&mut self, thread: usize, opening: bool) -> Result<(), AllocError>
        requires { thread < threads_max }
        ensures ok { OnOk result (self.new
            ≡ slice_set self.old thread (slice_index_or self.old thread [] ++ opening ∷ [])) }
        ensures err { OnErr result (self.new ≡ self.old) }
    {
        self.threads[thread].push(opening)
    }
}
