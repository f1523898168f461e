//! The scripts of threads.

ghost use Rattle.std.specs.Prelude.{◌≡◌, map, Some, IfOk};
ghost use Rattle.cell_runs.specs.Scripts.{pass_in, ready_with, replies_in};

use std::alloc::{AllocError, Global};

/// The script of one thread: its calls of type `C`, which have replies of type `R`, and the pass of type `P` with which they
/// take their steps.
#[derive(Drop)]
pub enum Script<C, R, P> {
    /// The calls that are to be made, in their order.
    Ready(Vec<C>, P),
    /// Each call was made, with these replies.
    Ended(Vec<R>, P),
    /// A call found no memory.
    Stopped,
}

/// The scripts of threads, each with its pass. They are as many as there are of both.
pub fn ready_scripts<C: Drop, R: Drop, P: Drop>(
    alloc: Global,
    scripts: Vec<Vec<C>>,
    passes: Vec<P>,
) -> Result<Vec<Script<C, R, P>>, AllocError>
    ensures { IfOk result (λ ready. ready.items ≡ ready_with scripts.items passes.items) }
{
    let mut ready = Vec::with_capacity(alloc, passes.len())?;
    let mut scripts = scripts.into_iter();
    for pass in passes {
        let Some(calls) = scripts.next() else {
            return Ok(ready);
        };
        ready.push(Script::Ready(calls, pass))?;
    }
    Ok(ready)
}

/// The replies and the passes, by thread. Refused where a script was stopped, and for want of memory.
pub fn ends_of<C: Drop, R: Drop, P: Drop>(
    alloc: Global,
    scripts: Vec<Script<C, R, P>>,
) -> Result<(Vec<Vec<R>>, Vec<P>), AllocError>
    ensures replies { IfOk result (λ ends.
        map replies_in scripts.items ≡ map (λ given. Some given) ends.0.items) }
    ensures passes { IfOk result (λ ends.
        map pass_in scripts.items ≡ map (λ pass. Some pass) ends.1.items) }
{
    let mut replies = Vec::with_capacity(alloc, scripts.len())?;
    let mut passes = Vec::with_capacity(alloc, scripts.len())?;
    for script in scripts {
        let Script::Ended(given, pass) = script else {
            return Err(AllocError);
        };
        replies.push(given)?;
        passes.push(pass)?;
    }
    Ok((replies, passes))
}
