ghost use Rattle.std.specs.Prelude.{◌≡◌, ◌<◌, ◌^◌, [], length, IfOk};
ghost use Rattle.turn_cell.specs.Passes.{IsPassOf, pass_own, pass_seen};
ghost use Rattle.cell_runs.specs.Scripts.{HasMade, HasRun, IsReady};
ghost use Rattle.thread_runs.specs.StoreRuns.{StoreWalk};

use crate::call::{Stage, make_call};
use cell_runs::Script;
use memory_backend::StorePass;
use path_walk::Reply;
use std::alloc::AllocError;
use std::mem;
use std::sync::Wait;
use trace_text::{TraceCall, number_in_reply};

/// The script of one thread.
pub(crate) type StoreScript = Script<TraceCall, Reply, StorePass>;

/// Runs a script that is ready. It is stopped where a call finds no memory.
pub(crate) fn run_script<R: Wait>(stage: &Stage<'_, R>, script: &mut StoreScript)
    requires { IsReady stage.now.table.now script.old }
    ensures { HasRun stage.now.table.now (StoreWalk stage.now.version stage.now.backends)
        script.old script.new }
{
    if let Script::Ready(calls, pass) = mem::replace(script, Script::Stopped) {
        if let Ok((replies, pass)) = make_calls(stage, calls, pass) {
            *script = Script::Ended(replies, pass);
        }
    }
}

/// Makes the calls in turn, each with the numbers in the replies before it.
fn make_calls<R: Wait>(
    stage: &Stage<'_, R>,
    calls: Vec<TraceCall>,
    pass: StorePass,
) -> Result<(Vec<Reply>, StorePass), AllocError>
    requires table { IsPassOf stage.now.table.now pass }
    requires fresh { (pass_own pass ≡ []) × (pass_seen pass ≡ []) }
    requires few { length calls.items < 2 ^ 32 }
    ensures { IfOk result (λ made. HasMade stage.now.table.now
        (StoreWalk stage.now.version stage.now.backends) calls.items made.0.items pass made.1) }
{
    let mut pass = pass;
    let mut replies = Vec::with_capacity(stage.alloc, calls.len())?;
    let mut numbers = Vec::with_capacity(stage.alloc, calls.len())?;
    let mut number = 0;
    for call in calls {
        number += 1;
        let (reply, given_back) = make_call(stage, pass, number, numbers.as_slice(), call)?;
        pass = given_back;
        numbers.push(number_in_reply(&reply))?;
        replies.push(reply)?;
    }
    Ok((replies, pass))
}
