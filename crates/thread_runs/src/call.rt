ghost use Rattle.std.specs.Prelude.{◌≡◌, List, map, IfOk};
ghost use Rattle.turn_cell.specs.Passes.{IsPassOf, pass_number, table_openings};
ghost use Rattle.path_walk.specs.declared.call.Reply.{Reply};
ghost use Rattle.memory_backend.specs.CellNumbers.{AreCellsOf};
ghost use Rattle.cell_runs.specs.Scripts.{IsMade};
ghost use Rattle.trace_text.specs.TraceCalls.{number_in_reply};
ghost use Rattle.thread_runs.specs.StoreRuns.{StoreWalk};

use memory_backend::{Direct, StorePass, StoreTable};
use path_walk::{Reply, perform};
use std::alloc::{AllocError, Global};
use std::sync::Wait;
use trace_text::{TraceCall, Version};
use turn_cell::Caller;

/// What the scripts of a run share: the cells of a store of so many backends, and the version of the calls.
#[derive(Drop)]
pub(crate) struct Stage<'a, R: Wait> {
    pub rt: &'a R,
    pub alloc: Global,
    pub table: &'a StoreTable,
    pub backends: u32,
    pub version: Version,
    ghost cells: { AreCellsOf backends (table_openings table.now) },
}

/// Makes the call of that number of its thread, where these are the numbers in the replies before it. The pass comes back
/// with the reply.
pub(crate) fn make_call<R: Wait>(
    stage: &Stage<'_, R>,
    pass: StorePass,
    number: u32,
    numbers: &[u32],
    call: TraceCall,
) -> Result<(Reply, StorePass), AllocError>
    requires { IsPassOf stage.now.table.now pass }
    ensures table { IfOk result (λ made. IsPassOf stage.now.table.now made.1
        × (pass_number made.1 ≡ pass_number pass)) }
    ensures made { IfOk result (λ made. (before : List Reply)
        → numbers.now ≡ map number_in_reply before
        → IsMade (StoreWalk stage.now.version stage.now.backends before call)
        number made.0 pass made.1) }
{
    let caller = Caller {
        thread: pass.number(),
        call: number,
    };
    let call = call.into_call(numbers);
    let mut backends = Direct::new(stage.rt, stage.table, pass, stage.backends, caller);
    let reply = perform(stage.alloc, call, &mut backends, stage.version.number())?;
    Ok((reply, backends.into_pass()))
}
