ghost use Rattle.std.specs.Prelude.{◌≡◌, ◌≤◌, ◌<◌, ◌+◌, ◌^◌, length, IfOk};
ghost use mathlib.Core.Option.{some};
ghost use lib.ListN.{get_elem?};
ghost use Rattle.turn_cell.specs.Rule.{passes_max};
ghost use Rattle.turn_cell.specs.Passes.{table_openings};
ghost use Rattle.memory_backend.specs.CellNumbers.{AreCellsOf, cell_backends_max};
ghost use Rattle.cell_runs.specs.Scripts.{AreReady, HasRun, HaveRun, IsReady};
ghost use Rattle.thread_runs.specs.StoreRuns.{IsStoreRun, StoreWalk};

use crate::call::Stage;
use crate::script::{StoreScript, run_script};
use cell_runs::{ThreadRun, ends_of, history_of, ready_scripts};
use memory_backend::{CellOp, StoreCell, StoreTable, opening_cells};
use path_walk::{Reply, StoreAnswer};
use std::alloc::{AllocError, Global};
use std::sync::Wait;
use std::thread;
use std::thread::Threads;
use trace_text::{TraceCall, Version};
use turn_cell::TurnTable;
use wf_core::Name;

/// What the calls of threads on a store leave.
pub type StoreRun = ThreadRun<Reply, StoreCell, CellOp, StoreAnswer>;

/// Makes the calls of each thread in a thread of its own, all at once, over an empty store with these backends beside the
/// root's: of each its name, and whether it is proxied, which changes nothing here. The calls are those of a trace of that
/// version.
///
/// There are 64 threads and 64 backends at most, the root's among them. Every thread is joined. Where a call finds no
/// memory, its thread stops, the others go on to their ends, and then the run is refused.
pub fn run_threads<R: Threads + Wait + Sync>(
    rt: &R,
    alloc: Global,
    version: Version,
    backends: &[(Name, bool)],
    scripts: Vec<Vec<TraceCall>>,
) -> Result<StoreRun, AllocError>
    requires backends { 1 + length backends.now ≤ cell_backends_max }
    requires threads { length scripts.items ≤ passes_max }
    requires few { (t : _) (calls : _) → get_elem? scripts.items t ≡ some calls
        → length calls.items < 2 ^ 32 }
    ensures { IfOk result (λ run. IsStoreRun version backends.now scripts.items run) }
{
    let cells = opening_cells(alloc, backends)?;
    let (table, passes) = TurnTable::make(alloc, cells, scripts.len() as u32)?;
    let mut scripts = ready_scripts(alloc, scripts, passes)?;
    let count = 1 + backends.len() as u32;
    play(rt, alloc, &table, count, version, &mut scripts);
    let (replies, passes) = ends_of(alloc, scripts)?;
    let Ok(records) = table.close(passes) else {
        return Err(AllocError);
    };
    let (steps, cells) = history_of(alloc, records)?;
    Ok(ThreadRun {
        replies,
        steps,
        cells,
    })
}

/// Runs all scripts at once.
fn play<R: Threads + Wait + Sync>(
    rt: &R,
    alloc: Global,
    table: &StoreTable,
    backends: u32,
    version: Version,
    scripts: &mut Vec<StoreScript>,
)
    requires cells { AreCellsOf backends (table_openings table.now) }
    requires ready { AreReady table.now scripts.old.items }
    ensures { HaveRun table.now (StoreWalk version backends) scripts.old.items scripts.new.items }
{
    let threads = scripts.len().max(1);
    thread::for_each_mut(
        rt,
        scripts.as_mut_slice(),
        threads,
        &|_, script| run_on(rt, alloc, table, backends, version, script),
    );
}

fn run_on<R: Wait>(
    rt: &R,
    alloc: Global,
    table: &StoreTable,
    backends: u32,
    version: Version,
    script: &mut StoreScript,
)
    requires cells { AreCellsOf backends (table_openings table.now) }
    requires ready { IsReady table.now script.old }
    ensures { HasRun table.now (StoreWalk version backends) script.old script.new }
{
    let stage = Stage {
        rt,
        alloc,
        table,
        backends,
        version,
    };
    run_script(&stage, script);
}
