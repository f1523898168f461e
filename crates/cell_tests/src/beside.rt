//! Threads that change the same cells, side by side.

ghost use Rattle.std.specs.Prelude.{◌≡◌, ◌<◌, length};
ghost use Rattle.cell_tests.specs.Runners.{AreAllRunnersOf, IsRunnerOf};
ghost use Rattle.turn_cell.specs.Passes.{table_openings};

use crate::counter::{CounterPass, CounterTable, REFUSED};
use crate::replay::{entries_of, replay_all};
use crate::scenes::{records_of, table_of};
use std::process::Abort;
use std::sync::Wait;
use std::thread::{Threads, for_each_mut};
use turn_cell::Caller;

/// Makes so many steps, on each of the five cells in turn. Before each tenth step one is refused.
fn step_often<R: Abort + Wait>(
    rt: &R,
    table: &CounterTable,
    thread: usize,
    pass: &mut CounterPass,
    steps: u32,
)
    requires cells { length (table_openings table.now) ≡ 5 }
    requires pass { IsRunnerOf table.now thread pass.old }
    ensures { IsRunnerOf table.now thread pass.new }
{
    let number = pass.number();
    for call in 0..steps {
        let cell = (call % 5 + number % 5) % 5;
        let caller = Caller {
            thread: number,
            call,
        };
        if call % 10 == 9 {
            let refused = table.step(rt, pass, cell, caller, REFUSED);
            assert!(rt; refused.is_err(), "a step that had to be refused");
        }
        let amount = u64::from(call) + 1;
        table
            .step(rt, pass, cell, caller, amount)
            .expect(rt, "memory for a step");
    }
}

/// Each pass makes so many steps, in a thread of its own.
fn step_beside<R: Threads + Wait + Abort + Sync>(
    rt: &R,
    table: &CounterTable,
    passes: &mut Vec<CounterPass>,
    steps: u32,
)
    requires cells { length (table_openings table.now) ≡ 5 }
    requires passes { AreAllRunnersOf table.now passes.old.items }
    ensures { AreAllRunnersOf table.now passes.new.items }
{
    let count = passes.len();
    if count > 0 {
        for_each_mut(
            rt,
            passes.as_mut_slice(),
            count,
            &|i, pass| step_often(rt, table, i, pass, steps),
        );
    }
}

#[test]
fn eight_threads_share_five_cells(rt: HostRuntime) {
    let (table, mut passes) = table_of(&rt, 5, 8);
    step_beside(&rt, &table, &mut passes, 12_500);
    let records = records_of(&rt, table, passes);
    assert_eq!(&rt; records.len(), 5);
    replay_all(&rt, &records, 100_000);
    for runner in 0..8 {
        assert_eq!(&rt; entries_of(&rt, &records, runner), 12_500);
    }
}
