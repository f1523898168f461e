//! The stamps that passes draw, one after another.

ghost use Rattle.std.specs.Prelude.{◌≡◌, ◌<◌, IfSome, length};
ghost use Rattle.cell_tests.specs.Runners.{AreAllRunnersOf};
ghost use Rattle.turn_cell.specs.Passes.{table_openings, table_passes};

use crate::counter::{CounterPass, CounterTable, REFUSED};
use crate::replay::replay_all;
use crate::scenes::{records_of, table_of};
use std::sync::Wait;
use turn_cell::Caller;

/// A step of the runner on a cell: its stamp and its answer, if it was not refused.
fn step<R: Wait>(
    rt: &R,
    table: &CounterTable,
    passes: &mut Vec<CounterPass>,
    runner: usize,
    cell: u32,
    amount: u64,
) -> Option<(u64, u64)>
    requires runner { runner < table_passes table.now }
    requires cell { cell < length (table_openings table.now) }
    requires passes { AreAllRunnersOf table.now passes.old.items }
    ensures { AreAllRunnersOf table.now passes.new.items }
{
    let caller = Caller { thread: 0, call: 0 };
    let pass = &mut passes[runner];
    table.step(rt, pass, cell, caller, amount).ok()
}

/// One runner meets a note of another.
fn meet(table: &CounterTable, passes: &mut Vec<CounterPass>, from: usize, to: usize)
    requires runners { (from < table_passes table.now) × (to < table_passes table.now) }
    requires passes { AreAllRunnersOf table.now passes.old.items }
    ensures { AreAllRunnersOf table.now passes.new.items }
{
    let pass = &mut passes[from];
    let note = pass.note(table);
    let other = &mut passes[to];
    other.meet(table, note);
}

#[test]
fn a_refused_step_leaves_no_gap(rt: HostRuntime) {
    let (table, mut passes) = table_of(&rt, 1, 1);
    for (amount, made) in [
        (5, Some((0, 5))),
        (REFUSED, None),
        (7, Some((1, 12))),
        (REFUSED, None),
        (REFUSED, None),
        (1, Some((2, 13))),
    ] {
        assert_eq!(&rt; step(&rt, &table, &mut passes, 0, 0, amount), made);
    }
    let records = records_of(&rt, table, passes);
    replay_all(&rt, &records, 3);
}

#[test]
fn a_pass_that_met_a_note_draws_greater_stamps(rt: HostRuntime) {
    let (table, mut passes) = table_of(&rt, 2, 2);
    for (runner, cell, amount, made) in [
        (0, 0, 3, Some((0, 3))),
        (0, 1, 4, Some((1, 4))),
        (1, 0, 5, Some((2, 8))),
        (0, 0, 6, Some((3, 14))),
        (1, 1, 7, Some((4, 11))),
    ] {
        meet(&table, &mut passes, 1 - runner, runner);
        assert_eq!(&rt; step(&rt, &table, &mut passes, runner, cell, amount), made);
    }
    let records = records_of(&rt, table, passes);
    replay_all(&rt, &records, 5);
}
