//! Tables of counters as the tests begin and end them.

ghost use Rattle.std.specs.Prelude.{◌≡◌, ◌≤◌, length};
ghost use Rattle.cell_tests.specs.Runners.{AreAllRunnersOf};
ghost use Rattle.turn_cell.specs.Passes.{table_openings, table_passes};

use crate::counter::{Counter, CounterPass, CounterRecord, CounterTable};
use std::process::Abort;
use turn_cell::TurnTable;

/// Counters at 0.
fn counters(rt: &(impl Abort + AllocGlobal), cells: u32) -> Vec<Counter>
    ensures { length result.items ≡ cells }
{
    let mut counters = Vec::new(rt.alloc());
    for _ in 0..cells {
        counters
            .push(Counter { count: 0 })
            .expect(rt, "memory for a cell");
    }
    counters
}

/// A table of so many counters at 0, and its passes.
pub fn table_of(
    rt: &(impl Abort + AllocGlobal),
    cells: u32,
    passes: u32,
) -> (CounterTable, Vec<CounterPass>)
    requires { passes ≤ 64 }
    ensures cells { length (table_openings result.0) ≡ cells }
    ensures count { table_passes result.0 ≡ passes }
    ensures passes { AreAllRunnersOf result.0 result.1.items }
{
    TurnTable::make(rt.alloc(), counters(rt, cells), passes).expect(rt, "memory for the table")
}

/// The records of the counters.
pub fn records_of(
    rt: &impl Abort,
    table: CounterTable,
    passes: Vec<CounterPass>,
) -> Vec<CounterRecord>
    requires { AreAllRunnersOf table passes.items }
{
    match table.close(passes) {
        Ok(records) => records,
        Err(_back) => panic!(rt; "no memory for the records"),
    }
}
