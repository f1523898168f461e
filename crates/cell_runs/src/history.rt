//! The steps on all cells, in the order of their stamps.

ghost use Rattle.std.specs.Prelude.{◌≡◌, ◌+◌, ◌++◌, length, map, IfOk, OnOk};
ghost use Rattle.cell_runs.specs.Runs.{IsHistory, known_at, log_of, flattened};

use std::alloc::{AllocError, Global};
use turn_cell::{CellRecord, Entry, Known};

/// Appends the entries of one cell.
fn add<O: Drop, A: Drop>(
    steps: &mut Vec<Known<O, A>>,
    cell: u64,
    entries: Vec<Entry<O, A>>,
) -> Result<(), AllocError>
    ensures { OnOk result (steps.new.items ≡ steps.old.items ++ map (known_at cell) entries.items) }
{
    for entry in entries {
        steps.push(Known { cell, entry })?;
    }
    Ok(())
}

/// The steps on all cells in the order of their stamps, and the states of the cells in the order of their numbers.
pub fn history_of<S: Drop, O: Drop, A: Drop>(
    alloc: Global,
    records: Vec<CellRecord<S, O, A>>,
) -> Result<(Vec<Known<O, A>>, Vec<S>), AllocError>
    ensures states { IfOk result (λ r. r.1.items ≡ map (λ z. z.state) records.items) }
    ensures steps { IfOk result (λ r.
        IsHistory (log_of records.items) (length records.items) r.0.items) }
{
    let mut steps = Vec::new(alloc);
    let mut states = Vec::new(alloc);
    let mut cell = 0u64;
    for record in records {
        let CellRecord { state, entries } = record;
        add(&mut steps, cell, entries)?;
        states.push(state)?;
        cell += 1;
    }
    steps.sort_unstable_by_key(|step| step.entry.stamp);
    Ok((steps, states))
}
