//! A step on a cell, as a pass makes it.

ghost use Rattle.std.specs.Prelude.{◌≡◌, ◌<◌, length, IfOk, OnErr};
ghost use Rattle.turn_cell.specs.Histories.{CellAllows, CellTakes, entry_with};
ghost use Rattle.turn_cell.specs.Passes.{AddsEntry, IsPassOf, pass_number, pass_view, table_openings};
ghost use Rattle.turn_cell.specs.Rule.{own_stamps_max};

use crate::cell_state::CellState;
use crate::entry::Caller;
use crate::steps::{change, take};
use crate::turn_table::{TurnPass, TurnTable};
use std::alloc::AllocError;
use std::sync::Wait;
use std::thread;

/// How many stamps a pass draws at most, so that no stamp wraps.
const OWN_STAMPS_MAX: u64 = 1 << 32;

/// Waits for good where a pass has drawn as many stamps as it may.
fn wait_for_stamp<R: Wait>(rt: &R, drawn: u64)
    ensures { drawn < own_stamps_max }
{
    if drawn < OWN_STAMPS_MAX {
        return;
    }
    for _ in rt.forever() {
        thread::yield_now();
    }
    unreachable!()
}

impl<S: CellState> TurnTable<S> {
    /// Waits for the cell's turn, makes one step there, and adds its entry at the end of the cell. The answer has the
    /// entry's stamp, which is greater than all that the pass has seen. Want of memory changes nothing, and drops the
    /// operation. A pass that has drawn 2^32 stamps waits for good.
    pub fn step<R: Wait>(
        &self,
        rt: &R,
        pass: &mut TurnPass<S, S::Op, S::Answer>,
        cell: u32,
        caller: Caller,
        op: S::Op,
    ) -> Result<(u64, S::Answer), AllocError>
        requires table { IsPassOf self.now pass.old }
        requires cell { cell < length (table_openings self.now) }
        requires takes { CellTakes S.kind S.takes (table_openings self.now) cell op }
        ensures table { IsPassOf self.now pass.new × (pass_number pass.new ≡ pass_number pass.old) }
        ensures ok { IfOk result (λ made. AddsEntry cell
            (entry_with made.0 (pass_number pass.old) caller op made.1) pass.old pass.new) }
        ensures form { IfOk result (λ made.
            CellAllows S.kind S.allows (table_openings self.now) cell op made.1) }
        ensures err { OnErr result (pass_view pass.new ≡ pass_view pass.old) }
    {
        wait_for_stamp(rt, pass.drawn);
        take(
            rt,
            &self.table.shared,
            &self.waiting,
            &mut pass.seat,
            cell as usize,
        );
        let changed = change(
            &self.table.shared,
            &self.waiting,
            &mut pass.seat,
            cell as usize,
            pass.number,
            caller,
            pass.drawn,
            op,
        );
        if changed.is_ok() {
            pass.drawn += 1;
        }
        changed
    }
}
