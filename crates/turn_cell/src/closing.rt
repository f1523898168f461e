//! The end of a table of cells: its passes are joined, and the records of its cells are taken out.

ghost use Rattle.std.specs.Prelude.{◌≡◌, ℕ, ◌<◌, ◌≤◌, [], IfErr, IfOk, false, map, slice_index_or, vec_capacity};
ghost use Rattle.std.specs.Mem.Slots.{slots_items, slots_filled, slots_len, IsFull};
ghost use mathlib.Core.Option.{some};
ghost use lib.ListN.{get_elem?};
ghost use Rattle.turn_cell.specs.Closing.{HasGathered};
ghost use Rattle.turn_cell.specs.Passes.{ArePassesOf, IsPassAt, pass_view, table_openings};
ghost use Rattle.turn_cell.specs.Records.{AreHistories};
ghost use Rattle.turn_cell.specs.Turns.{openings_in};

use crate::cell_state::CellState;
use crate::entry::CellRecord;
use crate::rule::{CellSeat, Cells, Enters, Meets};
use crate::turn_table::{TurnPass, TurnTable};
use atomic_table::Closed;
use std::alloc::Global;

/// A seat into which all passes are joined.
fn gather<S: CellState>(cells: &Cells<S>, passes: Vec<TurnPass<S, S::Op, S::Answer>>) -> CellSeat<S>
    requires sized { 0 < cells.now.table_id.words }
    requires passes { (k : ℕ) (p : _) → get_elem? passes.items k ≡ some p
        → IsPassAt cells.now.table_id (openings_in cells.now.key) p }
    ensures table { result.table_id ≡ cells.now.table_id }
    ensures all { HasGathered passes.items result.me.0 }
{
    let (_, mut seat) = cells.load_new_seat::<Enters>(0);
    for pass in passes {
        let TurnPass {
            seat: other,
            number: _,
            drawn: _,
        } = pass;
        cells.join_seat::<Meets>(&mut seat, other);
    }
    seat
}

/// Takes the records out, in the order of their cells.
fn empty<S, O, A>(
    closed: &mut Closed<CellRecord<S, O, A>, Global>,
    records: &mut Vec<CellRecord<S, O, A>>,
)
    requires full { IsFull closed.old.slots }
    requires room { (records.old.items ≡ [])
        × (slots_len closed.old.slots ≤ vec_capacity records.old) }
    ensures records { records.new.items ≡ slots_items closed.old.slots }
    ensures empty { (k : ℕ) → k < slots_len closed.new.slots
        → slice_index_or (slots_filled closed.new.slots) k false ≡ false }
{
    for i in 0..closed.slot_count() {
        records.push_reserved(closed.take(i));
    }
}

impl<S: CellState + Drop> TurnTable<S> {
    /// The records of the cells, in the order of their numbers. It is refused for want of memory alone, and then gives the
    /// table and its passes back as they were. The passes are all that `make` gave, in that order.
    pub fn close(
        self,
        passes: Vec<TurnPass<S, S::Op, S::Answer>>,
    ) -> Result<
        Vec<CellRecord<S, S::Op, S::Answer>>,
        (TurnTable<S>, Vec<TurnPass<S, S::Op, S::Answer>>),
    >
        requires { ArePassesOf self passes.items }
        ensures ok { IfOk result (λ records. AreHistories S.after S.reply S.kind S.allows
            (table_openings self) (map pass_view passes.items) records.items) }
        ensures err { IfErr result (λ back. (back.0 ≡ self) × (back.1.items ≡ passes.items)) }
    {
        let Ok(mut records) = Vec::with_capacity(self.alloc, self.table.slot_count()) else {
            return Err((self, passes));
        };
        let TurnTable { table, .. } = self;
        let seat = gather(&table.shared, passes);
        let mut closed = table.close_with(seat);
        empty(&mut closed, &mut records);
        closed.free();
        Ok(records)
    }
}
