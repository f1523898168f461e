//! What passes hand on of what they have seen.

ghost use Rattle.std.specs.Prelude.{◌≡◌, ◌<◌, ◌++◌, true};
ghost use Rattle.turn_cell.specs.Histories.{AreAllowed};
ghost use Rattle.turn_cell.specs.Passes.{IsNoteOf, IsPassOf, note_seen, pass_number, pass_own, pass_seen, pass_view, table_openings};
ghost use Rattle.turn_cell.specs.Views.{joined_view};

use crate::cell_state::CellState;
use crate::rule::{CellSeat, Cells, Learns, Meets, Notes};
use crate::turn_table::{TurnNote, TurnPass, TurnTable};

/// Learns that what the seat has seen is allowed. Nothing changes.
fn learn<S: CellState>(cells: &Cells<S>, seat: &mut CellSeat<S>)
    requires sized { 0 < cells.now.table_id.words }
    requires table { seat.old.table_id ≡ cells.now.table_id }
    requires live { seat.old.me.0.live ≡ true }
    ensures table { (seat.new.table_id ≡ seat.old.table_id) × (seat.new.id ≡ seat.old.id) }
    ensures same { seat.new.me ≡ seat.old.me }
    ensures form { AreAllowed S.kind S.allows seat.old.me.0.openings seat.old.me.0.seen }
{
    cells.load::<Learns<S>>(seat, 0);
}

/// Joins a note into a seat.
fn take_in<S: CellState>(
    cells: &Cells<S>,
    seat: &mut CellSeat<S>,
    note: TurnNote<S, S::Op, S::Answer>,
)
    requires sized { 0 < cells.now.table_id.words }
    requires table { seat.old.table_id ≡ cells.now.table_id }
    requires note { note.seat.table_id ≡ cells.now.table_id }
    requires live { seat.old.me.0.live ≡ true }
    ensures table { (seat.new.table_id ≡ seat.old.table_id) × (seat.new.id ≡ seat.old.id) }
    ensures view { seat.new.me ≡ (joined_view seat.old.me.0 note.seat.me.0, seat.old.me.1) }
{
    let TurnNote { seat: other } = note;
    cells.join_seat::<Meets>(seat, other);
}

impl<S, O, A> TurnPass<S, O, A> {
    /// The number of its runner, below the count of passes that the table was made with.
    pub fn number(&self) -> u32
        ensures { result ≡ pass_number self.now }
    {
        self.number
    }
}

impl<S: CellState> TurnPass<S, S::Op, S::Answer> {
    /// A note of what the pass has seen, for another pass of the table to meet.
    pub fn note(&mut self, table: &TurnTable<S>) -> TurnNote<S, S::Op, S::Answer>
        requires { IsPassOf table.now self.old }
        ensures table { IsPassOf table.now self.new
            × (pass_number self.new ≡ pass_number self.old) }
        ensures pass { pass_view self.new ≡ pass_view self.old }
        ensures note { IsNoteOf table.now result × (note_seen result ≡ pass_seen self.old) }
        ensures form { AreAllowed S.kind S.allows (table_openings table.now) (note_seen result) }
    {
        learn(&table.table.shared, &mut self.seat);
        let seat = table.table.shared.split_seat::<Notes>(&mut self.seat);
        TurnNote { seat }
    }

    /// From now on the pass has seen what the note has seen, and the stamps that it draws are greater.
    pub fn meet(&mut self, table: &TurnTable<S>, note: TurnNote<S, S::Op, S::Answer>)
        requires table { IsPassOf table.now self.old }
        requires note { IsNoteOf table.now note }
        ensures table { IsPassOf table.now self.new
            × (pass_number self.new ≡ pass_number self.old) }
        ensures own { pass_own self.new ≡ pass_own self.old }
        ensures seen { pass_seen self.new ≡ pass_seen self.old ++ note_seen note }
        ensures form { AreAllowed S.kind S.allows (table_openings table.now) (pass_seen self.new) }
    {
        take_in(&table.table.shared, &mut self.seat, note);
        learn(&table.table.shared, &mut self.seat);
    }
}
