//! What each kind of step on a table changes of what it shows: the entries of each cell, and who has its turn. These
//! functions do nothing: what is proved stands in their contracts.

ghost use Rattle.turn_cell.specs.Laws.{AddsSeat, DrawsUnderTurn, GivesOwnTurn, JoinsOther, SeenIsAllowed, ShowsOneHistory, SplitsOffNote, SplitsOffPass, TakesFreeTurn};

use crate::cell_state::CellState;

/// A table shows one list of entries for each cell, and one holder of its turn.
pub fn table_shows_one_history<S: CellState>()
    ensures { ShowsOneHistory S.after S.reply S.kind S.allows }
{}

/// An exchange of a cell's free turn gets it, and the cell with it.
pub fn take_gets_free_turn<S: CellState>()
    ensures { TakesFreeTurn S.after S.reply S.kind S.allows }
{}

/// A fetch add of the clock puts an entry last in the cell whose turn is held, with the clock's number as its stamp.
pub fn draw_puts_entry_last<S: CellState>()
    ensures { DrawsUnderTurn S.after S.reply S.kind S.allows }
{}

/// A store of a free turn frees the cell's turn.
pub fn give_frees_turn<S: CellState>()
    ensures { GivesOwnTurn S.after S.reply S.kind S.allows }
{}

/// A note that is split off changes no cell.
pub fn split_of_note_changes_no_cell<S: CellState>()
    ensures { SplitsOffNote S.after S.reply S.kind S.allows }
{}

/// A pass that is split off, as all are when a table is made, changes no cell.
pub fn split_of_pass_changes_no_cell<S: CellState>()
    ensures { SplitsOffPass S.after S.reply S.kind S.allows }
{}

/// A seat that is joined into another changes no cell.
pub fn join_changes_no_cell<S: CellState>()
    ensures { JoinsOther S.after S.reply S.kind S.allows }
{}

/// A new seat, as `close` has one to join the passes into, changes no cell.
pub fn new_seat_changes_no_cell<S: CellState>()
    ensures { AddsSeat S.after S.reply S.kind S.allows }
{}

/// What a pass or a note has seen is an entry of its cell, with an answer that the cell's kind allows.
pub fn seen_is_allowed<S: CellState>()
    ensures { SeenIsAllowed S.after S.reply S.kind S.allows }
{}
