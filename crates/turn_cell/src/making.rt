//! A table of cells, made.

ghost use Rattle.std.specs.Prelude.{◌≡◌, ℕ, ◌<◌, ◌≤◌, [], IfOk, length, map, vec_capacity};
ghost use mathlib.Core.Option.{some};
ghost use lib.ListN.{get_elem?};
ghost use Rattle.turn_cell.specs.Closing.{AreDealt, IsDealer};
ghost use Rattle.turn_cell.specs.Passes.{AreFresh, ArePassesOf, table_openings, table_passes};
ghost use Rattle.turn_cell.specs.Rule.{passes_max};
ghost use Rattle.turn_cell.specs.Turns.{IsReady, IsRunner, openings_in};

use crate::cell_state::CellState;
use crate::entry::CellRecord;
use crate::rule::{CellSeat, Cells, Deals, Key};
use crate::turn_table::{TurnPass, TurnTable};
use crate::view::View;
use atomic_table::{Seat, Table};
use std::alloc::{AllocError, Global};
use std::snapshot::Snapshot;
use std::sync::atomic::AtomicU32;

/// Cells that have no entry.
fn records_of<S: Drop, O: Drop, A: Drop>(
    alloc: Global,
    cells: Vec<S>,
) -> Result<Vec<CellRecord<S, O, A>>, AllocError>
    ensures states { IfOk result (λ records. map (λ r. r.state) records.items ≡ cells.items) }
    ensures clean { IfOk result (λ records. (c : ℕ) (r : _)
        → get_elem? records.items c ≡ some r → r.entries.items ≡ []) }
{
    let mut records = Vec::with_capacity(alloc, cells.len())?;
    for state in cells {
        records.push(CellRecord {
            state,
            entries: Vec::new(alloc),
        })?;
    }
    Ok(records)
}

/// The pass of a seat that was just dealt.
fn pass_of<S, O, A>(
    seat: Seat<CellRecord<S, O, A>, View<S, O, A>>,
    number: u32,
) -> TurnPass<S, O, A>
    requires ready { IsReady seat.me }
    requires runs { IsRunner number 0 seat.me.0 }
    ensures { (result.seat ≡ seat) × (result.number ≡ number) }
{
    TurnPass {
        seat,
        number,
        drawn: 0,
    }
}

/// Deals the passes, in the order of their numbers.
fn deal<S: CellState>(
    cells: &Cells<S>,
    dealer: &mut CellSeat<S>,
    passes: u32,
    dealt: &mut Vec<TurnPass<S, S::Op, S::Answer>>,
)
    requires sized { 0 < cells.now.table_id.words }
    requires table { dealer.old.table_id ≡ cells.now.table_id }
    requires deals { IsDealer 0 passes (openings_in cells.now.key) dealer.old.me }
    requires room { (dealt.old.items ≡ []) × (passes ≤ vec_capacity dealt.old) }
    ensures count { length dealt.new.items ≡ passes }
    ensures dealt { AreDealt cells.now.table_id (openings_in cells.now.key) dealt.new.items }
{
    for number in 0..passes {
        let seat = cells.split_seat::<Deals>(dealer);
        dealt.push_reserved(pass_of(seat, number));
    }
}

impl<S: CellState + Drop> TurnTable<S> {
    /// A table of these cells, and its passes, in the order of their numbers. There are 64 passes at most. Want of memory
    /// drops the cells.
    pub fn make(
        alloc: Global,
        cells: Vec<S>,
        passes: u32,
    ) -> Result<(TurnTable<S>, Vec<TurnPass<S, S::Op, S::Answer>>), AllocError>
        requires passes { passes ≤ passes_max }
        ensures table { IfOk result (λ made.
            (table_openings made.0 ≡ cells.items) × (table_passes made.0 ≡ passes)) }
        ensures passes { IfOk result (λ made. ArePassesOf made.0 made.1.items) }
        ensures fresh { IfOk result (λ made. AreFresh made.1.items) }
    {
        let mut dealt = Vec::with_capacity(alloc, passes as usize)?;
        let words = vec![in alloc; 0u64; 1 + cells.len()]?;
        let key = Key {
            cells: Snapshot::of(&cells),
            passes: u64::from(passes),
        };
        let records = records_of(alloc, cells)?;
        let (table, mut dealer) = match Table::new(alloc, words.as_slice(), records, &key) {
            Ok(made) => made,
            Err(_) => return Err(AllocError),
        };
        deal(&table.shared, &mut dealer, passes, &mut dealt);
        let waiting = AtomicU32::new(0);
        Ok((
            TurnTable {
                table,
                alloc,
                waiting,
            },
            dealt,
        ))
    }
}
