ghost use Rattle.std.specs.Prelude.{◌≡◌};
ghost use Rattle.turn_cell.specs.Passes.{IsPassOf, pass_number, table_openings};
ghost use Rattle.memory_backend.specs.CellNumbers.{AreCellsOf};
ghost use Rattle.memory_backend.specs.CellSteps.{PassRan};

use crate::cell::{CellOp, StoreCell};
use crate::cell_number::cell_of;
use path_walk::{Backends, CellId, StepAnswer, StoreAnswer, StoreOp};
use std::alloc::AllocError;
use std::sync::Wait;
use turn_cell::{Caller, TurnPass, TurnTable};

/// The cells of a store, which threads share.
pub type StoreTable = TurnTable<StoreCell>;

/// The right to take steps on them, as one runner.
pub type StorePass = TurnPass<StoreCell, CellOp, StoreAnswer>;

/// The backends of a store as one call meets them whose thread takes each step itself. It has the pass until the call is
/// over, and gives it back then.
#[derive(Drop)]
pub struct Direct<'a, R: Wait> {
    rt: &'a R,
    table: &'a StoreTable,
    pass: StorePass,
    backends: u32,
    caller: Caller,
    ghost of: { IsPassOf table.now pass },
    ghost cells: { AreCellsOf backends (table_openings table.now) },
}

impl<'a, R: Wait> Direct<'a, R> {
    /// For a call of that caller. The table's cells are those of a store of so many backends, as `opening_cells` gives them.
    pub fn new(
        rt: &'a R,
        table: &'a StoreTable,
        pass: StorePass,
        backends: u32,
        caller: Caller,
    ) -> Direct<'a, R>
        requires table { IsPassOf table.now pass }
        requires cells { AreCellsOf backends (table_openings table.now) }
        ensures { (result.pass ≡ pass) × (result.caller ≡ caller) × (result.backends ≡ backends)
            × (result.table.now ≡ table.now) }
    {
        Direct {
            rt,
            table,
            pass,
            backends,
            caller,
        }
    }

    pub fn into_pass(self) -> StorePass
        ensures { result ≡ self.entry.pass }
    {
        let Direct { pass, .. } = self;
        pass
    }
}

impl<'a, R: Wait> Backends for Direct<'a, R> {
    ghost use Rattle.std.specs.Prelude.{None};
    ghost use Rattle.memory_backend.specs.StepLaws.{ran_none, ran_on};

    ghost backends = { λ d. d.backends };

    ghost store = { λ _. None };

    ghost ran = { λ a steps b. PassRan a.backends a.caller steps a.pass b.pass
        × (b.backends ≡ a.backends) × (b.caller ≡ a.caller) };

    ghost root = { λ d. d.cells.root };

    ghost ran_none = { λ d. (ran_none d.backends d.caller d.pass, λ i. d.backends, λ i. d.caller) };

    ghost ran_on = { λ a b c s t x y. ran_on a.backends b.backends c.backends a.caller b.caller c.caller s t a.pass b.pass c.pass x y };

    fn step(&mut self, cell: CellId, op: StoreOp) -> Result<StepAnswer, AllocError> {
        let op = CellOp { cell, op };
        let number = cell_of(self.backends, op.cell);
        let caller = self.caller;
        let (_, answer) = self
            .table
            .step(self.rt, &mut self.pass, number, caller, op)?;
        Ok(StepAnswer::Answered(answer))
    }
}
