//! A cell that counts.

ghost use Rattle.cell_tests.specs.Counting.{counter_after, counter_reply};

use std::alloc::AllocError;
use turn_cell::{CellRecord, CellState, Pair, TurnPass, TurnTable};

/// An amount for which a counter answers want of memory.
pub const REFUSED: u64 = 0;

/// An amount is added, and the sum is answered. It wraps at 2^64.
#[derive(Drop)]
pub struct Counter {
    pub count: u64,
}

impl CellState for Counter {
    type Op = u64;

    type Answer = u64;

    type Kind = ();

    ghost after = { counter_after };

    ghost reply = { counter_reply };

    ghost kind = { λ counter. tt };

    ghost takes = { λ kind amount. Unit {0} };

    ghost allows = { λ kind amount answer. Unit {0} };

    fn step(&mut self, op: &u64) -> Result<Pair<u64>, AllocError> {
        if *op == REFUSED {
            return Err(AllocError);
        }
        self.count = self.count.wrapping_add(*op);
        Ok(Pair {
            given: self.count,
            kept: self.count,
        })
    }
}

pub type CounterTable = TurnTable<Counter>;

pub type CounterPass = TurnPass<Counter, u64, u64>;

pub type CounterRecord = CellRecord<Counter, u64, u64>;
