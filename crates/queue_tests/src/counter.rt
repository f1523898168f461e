//! The counter runs jobs of the target with number 1.

ghost use Rattle.std.specs.Prelude.{[]};

use crate::parts::Counter;
use mailbox::{HeldTail, Ran, Runner};
use post_core::SeenNote;
use proxy_laws::{FateMark, Mark};
use std::alloc::AllocError;

impl Counter {
    /// A counter that has done nothing, with room for so many jobs.
    pub(crate) fn new(limit: u64) -> Counter {
        Counter {
            limit,
            ran: 0,
            cancelled: 0,
            told: 0,
        }
    }
}

impl Runner<u64> for Counter {
    type Tail = ();

    ghost target = { λ r. 1 };

    ghost room = { λ r. 1 };

    ghost held = { λ r. [] };

    ghost suits = { λ t j f. Unit {0} };

    ghost did = { λ a cs b. Unit {0} };

    fn ready(&mut self) -> Result<(), AllocError> {
        if self.ran < self.limit {
            Ok(())
        } else {
            Err(AllocError)
        }
    }

    fn run(&mut self, _job: u64, _mark: Mark, _place: u32, _nth: u64) -> Ran<()> {
        self.ran = self.ran.saturating_add(1);
        Ran::Finished(())
    }

    fn cancel(&mut self, _job: u64, _mark: Mark, _place: u32, _nth: u64) {
        self.cancelled = self.cancelled.saturating_add(1);
    }

    fn next_held(&mut self) -> Option<HeldTail<()>> {
        None
    }

    fn tell(&mut self, _tail: (), _place: u32, _nth: u64, _fate: FateMark, _note: &SeenNote<u64>) {
        self.told = self.told.saturating_add(1);
    }

    ghost did_none = { λ r. tt };

    ghost did_on = { λ a b c xs ys s t. tt };
}
