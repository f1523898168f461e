//! The recorder runs jobs.

ghost use Rattle.std.specs.Prelude.{◌≡◌, ◌-◌, [], ◌∷◌, ◌++◌};
ghost use Rattle.std.specs.VecDeque.{deque_capacity, deque_len};
ghost use Rattle.mailbox_tests.specs.Recorded.{Noting, Recorded, held_jobs, left_suits};
ghost use Rattle.mailbox_tests.specs.Laws.{recorded_none, recorded_on};

use crate::events::{Event, Kept, Left};
use crate::recorder::Recorder;
use mailbox::{HeldTail, Ran, Runner};
use post_core::SeenNote;
use proxy_laws::{FateMark, Mark};
use std::alloc::{AllocError, Global};
use std::collections::VecDeque;

impl Recorder {
    /// A recorder that has done nothing, and holds the jobs with this number.
    pub fn new(alloc: Global, hold: u64) -> Recorder
        ensures { result.kept.items ≡ [] }
    {
        Recorder {
            hold,
            lean: None,
            complete: true,
            log: Vec::new(alloc),
            kept: VecDeque::new(alloc),
        }
    }

    // Keeps an event, if there is room.
    fn note(&mut self, event: Event)
        ensures noted { Noting event self.old self.new }
        ensures same { self.new.kept ≡ self.old.kept }
    {
        if self.log.len() < self.log.capacity() {
            self.log.push_reserved(event);
        } else {
            self.complete = false;
        }
    }
}

impl Runner<u64> for Recorder {
    type Tail = Left;

    ghost target = { λ r. 0 };

    ghost room = { λ r. deque_capacity r.kept - deque_len r.kept };

    ghost held = { held_jobs };

    ghost suits = { left_suits };

    ghost did = { Recorded };

    fn ready(&mut self) -> Result<(), AllocError> {
        match self.lean {
            Some(0) => {
                self.lean = None;
                return Err(AllocError);
            }
            Some(jobs) => self.lean = Some(jobs - 1),
            None => {}
        }
        self.log.reserve(8)?;
        self.kept.reserve(1)
    }

    fn run(&mut self, job: u64, mark: Mark, place: u32, nth: u64) -> Ran<Left> {
        if job == self.hold {
            self.kept.push_back_reserved(Kept {
                job,
                mark,
                place,
                nth,
            });
            self.note(Event::Kept(place, nth));
            return Ran::Held;
        }
        self.note(Event::Ran(place, nth));
        Ran::Finished(Left { place, nth })
    }

    fn cancel(&mut self, _job: u64, _mark: Mark, place: u32, nth: u64) -> Left {
        self.note(Event::Cancelled(place, nth));
        Left { place, nth }
    }

    fn next_held(&mut self) -> Option<HeldTail<Left>> {
        match self.kept.pop_front() {
            Some(kept) => {
                let Kept {
                    job: _,
                    mark: _,
                    place,
                    nth,
                } = kept;
                self.note(Event::GaveUp(place, nth));
                Some(HeldTail {
                    place,
                    nth,
                    tail: Left { place, nth },
                })
            }
            None => {
                self.note(Event::NoneHeld);
                None
            }
        }
    }

    fn tell(&mut self, _tail: Left, place: u32, nth: u64, fate: FateMark, _note: &SeenNote<u64>) {
        self.note(Event::Told(place, nth, fate));
    }

    ghost did_none = { λ r. recorded_none r };

    ghost did_on = { λ a b c xs ys s t. recorded_on a b c xs ys s t };
}
