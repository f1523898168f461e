//! Who runs the jobs of a target.

ghost use Rattle.std.specs.Prelude.{◌≡◌, ◌<◌, ℕ, List, [], ◌∷◌, ◌++◌, OnOk};
ghost use Rattle.proxy_laws.specs.declared.records.FateMark.{FateMark};
ghost use Rattle.proxy_laws.specs.declared.records.FateMark.TheVariants.{Cancelled};
ghost use Rattle.mailbox.specs.declared.calls.RunCall.{RunCall};
ghost use Rattle.mailbox.specs.declared.calls.RunCall.TheVariants.{Cancel, NextHeld, Run, Tell};
ghost use Rattle.mailbox.specs.declared.calls.RunJob.{RunJob};
ghost use Rattle.mailbox.specs.Calls.{MayTell, NextSuits, RanSuits, first_off, held_by, run_job};

use post_core::{Meant, SeenNote};
use proxy_laws::{FateMark, Mark};
use std::alloc::AllocError;

/// What a call of `run` did with its job.
#[derive(Drop)]
pub enum Ran<T> {
    Finished(T),
    Held,
}

/// What is left to tell of a held job that is given up.
#[derive(Drop)]
pub struct HeldTail<T> {
    pub place: u32,
    /// The job's number at the place.
    pub nth: u64,
    pub tail: T,
}

/// Runs the jobs of one target, and tells what became of them. It may hold jobs, which are finished later, or given up.
pub trait Runner<J: Meant> {
    /// What is left to tell of a job.
    type Tail;

    // The target's number.
    ghost target: { Self → ℕ };

    // For how many more held jobs there is room.
    ghost room: { Self → ℕ };

    // The held jobs, the oldest first.
    ghost held: { Self → List (RunJob J.Meaning) };

    // Which job a tail is left of, and with which fate.
    ghost suits: { Self.Tail → RunJob J.Meaning → FateMark → Type 0 };

    // These calls, in this order, lead from the one to the other.
    ghost did: { Self → List (RunCall J.Meaning Self.Tail) → Self → Type 0 };

    /// Makes room for one held job.
    fn ready(&mut self) -> Result<(), AllocError>
        ensures target { target self.new ≡ target self.old }
        ensures held { held self.new ≡ held self.old }
        ensures room { OnOk result (0 < room self.new) }
        ensures did { did self.old [] self.new };

    /// Runs a job, or holds it. `nth` is its number at the place.
    fn run(&mut self, job: J, mark: Mark, place: u32, nth: u64) -> Ran<Self::Tail>
        requires suits { J.suits (target self.old) place mark (J.meaning job) }
        requires room { 0 < room self.old }
        ensures target { target self.new ≡ target self.old }
        ensures held { held self.new ≡ held self.old
            ++ held_by (run_job (target self.old) place nth mark (J.meaning job)) result }
        ensures tail { RanSuits suits
            (run_job (target self.old) place nth mark (J.meaning job)) result }
        ensures did { did self.old
            (Run (run_job (target self.old) place nth mark (J.meaning job)) result ∷ [])
            self.new };

    /// Gives up a job that was never run.
    fn cancel(&mut self, job: J, mark: Mark, place: u32, nth: u64) -> Self::Tail
        requires suits { J.suits (target self.old) place mark (J.meaning job) }
        ensures target { target self.new ≡ target self.old }
        ensures held { held self.new ≡ held self.old }
        ensures tail { suits result
            (run_job (target self.old) place nth mark (J.meaning job)) Cancelled }
        ensures did { did self.old
            (Cancel (run_job (target self.old) place nth mark (J.meaning job)) result ∷ [])
            self.new };

    /// Gives up the oldest held job, if there is one.
    fn next_held(&mut self) -> Option<HeldTail<Self::Tail>>
        ensures target { target self.new ≡ target self.old }
        ensures held { held self.new ≡ first_off (held self.old) }
        ensures tail { NextSuits suits (held self.old) result }
        ensures did { did self.old (NextHeld result ∷ []) self.new };

    /// Tells what became of a job that is settled, as the note has seen.
    fn tell(&mut self, tail: Self::Tail, place: u32, nth: u64, fate: FateMark, note: &SeenNote<J>)
        requires { MayTell suits (target self.old) place nth tail fate note.now }
        ensures target { target self.new ≡ target self.old }
        ensures held { held self.new ≡ held self.old }
        ensures did { did self.old (Tell tail place nth fate ∷ []) self.new };

    ghost did_none: { (r : Self) → did r [] r };

    ghost did_on: { (a b c : Self) (xs ys : List (RunCall J.Meaning Self.Tail))
        → did a xs b → did b ys c → did a (xs ++ ys) c };
}
