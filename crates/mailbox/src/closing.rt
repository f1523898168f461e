//! A target closes: what waits is cancelled, and then what its runner holds.

ghost use Rattle.std.specs.Prelude.{◌≡◌, ℕ};
ghost use Rattle.post_core.specs.ClosingParts.{HasEmptied};
ghost use Rattle.post_core.specs.ClosingViews.{IsClosedOf, IsClosingOf, closed_view, closing_view};
ghost use Rattle.post_core.specs.Kept.{listed};
ghost use Rattle.post_core.specs.OwnerViews.{IsEmptiedOf, emptied_view};
ghost use Rattle.post_core.specs.Records.{AreSettled};
ghost use Rattle.post_core.specs.SendParts.{post_places, post_target};
ghost use Rattle.mailbox.specs.Boxes.{IsAtOf, IsMailboxOf, at_view, mailbox_view};
ghost use Rattle.mailbox.specs.Deeds.{Cancels, WasDone};
ghost use Rattle.mailbox.specs.Holding.{HoldsActive};
ghost use Rattle.mailbox.specs.Shut.{IsCancelling, IsGivingUp, WasGivenUp, WasShut, counted_long};
ghost use Rattle.mailbox.specs.Turns.{jobs_in};

use crate::owner_at::{At, Mailbox};
use crate::runner::{HeldTail, Runner};
use post_core::{CancelNext, Closed, Closing, ClosingLook, Emptied, Meant, Post};
use proxy_laws::FateMark;
use std::sync::Wait;

/// How many jobs a shutdown cancelled, 2^64 - 1 each at most.
#[derive(Clone, Copy, Debug, PartialEq, Eq)]
pub struct Cancelled {
    /// Those that waited.
    pub waiting: u64,
    /// Those that the runner held.
    pub held: u64,
}

// Begins to close.
fn begin<J: Meant>(post: &Post<J>, at: At<J>) -> Closing<J>
    requires { IsAtOf post.now at }
    ensures { IsClosingOf post.now result × (jobs_in (closing_view result) ≡ jobs_in (at_view at)) }
{
    match at {
        At::Rest(owner) => owner.begin_close(post),
        At::Work(exec) => exec.begin_close(post),
    }
}

// Parks until no reference is left: the sender that gives the last one back wakes the owner.
fn wait_closed<W: Wait, J: Meant>(rt: &W, post: &Post<J>, mut closing: Closing<J>) -> Closed<J>
    requires { IsClosingOf post.now closing }
    ensures { IsClosedOf post.now result
        × (jobs_in (closed_view result) ≡ jobs_in (closing_view closing)) }
{
    for _ in rt.forever() {
        match closing.look(post) {
            ClosingLook::Closed(closed) => return closed,
            ClosingLook::Referenced {
                closing: same,
                count: _,
            } => closing = same.park(rt, post),
        }
    }
    unreachable!()
}

/// What comes of one job of a closed owner.
pub enum Cancelling<J: Meant> {
    /// A job that waited was cancelled and told.
    Job(Closed<J>),
    /// None waits.
    Done(Emptied<J>),
}

// Cancels the next job that waits, and tells it.
fn cancel_one<W: Wait, J: Meant, R: Runner<J>>(
    rt: &W,
    post: &Post<J>,
    closed: Closed<J>,
    runner: &mut R,
) -> Cancelling<J>
    requires closed { IsClosedOf post.now closed }
    requires target { R.target runner.old ≡ post_target post.now }
    ensures target { R.target runner.new ≡ R.target runner.old }
    ensures cancelled { IsCancelling R.did R.held (post_target post.now) post.now
        runner.old runner.new (closed_view closed) result }
{
    match closed.cancel_next(rt, post) {
        CancelNext::Job {
            closed,
            place,
            nth,
            mark,
            job,
            note,
        } => {
            let tail = runner.cancel(job, mark, place, nth);
            runner.tell(tail, place, nth, FateMark::Cancelled, &note);
            Cancelling::Job(closed)
        }
        CancelNext::Done(emptied) => Cancelling::Done(emptied),
    }
}

// Cancels each job that waits, and tells it. Answers how many.
fn cancel_waiting<W: Wait, J: Meant, R: Runner<J>>(
    rt: &W,
    post: &Post<J>,
    mut closed: Closed<J>,
    runner: &mut R,
) -> (Emptied<J>, u64)
    requires closed { IsClosedOf post.now closed }
    requires target { R.target runner.old ≡ post_target post.now }
    ensures target { R.target runner.new ≡ R.target runner.old }
    ensures emptied { IsEmptiedOf post.now result.0 × HasEmptied (emptied_view result.0) }
    ensures cancelled { (n : ℕ) × (result.1 ≡ counted_long n) × WasDone R.did Cancels
        (post_target post.now) n runner.old runner.new (jobs_in (closed_view closed))
        (jobs_in (emptied_view result.0)) (R.held runner.old) (R.held runner.new) }
{
    let mut waiting: u64 = 0;
    for _ in rt.forever() {
        match cancel_one(rt, post, closed, runner) {
            Cancelling::Job(same) => {
                closed = same;
                waiting = waiting.saturating_add(1);
            }
            Cancelling::Done(emptied) => return (emptied, waiting),
        }
    }
    unreachable!()
}

// Gives up the oldest job that the runner holds, if there is one, and tells it.
fn give_up_one<J: Meant, R: Runner<J>>(
    post: &Post<J>,
    emptied: &mut Emptied<J>,
    runner: &mut R,
) -> bool
    requires emptied { IsEmptiedOf post.now emptied.old × HasEmptied (emptied_view emptied.old) }
    requires target { R.target runner.old ≡ post_target post.now }
    requires active { HoldsActive (post_target post.now) (post_places post.now)
        (jobs_in (emptied_view emptied.old)) (R.held runner.old) }
    ensures emptied { IsEmptiedOf post.now emptied.new × HasEmptied (emptied_view emptied.new) }
    ensures target { R.target runner.new ≡ R.target runner.old }
    ensures active { HoldsActive (post_target post.now) (post_places post.now)
        (jobs_in (emptied_view emptied.new)) (R.held runner.new) }
    ensures given { IsGivingUp R.did R.held (post_target post.now) runner.old runner.new
        (jobs_in (emptied_view emptied.old)) (jobs_in (emptied_view emptied.new)) result }
{
    match runner.next_held() {
        Some(HeldTail { place, nth, tail }) => {
            let note = emptied.settle(post, place, nth, FateMark::Cancelled);
            runner.tell(tail, place, nth, FateMark::Cancelled, &note);
            true
        }
        None => false,
    }
}

// Gives up each job that the runner holds, and tells it. Answers how many.
fn give_up_held<W: Wait, J: Meant, R: Runner<J>>(
    rt: &W,
    post: &Post<J>,
    emptied: &mut Emptied<J>,
    runner: &mut R,
) -> u64
    requires emptied { IsEmptiedOf post.now emptied.old × HasEmptied (emptied_view emptied.old) }
    requires target { R.target runner.old ≡ post_target post.now }
    requires active { HoldsActive (post_target post.now) (post_places post.now)
        (jobs_in (emptied_view emptied.old)) (R.held runner.old) }
    ensures emptied { IsEmptiedOf post.now emptied.new × HasEmptied (emptied_view emptied.new) }
    ensures target { R.target runner.new ≡ R.target runner.old }
    ensures given { (n : ℕ) × (result ≡ counted_long n) × WasGivenUp R.did R.held
        (post_target post.now) n runner.old runner.new
        (jobs_in (emptied_view emptied.old)) (jobs_in (emptied_view emptied.new)) }
    ensures settled { (p : ℕ) → AreSettled (listed (jobs_in (emptied_view emptied.new)) p) }
{
    let mut held: u64 = 0;
    for _ in rt.forever() {
        if !give_up_one(post, emptied, runner) {
            return held;
        }
        held = held.saturating_add(1);
    }
    unreachable!()
}

impl<J: Meant> Mailbox<J> {
    /// Closes the target: gives the owner's reference back, waits until no reference is left, cancels each job that waits,
    /// and then each job that the runner holds. Each is settled as cancelled, and then told. It waits for others' references
    /// and for the turns of places, and takes no memory.
    pub fn shutdown<W: Wait, R: Runner<J>>(
        self,
        rt: &W,
        post: &Post<J>,
        runner: &mut R,
    ) -> (Emptied<J>, Cancelled)
        requires mailbox { IsMailboxOf post.now self }
        requires target { R.target runner.old ≡ post_target post.now }

        // The runner holds just the jobs that are active.
        requires active { HoldsActive (post_target post.now) (post_places post.now)
            (jobs_in (mailbox_view self)) (R.held runner.old) }
        ensures target { R.target runner.new ≡ R.target runner.old }

        // Nothing waits at any place.
        ensures emptied { IsEmptiedOf post.now result.0 × HasEmptied (emptied_view result.0) }

        // What the runner was called for, and which jobs were cancelled.
        ensures shut { (n m : ℕ) × (result.1.waiting ≡ counted_long n)
            × (result.1.held ≡ counted_long m)
            × WasShut R.did R.held (post_target post.now) n m runner.old runner.new
            (jobs_in (mailbox_view self)) (jobs_in (emptied_view result.0)) }

        // Each job that was taken is settled.
        ensures settled { (p : ℕ) → AreSettled (listed (jobs_in (emptied_view result.0)) p) }
    {
        let Mailbox { at } = self;
        let Some(at) = at else { unreachable!() };
        let closed = wait_closed(rt, post, begin(post, at));
        let (mut emptied, waiting) = cancel_waiting(rt, post, closed, runner);
        let held = give_up_held(rt, post, &mut emptied, runner);
        (emptied, Cancelled { waiting, held })
    }
}
