//! The owner's calls, each of which is its mailbox's.

ghost use Rattle.std.specs.Prelude.{◌≡◌, ◌∷◌, ℕ, IfErr, IfOk, [], false, true};
ghost use Rattle.proxy_laws.specs.declared.records.FateMark.TheVariants.{Finished};
ghost use Rattle.proxy_laws.specs.declared.records.Started.TheVariants.{Direct};
ghost use Rattle.post_core.specs.ClosingParts.{HasEmptied};
ghost use Rattle.post_core.specs.Kept.{listed};
ghost use Rattle.post_core.specs.OwnerViews.{IsEmptiedOf, emptied_view};
ghost use Rattle.post_core.specs.Records.{AreSettled};
ghost use Rattle.post_core.specs.SendParts.{HasPlace, post_places, post_target, use_place};
ghost use Rattle.post_core.specs.Views.{job_settled, owner_of};
ghost use Rattle.mailbox.specs.declared.calls.RunCall.TheVariants.{Tell};
ghost use Rattle.mailbox.specs.Boxes.{IsMailboxOf, is_unfinished, mailbox_view};
ghost use Rattle.mailbox.specs.CheckedBoxes.{HasChecked};
ghost use Rattle.mailbox.specs.Deeds.{MayFinish};
ghost use Rattle.mailbox.specs.Holding.{HoldsActive};
ghost use Rattle.mailbox.specs.Shut.{WasShut, counted_long};
ghost use Rattle.mailbox.specs.Turns.{WereRun, counted, jobs_in};
ghost use Rattle.proxy_queue.specs.Sets.{set_post};

use crate::queue_set::QueueSet;
use mailbox::{Cancelled, Mailbox, Runner};
use post_core::{Emptied, Meant, PlaceUse};
use std::alloc::AllocError;
use std::sync::Wait;

impl<J: Meant> QueueSet<J> {
    /// Serves notices until none is found, as `Mailbox::check` does, and answers how many were got, 4,294,967,295 at most.
    /// It waits for the turn of a place.
    pub fn check<W: Wait, R: Runner<J>>(
        &self,
        rt: &W,
        mailbox: &mut Mailbox<J>,
        runner: &mut R,
    ) -> Result<u32, AllocError>
        requires mailbox { IsMailboxOf (set_post self.now) mailbox.old }
        requires target { R.target runner.old ≡ post_target (set_post self.now) }
        ensures { HasChecked R.target R.did R.held (set_post self.now)
            mailbox.old mailbox.new runner.old runner.new result }
    {
        mailbox.check(rt, &self.post, runner)
    }

    /// Parks until somebody wakes the owner, or for no reason, unless an execution was left unfinished; and then checks.
    pub fn wait_check<W: Wait, R: Runner<J>>(
        &self,
        rt: &W,
        mailbox: &mut Mailbox<J>,
        runner: &mut R,
    ) -> Result<u32, AllocError>
        requires mailbox { IsMailboxOf (set_post self.now) mailbox.old }
        requires target { R.target runner.old ≡ post_target (set_post self.now) }
        ensures { HasChecked R.target R.did R.held (set_post self.now)
            mailbox.old mailbox.new runner.old runner.new result }
    {
        mailbox.wait_check(rt, &self.post, runner)
    }

    /// Runs the jobs of a queue until none waits, without a notice, and answers how many, 4,294,967,295 at most. Where
    /// memory is wanting, the place stays in execution. It waits for the turn of the place.
    pub fn execute<W: Wait, R: Runner<J>>(
        &self,
        rt: &W,
        mailbox: &mut Mailbox<J>,
        place_use: &PlaceUse<J>,
        runner: &mut R,
    ) -> Result<u32, AllocError>
        requires mailbox { IsMailboxOf (set_post self.now) mailbox.old
            × (is_unfinished mailbox.old ≡ false) }
        requires near { HasPlace (set_post self.now) (use_place place_use.now) }
        requires target { R.target runner.old ≡ post_target (set_post self.now) }
        ensures target { R.target runner.new ≡ R.target runner.old }
        ensures mailbox { IsMailboxOf (set_post self.now) mailbox.new }

        // No notice was got.
        ensures got { (owner_of (mailbox_view mailbox.new)).got
            ≡ (owner_of (mailbox_view mailbox.old)).got }

        // Each job that was run started directly; after Ok they are as many as is answered.
        ensures ran { (n : ℕ) × WereRun R.did R.held (post_target (set_post self.now))
            (λ s. s ≡ Direct) n runner.old runner.new
            (mailbox_view mailbox.old) (mailbox_view mailbox.new)
            × IfOk result (λ count. count ≡ counted n) }
        ensures held { HoldsActive
            (post_target (set_post self.now)) (post_places (set_post self.now))
            (jobs_in (mailbox_view mailbox.old)) (R.held runner.old)
            → HoldsActive (post_target (set_post self.now)) (post_places (set_post self.now))
            (jobs_in (mailbox_view mailbox.new)) (R.held runner.new) }
        ensures ok { IfOk result (λ count. is_unfinished mailbox.new ≡ false) }
        ensures err { IfErr result (λ e. is_unfinished mailbox.new ≡ true) }
    {
        mailbox.execute(rt, &self.post, place_use, runner)
    }

    /// Settles a job that was held as finished, and then tells it. `nth` is its number at the place.
    pub fn finish_held<R: Runner<J>>(
        &self,
        mailbox: &mut Mailbox<J>,
        runner: &mut R,
        place: u32,
        nth: u64,
        tail: R::Tail,
    )
        requires mailbox { IsMailboxOf (set_post self.now) mailbox.old }
        requires near { HasPlace (set_post self.now) place }
        requires target { R.target runner.old ≡ post_target (set_post self.now) }
        requires job { MayFinish R.suits (post_target (set_post self.now))
            (jobs_in (mailbox_view mailbox.old)) place nth tail }
        ensures target { R.target runner.new ≡ R.target runner.old }
        ensures mailbox { IsMailboxOf (set_post self.now) mailbox.new
            × (is_unfinished mailbox.new ≡ is_unfinished mailbox.old) }
        ensures held { R.held runner.new ≡ R.held runner.old }
        ensures settled { mailbox_view mailbox.new
            ≡ job_settled place nth Finished (mailbox_view mailbox.old) }
        ensures told { R.did runner.old (Tell tail place nth Finished ∷ []) runner.new }
    {
        mailbox.finish_held(&self.post, runner, place, nth, tail);
    }

    /// Closes the target, as `Mailbox::shutdown` does: each job that waits is cancelled, and then each that the runner
    /// holds. It waits for others' references and for the turns of places, and takes no memory.
    pub fn shutdown<W: Wait, R: Runner<J>>(
        &self,
        rt: &W,
        mailbox: Mailbox<J>,
        runner: &mut R,
    ) -> (Emptied<J>, Cancelled)
        requires mailbox { IsMailboxOf (set_post self.now) mailbox }
        requires target { R.target runner.old ≡ post_target (set_post self.now) }

        // The runner holds just the jobs that are active.
        requires active { HoldsActive
            (post_target (set_post self.now)) (post_places (set_post self.now))
            (jobs_in (mailbox_view mailbox)) (R.held runner.old) }
        ensures target { R.target runner.new ≡ R.target runner.old }

        // Nothing waits at any place.
        ensures emptied { IsEmptiedOf (set_post self.now) result.0
            × HasEmptied (emptied_view result.0) }

        // What the runner was called for, and which jobs were cancelled.
        ensures shut { (n m : ℕ) × (result.1.waiting ≡ counted_long n)
            × (result.1.held ≡ counted_long m)
            × WasShut R.did R.held (post_target (set_post self.now)) n m runner.old runner.new
            (jobs_in (mailbox_view mailbox)) (jobs_in (emptied_view result.0)) }

        // Each job that was taken is settled.
        ensures settled { (p : ℕ) → AreSettled (listed (jobs_in (emptied_view result.0)) p) }
    {
        mailbox.shutdown(rt, &self.post, runner)
    }
}
