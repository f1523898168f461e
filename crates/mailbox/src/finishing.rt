//! A job that was held is finished.

ghost use Rattle.std.specs.Prelude.{◌≡◌, ◌∷◌, []};
ghost use Rattle.proxy_laws.specs.declared.records.FateMark.TheVariants.{Finished};
ghost use Rattle.post_core.specs.Kept.{listed};
ghost use Rattle.post_core.specs.SendParts.{HasPlace, note_view, post_target};
ghost use Rattle.post_core.specs.Steps.{IsActiveHere};
ghost use Rattle.post_core.specs.Views.{job_settled, noted};
ghost use Rattle.mailbox.specs.declared.calls.RunCall.TheVariants.{Tell};
ghost use Rattle.mailbox.specs.Boxes.{IsAtOf, IsMailboxOf, at_view, is_at_work, is_unfinished, mailbox_view};
ghost use Rattle.mailbox.specs.Deeds.{MayFinish};
ghost use Rattle.mailbox.specs.Turns.{jobs_in};

use crate::mailbox::{put_back, take_out};
use crate::owner_at::{At, Mailbox};
use crate::runner::Runner;
use post_core::{Meant, Post, SeenNote};
use proxy_laws::FateMark;

// Settles a job as finished, and makes a note that has seen that.
fn settle_at<J: Meant>(post: &Post<J>, at: At<J>, place: u32, nth: u64) -> (At<J>, SeenNote<J>)
    requires at { IsAtOf post.now at }
    requires near { HasPlace post.now place }
    requires active { IsActiveHere (listed (jobs_in (at_view at)) place) nth }
    ensures at { IsAtOf post.now result.0 × (is_at_work result.0 ≡ is_at_work at) }
    ensures view { at_view result.0 ≡ job_settled place nth Finished (at_view at) }
    ensures note { note_view result.1 ≡ noted (at_view result.0) }
{
    match at {
        At::Rest(mut owner) => {
            let note = owner.settle(post, place, nth, FateMark::Finished);
            (At::Rest(owner), note)
        }
        At::Work(mut exec) => {
            let note = exec.settle(post, place, nth, FateMark::Finished);
            (At::Work(exec), note)
        }
    }
}

impl<J: Meant> Mailbox<J> {
    /// Settles a job that was held as finished, and then tells it. `nth` is its number at the place.
    pub fn finish_held<R: Runner<J>>(
        &mut self,
        post: &Post<J>,
        runner: &mut R,
        place: u32,
        nth: u64,
        tail: R::Tail,
    )
        requires mailbox { IsMailboxOf post.now self.old }
        requires near { HasPlace post.now place }
        requires target { R.target runner.old ≡ post_target post.now }
        requires job { MayFinish R.suits (post_target post.now) (jobs_in (mailbox_view self.old))
            place nth tail }
        ensures target { R.target runner.new ≡ R.target runner.old }
        ensures mailbox { IsMailboxOf post.now self.new
            × (is_unfinished self.new ≡ is_unfinished self.old) }
        ensures held { R.held runner.new ≡ R.held runner.old }
        ensures settled { mailbox_view self.new
            ≡ job_settled place nth Finished (mailbox_view self.old) }
        ensures told { R.did runner.old (Tell tail place nth Finished ∷ []) runner.new }
    {
        let at = take_out(&mut self.at);
        let (at, note) = settle_at(post, at, place, nth);
        put_back(&mut self.at, at);
        runner.tell(tail, place, nth, FateMark::Finished, &note);
    }
}
