//! Mailboxes as the tests begin with them, check them, and take them apart.

ghost use Rattle.std.specs.Prelude.{◌≡◌, [], false, replicate};
ghost use Rattle.post_core.specs.OwnerViews.{IsOwnerOf, owner_view};
ghost use Rattle.post_core.specs.SendParts.{post_places, post_target};
ghost use Rattle.mailbox.specs.Boxes.{IsMailboxOf, is_unfinished, mailbox_view};
ghost use Rattle.mailbox.specs.Holding.{HoldsActive};
ghost use Rattle.mailbox.specs.Turns.{jobs_in};
ghost use Rattle.mailbox_tests.specs.Recorded.{held_jobs};

use crate::recorder::Recorder;
use mailbox::Mailbox;
use post_core::{Owner, Post};
use std::process::Abort;
use std::sync::Wait;

/// The mailbox of an owner that has taken no job.
pub(crate) fn fresh(_post: &Post<u64>, owner: Owner<u64>) -> Mailbox<u64>
    requires owner { IsOwnerOf _post.now owner }
    requires jobs { jobs_in (owner_view owner) ≡ replicate (post_places _post.now) [] }
    ensures mailbox { IsMailboxOf _post.now result × (is_unfinished result ≡ false) }
    ensures active { HoldsActive (post_target _post.now) (post_places _post.now)
        (jobs_in (mailbox_view result)) [] }
{
    Mailbox::new(owner)
}

/// Checks, and does so again where memory was wanting. Answers how many notices the last check got, and whether it was the
/// second.
pub(crate) fn check_again<R: Abort + Wait>(
    rt: &R,
    post: &Post<u64>,
    mailbox: &mut Mailbox<u64>,
    runner: &mut Recorder,
) -> (u32, bool)
    requires target { post_target post.now ≡ 0 }
    requires mailbox { IsMailboxOf post.now mailbox.old }
    requires active { HoldsActive 0 (post_places post.now)
        (jobs_in (mailbox_view mailbox.old)) (held_jobs runner.old) }
    ensures mailbox { IsMailboxOf post.now mailbox.new }
    ensures active { HoldsActive 0 (post_places post.now)
        (jobs_in (mailbox_view mailbox.new)) (held_jobs runner.new) }
{
    match mailbox.check(rt, post, runner) {
        Ok(notices) => (notices, false),
        Err(_) => {
            assert!(rt; mailbox.unfinished());
            let notices = mailbox.check(rt, post, runner);
            (notices.expect(rt, "memory for jobs"), true)
        }
    }
}

/// The same mailbox, made anew of its owner.
pub(crate) fn made_anew(_post: &Post<u64>, mailbox: Mailbox<u64>) -> Mailbox<u64>
    requires mailbox { IsMailboxOf _post.now mailbox × (is_unfinished mailbox ≡ false) }
    ensures mailbox { IsMailboxOf _post.now result × (is_unfinished result ≡ false) }
    ensures view { mailbox_view result ≡ mailbox_view mailbox }
{
    Mailbox::new(mailbox.into_owner())
}
