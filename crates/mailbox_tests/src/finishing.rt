//! A job that was held is finished.

ghost use Rattle.std.specs.Prelude.{◌≡◌};
ghost use Rattle.post_core.specs.SendParts.{post_places, post_target};
ghost use Rattle.mailbox.specs.Boxes.{IsMailboxOf, mailbox_view};
ghost use Rattle.mailbox.specs.Holding.{HoldsActive};
ghost use Rattle.mailbox.specs.Turns.{jobs_in};
ghost use Rattle.mailbox_tests.specs.Recorded.{held_jobs};

use crate::boxes::fresh;
use crate::events::{Event, Kept, Left};
use crate::recorder::Recorder;
use crate::scenes::{Alone, end, one_sender};
use crate::sending::send_each;
use mailbox::{Cancelled, Mailbox};
use post_core::Post;
use proxy_laws::{FateMark, Started};
use std::process::Abort;

/// Finishes the job that was held first.
fn finish_first(
    rt: &impl Abort,
    post: &Post<u64>,
    mailbox: &mut Mailbox<u64>,
    runner: &mut Recorder,
)
    requires target { post_target post.now ≡ 0 }
    requires mailbox { IsMailboxOf post.now mailbox.old }
    requires active { HoldsActive 0 (post_places post.now)
        (jobs_in (mailbox_view mailbox.old)) (held_jobs runner.old) }
    ensures mailbox { IsMailboxOf post.now mailbox.new }
    ensures active { HoldsActive 0 (post_places post.now)
        (jobs_in (mailbox_view mailbox.new)) (held_jobs runner.new) }
{
    let Kept {
        job: _,
        mark: _,
        place,
        nth,
    } = match runner.kept.pop_front() {
        Some(kept) => kept,
        None => panic!(rt; "no job is held"),
    };
    mailbox.finish_held(post, runner, place, nth, Left { place, nth });
}

#[test]
fn a_held_job_is_finished_and_told_later(rt: HostRuntime) {
    let Alone {
        post,
        owner,
        pass,
        place_use,
    } = one_sender(&rt, 1);
    let pass = send_each(&rt, &post, pass, &place_use, &[10, 11]);
    let mut runner = Recorder::new(rt.alloc(), 10);
    let mut mailbox = fresh(&post, owner);
    let notices = mailbox
        .check(&rt, &post, &mut runner)
        .expect(&rt, "memory for jobs");
    assert_eq!(&rt; notices, 1);
    finish_first(&rt, &post, &mut mailbox, &mut runner);
    let (emptied, cancelled) = mailbox.shutdown(&rt, &post, &mut runner);
    assert_eq!(&rt;
        cancelled,
        Cancelled {
            waiting: 0,
            held: 0
        }
    );
    let log = runner.log.as_slice();
    assert_eq!(&rt; log.len(), 5);
    assert_eq!(&rt; log[0], Event::Kept(0, 0));
    assert_eq!(&rt; log[1], Event::Ran(0, 1));
    assert_eq!(&rt; log[2], Event::Told(0, 1, FateMark::Finished));
    assert_eq!(&rt; log[3], Event::Told(0, 0, FateMark::Finished));
    assert_eq!(&rt; log[4], Event::NoneHeld);
    let record = end(&rt, post, emptied, pass, place_use);
    let jobs = &record.places[0].jobs;
    assert_eq!(&rt; jobs.len(), 2);
    for job in jobs {
        assert_eq!(&rt; job.started, Started::Notice(1));
        assert_eq!(&rt; job.fate, FateMark::Finished);
    }
}
