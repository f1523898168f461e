//! What a target's record says once its mailbox was shut down.

use crate::boxes::{check_again, fresh};
use crate::events::Event;
use crate::recorder::Recorder;
use crate::scenes::{Alone, end, one_sender};
use crate::sending::send_each;
use mailbox::Cancelled;
use proxy_laws::{FateMark, Mark, Started};

/// The mark of the only sender's job with this number, whose tag is ten more.
fn mark_of(nth: u64) -> Mark {
    Mark {
        sender: 0,
        seq: nth,
        tag: nth.wrapping_add(10),
    }
}

#[test]
fn a_held_job_is_cancelled_after_those_that_wait(rt: HostRuntime) {
    let Alone {
        post,
        owner,
        pass,
        place_use,
    } = one_sender(&rt, 1);
    let pass = send_each(&rt, &post, pass, &place_use, &[10, 11, 12, 13]);
    let mut runner = Recorder::new(rt.alloc(), 10);
    let mut mailbox = fresh(&post, owner);
    let (notices, again) = check_again(&rt, &post, &mut mailbox, &mut runner);
    assert_eq!(&rt; notices, if again { 0 } else { 1 });
    let pass = send_each(&rt, &post, pass, &place_use, &[14, 15]);
    let (emptied, cancelled) = mailbox.shutdown(&rt, &post, &mut runner);
    assert_eq!(&rt;
        cancelled,
        Cancelled {
            waiting: 2,
            held: 1
        }
    );
    let record = end(&rt, post, emptied, pass, place_use);
    let jobs = &record.places[0].jobs;
    assert_eq!(&rt; jobs.len(), 6);
    for (nth, job) in jobs.iter().enumerate() {
        let finished = nth > 0 && nth < 4;
        let started = if nth < 4 {
            Started::Notice(1)
        } else {
            Started::Closing
        };
        assert_eq!(&rt; job.fate == FateMark::Finished, finished);
        assert_eq!(&rt; job.started, started);
        assert_eq!(&rt; job.mark, mark_of(nth as u64));
    }
    assert!(&rt; runner.complete, "room for each event");
    let log = runner.log.as_slice();
    assert_eq!(&rt; log.len(), 14);
    assert_eq!(&rt; log[0], Event::Kept(0, 0));
    assert_eq!(&rt; log[6], Event::Told(0, 3, FateMark::Finished));
    assert_eq!(&rt; log[10], Event::Told(0, 5, FateMark::Cancelled));
    assert_eq!(&rt; log[12], Event::Told(0, 0, FateMark::Cancelled));
    assert_eq!(&rt; log[13], Event::NoneHeld);
}
