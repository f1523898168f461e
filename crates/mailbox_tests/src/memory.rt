//! Memory is wanting while a place is executed.

use crate::boxes::fresh;
use crate::recorder::Recorder;
use crate::scenes::{Alone, end, one_sender};
use crate::sending::send_each;
use mailbox::Cancelled;
use proxy_laws::{FateMark, Started};

#[test]
fn the_next_check_goes_on(rt: HostRuntime) {
    let Alone {
        post,
        owner,
        pass,
        place_use,
    } = one_sender(&rt, 1);
    let pass = send_each(&rt, &post, pass, &place_use, &[10, 11, 12, 13]);
    let mut runner = Recorder::new(rt.alloc(), 0);
    runner.lean = Some(2);
    let mut mailbox = fresh(&post, owner);
    assert!(&rt; mailbox.check(&rt, &post, &mut runner).is_err());
    assert!(&rt; mailbox.unfinished());
    assert_eq!(&rt; runner.log.len(), 4);
    let notices = mailbox
        .check(&rt, &post, &mut runner)
        .expect(&rt, "memory for jobs");
    assert_eq!(&rt; notices, 0);
    assert!(&rt; !mailbox.unfinished());
    assert_eq!(&rt; runner.log.len(), 8);
    let (emptied, cancelled) = mailbox.shutdown(&rt, &post, &mut runner);
    assert_eq!(&rt;
        cancelled,
        Cancelled {
            waiting: 0,
            held: 0
        }
    );
    let record = end(&rt, post, emptied, pass, place_use);
    let jobs = &record.places[0].jobs;
    assert_eq!(&rt; jobs.len(), 4);
    for job in jobs {
        assert_eq!(&rt; job.started, Started::Notice(1));
        assert_eq!(&rt; job.fate, FateMark::Finished);
    }
}

#[test]
fn a_shutdown_cancels_what_an_execution_left(rt: HostRuntime) {
    let Alone {
        post,
        owner,
        pass,
        place_use,
    } = one_sender(&rt, 1);
    let pass = send_each(&rt, &post, pass, &place_use, &[10, 11, 12, 13]);
    let mut runner = Recorder::new(rt.alloc(), 10);
    runner.lean = Some(2);
    let mut mailbox = fresh(&post, owner);
    assert!(&rt; mailbox.check(&rt, &post, &mut runner).is_err());
    let (emptied, cancelled) = mailbox.shutdown(&rt, &post, &mut runner);
    assert_eq!(&rt;
        cancelled,
        Cancelled {
            waiting: 2,
            held: 1
        }
    );
    let record = end(&rt, post, emptied, pass, place_use);
    let jobs = &record.places[0].jobs;
    assert_eq!(&rt; jobs.len(), 4);
    for (nth, job) in jobs.iter().enumerate() {
        assert_eq!(&rt; job.fate == FateMark::Finished, nth == 1);
        assert_eq!(&rt; job.started == Started::Closing, nth > 1);
    }
}

/// What was left unfinished needs no notice, so an owner that would park goes on with it.
#[test]
fn a_check_that_would_park_goes_on(rt: HostRuntime) {
    let Alone {
        post,
        owner,
        pass,
        place_use,
    } = one_sender(&rt, 1);
    let pass = send_each(&rt, &post, pass, &place_use, &[10, 11, 12]);
    let mut runner = Recorder::new(rt.alloc(), 0);
    runner.lean = Some(1);
    let mut mailbox = fresh(&post, owner);
    assert!(&rt; mailbox.check(&rt, &post, &mut runner).is_err());
    let notices = mailbox
        .wait_check(&rt, &post, &mut runner)
        .expect(&rt, "memory for jobs");
    assert_eq!(&rt; notices, 0);
    assert_eq!(&rt; runner.log.len(), 6);
    let (emptied, _cancelled) = mailbox.shutdown(&rt, &post, &mut runner);
    let record = end(&rt, post, emptied, pass, place_use);
    assert_eq!(&rt; record.places[0].jobs.len(), 3);
}
