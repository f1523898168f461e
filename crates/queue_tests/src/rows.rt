//! One sender of one target, in one thread.

use crate::parts::Counter;
use crate::scenes::{OneSender, end, one_sender, only, target};
use crate::sending::{Sent, send, try_send};
use mailbox::Cancelled;
use proxy_laws::{FateMark, Started};
use proxy_queue::QueueSet;

#[test]
fn a_closed_target_hands_jobs_back(rt: HostRuntime) {
    let OneSender {
        set,
        mailbox,
        pass,
        place_use,
    } = one_sender(&rt, 1);
    let mut counter = Counter::new(8);
    let (pass, sent) = send(&rt, &set, pass, &place_use, 10);
    assert_eq!(&rt; sent, Sent::Accepted(0));
    let (emptied, cancelled) = set.shutdown(&rt, mailbox, &mut counter);
    assert_eq!(&rt;
        cancelled,
        Cancelled {
            waiting: 1,
            held: 0
        }
    );
    let (pass, sent) = send(&rt, &set, pass, &place_use, 11);
    assert_eq!(&rt; sent, Sent::Closed(11));
    let record = end(&rt, set, emptied, only(&rt, pass), only(&rt, place_use));
    assert_eq!(&rt; record.places[0].jobs.len(), 1);
}

#[test]
fn a_send_that_does_not_wait_is_taken_until_the_target_closes(rt: HostRuntime) {
    let OneSender {
        set,
        mailbox,
        pass,
        place_use,
    } = one_sender(&rt, 1);
    let mut counter = Counter::new(8);
    let (pass, sent, count) = try_send(&set, pass, &place_use, 10, 0);
    assert_eq!(&rt; sent, Sent::Accepted(0));
    let (pass, sent, count) = try_send(&set, pass, &place_use, 11, count);
    assert_eq!(&rt; sent, Sent::Accepted(1));
    let (emptied, cancelled) = set.shutdown(&rt, mailbox, &mut counter);
    assert_eq!(&rt;
        cancelled,
        Cancelled {
            waiting: 2,
            held: 0
        }
    );
    let (pass, sent, _count) = try_send(&set, pass, &place_use, 12, count);
    assert_eq!(&rt; sent, Sent::Closed(12));
    let record = end(&rt, set, emptied, only(&rt, pass), only(&rt, place_use));
    let jobs = &record.places[0].jobs;
    assert_eq!(&rt; jobs.len(), 2);
    for job in jobs {
        assert_eq!(&rt; job.started, Started::Closing);
        assert_eq!(&rt; job.fate, FateMark::Cancelled);
    }
}

#[test]
fn an_execution_leaves_the_notice(rt: HostRuntime) {
    let OneSender {
        set,
        mut mailbox,
        pass,
        place_use,
    } = one_sender(&rt, 1);
    let mut counter = Counter::new(8);
    let (pass, _sent) = send(&rt, &set, pass, &place_use, 10);
    let jobs = set.execute(&rt, &mut mailbox, &place_use, &mut counter);
    assert_eq!(&rt; jobs.expect(&rt, "memory for jobs"), 1);
    let notices = set.check(&rt, &mut mailbox, &mut counter);
    assert_eq!(&rt; notices.expect(&rt, "memory for jobs"), 1);
    assert_eq!(&rt; counter.ran, 1);
    assert_eq!(&rt; counter.told, 1);
    let (emptied, _cancelled) = set.shutdown(&rt, mailbox, &mut counter);
    let record = end(&rt, set, emptied, only(&rt, pass), only(&rt, place_use));
    let jobs = &record.places[0].jobs;
    assert_eq!(&rt; jobs.len(), 1);
    for job in jobs {
        assert_eq!(&rt; job.started, Started::Direct);
    }
}

#[test]
fn queues_that_nobody_used_are_ended(rt: HostRuntime) {
    QueueSet::unmake(target(&rt, 2, 3));
}
