//! A place is executed without a notice.

use crate::boxes::{fresh, made_anew};
use crate::events::Event;
use crate::recorder::Recorder;
use crate::scenes::{Alone, end, one_sender};
use crate::sending::send_each;
use mailbox::Cancelled;
use proxy_laws::{FateMark, Started};

#[test]
fn an_execution_leaves_the_notice(rt: HostRuntime) {
    let Alone {
        post,
        owner,
        pass,
        place_use,
    } = one_sender(&rt, 1);
    let pass = send_each(&rt, &post, pass, &place_use, &[10, 11]);
    let mut runner = Recorder::new(rt.alloc(), 0);
    let mut mailbox = fresh(&post, owner);
    let jobs = mailbox
        .execute(&rt, &post, &place_use, &mut runner)
        .expect(&rt, "memory for jobs");
    assert_eq!(&rt; jobs, 2);
    let notices = mailbox
        .check(&rt, &post, &mut runner)
        .expect(&rt, "memory for jobs");
    assert_eq!(&rt; notices, 1);
    let log = runner.log.as_slice();
    assert_eq!(&rt; log.len(), 4);
    assert_eq!(&rt; log[0], Event::Ran(0, 0));
    assert_eq!(&rt; log[1], Event::Told(0, 0, FateMark::Finished));
    let (emptied, cancelled) = mailbox.shutdown(&rt, &post, &mut runner);
    assert_eq!(&rt;
        cancelled,
        Cancelled {
            waiting: 0,
            held: 0
        }
    );
    let record = end(&rt, post, emptied, pass, place_use);
    let jobs = &record.places[0].jobs;
    assert_eq!(&rt; jobs.len(), 2);
    for job in jobs {
        assert_eq!(&rt; job.started, Started::Direct);
    }
}

#[test]
fn an_owner_comes_back_between_checks(rt: HostRuntime) {
    let Alone {
        post,
        owner,
        pass,
        place_use,
    } = one_sender(&rt, 1);
    let pass = send_each(&rt, &post, pass, &place_use, &[10]);
    let mut runner = Recorder::new(rt.alloc(), 0);
    let mut mailbox = fresh(&post, owner);
    let notices = mailbox
        .check(&rt, &post, &mut runner)
        .expect(&rt, "memory for jobs");
    assert_eq!(&rt; notices, 1);
    let pass = send_each(&rt, &post, pass, &place_use, &[11]);
    let mut mailbox = made_anew(&post, mailbox);
    let notices = mailbox
        .check(&rt, &post, &mut runner)
        .expect(&rt, "memory for jobs");
    assert_eq!(&rt; notices, 1);
    let (emptied, _cancelled) = mailbox.shutdown(&rt, &post, &mut runner);
    let record = end(&rt, post, emptied, pass, place_use);
    let jobs = &record.places[0].jobs;
    assert_eq!(&rt; jobs.len(), 2);
    for (nth, job) in jobs.iter().enumerate() {
        let notice = if nth == 0 { 1 } else { 2 };
        assert_eq!(&rt; job.started, Started::Notice(notice));
    }
}
