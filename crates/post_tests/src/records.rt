//! A job is held while a target is closed: what its record says of each job.

use crate::owning::{cancel_all, end, execute, hold_first, serve, shut};
use crate::scenes::{Alone, one_sender, only};
use crate::sending::send_each;
use proxy_laws::{FateMark, JobRecord, Mark, Started};

fn recorded(tag: u64, seq: u64, started: Started, fate: FateMark) -> JobRecord {
    JobRecord {
        mark: Mark {
            sender: 0,
            seq,
            tag,
        },
        started,
        fate,
    }
}

/// The sender puts jobs 10 to 13 at place 0. The first is held, the others run. Then it puts 14 and 15, and the target
/// closes: these two are cancelled as they wait, and then the held one.
#[test]
fn a_held_job_is_cancelled_last(rt: HostRuntime) {
    let Alone {
        post,
        owner,
        pass,
        place_use,
    } = one_sender(&rt, 1);
    let mut log = Vec::new(rt.alloc());
    let pass = send_each(&rt, &post, pass, &place_use, &[10, 11, 12, 13]);
    let (exec, first) = hold_first(&rt, &post, owner);
    assert_eq!(&rt; first.job, 10);
    let held = Some(first.nth);
    let (owner, pass) = execute(&rt, &post, exec, 0, held, pass, &mut log);
    let (owner, pass, notices) = serve(&rt, &post, owner, held, pass, &mut log);
    assert_eq!(&rt; notices, 0);
    let pass = send_each(&rt, &post, pass, &place_use, &[14, 15]);
    let closed = shut(&rt, &post, owner.begin_close(&post), held);
    let (mut emptied, pass) = cancel_all(&rt, &post, closed, held, pass, &mut log);
    let note = emptied.settle(&post, 0, first.nth, FateMark::Cancelled);
    let pass = pass.meet(&post, note);
    let taken = log
        .iter()
        .map(|job| job.job)
        .collect::<Vec<u64>>(rt.alloc())
        .expect(&rt, "memory for the jobs");
    assert_eq!(&rt; taken.as_slice(), [11, 12, 13, 14, 15].as_slice());

    let record = end(&rt, post, emptied, only(&rt, pass), only(&rt, place_use));
    let wanted = [
        recorded(10, 0, Started::Notice(1), FateMark::Cancelled),
        recorded(11, 1, Started::Notice(1), FateMark::Finished),
        recorded(12, 2, Started::Notice(1), FateMark::Finished),
        recorded(13, 3, Started::Notice(1), FateMark::Finished),
        recorded(14, 4, Started::Closing, FateMark::Cancelled),
        recorded(15, 5, Started::Closing, FateMark::Cancelled),
    ];
    assert_eq!(&rt; record.target, 0);
    assert_eq!(&rt; record.places.len(), 1);
    assert_eq!(&rt; record.places[0].jobs.as_slice(), wanted.as_slice());
}
