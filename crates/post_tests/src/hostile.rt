//! A target closes while its sender is in each of its states.

ghost use Rattle.std.specs.Prelude.{◌≡◌, ◌≤◌, None};
ghost use Rattle.post_tests.specs.Hostile.{MayLetGo};
ghost use Rattle.post_tests.specs.Scenes.{MaySend};

use crate::owning::{cancel_all, end, hold_first, shut};
use crate::parts::{Hand, Job};
use crate::scenes::{Alone, one_sender, only};
use crate::sending::{Sent, bring, notify, put, refer, send, send_each};
use post_core::{ClosingLook, Notice, Owing, PlaceUse, Post, RefPass, SendPass};
use proxy_laws::{FateMark, Started};
use std::process::Abort;
use std::sync::Wait;

/// Where the sender is when the owner begins to close.
#[derive(Clone, Copy, Debug, PartialEq, Eq)]
enum State {
    Idle,
    /// It has a reference, and then gives it back.
    Referenced,
    /// It has a reference, and then puts a job.
    Putting,
    Owing,
    Notice,
    /// It sent a job, and has put another for which it had to bring no notice.
    Quiet,
}

/// A state, the references that the owner then finds, and the numbers of the jobs that it cancels.
type Row = (State, u64, &'static [u64]);

const ROWS: [Row; 6] = [
    (State::Idle, 0, &[]),
    (State::Referenced, 1, &[]),
    (State::Putting, 1, &[0]),
    (State::Owing, 1, &[0]),
    (State::Notice, 1, &[0]),
    (State::Quiet, 1, &[0, 1]),
];

/// Brings the sender into the state.
fn reach<R: Abort + Wait>(
    rt: &R,
    post: &Post<u64>,
    pass: SendPass<u64>,
    place_use: &PlaceUse<u64>,
    state: State,
) -> Hand
    requires { MaySend post.now pass place_use.now }
    ensures { MayLetGo post.now place_use.now result }
{
    match state {
        State::Idle => Hand::Pass(pass),
        State::Referenced | State::Putting => Hand::Reference(refer(rt, post, pass)),
        State::Owing => {
            let held = refer(rt, post, pass);
            Hand::Owing(put(rt, post, held, place_use, 7))
        }
        State::Notice => {
            let held = refer(rt, post, pass);
            let owing = put(rt, post, held, place_use, 7);
            Hand::Notice(bring(rt, post, owing))
        }
        State::Quiet => {
            let pass = send_each(rt, post, pass, place_use, &[7]);
            let held = refer(rt, post, pass);
            let owing = put(rt, post, held, place_use, 8);
            let (held, messenger) = notify(post, owing);
            assert!(rt; !messenger, "a second notice");
            Hand::Reference(held)
        }
    }
}

/// The sender goes on from there until it is idle.
fn let_go<R: Abort + Wait>(
    rt: &R,
    post: &Post<u64>,
    hand: Hand,
    place_use: &PlaceUse<u64>,
    puts: bool,
) -> SendPass<u64>
    requires { MayLetGo post.now place_use.now hand }
    ensures { MaySend post.now result place_use.now }
{
    match hand {
        Hand::Pass(pass) => pass,
        Hand::Reference(held) => {
            if puts {
                let owing = put(rt, post, held, place_use, 7);
                return bring(rt, post, owing).deliver(post).give(post);
            }
            held.give(post)
        }
        Hand::Owing(owing) => bring(rt, post, owing).deliver(post).give(post),
        Hand::Notice(notice) => notice.deliver(post).give(post),
    }
}

fn has_numbers(rt: &impl Abort, log: &Vec<Job>, wanted: &[u64]) {
    assert_eq!(rt; log.len(), wanted.len());
    for (job, nth) in log.iter().zip(wanted.iter()) {
        assert_eq!(rt; job.place, 0);
        assert_eq!(rt; job.nth, *nth);
    }
}

/// The owner closes while the sender is in the state of the row.
fn closes_at<R: Abort + Wait + AllocGlobal>(rt: &R, row: Row) {
    let (state, references, cancelled) = row;
    let Alone {
        post,
        owner,
        pass,
        place_use,
    } = one_sender(rt, 1);
    let hand = reach(rt, &post, pass, &place_use, state);
    let puts = state == State::Putting;
    let (closed, pass) = match owner.begin_close(&post).look(&post) {
        ClosingLook::Closed(closed) => {
            assert_eq!(rt; references, 0, "at {state:?}");
            (closed, let_go(rt, &post, hand, &place_use, puts))
        }
        ClosingLook::Referenced { closing, count } => {
            assert_eq!(rt; count, references, "at {state:?}");
            let pass = let_go(rt, &post, hand, &place_use, puts);
            (shut(rt, &post, closing, None), pass)
        }
    };
    let (pass, sent) = send(rt, &post, pass, &place_use, 9);
    assert_eq!(rt; sent, Sent::Closed);
    let mut log = Vec::new(rt.alloc());
    let (emptied, pass) = cancel_all(rt, &post, closed, None, pass, &mut log);
    has_numbers(rt, &log, cancelled);
    let record = end(rt, post, emptied, only(rt, pass), only(rt, place_use));
    for job in &record.places[0].jobs {
        assert_eq!(rt; job.started, Started::Closing);
        assert_eq!(rt; job.fate, FateMark::Cancelled);
    }
}

/// The owner closes while it executes the place, with the first of three jobs active.
fn closes_while_it_executes<R: Abort + Wait + AllocGlobal>(rt: &R) {
    let Alone {
        post,
        owner,
        pass,
        place_use,
    } = one_sender(rt, 1);
    let pass = send_each(rt, &post, pass, &place_use, &[7, 8, 9]);
    let (exec, first) = hold_first(rt, &post, owner);
    let held = Some(first.nth);
    let closed = match exec.begin_close(&post).look(&post) {
        ClosingLook::Closed(closed) => closed,
        ClosingLook::Referenced {
            closing: _closing,
            count: _,
        } => panic!(rt; "a reference"),
    };
    let mut log = Vec::new(rt.alloc());
    let (mut emptied, pass) = cancel_all(rt, &post, closed, held, pass, &mut log);
    has_numbers(rt, &log, &[1, 2]);
    let note = emptied.settle(&post, 0, first.nth, FateMark::Cancelled);
    let pass = pass.meet(&post, note);
    let record = end(rt, post, emptied, only(rt, pass), only(rt, place_use));
    let started = record.places[0]
        .jobs
        .iter()
        .map(|job| job.started)
        .collect::<Vec<Started>>(rt.alloc())
        .expect(rt, "memory for the starts");
    let wanted = [Started::Notice(1), Started::Closing, Started::Closing];
    assert_eq!(rt; started.as_slice(), wanted.as_slice());
}

#[test]
fn a_target_closes_in_each_state_of_its_sender(rt: HostRuntime) {
    for row in ROWS {
        closes_at(&rt, row);
    }
    closes_while_it_executes(&rt);
}
