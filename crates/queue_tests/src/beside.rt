//! Threads that send to one target, beside its owner.

ghost use Rattle.std.specs.Prelude.{◌≡◌, ◌≤◌, length};

use crate::parts::Did;
use crate::threads::{Finished, Plan, Sides, begin, finish, run_beside};
use proxy_laws::{FateMark, PostRecord, Started};
use std::process::Abort;
use std::sync::Wait;
use std::thread::Threads;

/// The record has the jobs that each sender's thread sent, in its order: the first so many are finished, and the others are
/// cancelled.
fn agrees(rt: &(impl Abort + AllocGlobal), ended: &PostRecord, did: &Vec<Did>, finished: u64)
    requires { length ended.now.places.items ≡ 1 }
{
    let jobs = &ended.places[0].jobs;
    let mut next = vec![in rt.alloc(); 0u64; did.len()].expect(rt, "memory for the numbers");
    for (nth, job) in jobs.iter().enumerate() {
        assert_eq!(rt; job.fate == FateMark::Finished, (nth as u64) < finished);
        assert_eq!(rt; job.started == Started::Closing, (nth as u64) >= finished);
        let sender = job.mark.sender as usize;
        assert!(rt; sender < next.len(), "a job of another sender");
        assert_eq!(rt; job.mark.seq, next[sender]);
        assert_eq!(rt; job.mark.tag, next[sender]);
        next[sender] = job.mark.seq.wrapping_add(1);
    }
    for (sender, done) in did.iter().enumerate() {
        assert!(rt; sender < next.len(), "a number for each sender");
        assert_eq!(rt; done.sent, next[sender]);
    }
}

/// The record has what the threads did: each job that was accepted is in it once, in its sender's order, and was told, and
/// no other is. Each send was accepted, or found another thread in the way, or found the target closed. Answers how many
/// jobs were finished.
fn count_finished(rt: &(impl Abort + AllocGlobal), run: &Finished) -> u64
    requires { length run.now.ended.places.items ≡ 1 }
{
    let finished = run.counter.ran;
    let told = finished.saturating_add(run.counter.cancelled);
    assert_eq!(rt; run.counter.told, told);
    assert_eq!(rt; run.ended.places[0].jobs.len() as u64, told);
    agrees(rt, &run.ended, &run.did, finished);
    for done in &run.did {
        let answers = done.sent.saturating_add(done.busy);
        assert_eq!(rt; done.sends, answers.saturating_add(done.closed));
    }
    finished
}

/// So many senders send by the plan, each in a thread of its own. The owner parks and checks beside them until it has run so
/// many jobs, closes, and cancels what waits. Answers how many were finished.
fn runs_to_its_end<R: Threads + Wait + Abort + Sync + AllocGlobal>(
    rt: &R,
    senders: u32,
    limit: u64,
    plan: Plan,
) -> u64
    requires { (1 ≤ senders) × (senders ≤ 64) }
{
    let Sides {
        set,
        mut owning,
        mut lines,
    } = begin(rt, senders, limit);
    run_beside(rt, &set, &mut owning, &mut lines, plan);
    let run = finish(rt, Sides { set, owning, lines });
    count_finished(rt, &run)
}

#[test]
fn three_senders_are_served_in_their_order(rt: HostRuntime) {
    let plan = Plan {
        count: 1_000,
        tries: false,
    };
    assert_eq!(&rt; runs_to_its_end(&rt, 3, 3_000, plan), 3_000);
}

#[test]
fn three_senders_that_try_are_served_in_their_order(rt: HostRuntime) {
    let plan = Plan {
        count: 1_000,
        tries: true,
    };
    assert_eq!(&rt; runs_to_its_end(&rt, 3, 3_000, plan), 3_000);
}

#[test]
fn an_owner_that_parks_is_woken_for_one_job(rt: HostRuntime) {
    for _ in 0..1_000 {
        let plan = Plan {
            count: 1,
            tries: false,
        };
        assert_eq!(&rt; runs_to_its_end(&rt, 1, 1, plan), 1);
    }
}

#[test]
fn a_target_closes_at_any_job(rt: HostRuntime) {
    for round in 0..1_000u64 {
        let limit = round.wrapping_mul(2_654_435_761) % 121;
        let plan = Plan {
            count: 40,
            tries: round % 2 == 1,
        };
        assert_eq!(&rt; runs_to_its_end(&rt, 3, limit, plan), limit);
    }
}
