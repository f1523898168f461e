//! Threads that send to one target, beside its owner.

ghost use Rattle.std.specs.Prelude.{◌≡◌, ◌+◌, ◌<◌, ◌≤◌, IfSome, None, Some, length};
ghost use Rattle.post_core.specs.OwnerViews.{IsEmptiedOf, IsOwnerOf, emptied_view, owner_view};
ghost use Rattle.post_core.specs.SendParts.{IsPassOf, pass_view, post_senders};
ghost use Rattle.post_tests.specs.Beside.{AreLines, IsEnd, IsLine, IsOwnerFresh};
ghost use Rattle.post_tests.specs.Scenes.{AreAllPasses, HasHeld, KeepsUses, MayAllSend, MaySend};

use crate::owning::{cancel_all, end, serve, shut};
use crate::parts::{Did, Job, Line};
use crate::scenes::target;
use crate::sending::{Sent, send};
use post_core::{Emptied, Made, Owner, PlaceUse, Post, SendPass};
use proxy_laws::{FateMark, PostRecord, Started};
use std::mem;
use std::process::Abort;
use std::sync::Wait;
use std::thread::{Threads, for_each_mut};

/// How many jobs each sender sends, and how many are taken before the owner closes.
#[derive(Clone, Copy)]
struct Plan {
    count: u64,
    jobs: usize,
}

/// All that the threads of a target had and did.
struct Ends {
    passes: Vec<SendPass<u64>>,
    uses: Vec<PlaceUse<u64>>,
    emptied: Option<Emptied<u64>>,
    /// By sender.
    did: Vec<Did>,
}

fn fill<T>(rt: &impl Abort, slot: &mut Option<T>, value: T)
    ensures { slot.new ≡ Some value }
{
    match mem::replace(slot, Some(value)) {
        None => {}
        Some(_old) => panic!(rt; "a value is there"),
    }
}

/// Sends so many jobs, or fewer where the target takes no more. Each has the number of jobs before it as its tag.
fn send_many<R: Abort + Wait>(
    rt: &R,
    post: &Post<u64>,
    mut pass: SendPass<u64>,
    place_use: &PlaceUse<u64>,
    count: u64,
    did: &mut Did,
) -> SendPass<u64>
    requires { MaySend post.now pass place_use.now }
    ensures { MaySend post.now result place_use.now }
{
    for job in 0..count {
        let (back, sent) = send(rt, post, pass, place_use, job);
        pass = back;
        match sent {
            Sent::Accepted { nth: _, messenger } => {
                did.sent = job + 1;
                did.notices = did.notices.saturating_add(u64::from(messenger));
            }
            Sent::Closed => return pass,
        }
    }
    pass
}

/// Serves until so many jobs were taken.
fn serve_all<R: Abort + Wait>(
    rt: &R,
    post: &Post<u64>,
    mut owner: Owner<u64>,
    mut pass: SendPass<u64>,
    jobs: usize,
    log: &mut Vec<Job>,
) -> (Owner<u64>, SendPass<u64>)
    requires owner { IsOwnerOf post.now owner × HasHeld None (owner_view owner) }
    requires pass { IsPassOf post.now pass }
    ensures owner { IsOwnerOf post.now result.0 × HasHeld None (owner_view result.0) }
    ensures pass { IsPassOf post.now result.1 × KeepsUses (pass_view pass) (pass_view result.1) }
{
    for _ in rt.forever() {
        let (after, back, _notices) = serve(rt, post, owner, None, pass, log);
        pass = back;
        if log.len() >= jobs {
            return (after, pass);
        }
        owner = after.park(rt, post);
    }
    unreachable!()
}

/// Serves until so many jobs were taken, closes, and cancels what waits.
fn serve_and_close<R: Abort + Wait>(
    rt: &R,
    post: &Post<u64>,
    owner: Owner<u64>,
    pass: SendPass<u64>,
    jobs: usize,
    did: &mut Did,
) -> (Emptied<u64>, SendPass<u64>)
    requires owner { IsOwnerOf post.now owner × HasHeld None (owner_view owner) }
    requires pass { IsPassOf post.now pass }
    ensures emptied { IsEmptiedOf post.now result.0 × HasHeld None (emptied_view result.0) }
    ensures pass { IsPassOf post.now result.1 × KeepsUses (pass_view pass) (pass_view result.1) }
{
    let (owner, pass) = serve_all(rt, post, owner, pass, jobs, &mut did.log);
    did.finished = did.log.len();
    let closed = shut(rt, post, owner.begin_close(post), None);
    cancel_all(rt, post, closed, None, pass, &mut did.log)
}

/// What the thread of a line does.
fn run<R: Abort + Wait>(rt: &R, post: &Post<u64>, nth: usize, line: &mut Line, plan: Plan)
    requires { IsLine post.now nth line.old }
    ensures { IsLine post.now nth line.new }
{
    let pass = match line.pass.take() {
        Some(pass) => pass,
        None => panic!(rt; "a thread without its pass"),
    };
    match line.owner.take() {
        Some(owner) => {
            let (emptied, pass) = serve_and_close(rt, post, owner, pass, plan.jobs, &mut line.did);
            fill(rt, &mut line.emptied, emptied);
            fill(rt, &mut line.pass, pass);
        }
        None => {
            let pass = send_many(rt, post, pass, &line.place_use, plan.count, &mut line.did);
            fill(rt, &mut line.pass, pass);
        }
    }
}

/// A line for each sender, the last first. The owner, if it is given, is in the line of the last.
fn lines(
    rt: &(impl Abort + AllocGlobal),
    post: &Post<u64>,
    mut passes: Vec<SendPass<u64>>,
    mut system: Vec<PlaceUse<u64>>,
    mut owner: Option<Owner<u64>>,
) -> Vec<Line>
    requires senders { MayAllSend post.now passes.items system.items }
    requires passes { AreAllPasses post.now passes.items }
    requires owner { IfSome owner (λ o. IsOwnerFresh post.now o) }
    ensures count { length result.items ≡ post_senders post.now }
    ensures lines { AreLines post.now (post_senders post.now) result.items }
{
    let mut lines = Vec::new(rt.alloc());
    while let Some(pass) = passes.pop() {
        let place_use = match system.pop() {
            Some(place_use) => place_use,
            None => panic!(rt; "a sender without a use"),
        };
        let line = Line {
            place_use,
            pass: Some(pass),
            owner: owner.take(),
            emptied: None,
            did: Did {
                sent: 0,
                notices: 0,
                log: Vec::new(rt.alloc()),
                finished: 0,
            },
        };
        lines.reserve(1).expect(rt, "memory for a line");
        lines.push_reserved(line);
    }
    passes.destroy_empty();
    if let Some(_place_use) = system.pop() {
        panic!(rt; "a use without a sender");
    }
    system.destroy_empty();
    if let Some(_owner) = owner {
        panic!(rt; "a target without senders");
    }
    lines
}

/// Keeps the end of the owner, where a line has it.
fn keep(
    rt: &impl Abort,
    _post: &Post<u64>,
    found: &mut Option<Emptied<u64>>,
    emptied: Option<Emptied<u64>>,
)
    requires { IfSome emptied (λ e. IsEnd _post.now e) × IfSome found.old (λ e. IsEnd _post.now e) }
    ensures { IfSome found.new (λ e. IsEnd _post.now e) }
{
    if let Some(emptied) = emptied {
        fill(rt, found, emptied);
    }
}

/// All that the lines have, by sender.
fn ends_of(rt: &(impl Abort + AllocGlobal), post: &Post<u64>, mut lines: Vec<Line>) -> Ends
    requires count { length lines.items ≡ post_senders post.now }
    requires lines { AreLines post.now (post_senders post.now) lines.items }
    ensures passes { AreAllPasses post.now result.passes.items }
    ensures emptied { IfSome result.emptied (λ e. IsEnd post.now e) }
{
    let mut passes = Vec::new(rt.alloc());
    let mut uses = Vec::new(rt.alloc());
    let mut did = Vec::new(rt.alloc());
    let mut found = None;
    while let Some(line) = lines.pop() {
        let Line {
            place_use,
            pass,
            owner,
            emptied,
            did: done,
        } = line;
        if let Some(_owner) = owner {
            panic!(rt; "an owner that did not close");
        }
        keep(rt, post, &mut found, emptied);
        let pass = match pass {
            Some(pass) => pass,
            None => panic!(rt; "a thread without its pass"),
        };
        passes.reserve(1).expect(rt, "memory for a pass");
        passes.push_reserved(pass);
        uses.reserve(1).expect(rt, "memory for a use");
        uses.push_reserved(place_use);
        did.push(done).expect(rt, "memory for what a thread did");
    }
    lines.destroy_empty();
    Ends {
        passes,
        uses,
        emptied: found,
        did,
    }
}

/// The threads of all lines run side by side.
fn run_beside<R: Threads + Wait + Abort + Sync + AllocGlobal>(
    rt: &R,
    post: &Post<u64>,
    mut lines: Vec<Line>,
    plan: Plan,
) -> Ends
    requires count { length lines.items ≡ post_senders post.now }
    requires lines { AreLines post.now (post_senders post.now) lines.items }
    ensures passes { AreAllPasses post.now result.passes.items }
    ensures emptied { IfSome result.emptied (λ e. IsEnd post.now e) }
{
    let count = lines.len();
    if count > 0 {
        for_each_mut(
            rt,
            lines.as_mut_slice(),
            count,
            &|i, line| run(rt, post, count - 1 - i, line, plan),
        );
    }
    ends_of(rt, post, lines)
}

/// Closes the target, and cancels what waits. The last pass meets the notes.
fn close_after<R: Abort + Wait + AllocGlobal>(
    rt: &R,
    post: &Post<u64>,
    owner: Owner<u64>,
    mut passes: Vec<SendPass<u64>>,
) -> (Emptied<u64>, Vec<SendPass<u64>>, Vec<Job>)
    requires owner { IsOwnerFresh post.now owner }
    requires passes { AreAllPasses post.now passes.items }
    ensures emptied { IsEmptiedOf post.now result.0 × HasHeld None (emptied_view result.0) }
    ensures passes { AreAllPasses post.now result.1.items }
{
    let own = match passes.pop() {
        Some(own) => own,
        None => panic!(rt; "a target without senders"),
    };
    let mut log = Vec::new(rt.alloc());
    let closed = shut(rt, post, owner.begin_close(post), None);
    let (emptied, own) = cancel_all(rt, post, closed, None, own, &mut log);
    passes.reserve(1).expect(rt, "memory for a pass");
    passes.push_reserved(own);
    (emptied, passes, log)
}

/// How many jobs of each of so many senders were taken. They were taken in each sender's order.
fn numbers(rt: &(impl Abort + AllocGlobal), log: &Vec<Job>, senders: usize) -> Vec<u64>
    ensures { length result.items ≡ senders }
{
    let mut next = vec![in rt.alloc(); 0u64; senders].expect(rt, "memory for the numbers");
    for job in log {
        let sender = job.mark.sender as usize;
        assert!(rt; sender < next.len(), "a job of another sender");
        assert_eq!(rt; job.mark.seq, next[sender]);
        assert_eq!(rt; job.job, next[sender]);
        next[sender] = job.mark.seq.wrapping_add(1);
    }
    next
}

/// The record has the jobs that the owner took, as it took them: it finished the first, and cancelled the others.
fn agrees(rt: &(impl Abort + AllocGlobal), record: &PostRecord, log: &Vec<Job>, finished: usize)
    requires { length record.now.places.items ≡ 1 }
{
    let jobs = &record.places[0].jobs;
    assert_eq!(rt; jobs.len(), log.len());
    for (recorded, taken) in jobs.iter().zip(log.iter()) {
        assert_eq!(rt; recorded.mark, taken.mark);
    }
    for (nth, taken) in log.iter().enumerate() {
        assert_eq!(rt; taken.nth, nth as u64);
    }
    for (nth, recorded) in jobs.iter().enumerate() {
        assert_eq!(rt; recorded.fate == FateMark::Finished, nth < finished);
        assert_eq!(rt; recorded.started == Started::Closing, nth >= finished);
    }
}

/// So many senders send by the plan, each in a thread of its own. The owner serves beside them, closes, and cancels what
/// waits; it has a pass of its own, which meets its notes. Each job that was taken is in the record once, in its sender's
/// order, and no other is. Answers how many were finished.
fn runs_to_its_end<R: Threads + Wait + Abort + Sync + AllocGlobal>(
    rt: &R,
    senders: u32,
    plan: Plan,
) -> usize
    requires { (1 ≤ senders) × (senders < 64) }
{
    let Made {
        post,
        owner,
        passes,
        system,
    } = target(rt, senders + 1, 1);
    let all = lines(rt, &post, passes, system, Some(owner));
    let Ends {
        passes,
        uses,
        emptied,
        did,
    } = run_beside(rt, &post, all, plan);
    let emptied = match emptied {
        Some(emptied) => emptied,
        None => panic!(rt; "a target that was not closed"),
    };
    let record = end(rt, post, emptied, passes, uses);
    let owners = match did.last() {
        Some(owners) => owners,
        None => panic!(rt; "a target without an owner"),
    };
    agrees(rt, &record, &owners.log, owners.finished);
    let taken = numbers(rt, &owners.log, did.len());
    for (sender, done) in did.iter().enumerate() {
        assert_eq!(rt; taken[sender], done.sent);
    }
    owners.finished
}

/// The passes send by the plan, each in a thread of its own, beside no owner.
fn send_beside<R: Threads + Wait + Abort + Sync + AllocGlobal>(
    rt: &R,
    post: &Post<u64>,
    passes: Vec<SendPass<u64>>,
    system: Vec<PlaceUse<u64>>,
    plan: Plan,
) -> (Vec<SendPass<u64>>, Vec<PlaceUse<u64>>, Vec<Did>)
    requires senders { MayAllSend post.now passes.items system.items }
    requires passes { AreAllPasses post.now passes.items }
    ensures { AreAllPasses post.now result.0.items }
{
    let all = lines(rt, post, passes, system, None);
    let Ends {
        passes,
        uses,
        emptied,
        did,
    } = run_beside(rt, post, all, plan);
    if let Some(_emptied) = emptied {
        panic!(rt; "a target that was closed");
    }
    (passes, uses, did)
}

#[test]
fn two_senders_need_one_notice(rt: HostRuntime) {
    let Made {
        post,
        owner,
        passes,
        system,
    } = target(&rt, 2, 1);
    let plan = Plan {
        count: 500,
        jobs: 0,
    };
    let (passes, uses, did) = send_beside(&rt, &post, passes, system, plan);
    let mut notices: u64 = 0;
    for done in &did {
        assert_eq!(&rt; done.sent, 500);
        notices = notices.saturating_add(done.notices);
    }
    assert_eq!(&rt; notices, 1);
    let (emptied, passes, log) = close_after(&rt, &post, owner, passes);
    let record = end(&rt, post, emptied, passes, uses);
    agrees(&rt, &record, &log, 0);
    assert_eq!(&rt; numbers(&rt, &log, 2).as_slice(), [500, 500].as_slice());
}

#[test]
fn sixteen_senders_are_served_in_their_order(rt: HostRuntime) {
    let plan = Plan {
        count: 6_250,
        jobs: 100_000,
    };
    assert_eq!(&rt; runs_to_its_end(&rt, 16, plan), 100_000);
}

#[test]
fn a_target_closes_while_sixteen_send(rt: HostRuntime) {
    for round in 0..1_000 {
        let plan = Plan {
            count: 100,
            jobs: round % 64,
        };
        runs_to_its_end(&rt, 16, plan);
    }
}
