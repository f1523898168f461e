//! The threads of a target: its owner's, and one for each sender.

ghost use Rattle.std.specs.Prelude.{◌≡◌, ◌<◌, ◌≤◌, All, IfSome, None, Some, length};
ghost use Rattle.std.specs.Thread.{IsSync};
ghost use Rattle.post_core.specs.SendParts.{pass_view, post_places, post_senders, use_place};
ghost use Rattle.proxy_queue.specs.Sets.{set_post};
ghost use Rattle.queue_tests.specs.Beside.{AreLines, IsLine, IsOwning};
ghost use Rattle.queue_tests.specs.Scenes.{HasSent, HasSentNone, IsBoxIdle, IsEnd, MaySend};

use crate::lines::{Ends, ends_of, lines};
use crate::parts::{Counter, Did, Line, Owning};
use crate::scenes::{end, target};
use crate::sending::{Sent, send, try_send};
use mailbox::Mailbox;
use post_core::{Emptied, SendPass};
use proxy_laws::PostRecord;
use proxy_queue::{QueueSet, QueueUse, SetParts};
use std::process::Abort;
use std::sync::Wait;
use std::thread::{Threads, for_each_mut, join_mut};
use std::{mem, thread};

/// What the senders do.
#[derive(Clone, Copy)]
pub(crate) struct Plan {
    /// How many jobs each of them sends, if the target takes so many.
    pub(crate) count: u32,
    /// Whether they send without waiting, again where another thread was in the way.
    pub(crate) tries: bool,
}

/// What the threads of a target have.
pub(crate) struct Sides {
    pub(crate) set: QueueSet<u64>,
    pub(crate) owning: Owning,
    pub(crate) lines: Vec<Line>,
}

/// What a target and its threads came to.
#[derive(Drop)]
pub(crate) struct Finished {
    pub(crate) ended: PostRecord,
    /// By sender.
    pub(crate) did: Vec<Did>,
    pub(crate) counter: Counter,
}

fn fill<T>(rt: &impl Abort, slot: &mut Option<T>, value: T)
    ensures { slot.new ≡ Some value }
{
    match mem::replace(slot, Some(value)) {
        None => {}
        Some(_old) => panic!(rt; "a value is there"),
    }
}

/// Sends so many jobs, or fewer where the target closes. Each has the number of jobs before it as its tag.
fn send_many<R: Abort + Wait>(
    rt: &R,
    set: &QueueSet<u64>,
    mut pass: SendPass<u64>,
    place_use: &QueueUse<u64>,
    count: u32,
    did: &mut Did,
) -> SendPass<u64>
    requires { MaySend (set_post set.now) pass place_use.now }
    ensures { MaySend (set_post set.now) result place_use.now }
{
    for job in 0..u64::from(count) {
        did.sends = did.sends.saturating_add(1);
        let (back, sent) = send(rt, set, pass, place_use, job);
        pass = back;
        match sent {
            Sent::Accepted(_) => did.sent = job + 1,
            Sent::Closed(back) => {
                assert_eq!(rt; back, job);
                did.closed = 1;
                return pass;
            }
            _ => panic!(rt; "memory for a job"),
        }
    }
    pass
}

/// The same without waiting in a send: where another thread is in the way, the job is sent again.
fn try_many<R: Abort + Wait>(
    rt: &R,
    set: &QueueSet<u64>,
    mut pass: SendPass<u64>,
    place_use: &QueueUse<u64>,
    count: u32,
    did: &mut Did,
) -> SendPass<u64>
    requires may { MaySend (set_post set.now) pass place_use.now }
    requires none { HasSent (use_place place_use.now) 0 (pass_view pass) }
    ensures { MaySend (set_post set.now) result place_use.now }
{
    let mut put: u64 = 0;
    for _ in rt.forever() {
        if put >= u64::from(count) {
            return pass;
        }
        did.sends = did.sends.saturating_add(1);
        let job = put;
        let (back, sent, after) = try_send(set, pass, place_use, job, put);
        pass = back;
        put = after;
        match sent {
            Sent::Accepted(_) => did.sent = did.sent.saturating_add(1),
            Sent::Busy(back) => {
                assert_eq!(rt; back, job);
                did.busy = did.busy.saturating_add(1);
                thread::yield_now();
            }
            Sent::Closed(back) => {
                assert_eq!(rt; back, job);
                did.closed = 1;
                return pass;
            }
            Sent::NoMemory(_) => panic!(rt; "memory for a job"),
        }
    }
    unreachable!()
}

/// What the thread of a sender does.
fn send_line<R: Abort + Wait>(rt: &R, set: &QueueSet<u64>, _nth: usize, line: &mut Line, plan: Plan)
    requires line { IsLine (set_post set.now) _nth line.old }
    requires fresh { IfSome line.old.pass (λ pass. HasSentNone (pass_view pass)) }
    ensures { IsLine (set_post set.now) _nth line.new }
{
    let pass = match line.pass.take() {
        Some(pass) => pass,
        None => panic!(rt; "a thread without its pass"),
    };
    let did = &mut line.did;
    if plan.tries {
        let pass = try_many(rt, set, pass, &line.place_use, plan.count, did);
        fill(rt, &mut line.pass, pass);
    } else {
        let pass = send_many(rt, set, pass, &line.place_use, plan.count, did);
        fill(rt, &mut line.pass, pass);
    }
}

/// Each sender sends by the plan, in a thread of its own.
fn send_beside<R: Threads + Wait + Abort + Sync>(
    rt: &R,
    set: &QueueSet<u64>,
    lines: &mut Vec<Line>,
    plan: Plan,
)
    requires lines { AreLines (set_post set.now) (length lines.old.items) lines.old.items }
    requires fresh { All (λ line. IfSome line.pass (λ pass. HasSentNone (pass_view pass)))
        lines.old.items }
    ensures count { length lines.new.items ≡ length lines.old.items }
    ensures lines { AreLines (set_post set.now) (length lines.new.items) lines.new.items }
{
    let threads = lines.len();
    if threads > 0 {
        for_each_mut(
            rt,
            lines.as_mut_slice(),
            threads,
            &|i, line| send_line(rt, set, threads - 1 - i, line, plan),
        );
    }
}

/// Parks and checks until the runner has no room for another job, and then closes.
fn serve_and_close<R: Abort + Wait>(
    rt: &R,
    set: &QueueSet<u64>,
    mut mailbox: Mailbox<u64>,
    counter: &mut Counter,
) -> Emptied<u64>
    requires { IsBoxIdle (set_post set.now) mailbox }
    ensures { IsEnd (set_post set.now) result }
{
    for _ in rt.forever() {
        if set.wait_check(rt, &mut mailbox, counter).is_err() {
            let ran = counter.ran;
            let (emptied, cancelled) = set.shutdown(rt, mailbox, counter);
            assert_eq!(rt; counter.ran, ran);
            assert_eq!(rt; counter.cancelled, cancelled.waiting);
            assert_eq!(rt; cancelled.held, 0);
            return emptied;
        }
    }
    unreachable!()
}

/// What the owner's thread does.
fn own<R: Abort + Wait>(rt: &R, set: &QueueSet<u64>, owning: &mut Owning)
    requires { IsOwning (set_post set.now) owning.old }
    ensures { IsOwning (set_post set.now) owning.new }
{
    let mailbox = match owning.mailbox.take() {
        Some(mailbox) => mailbox,
        None => panic!(rt; "a thread without its mailbox"),
    };
    let emptied = serve_and_close(rt, set, mailbox, &mut owning.counter);
    fill(rt, &mut owning.emptied, emptied);
}

/// The owner's thread and those of the senders, side by side.
pub(crate) fn run_beside<R: Threads + Wait + Abort + Sync>(
    rt: &R,
    set: &QueueSet<u64>,
    owning: &mut Owning,
    lines: &mut Vec<Line>,
    plan: Plan,
)
    requires owning { IsOwning (set_post set.now) owning.old }
    requires lines { AreLines (set_post set.now) (length lines.old.items) lines.old.items }
    requires fresh { All (λ line. IfSome line.pass (λ pass. HasSentNone (pass_view pass)))
        lines.old.items }
    ensures owning { IsOwning (set_post set.now) owning.new }
    ensures count { length lines.new.items ≡ length lines.old.items }
    ensures lines { AreLines (set_post set.now) (length lines.new.items) lines.new.items }
{
    join_mut(
        rt,
        &mut || own(rt, set, owning),
        &mut ||
            requires { IsSync R.row
                × AreLines (set_post set.now) (length lines.now.items) lines.now.items
                × All (λ line. IfSome line.pass (λ pass. HasSentNone (pass_view pass)))
                lines.now.items }
            ensures { (length lines.exit.now.items ≡ length lines.entry.now.items)
                × AreLines (set_post set.entry.now)
                (length lines.exit.now.items) lines.exit.now.items }
        { send_beside(rt, set, lines, plan) },
    );
}

/// A target of one place, its owner, who runs so many jobs and then closes, and so many senders that have sent nothing.
pub(crate) fn begin(rt: &(impl Abort + AllocGlobal), senders: u32, limit: u64) -> Sides
    requires { (1 ≤ senders) × (senders ≤ 64) }
    ensures place { post_places (set_post result.set) ≡ 1 }
    ensures owning { IsOwning (set_post result.set) result.owning }
    ensures count { length result.lines.items ≡ post_senders (set_post result.set) }
    ensures lines { AreLines (set_post result.set) (length result.lines.items)
        result.lines.items }
    ensures fresh { All (λ line. IfSome line.pass (λ pass. HasSentNone (pass_view pass)))
        result.lines.items }
{
    let SetParts {
        set,
        mailbox,
        passes,
        system,
    } = target(rt, senders, 1);
    let lines = lines(rt, &set, passes, system);
    let owning = Owning {
        mailbox: Some(mailbox),
        emptied: None,
        counter: Counter::new(limit),
    };
    Sides { set, owning, lines }
}

/// Ends a target that was closed, with its record.
pub(crate) fn finish(rt: &(impl Abort + AllocGlobal), sides: Sides) -> Finished
    requires owning { IsOwning (set_post sides.set) sides.owning }
    requires count { length sides.lines.items ≡ post_senders (set_post sides.set) }
    requires lines { AreLines (set_post sides.set) (length sides.lines.items)
        sides.lines.items }
    ensures { length result.ended.places.items ≡ post_places (set_post sides.set) }
{
    let Sides { set, owning, lines } = sides;
    let Owning {
        mailbox,
        emptied,
        counter,
    } = owning;
    if let Some(_mailbox) = mailbox {
        panic!(rt; "an owner that did not close");
    }
    let Ends { passes, uses, did } = ends_of(rt, &set, lines);
    match emptied {
        Some(emptied) => Finished {
            ended: end(rt, set, emptied, passes, uses),
            did,
            counter,
        },
        None => panic!(rt; "a target that was not closed"),
    }
}
