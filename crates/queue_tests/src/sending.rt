//! A sender's sends.

ghost use Rattle.std.specs.Prelude.{◌≡◌, ◌+◌, ◌<◌, ◌≤◌};
ghost use Rattle.post_core.specs.SendParts.{pass_view, use_place};
ghost use Rattle.proxy_queue.specs.Sets.{set_post};
ghost use Rattle.queue_tests.specs.Scenes.{HasSent, MaySend};

use post_core::SendPass;
use proxy_queue::{QueueSet, QueueUse, SendAnswer, TryAnswer};
use std::sync::Wait;

/// What became of a send.
#[derive(Clone, Copy, Debug, PartialEq, Eq)]
pub(crate) enum Sent {
    /// The job has this number at its place.
    Accepted(u64),
    /// The target takes no more jobs, and this one came back.
    Closed(u64),
    /// Memory was wanting, and this job came back.
    NoMemory(u64),
    /// Another thread was in the way, and this job came back.
    Busy(u64),
}

/// Sends a job, whose tag is its number.
pub(crate) fn send<R: Wait>(
    rt: &R,
    set: &QueueSet<u64>,
    pass: SendPass<u64>,
    place_use: &QueueUse<u64>,
    job: u64,
) -> (SendPass<u64>, Sent)
    requires { MaySend (set_post set.now) pass place_use.now }
    ensures { MaySend (set_post set.now) result.0 place_use.now }
{
    match set.send(rt, pass, place_use, job, job) {
        SendAnswer::Accepted { pass, nth } => (pass, Sent::Accepted(nth)),
        SendAnswer::Closed { pass, job } => (pass, Sent::Closed(job)),
        SendAnswer::NoMemory { pass, job } => (pass, Sent::NoMemory(job)),
    }
}

/// Sends a job without waiting, whose tag is its number, where the pass has put at most so many jobs at the place. Answers
/// how many that are then.
pub(crate) fn try_send(
    set: &QueueSet<u64>,
    pass: SendPass<u64>,
    place_use: &QueueUse<u64>,
    job: u64,
    count: u64,
) -> (SendPass<u64>, Sent, u64)
    requires may { MaySend (set_post set.now) pass place_use.now }
    requires count { HasSent (use_place place_use.now) count (pass_view pass) }
    requires few { count < 4294967296 }
    ensures may { MaySend (set_post set.now) result.0 place_use.now }
    ensures count { HasSent (use_place place_use.now) result.2 (pass_view result.0) }
    ensures few { result.2 ≤ count + 1 }
{
    match set.try_send(pass, place_use, job, job) {
        TryAnswer::Accepted { pass, nth } => (pass, Sent::Accepted(nth), count + 1),
        TryAnswer::Closed { pass, job } => (pass, Sent::Closed(job), count),
        TryAnswer::NoMemory { pass, job } => (pass, Sent::NoMemory(job), count),
        TryAnswer::Busy {
            pass,
            job,
            word: _,
            value: _,
        } => (pass, Sent::Busy(job), count),
    }
}
