//! The calls of a runner, and what a mailbox does with jobs, as data. No value of these types is ever made: they are for
//! contracts and proofs alone.

use crate::runner::{HeldTail, Ran};
use proxy_laws::{FateMark, Mark, Started};

/// A job of a target, by what is known of it.
pub struct RunJob<M> {
    pub target: u32,
    pub place: u32,
    /// Its number at the place.
    pub nth: u64,
    pub mark: Mark,
    pub meaning: M,
}

/// A call of a runner, with its arguments and its answer.
pub enum RunCall<M, T> {
    Run(RunJob<M>, Ran<T>),
    Cancel(RunJob<M>, T),
    NextHeld(Option<HeldTail<T>>),
    /// Of a tail, a place, a number there and a fate.
    Tell(T, u32, u64, FateMark),
}

/// What a mailbox did with one job.
pub enum Deed<M, T> {
    /// It took the job, which the runner ran; it settled it as finished, and the runner told the tail.
    Finished(RunJob<M>, Started, T),
    /// It took the job, which the runner holds.
    Held(RunJob<M>, Started),
    /// A closed owner took the job and settled it as cancelled; the runner cancelled it, and told the tail.
    Cancelled(RunJob<M>, T),
    /// The runner gave up the oldest job that it held; it was settled as cancelled, and the runner told the tail.
    GivenUp(RunJob<M>, T),
}
