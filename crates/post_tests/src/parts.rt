//! What the threads of these tests hold: the types that `specs/` names.

use post_core::{Emptied, Notice, Owing, Owner, PlaceUse, RefPass, SendPass};
use proxy_laws::Mark;

/// A job that an owner took.
#[derive(Clone, Copy, Debug, PartialEq, Eq)]
pub(crate) struct Job {
    pub(crate) place: u32,
    pub(crate) nth: u64,
    pub(crate) mark: Mark,
    pub(crate) job: u64,
}

/// What one thread has of a target, and what it did.
pub(crate) struct Line {
    pub(crate) place_use: PlaceUse<u64>,
    pub(crate) pass: Option<SendPass<u64>>,
    /// In the owner's thread.
    pub(crate) owner: Option<Owner<u64>>,
    pub(crate) emptied: Option<Emptied<u64>>,
    pub(crate) did: Did,
}

/// What one thread did.
#[derive(Drop)]
pub(crate) struct Did {
    /// How many of its jobs the target took.
    pub(crate) sent: u64,
    /// How often it had to bring a notice.
    pub(crate) notices: u64,
    /// The jobs that the owner finished, and then those that it cancelled.
    pub(crate) log: Vec<Job>,
    pub(crate) finished: usize,
}

/// What a sender has of its target while the owner closes it.
pub(crate) enum Hand {
    Pass(SendPass<u64>),
    Reference(RefPass<u64>),
    Owing(Owing<u64>),
    Notice(Notice<u64>),
}
