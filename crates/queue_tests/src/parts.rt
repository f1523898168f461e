//! What the threads of these tests hold: the types that `specs/` names.

use mailbox::Mailbox;
use post_core::{Emptied, SendPass};
use proxy_queue::QueueUse;

/// Runs jobs, and counts what it was called for.
#[derive(Drop)]
pub(crate) struct Counter {
    /// After so many jobs there is no room for another.
    pub(crate) limit: u64,
    pub(crate) ran: u64,
    pub(crate) cancelled: u64,
    pub(crate) told: u64,
}

/// What the owner's thread has of a target, and what it did.
pub(crate) struct Owning {
    /// None while the owner serves, and once it has closed.
    pub(crate) mailbox: Option<Mailbox<u64>>,
    pub(crate) emptied: Option<Emptied<u64>>,
    pub(crate) counter: Counter,
}

/// What the thread of a sender has of a target, and what it did.
pub(crate) struct Line {
    pub(crate) place_use: QueueUse<u64>,
    /// None while the thread sends.
    pub(crate) pass: Option<SendPass<u64>>,
    pub(crate) did: Did,
}

/// What the thread of a sender did.
#[derive(Clone, Copy)]
pub(crate) struct Did {
    /// How many of its jobs the target took.
    pub(crate) sent: u64,
    /// How often a send would have had to wait.
    pub(crate) busy: u64,
    /// How often a send found the target closed.
    pub(crate) closed: u64,
    /// How many sends there were.
    pub(crate) sends: u64,
}
