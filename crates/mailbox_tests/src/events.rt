//! What a runner was called for.

use proxy_laws::{FateMark, Mark};

/// A job that is held.
#[derive(Drop)]
pub struct Kept {
    pub job: u64,
    pub mark: Mark,
    pub place: u32,
    pub nth: u64,
}

/// What is left to tell of a job.
#[derive(Drop)]
pub struct Left {
    pub place: u32,
    pub nth: u64,
}

/// A call, by the place of its job and the job's number there.
#[derive(Clone, Copy, Debug, PartialEq, Eq)]
pub enum Event {
    Ran(u32, u64),
    Kept(u32, u64),
    Cancelled(u32, u64),
    NoneHeld,
    GaveUp(u32, u64),
    Told(u32, u64, FateMark),
}
