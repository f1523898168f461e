//! What the calls of a sender answer.

use crate::meant::Meant;
use crate::post::{Notice, Owing, RefPass, SendPass};

/// What `take_ref` answers.
pub enum RefAnswer<J: Meant> {
    /// The pass has a reference.
    Held(RefPass<J>),
    /// A load found no reference.
    Closed(SendPass<J>),
}

/// What `put` answers.
pub enum PutAnswer<J: Meant> {
    /// The job is at its place.
    Put(Owing<J>),
    /// Memory was wanting, and nothing was added.
    NoMemory(RefPass<J>, J),
}

/// What `notify` answers.
pub enum Notified<J: Meant> {
    /// The note was pending.
    Quiet(RefPass<J>),
    /// The note was not pending, so a notice of the place has to come to the mailbox.
    Messenger(Notice<J>),
}

/// What `try_take_ref` answers.
pub enum TryRefAnswer<J: Meant> {
    /// The pass has a reference.
    Held(RefPass<J>),
    /// A load, or the exchange, found no reference.
    Closed(SendPass<J>),
    /// The exchange of this word of the table, which holds the number of references, found this value.
    Busy {
        pass: SendPass<J>,
        word: u32,
        value: u64,
    },
}

/// What `try_put` answers.
pub enum TryPutAnswer<J: Meant> {
    /// The job is at its place.
    Put(Owing<J>),
    /// Memory was wanting, and nothing was added.
    NoMemory(RefPass<J>, J),
    /// The exchange of this word of the table, which holds the turn of the place, found this value.
    Busy {
        pass: RefPass<J>,
        job: J,
        word: u32,
        value: u64,
    },
}
