//! What a send answers.

use post_core::{Meant, SendPass};

/// What `send` answers.
pub enum SendAnswer<J: Meant> {
    /// The job is last at its place, and has this number there.
    Accepted { pass: SendPass<J>, nth: u64 },
    /// The target takes no more jobs.
    Closed { pass: SendPass<J>, job: J },
    /// Memory was wanting.
    NoMemory { pass: SendPass<J>, job: J },
}

/// What `try_send` answers.
pub enum TryAnswer<J: Meant> {
    /// The job is last at its place, and has this number there.
    Accepted {
        pass: SendPass<J>,
        nth: u64,
    },
    /// The target takes no more jobs.
    Closed {
        pass: SendPass<J>,
        job: J,
    },
    /// Memory was wanting.
    NoMemory {
        pass: SendPass<J>,
        job: J,
    },
    /// An exchange of this word of the target's table failed, since it found this value.
    Busy {
        pass: SendPass<J>,
        job: J,
        word: u32,
        value: u64,
    },
}
