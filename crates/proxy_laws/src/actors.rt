//! What a target's senders and its owner are doing.

/// Who acts on a target's table.
#[derive(Clone, Copy, Debug, PartialEq, Eq)]
pub enum Actor {
    /// The sender of this number.
    Sender(u32),
    /// The thread that the target belongs to.
    Owner,
}

/// The notification state of a place or of the mailbox, as in `em_task_queue.c`.
#[derive(Clone, Copy, Debug, PartialEq, Eq)]
pub enum Note {
    None,
    /// A notification is announced.
    Pending,
    /// The owner has received the notification.
    Received,
}

/// How far the owner has closed its target.
#[derive(Clone, Copy, Debug, PartialEq, Eq)]
pub enum OwnerState {
    /// It has its own reference.
    Open,
    /// It has dropped its own reference, and waits for those of the senders.
    Closing,
    /// No reference is left.
    Closed,
}

/// Where a sender is in a send. Past `Referenced` it is at one place.
#[derive(Clone, Copy, Debug, PartialEq, Eq)]
pub enum Phase {
    /// It has no reference.
    Idle,
    /// It has a reference of the target.
    Referenced,
    /// It has the turn of the place.
    Holding(u32),
    /// It has put a job there, and has the turn.
    Put(u32),
    /// It has given the turn back, and owes a notification.
    Owing(u32),
    /// It has to bring a notice of the place to the mailbox.
    Messenger(u32),
}

/// What the owner is doing at a place.
#[derive(Clone, Copy, Debug, PartialEq, Eq)]
pub enum Serving {
    /// It is not at the place.
    Away,
    /// It took this notice from the mailbox.
    Got(u64),
    /// It executes the place's jobs under this notice.
    Executing(u64),
    /// It executes the place's jobs without a notice.
    Direct,
    /// It found no job waiting there.
    SeenEmpty,
}

/// Whether a sender is looking at a place that nobody uses any more.
#[derive(Clone, Copy, Debug, PartialEq, Eq)]
pub enum Look {
    /// It looks at no place.
    Nowhere,
    /// It has come to look at the place.
    At(u32),
    /// It has seen the note of the place.
    Saw(u32, Note),
}
