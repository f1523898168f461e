//! The events of a target's world.

use crate::actors::Actor;

/// One atomic step on a target's table. Numbers name a sender, then a place.
#[derive(Clone, Copy, Debug, PartialEq, Eq)]
pub enum Event {
    /// An idle sender reads the count of references.
    LoadRefs(u32),
    /// An idle sender gets a reference, where the count is not 0.
    AddRef(u32),
    /// A sender that is at no place gives its reference back.
    DropRef(u32),
    /// A sender or the owner takes the turn of the place.
    TakePlace(Actor, u32),
    /// A sender with the turn of the place puts a job there. The third number is the tag of the new mark.
    Put(u32, u32, u64),
    /// Whoever has the turn of the place gives it back.
    GivePlace(Actor, u32),
    /// A sender that owes a notification has the note of the place be pending.
    SwapNote(u32, u32),
    /// A messenger adds its notice to the mailbox, whose note is then pending.
    AddMail(u32),
    /// The owner reads a word of the mailbox, of number 0 to 3.
    LookMail(u32),
    /// The owner takes the notice of the place from the mailbox.
    TakeNotice(u32),
    /// The owner begins to execute a place that it has got, and has its note be received.
    Receive(u32),
    /// The owner begins to execute the place without a notice.
    Direct(u32),
    /// The owner takes the first job that waits at the place.
    TakeJob(u32),
    /// The owner sees that no job waits at the place, and leaves it where it came without a notice.
    LookPlace(u32),
    /// The owner leaves a place that it has seen empty, whose note becomes none unless it is pending.
    Finish(u32),
    /// An open owner finishes a job that it took: a place, and the number of the job there, counted from 0.
    SettleFinished(u32, u64),
    /// A closed owner cancels a job that was taken: a place, and the number of the job there, counted from 0.
    SettleCancelled(u32, u64),
    /// The owner gives its own reference back, and is closing.
    DropOwn,
    /// A closing owner reads the count of references, and is closed where it is 0.
    LookClosed,
    /// A closed owner leaves a place that it has emptied, whose note is then none.
    ResetPlace(u32),
    /// The sender gets the one use of a free place.
    Create(u32, u32),
    /// The sender gets one more use of the place.
    CloneUse(u32, u32),
    /// The sender gives back a use of a place other than 0, and looks at the place where no use is left.
    ReleaseUse(u32, u32),
    /// The sender comes to look at a zombie.
    Claim(u32, u32),
    /// The sender sees the note of the place that it looks at.
    LookNote(u32, u32),
    /// The sender frees the place that it looks at where the note that it saw was none, and else makes it a zombie.
    MarkLife(u32, u32),
    /// It changes nothing, and any actor may bring it.
    Split(Actor),
    /// It changes nothing, and comes of an idle sender.
    Join(u32),
}
