//! What the owner of a target holds while it closes the target, in each of its states.

ghost use Rattle.std.specs.Prelude.{◌≡◌, ◌<◌, [], length};
ghost use Rattle.std.specs.Option.{ForSome};
ghost use Rattle.proxy_laws.specs.declared.actors.OwnerState.TheVariants.{Closed as IsClosed, Closing as IsClosing};
ghost use Rattle.post_core.specs.ClosingParts.{IsEnding};
ghost use Rattle.post_core.specs.Records.{counts_of, starts_of};

use crate::meant::Meant;
use crate::owner::{Emptied, OwnerHold};
use crate::post::SeenNote;
use proxy_laws::Mark;

/// The owner of a target that takes no more references, until those that are there are given back.
pub struct Closing<J: Meant> {
    pub(crate) hold: OwnerHold<J>,
    /// The place that it executed, if it did.
    pub(crate) left: Option<u32>,
    ghost is_closing: { IsEnding IsClosing left
        (starts_of hold.jobs.items) (counts_of hold.jobs.items) hold.got hold.seat.me.0 },
    ghost empty: { (hold.seat.me.1 ≡ []) × (length hold.jobs.items ≡ hold.seat.table_id.slots) },
    ghost near: { ForSome left (λ place. place < hold.seat.table_id.slots) },
}

/// The owner of a target without references, which cancels the jobs that wait.
pub struct Closed<J: Meant> {
    pub(crate) hold: OwnerHold<J>,
    /// The place that it empties, if it is at one.
    pub(crate) left: Option<u32>,
    pub ghost is_closed: { IsEnding IsClosed left
        (starts_of hold.jobs.items) (counts_of hold.jobs.items) hold.got hold.seat.me.0 },
    ghost empty: { (hold.seat.me.1 ≡ []) × (length hold.jobs.items ≡ hold.seat.table_id.slots) },
    ghost near: { ForSome left (λ place. place < hold.seat.table_id.slots) },
}

/// How many references a closing owner found.
pub enum ClosingLook<J: Meant> {
    /// None, and no other can come.
    Closed(Closed<J>),
    Referenced { closing: Closing<J>, count: u64 },
}

/// What a closed owner found to cancel.
pub enum CancelNext<J: Meant> {
    /// The first job that waited at the place: its number, its mark and itself. It is settled as cancelled, and the
    /// note has seen that.
    Job {
        closed: Closed<J>,
        place: u32,
        nth: u64,
        mark: Mark,
        job: J,
        note: SeenNote<J>,
    },
    /// No job waits at any place.
    Done(Emptied<J>),
}
