//! What the owner of a target holds, in each of its states. A thread is in one of them.

ghost use Rattle.std.specs.Prelude.{◌≡◌, ◌<◌, true, [], length};
ghost use Rattle.proxy_laws.specs.declared.actors.Serving.TheVariants.{Got as GotUnder};
ghost use Rattle.proxy_laws.specs.Phases.{serving_after_look};
ghost use Rattle.post_core.specs.Parts.{IsEmptied, IsOwner, IsOwnerAt, is_open_start, serving_of};
ghost use Rattle.post_core.specs.Records.{counts_of, starts_of};

use crate::meant::Meant;
use crate::records::PlaceJobs;
use crate::slots::Item;
use crate::views::View;
use atomic_table::Seat;
use crossbeam_utils::sync::Parker;
use proxy_laws::{Mark, Started};
use task_ring::Ring;

/// What an owner holds in each of its states.
pub(crate) struct OwnerHold<J: Meant> {
    pub(crate) seat: Seat<Ring<Item<J>>, View<J::Meaning>>,
    pub(crate) target: u32,
    /// By place.
    pub(crate) jobs: Vec<PlaceJobs>,
    /// How many notices it got.
    pub(crate) got: u64,
    pub(crate) parker: Parker,
}

/// The owner of an open target, which works nowhere.
pub struct Owner<J: Meant> {
    pub(crate) hold: OwnerHold<J>,
    pub ghost is_owner: { IsOwner
        (starts_of hold.jobs.items) (counts_of hold.jobs.items) hold.got hold.seat.me.0 },
    ghost empty: { (hold.seat.me.1 ≡ []) × (length hold.jobs.items ≡ hold.seat.table_id.slots) },
}

/// An owner that has got a notice of a place.
pub struct Got<J: Meant> {
    pub(crate) hold: OwnerHold<J>,
    pub(crate) place: u32,
    pub ghost is_got: { IsOwnerAt place (GotUnder hold.got)
        (starts_of hold.jobs.items) (counts_of hold.jobs.items) hold.got hold.seat.me.0 },
    ghost empty: { (hold.seat.me.1 ≡ []) × (length hold.jobs.items ≡ hold.seat.table_id.slots) },
    ghost near: { place < hold.seat.table_id.slots },
}

/// An owner that executes the jobs of a place.
pub struct Exec<J: Meant> {
    pub(crate) hold: OwnerHold<J>,
    pub(crate) place: u32,
    /// What starts the jobs that it takes.
    pub(crate) start: Started,
    pub ghost is_exec: { IsOwnerAt place (serving_of start)
        (starts_of hold.jobs.items) (counts_of hold.jobs.items) hold.got hold.seat.me.0 },
    pub ghost runs: { is_open_start start ≡ true },
    ghost empty: { (hold.seat.me.1 ≡ []) × (length hold.jobs.items ≡ hold.seat.table_id.slots) },
    ghost near: { place < hold.seat.table_id.slots },
}

/// An owner that has found no job waiting at the place that it executed.
pub struct SeenEmpty<J: Meant> {
    pub(crate) hold: OwnerHold<J>,
    pub(crate) place: u32,
    pub(crate) start: Started,
    ghost is_seen: { IsOwnerAt place (serving_after_look (serving_of start))
        (starts_of hold.jobs.items) (counts_of hold.jobs.items) hold.got hold.seat.me.0 },
    ghost runs: { is_open_start start ≡ true },
    ghost empty: { (hold.seat.me.1 ≡ []) × (length hold.jobs.items ≡ hold.seat.table_id.slots) },
    ghost near: { place < hold.seat.table_id.slots },
}

/// The owner of a target that is closed and at which nothing waits.
pub struct Emptied<J: Meant> {
    pub(crate) hold: OwnerHold<J>,
    ghost is_emptied: { IsEmptied
        (starts_of hold.jobs.items) (counts_of hold.jobs.items) hold.seat.me.0 },
    ghost empty: { (hold.seat.me.1 ≡ []) × (length hold.jobs.items ≡ hold.seat.table_id.slots) },
}

/// What an owner found in its mailbox.
pub enum Noticed<J: Meant> {
    Got(Got<J>),
    Nothing(Owner<J>),
}

/// What an owner took at the place that it executes.
pub enum Taken<J: Meant> {
    /// The first job that waited there: its number, its mark and itself.
    Job {
        exec: Exec<J>,
        nth: u64,
        mark: Mark,
        job: J,
    },
    Empty(SeenEmpty<J>),
}
