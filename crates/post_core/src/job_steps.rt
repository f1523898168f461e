//! The step by which the owner takes a job.

ghost use Rattle.std.specs.Prelude.{◌≡◌, ℕ, ◌^◌, ◌<◌, Some, length};
ghost use Rattle.post_core.specs.Kept.{listed};
ghost use Rattle.post_core.specs.ServingSteps.{WorksAt};
ghost use Rattle.post_core.specs.Steps.{FirstSuits, IsOneTable, took_job};
ghost use Rattle.post_core.specs.Views.{IsOwnerView, job_taken, owner_of};
ghost use Rattle.post_core.specs.Words.{place_from, taken_at};

use crate::meant::Meant;
use crate::rule::{Law, Sizes};
use crate::slots::Item;
use crate::views::View;
use atomic_table::{Play, Seat, Shared};
use std::marker::{Brand, PhantomData};
use task_ring::Ring;

/// The target of a step. Each call picks it.
pub trait AtTarget {
    ghost target: { ℕ };
}

impl AtTarget for Brand {
    ghost target = { 0 };
}

/// The owner takes a job.
pub struct TakeJob<P> {
    marker: PhantomData<P>,
}

impl<J: Meant, P: AtTarget> Play<Ring<Item<J>>, View<J::Meaning>> for TakeJob<P> {
    ghost then = { λ st. took_job (J.suits P.target) (place_from (taken_at 0) st.word) st };
}

fn start_job_as<J: Meant, P: AtTarget>(
    shared: &Shared<Ring<Item<J>>, View<J::Meaning>, Sizes, Law<J>>,
    seat: &mut Seat<Ring<Item<J>>, View<J::Meaning>>,
    place: u32,
) -> u64
    requires table { IsOneTable seat.old.table_id shared.now.table_id shared.now.key.places }
    requires near { (shared.now.key.target ≡ P.target) × (place < shared.now.key.places) }
    requires owner { IsOwnerView seat.old.me.0 × ((owner_of seat.old.me.0).turn ≡ Some place) }
    requires works { WorksAt place seat.old.me.0 }
    requires waits { 0 < length (owner_of seat.old.me.0).ring }
    ensures seat { (seat.new.table_id ≡ seat.old.table_id) × (seat.new.id ≡ seat.old.id) }
    ensures nth { result ≡ length (listed (owner_of seat.old.me.0).jobs place) }
    ensures few { result < 2 ^ 63 }
    ensures suits { FirstSuits (J.suits shared.now.key.target place) (owner_of seat.old.me.0).ring }
    ensures taken { seat.new.me ≡ (job_taken place seat.old.me.0, seat.old.me.1) }
{
    shared.fetch_add::<TakeJob<P>>(seat, 262 + 5 * place as usize, 1)
}

/// Counts the first job that waits at a place as taken, and answers its number. The job suits its mark.
pub(crate) fn start_job<J: Meant>(
    shared: &Shared<Ring<Item<J>>, View<J::Meaning>, Sizes, Law<J>>,
    seat: &mut Seat<Ring<Item<J>>, View<J::Meaning>>,
    place: u32,
) -> u64
    requires table { IsOneTable seat.old.table_id shared.now.table_id shared.now.key.places }
    requires near { place < shared.now.key.places }
    requires owner { IsOwnerView seat.old.me.0 × ((owner_of seat.old.me.0).turn ≡ Some place) }
    requires works { WorksAt place seat.old.me.0 }
    requires waits { 0 < length (owner_of seat.old.me.0).ring }
    ensures seat { (seat.new.table_id ≡ seat.old.table_id) × (seat.new.id ≡ seat.old.id) }
    ensures nth { result ≡ length (listed (owner_of seat.old.me.0).jobs place) }
    ensures few { result < 2 ^ 63 }
    ensures suits { FirstSuits (J.suits shared.now.key.target place) (owner_of seat.old.me.0).ring }
    ensures taken { seat.new.me ≡ (job_taken place seat.old.me.0, seat.old.me.1) }
{
    start_job_as::<J, Brand>(shared, seat, place)
}
