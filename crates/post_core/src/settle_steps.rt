//! The step by which the owner settles a job.

ghost use Rattle.std.specs.Prelude.{◌≡◌, ℕ, ◌<◌, []};
ghost use Rattle.proxy_laws.specs.declared.records.FateMark.{FateMark};
ghost use Rattle.proxy_laws.specs.declared.records.FateMark.TheVariants.{Finished};
ghost use Rattle.proxy_laws.specs.Settling.{settler};
ghost use Rattle.post_core.specs.Kept.{listed};
ghost use Rattle.post_core.specs.Steps.{IsActiveHere, IsOneTable, settled_job};
ghost use Rattle.post_core.specs.Views.{IsOwnerView, job_settled, noted, owner_of};
ghost use Rattle.post_core.specs.Words.{place_from, settled_at};

use crate::joining::Noted;
use crate::meant::Meant;
use crate::rule::{Law, Sizes};
use crate::slots::Item;
use crate::views::View;
use atomic_table::{Play, Seat, Shared};
use proxy_laws::FateMark;
use std::marker::{Brand, PhantomData};
use task_ring::Ring;

/// The number of the job that a step settles at its place, and its fate. Each call picks them.
pub trait Settling {
    ghost number: { ℕ };

    ghost fate: { FateMark };
}

impl Settling for Brand {
    ghost number = { 0 };

    ghost fate = { Finished };
}

/// The owner settles a job.
pub struct SettleJob<P> {
    marker: PhantomData<P>,
}

impl<J: Meant, P: Settling> Play<Ring<Item<J>>, View<J::Meaning>> for SettleJob<P> {
    ghost then = { λ st. settled_job (place_from (settled_at 0) st.word) P.number P.fate st };
}

fn settle_as<J: Meant, P: Settling>(
    shared: &Shared<Ring<Item<J>>, View<J::Meaning>, Sizes, Law<J>>,
    seat: &mut Seat<Ring<Item<J>>, View<J::Meaning>>,
    place: u32,
    nth: u64,
    fate: FateMark,
) -> Seat<Ring<Item<J>>, View<J::Meaning>>
    requires table { IsOneTable seat.old.table_id shared.now.table_id shared.now.key.places }
    requires near { (nth ≡ P.number) × (fate ≡ P.fate) × (place < shared.now.key.places) }
    requires owner { IsOwnerView seat.old.me.0 × ((owner_of seat.old.me.0).state ≡ settler fate) }
    requires active { IsActiveHere (listed (owner_of seat.old.me.0).jobs place) nth }
    ensures seat { (seat.new.table_id ≡ seat.old.table_id) × (seat.new.id ≡ seat.old.id)
        × (result.table_id ≡ seat.old.table_id) }
    ensures settled { seat.new.me ≡ (job_settled place nth fate seat.old.me.0, seat.old.me.1) }
    ensures note { result.me ≡ (noted (job_settled place nth fate seat.old.me.0), []) }
{
    shared.fetch_add::<SettleJob<P>>(seat, 265 + 5 * place as usize, 1);
    shared.split_seat::<Noted>(seat)
}

/// Settles a job that is active, and makes a note that has seen it.
pub(crate) fn settle<J: Meant>(
    shared: &Shared<Ring<Item<J>>, View<J::Meaning>, Sizes, Law<J>>,
    seat: &mut Seat<Ring<Item<J>>, View<J::Meaning>>,
    place: u32,
    nth: u64,
    fate: FateMark,
) -> Seat<Ring<Item<J>>, View<J::Meaning>>
    requires table { IsOneTable seat.old.table_id shared.now.table_id shared.now.key.places }
    requires near { place < shared.now.key.places }
    requires owner { IsOwnerView seat.old.me.0 × ((owner_of seat.old.me.0).state ≡ settler fate) }
    requires active { IsActiveHere (listed (owner_of seat.old.me.0).jobs place) nth }
    ensures seat { (seat.new.table_id ≡ seat.old.table_id) × (seat.new.id ≡ seat.old.id)
        × (result.table_id ≡ seat.old.table_id) }
    ensures settled { seat.new.me ≡ (job_settled place nth fate seat.old.me.0, seat.old.me.1) }
    ensures note { result.me ≡ (noted (job_settled place nth fate seat.old.me.0), []) }
{
    settle_as::<J, Brand>(shared, seat, place, nth, fate)
}
