//! The owner's steps by which it closes its target and empties its places.

ghost use Rattle.std.specs.Prelude.{◌≡◌, ◌≢◌, ◌<◌, Some, []};
ghost use Rattle.proxy_laws.specs.declared.actors.OwnerState.TheVariants.{Closed, Closing, Open};
ghost use Rattle.proxy_laws.specs.declared.actors.Serving.TheVariants.{Away};
ghost use Rattle.post_core.specs.ClosingSteps.{dropped_own, looked_closed, none_left, own_dropped, some_left};
ghost use Rattle.post_core.specs.ServingSteps.{WorksAt, at_serving, finished_place};
ghost use Rattle.post_core.specs.Steps.{IsOneTable};
ghost use Rattle.post_core.specs.Views.{IsOwnerView, owner_of};

use crate::meant::Meant;
use crate::rule::{Law, Sizes};
use crate::slots::Item;
use crate::views::View;
use atomic_table::{Play, Seat, Shared};
use task_ring::Ring;

/// The owner drops its reference.
pub struct DropOwn;

impl<J: Meant> Play<Ring<Item<J>>, View<J::Meaning>> for DropOwn {
    ghost then = { dropped_own };
}

/// The owner looks how many references are left.
pub struct LookClosed;

impl<J: Meant> Play<Ring<Item<J>>, View<J::Meaning>> for LookClosed {
    ghost then = { looked_closed };
}

/// A closed owner is done with a place.
pub struct ResetPlace;

impl<J: Meant> Play<Ring<Item<J>>, View<J::Meaning>> for ResetPlace {
    ghost then = { finished_place };
}

/// Drops the owner's reference.
pub(crate) fn drop_own<J: Meant>(
    shared: &Shared<Ring<Item<J>>, View<J::Meaning>, Sizes, Law<J>>,
    seat: &mut Seat<Ring<Item<J>>, View<J::Meaning>>,
)
    requires table { IsOneTable seat.old.table_id shared.now.table_id shared.now.key.places }
    requires owner { IsOwnerView seat.old.me.0 × ((owner_of seat.old.me.0).state ≡ Open) }
    ensures seat { (seat.new.table_id ≡ seat.old.table_id) × (seat.new.id ≡ seat.old.id) }
    ensures dropped { seat.new.me ≡ (own_dropped seat.old.me.0, seat.old.me.1) }
{
    shared.fetch_sub::<DropOwn>(seat, 0, 1);
}

/// Looks how many references are left.
pub(crate) fn look_closed<J: Meant>(
    shared: &Shared<Ring<Item<J>>, View<J::Meaning>, Sizes, Law<J>>,
    seat: &mut Seat<Ring<Item<J>>, View<J::Meaning>>,
) -> u64
    requires table { IsOneTable seat.old.table_id shared.now.table_id shared.now.key.places }
    requires owner { IsOwnerView seat.old.me.0 × ((owner_of seat.old.me.0).state ≡ Closing) }
    ensures seat { (seat.new.table_id ≡ seat.old.table_id) × (seat.new.id ≡ seat.old.id) }
    ensures closed { result ≡ 0 → seat.new.me ≡ (none_left seat.old.me.0, seat.old.me.1) }
    ensures referenced { result ≢ 0
        → seat.new.me ≡ (some_left result seat.old.me.0, seat.old.me.1) }
{
    shared.load::<LookClosed>(seat, 0)
}

/// Stores none in the note of a place where no job waits.
pub(crate) fn reset_place<J: Meant>(
    shared: &Shared<Ring<Item<J>>, View<J::Meaning>, Sizes, Law<J>>,
    seat: &mut Seat<Ring<Item<J>>, View<J::Meaning>>,
    place: u32,
)
    requires table { IsOneTable seat.old.table_id shared.now.table_id shared.now.key.places }
    requires near { place < shared.now.key.places }
    requires owner { IsOwnerView seat.old.me.0 × ((owner_of seat.old.me.0).turn ≡ Some place) }
    requires closed { (owner_of seat.old.me.0).state ≡ Closed }
    requires works { WorksAt place seat.old.me.0 }
    requires empty { (owner_of seat.old.me.0).ring ≡ [] }
    ensures seat { (seat.new.table_id ≡ seat.old.table_id) × (seat.new.id ≡ seat.old.id) }
    ensures reset { seat.new.me ≡ (at_serving place Away seat.old.me.0, seat.old.me.1) }
{
    shared.store::<ResetPlace>(seat, 263 + 5 * place as usize, 0);
}
