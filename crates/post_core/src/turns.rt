//! The owner's steps on the turn of a place.

ghost use Rattle.std.specs.Prelude.{◌≡◌, ◌≢◌, ◌<◌, None, Some};
ghost use Rattle.atomic_table.specs.Table.{rest};
ghost use Rattle.post_core.specs.declared.slots.Item.{Item};
ghost use Rattle.post_core.specs.ServingSteps.{WorksAt};
ghost use Rattle.post_core.specs.Steps.{HasTakenTurn, HoldsRing, IsOneTable, gave_place, took_place};
ghost use Rattle.post_core.specs.Views.{IsOwnerView, owner_of, turn_given};
ghost use Rattle.post_core.specs.Words.{turn_place};

use crate::meant::Meant;
use crate::rule::{Law, Sizes};
use crate::slots::Item;
use crate::views::View;
use atomic_table::{Play, Seat, Shared};
use task_ring::Ring;

/// The owner tries to take the turn of a place.
pub struct TakePlace;

impl<J: Meant> Play<Ring<Item<J>>, View<J::Meaning>> for TakePlace {
    ghost then = { λ st. took_place J.meaning (turn_place st.word) st };
}

/// The owner gives the turn back.
pub struct GivePlace;

impl<J: Meant> Play<Ring<Item<J>>, View<J::Meaning>> for GivePlace {
    ghost then = { gave_place };
}

/// Tries to take the turn of a place, with its ring, and answers what its word held.
pub(crate) fn try_place<J: Meant>(
    shared: &Shared<Ring<Item<J>>, View<J::Meaning>, Sizes, Law<J>>,
    seat: &mut Seat<Ring<Item<J>>, View<J::Meaning>>,
    place: u32,
) -> u64
    requires table { IsOneTable seat.old.table_id shared.now.table_id shared.now.key.places }
    requires near { place < shared.now.key.places }
    requires owner { IsOwnerView seat.old.me.0 × ((owner_of seat.old.me.0).turn ≡ None) }
    requires works { WorksAt place seat.old.me.0 }
    ensures seat { (seat.new.table_id ≡ seat.old.table_id) × (seat.new.id ≡ seat.old.id) }
    ensures hit { result ≡ 0 → HasTakenTurn J.meaning place seat.old.me seat.new.me }
    ensures miss { result ≢ 0 → seat.new.me ≡ seat.old.me }
{
    shared.compare_exchange::<TakePlace>(seat, 1 + place as usize, 0, 1)
}

/// Gives the turn of a place back, with the ring that its slot holds.
pub(crate) fn give_place<J: Meant>(
    shared: &Shared<Ring<Item<J>>, View<J::Meaning>, Sizes, Law<J>>,
    seat: &mut Seat<Ring<Item<J>>, View<J::Meaning>>,
    place: u32,
)
    requires table { IsOneTable seat.old.table_id shared.now.table_id shared.now.key.places }
    requires near { place < shared.now.key.places }
    requires owner { IsOwnerView seat.old.me.0 × ((owner_of seat.old.me.0).turn ≡ Some place) }
    requires holds { HoldsRing J.meaning place (owner_of seat.old.me.0).ring seat.old.me.1 }
    ensures seat { (seat.new.table_id ≡ seat.old.table_id) × (seat.new.id ≡ seat.old.id) }
    ensures given { seat.new.me ≡ (turn_given seat.old.me.0, rest seat.old.me.1) }
{
    shared.store::<GivePlace>(seat, 1 + place as usize, 0);
}
