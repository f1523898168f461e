//! The steps of a sender that does not wait: each exchange is tried once, and kept where it fails.

ghost use Rattle.std.specs.Prelude.{◌≡◌, ◌≢◌, ◌<◌, ◌≤◌, false, slice_index};
ghost use Rattle.proxy_laws.specs.declared.actors.Phase.TheVariants.{Idle, Referenced};
ghost use Rattle.post_core.specs.declared.slots.Item.{Item};
ghost use Rattle.post_core.specs.SendSteps.{SenderHasTurn, has_seen_closed, none_seen, references_max};
ghost use Rattle.post_core.specs.Steps.{IsOneTable};
ghost use Rattle.post_core.specs.TrySteps.{exchange_failed, tried_ref, tried_turn};
ghost use Rattle.post_core.specs.Views.{IsPassView, at_phase, pass_of};
ghost use Rattle.post_core.specs.Words.{refs_at, turn_at, turn_place};

use crate::meant::Meant;
use crate::rule::{Law, Sizes};
use crate::slots::Item;
use crate::views::View;
use atomic_table::{Play, Seat, Shared};
use task_ring::Ring;

/// A pass tries once to add a reference.
pub struct TryRef;

impl<J: Meant> Play<Ring<Item<J>>, View<J::Meaning>> for TryRef {
    ghost then = { tried_ref };
}

/// A pass tries once to take the turn of a place.
pub struct TryTurn;

impl<J: Meant> Play<Ring<Item<J>>, View<J::Meaning>> for TryTurn {
    ghost then = { λ st. tried_turn J.meaning (turn_place st.word) st };
}

// Adds a reference where there are as many as were seen, and answers how many there were. The pass keeps an exchange that
// failed.
pub(crate) fn try_ref<J: Meant>(
    shared: &Shared<Ring<Item<J>>, View<J::Meaning>, Sizes, Law<J>>,
    seat: &mut Seat<Ring<Item<J>>, View<J::Meaning>>,
    seen: u64,
) -> u64
    requires table { IsOneTable seat.old.table_id shared.now.table_id shared.now.key.places }
    requires idle { IsPassView seat.old.me.0 × ((pass_of seat.old.me.0).phase ≡ Idle) }
    requires seen { (1 ≤ seen) × (seen ≤ references_max) }
    ensures seat { seat.new.table_id ≡ seat.old.table_id }
    ensures added { result ≡ seen → (has_seen_closed seat.old.me.0 ≡ false)
        × (seat.new.me ≡ (at_phase Referenced seat.old.me.0, seat.old.me.1)) }
    ensures none { result ≢ seen → result ≡ 0
        → seat.new.me ≡ (none_seen (exchange_failed refs_at seen 0 seat.old.me.0), seat.old.me.1) }
    ensures missed { result ≢ seen → result ≢ 0
        → seat.new.me ≡ (exchange_failed refs_at seen result seat.old.me.0, seat.old.me.1) }
{
    shared.compare_exchange::<TryRef>(seat, 0, seen, seen + 1)
}

// Takes the turn of a place, with its ring, where it is free, and answers what its word held. The pass keeps an exchange
// that failed.
pub(crate) fn try_turn_once<J: Meant>(
    shared: &Shared<Ring<Item<J>>, View<J::Meaning>, Sizes, Law<J>>,
    seat: &mut Seat<Ring<Item<J>>, View<J::Meaning>>,
    place: u32,
) -> u64
    requires table { IsOneTable seat.old.table_id shared.now.table_id shared.now.key.places }
    requires near { place < shared.now.key.places }
    requires referenced { IsPassView seat.old.me.0 × ((pass_of seat.old.me.0).phase ≡ Referenced) }
    requires used { 0 < slice_index (pass_of seat.old.me.0).uses place }
    ensures seat { seat.new.table_id ≡ seat.old.table_id }
    ensures hit { result ≡ 0 → SenderHasTurn J.meaning place seat.old.me seat.new.me }
    ensures miss { result ≢ 0 → (result ≡ 1)
        × (seat.new.me ≡ (exchange_failed (turn_at place) 0 1 seat.old.me.0, seat.old.me.1)) }
{
    shared.compare_exchange::<TryTurn>(seat, 1 + place as usize, 0, 1)
}
