//! The steps of a pass on the lives of places, each of which is one event of its world.

ghost use Rattle.std.specs.Prelude.{◌≡◌, ◌≢◌, ◌+◌, ◌<◌, IsTrue, slice_index};
ghost use Rattle.proxy_laws.specs.declared.actors.Look.TheVariants.{Nowhere};
ghost use Rattle.proxy_laws.specs.declared.actors.Note.{Note};
ghost use Rattle.proxy_laws.specs.declared.actors.Phase.TheVariants.{Idle};
ghost use Rattle.proxy_laws.specs.Phases.{has_seen_note, life_after_mark, looks_at, note_word};
ghost use Rattle.post_core.specs.LifeSteps.{cloned_use, dropped_use, life_marked, looked_note, marked_life, note_looked, place_claimed, place_tried, tried_claim, tried_create, use_cloned, use_dropped};
ghost use Rattle.post_core.specs.Rule.{clones_max};
ghost use Rattle.post_core.specs.Steps.{IsOneTable};
ghost use Rattle.post_core.specs.Views.{IsPassView, pass_of, place_created, place_found};
ghost use Rattle.post_core.specs.Words.{life_at, note_at, place_from};

use crate::meant::Meant;
use crate::rule::{Law, Sizes};
use crate::slots::Item;
use crate::views::View;
use atomic_table::{Play, Seat, Shared};
use task_ring::Ring;

/// A pass clones a use of a place.
pub struct CloneUse;

impl<J: Meant> Play<Ring<Item<J>>, View<J::Meaning>> for CloneUse {
    ghost then = { λ st. cloned_use (place_from (life_at 0) st.word) st };
}

/// A pass gives a use of a place back.
pub struct ReleaseUse;

impl<J: Meant> Play<Ring<Item<J>>, View<J::Meaning>> for ReleaseUse {
    ghost then = { λ st. dropped_use (place_from (life_at 0) st.word) st };
}

/// A pass tries to claim a zombie.
pub struct Claim;

impl<J: Meant> Play<Ring<Item<J>>, View<J::Meaning>> for Claim {
    ghost then = { λ st. tried_claim (place_from (life_at 0) st.word) st };
}

/// A pass looks at the note of a place.
pub struct LookNote;

impl<J: Meant> Play<Ring<Item<J>>, View<J::Meaning>> for LookNote {
    ghost then = { λ st. looked_note (place_from (note_at 0) st.word) st };
}

/// A pass marks the life of a place.
pub struct MarkLife;

impl<J: Meant> Play<Ring<Item<J>>, View<J::Meaning>> for MarkLife {
    ghost then = { λ st. marked_life (place_from (life_at 0) st.word) st };
}

/// A pass tries to create a place.
pub struct Create;

impl<J: Meant> Play<Ring<Item<J>>, View<J::Meaning>> for Create {
    ghost then = { λ st. tried_create (place_from (life_at 0) st.word) st };
}

// Adds a use of a place of which the pass has one.
pub(crate) fn add_use<J: Meant>(
    shared: &Shared<Ring<Item<J>>, View<J::Meaning>, Sizes, Law<J>>,
    seat: &mut Seat<Ring<Item<J>>, View<J::Meaning>>,
    place: u32,
)
    requires table { IsOneTable seat.old.table_id shared.now.table_id shared.now.key.places }
    requires near { place < shared.now.key.places }
    requires idle { IsPassView seat.old.me.0 × ((pass_of seat.old.me.0).phase ≡ Idle) }
    requires used { 0 < slice_index (pass_of seat.old.me.0).uses place }
    requires few { (pass_of seat.old.me.0).clones < clones_max }
    ensures seat { (seat.new.table_id ≡ seat.old.table_id) × (seat.new.id ≡ seat.old.id) }
    ensures cloned { seat.new.me ≡ (use_cloned place seat.old.me.0, seat.old.me.1) }
{
    shared.fetch_add::<CloneUse>(seat, 264 + 5 * place as usize, 1);
}

// Gives a use of a place other than 0 back, and answers the life that the place had: 2 and the uses of the pass.
pub(crate) fn drop_use<J: Meant>(
    shared: &Shared<Ring<Item<J>>, View<J::Meaning>, Sizes, Law<J>>,
    seat: &mut Seat<Ring<Item<J>>, View<J::Meaning>>,
    place: u32,
) -> u64
    requires table { IsOneTable seat.old.table_id shared.now.table_id shared.now.key.places }
    requires near { place < shared.now.key.places }
    requires idle { IsPassView seat.old.me.0 × ((pass_of seat.old.me.0).phase ≡ Idle) }
    requires used { 0 < slice_index (pass_of seat.old.me.0).uses place }
    requires nowhere { (pass_of seat.old.me.0).look ≡ Nowhere }
    requires other { place ≢ 0 }
    ensures seat { (seat.new.table_id ≡ seat.old.table_id) × (seat.new.id ≡ seat.old.id) }
    ensures found { result ≡ 2 + slice_index (pass_of seat.old.me.0).uses place }
    ensures dropped { seat.new.me ≡ (use_dropped place seat.old.me.0, seat.old.me.1) }
{
    shared.fetch_sub::<ReleaseUse>(seat, 264 + 5 * place as usize, 1)
}

// Claims a place where it is a zombie, and answers the life that it had.
pub(crate) fn try_claim<J: Meant>(
    shared: &Shared<Ring<Item<J>>, View<J::Meaning>, Sizes, Law<J>>,
    seat: &mut Seat<Ring<Item<J>>, View<J::Meaning>>,
    place: u32,
) -> u64
    requires table { IsOneTable seat.old.table_id shared.now.table_id shared.now.key.places }
    requires near { place < shared.now.key.places }
    requires nowhere { IsPassView seat.old.me.0 × ((pass_of seat.old.me.0).look ≡ Nowhere) }
    ensures seat { (seat.new.table_id ≡ seat.old.table_id) × (seat.new.id ≡ seat.old.id) }
    ensures hit { result ≡ 1 → seat.new.me ≡ (place_claimed place seat.old.me.0, seat.old.me.1) }
    ensures miss { result ≢ 1 → seat.new.me ≡ (place_tried place seat.old.me.0, seat.old.me.1) }
{
    shared.compare_exchange::<Claim>(seat, 264 + 5 * place as usize, 1, 2)
}

// The note of a place that the pass looks at.
pub(crate) fn look_note<J: Meant>(
    shared: &Shared<Ring<Item<J>>, View<J::Meaning>, Sizes, Law<J>>,
    seat: &mut Seat<Ring<Item<J>>, View<J::Meaning>>,
    place: u32,
) -> u64
    requires table { IsOneTable seat.old.table_id shared.now.table_id shared.now.key.places }
    requires near { place < shared.now.key.places }
    requires looks { IsPassView seat.old.me.0
        × IsTrue (looks_at place (pass_of seat.old.me.0).look) }
    ensures seat { (seat.new.table_id ≡ seat.old.table_id) × (seat.new.id ≡ seat.old.id) }
    ensures found { (note : Note) × (result ≡ note_word note)
        × (seat.new.me ≡ (note_looked place note seat.old.me.0, seat.old.me.1)) }
{
    shared.load::<LookNote>(seat, 263 + 5 * place as usize)
}

// Marks the life of a place by the note that the pass saw there: 0 where it was none, else 1.
pub(crate) fn mark_life<J: Meant>(
    shared: &Shared<Ring<Item<J>>, View<J::Meaning>, Sizes, Law<J>>,
    seat: &mut Seat<Ring<Item<J>>, View<J::Meaning>>,
    place: u32,
    life: u64,
)
    requires table { IsOneTable seat.old.table_id shared.now.table_id shared.now.key.places }
    requires near { place < shared.now.key.places }
    requires looks { IsPassView seat.old.me.0
        × IsTrue (looks_at place (pass_of seat.old.me.0).look) }
    requires saw { IsTrue (has_seen_note (pass_of seat.old.me.0).look)
        × (life ≡ life_after_mark (pass_of seat.old.me.0).look) }
    ensures seat { (seat.new.table_id ≡ seat.old.table_id) × (seat.new.id ≡ seat.old.id) }
    ensures marked { seat.new.me ≡ (life_marked place seat.old.me.0, seat.old.me.1) }
{
    shared.store::<MarkLife>(seat, 264 + 5 * place as usize, life);
}

// Creates a place other than 0 where it is free, and answers the life that it had.
pub(crate) fn try_create<J: Meant>(
    shared: &Shared<Ring<Item<J>>, View<J::Meaning>, Sizes, Law<J>>,
    seat: &mut Seat<Ring<Item<J>>, View<J::Meaning>>,
    place: u32,
) -> u64
    requires table { IsOneTable seat.old.table_id shared.now.table_id shared.now.key.places }
    requires near { place < shared.now.key.places }
    requires idle { IsPassView seat.old.me.0 }
    requires other { place ≢ 0 }
    ensures seat { (seat.new.table_id ≡ seat.old.table_id) × (seat.new.id ≡ seat.old.id) }
    ensures hit { result ≡ 0
        → (seat.new.me ≡ (place_created place seat.old.me.0, seat.old.me.1))
        × (slice_index (pass_of (place_created place seat.old.me.0)).uses place ≡ 1) }
    ensures miss { result ≢ 0 → seat.new.me ≡ (place_found place seat.old.me.0, seat.old.me.1) }
{
    shared.compare_exchange::<Create>(seat, 264 + 5 * place as usize, 0, 3)
}
