//! The steps of a sender on its target's table, each of which is one event of its world.

ghost use Rattle.std.specs.Prelude.{◌≡◌, ◌≢◌, ◌<◌, ◌≤◌, Some, false, IsTrue, length, slice_index};
ghost use Rattle.atomic_table.specs.Table.{rest};
ghost use Rattle.proxy_laws.specs.declared.actors.Note.{Note};
ghost use Rattle.proxy_laws.specs.declared.actors.Phase.TheVariants.{Holding, Idle, Owing, Referenced};
ghost use Rattle.proxy_laws.specs.Phases.{has_turn_at, note_word, phase_after_swap};
ghost use Rattle.post_core.specs.declared.slots.Item.{Item};
ghost use Rattle.post_core.specs.Kept.{listed};
ghost use Rattle.post_core.specs.SendSteps.{IsNextAt, IsNextMark, SenderHasTurn, added_ref, counted_put, dropped_ref, has_seen_closed, last_held, loaded_refs, meant_item, none_seen, own_marks_max, place_given, references_max, sender_gave_place, sender_took_place, swapped_note};
ghost use Rattle.post_core.specs.Steps.{HoldsRing, IsOneTable};
ghost use Rattle.post_core.specs.Views.{IsPassView, at_phase, job_put, pass_of};
ghost use Rattle.post_core.specs.Words.{note_at, place_from, put_at, turn_place};

use crate::meant::Meant;
use crate::rule::{Law, Sizes};
use crate::slots::Item;
use crate::views::View;
use atomic_table::{Play, Seat, Shared};
use task_ring::Ring;

/// A pass looks how many references there are.
pub struct LoadRefs;

impl<J: Meant> Play<Ring<Item<J>>, View<J::Meaning>> for LoadRefs {
    ghost then = { loaded_refs };
}

/// A pass adds a reference.
pub struct AddRef;

impl<J: Meant> Play<Ring<Item<J>>, View<J::Meaning>> for AddRef {
    ghost then = { added_ref };
}

/// A pass drops its reference.
pub struct DropRef;

impl<J: Meant> Play<Ring<Item<J>>, View<J::Meaning>> for DropRef {
    ghost then = { dropped_ref };
}

/// A pass tries to take the turn of a place.
pub struct SenderTakePlace;

impl<J: Meant> Play<Ring<Item<J>>, View<J::Meaning>> for SenderTakePlace {
    ghost then = { λ st. sender_took_place J.meaning (turn_place st.word) st };
}

/// A pass counts a job as put.
pub struct CountPut;

impl<J: Meant> Play<Ring<Item<J>>, View<J::Meaning>> for CountPut {
    ghost then = { λ st. counted_put J.meaning (place_from (put_at 0) st.word) st };
}

/// A pass gives the turn of a place back.
pub struct SenderGivePlace;

impl<J: Meant> Play<Ring<Item<J>>, View<J::Meaning>> for SenderGivePlace {
    ghost then = { λ st. sender_gave_place (turn_place st.word) st };
}

/// A pass swaps the note of a place.
pub struct SwapNote;

impl<J: Meant> Play<Ring<Item<J>>, View<J::Meaning>> for SwapNote {
    ghost then = { λ st. swapped_note (place_from (note_at 0) st.word) st };
}

// How many references there are.
pub(crate) fn load_refs<J: Meant>(
    shared: &Shared<Ring<Item<J>>, View<J::Meaning>, Sizes, Law<J>>,
    seat: &mut Seat<Ring<Item<J>>, View<J::Meaning>>,
) -> u64
    requires table { IsOneTable seat.old.table_id shared.now.table_id shared.now.key.places }
    requires idle { IsPassView seat.old.me.0 × ((pass_of seat.old.me.0).phase ≡ Idle) }
    ensures seat { (seat.new.table_id ≡ seat.old.table_id) × (seat.new.id ≡ seat.old.id) }
    ensures few { result ≤ references_max }
    ensures none { result ≡ 0 → seat.new.me ≡ (none_seen seat.old.me.0, seat.old.me.1) }
    ensures there { result ≢ 0 → seat.new.me ≡ seat.old.me }
{
    shared.load::<LoadRefs>(seat, 0)
}

// Adds a reference where there are as many as were seen, and answers how many there were.
pub(crate) fn add_ref<J: Meant>(
    shared: &Shared<Ring<Item<J>>, View<J::Meaning>, Sizes, Law<J>>,
    seat: &mut Seat<Ring<Item<J>>, View<J::Meaning>>,
    seen: u64,
) -> u64
    requires table { IsOneTable seat.old.table_id shared.now.table_id shared.now.key.places }
    requires idle { IsPassView seat.old.me.0 × ((pass_of seat.old.me.0).phase ≡ Idle) }
    requires seen { (1 ≤ seen) × (seen ≤ references_max) }
    ensures seat { (seat.new.table_id ≡ seat.old.table_id) × (seat.new.id ≡ seat.old.id) }
    ensures added { result ≡ seen → (has_seen_closed seat.old.me.0 ≡ false)
        × (seat.new.me ≡ (at_phase Referenced seat.old.me.0, seat.old.me.1)) }
    ensures few { result ≢ seen → result ≤ references_max }
    ensures none { result ≢ seen → result ≡ 0
        → seat.new.me ≡ (none_seen seat.old.me.0, seat.old.me.1) }
    ensures there { result ≢ seen → result ≢ 0 → seat.new.me ≡ seat.old.me }
{
    shared.compare_exchange::<AddRef>(seat, 0, seen, seen + 1)
}

// Drops the pass's reference, and answers how many there were.
pub(crate) fn drop_ref<J: Meant>(
    shared: &Shared<Ring<Item<J>>, View<J::Meaning>, Sizes, Law<J>>,
    seat: &mut Seat<Ring<Item<J>>, View<J::Meaning>>,
) -> u64
    requires table { IsOneTable seat.old.table_id shared.now.table_id shared.now.key.places }
    requires referenced { IsPassView seat.old.me.0 × ((pass_of seat.old.me.0).phase ≡ Referenced) }
    ensures seat { (seat.new.table_id ≡ seat.old.table_id) × (seat.new.id ≡ seat.old.id) }
    ensures dropped { seat.new.me ≡ (at_phase Idle seat.old.me.0, seat.old.me.1) }
{
    shared.fetch_sub::<DropRef>(seat, 0, 1)
}

// Tries to take the turn of a place, with its ring, and answers what its word held.
pub(crate) fn try_turn<J: Meant>(
    shared: &Shared<Ring<Item<J>>, View<J::Meaning>, Sizes, Law<J>>,
    seat: &mut Seat<Ring<Item<J>>, View<J::Meaning>>,
    place: u32,
) -> u64
    requires table { IsOneTable seat.old.table_id shared.now.table_id shared.now.key.places }
    requires near { place < shared.now.key.places }
    requires referenced { IsPassView seat.old.me.0 × ((pass_of seat.old.me.0).phase ≡ Referenced) }
    requires used { 0 < slice_index (pass_of seat.old.me.0).uses place }
    ensures seat { (seat.new.table_id ≡ seat.old.table_id) × (seat.new.id ≡ seat.old.id) }
    ensures hit { result ≡ 0 → SenderHasTurn J.meaning place seat.old.me seat.new.me }
    ensures miss { result ≢ 0 → seat.new.me ≡ seat.old.me }
{
    shared.compare_exchange::<SenderTakePlace>(seat, 1 + place as usize, 0, 1)
}

// Counts the job that was pushed last into the ring of a place as put, and answers its number there.
pub(crate) fn count_put<J: Meant>(
    shared: &Shared<Ring<Item<J>>, View<J::Meaning>, Sizes, Law<J>>,
    seat: &mut Seat<Ring<Item<J>>, View<J::Meaning>>,
    place: u32,
) -> u64
    requires table { IsOneTable seat.old.table_id shared.now.table_id shared.now.key.places }
    requires near { place < shared.now.key.places }
    requires holding { IsPassView seat.old.me.0 × ((pass_of seat.old.me.0).phase ≡ Holding place) }
    requires room { length (listed (pass_of seat.old.me.0).own place) < own_marks_max }
    requires job { (item : Item J) × (last_held seat.old.me.1 ≡ Some item)
        × IsNextMark place item.mark seat.old.me.0
        × J.suits shared.now.key.target place item.mark (J.meaning item.job) }
    ensures seat { (seat.new.table_id ≡ seat.old.table_id) × (seat.new.id ≡ seat.old.id) }
    ensures nth { IsNextAt place result seat.old.me.0 }
    ensures counted { (item : Item J) → last_held seat.old.me.1 ≡ Some item → seat.new.me
        ≡ (job_put place result (meant_item J.meaning item) seat.old.me.0, seat.old.me.1) }
{
    shared.fetch_add::<CountPut>(seat, 261 + 5 * place as usize, 1)
}

// Gives the turn of a place back, with the ring that its slot holds.
pub(crate) fn give_turn<J: Meant>(
    shared: &Shared<Ring<Item<J>>, View<J::Meaning>, Sizes, Law<J>>,
    seat: &mut Seat<Ring<Item<J>>, View<J::Meaning>>,
    place: u32,
)
    requires table { IsOneTable seat.old.table_id shared.now.table_id shared.now.key.places }
    requires near { place < shared.now.key.places }
    requires turn { IsPassView seat.old.me.0
        × IsTrue (has_turn_at place (pass_of seat.old.me.0).phase) }
    requires holds { HoldsRing J.meaning place (pass_of seat.old.me.0).ring seat.old.me.1 }
    ensures seat { (seat.new.table_id ≡ seat.old.table_id) × (seat.new.id ≡ seat.old.id) }
    ensures given { seat.new.me ≡ (place_given place seat.old.me.0, rest seat.old.me.1) }
{
    shared.store::<SenderGivePlace>(seat, 1 + place as usize, 0);
}

// Swaps the note of a place for pending, and answers what it was.
pub(crate) fn swap_note<J: Meant>(
    shared: &Shared<Ring<Item<J>>, View<J::Meaning>, Sizes, Law<J>>,
    seat: &mut Seat<Ring<Item<J>>, View<J::Meaning>>,
    place: u32,
) -> u64
    requires table { IsOneTable seat.old.table_id shared.now.table_id shared.now.key.places }
    requires near { place < shared.now.key.places }
    requires owes { IsPassView seat.old.me.0 × ((pass_of seat.old.me.0).phase ≡ Owing place) }
    ensures seat { (seat.new.table_id ≡ seat.old.table_id) × (seat.new.id ≡ seat.old.id) }
    ensures found { (note : Note) × (result ≡ note_word note)
        × (seat.new.me ≡ (at_phase (phase_after_swap place note) seat.old.me.0, seat.old.me.1)) }
{
    shared.swap::<SwapNote>(seat, 263 + 5 * place as usize, 1)
}
