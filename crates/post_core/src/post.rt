//! A target's table, and what senders and the owner hold of it.

ghost use Rattle.std.specs.Prelude.{◌≡◌, ◌<◌, [], map, length};
ghost use Rattle.post_core.specs.Parts.{IsPass};
ghost use Rattle.post_core.specs.Views.{noted};
ghost use Rattle.post_core.specs.Words.{word_count};
ghost use Rattle.proxy_laws.specs.declared.actors.Phase.TheVariants.{Idle, Messenger, Owing as OwingAt, Referenced};

use crate::meant::Meant;
use crate::rule::{Law, Sizes};
use crate::slots::Item;
use crate::views::View;
use atomic_table::{Seat, Table};
use crossbeam_utils::sync::Unparker;
use proxy_laws::OwnMark;
use std::alloc::Global;
use std::marker::PhantomData;
use task_ring::Ring;

/// The table of one target, which threads share.
pub struct Post<J: Meant> {
    pub(crate) table: Table<Ring<Item<J>>, View<J::Meaning>, Sizes, Law<J>, Global>,
    pub(crate) target: u32,
    pub(crate) senders: u32,
    pub(crate) places: u32,
    /// Wakes the owner where it parks.
    pub(crate) waker: Unparker,
    ghost key: { table.shared.key
        ≡ record { target = target; senders = senders; places = places } },
    ghost sized: { (table.shared.table_id.words ≡ word_count places)
        × (table.shared.table_id.slots ≡ places) },
}

/// What a pass holds in each of its states.
pub(crate) struct PassHold<J: Meant> {
    pub(crate) seat: Seat<Ring<Item<J>>, View<J::Meaning>>,
    pub(crate) target: u32,
    pub(crate) sender: u32,
    /// By place: the marks that it put there.
    pub(crate) own: Vec<Vec<OwnMark>>,
}

/// What one sender holds of a target. It has no reference.
pub struct SendPass<J: Meant> {
    pub(crate) hold: PassHold<J>,
    pub ghost is_pass: { IsPass hold.sender Idle
        (map (λ kept. kept.items) hold.own.items) hold.seat.me.0 },
    ghost empty: { (hold.seat.me.1 ≡ []) × (length hold.own.items ≡ hold.seat.table_id.slots) },
}

/// A pass with a reference of its target.
pub struct RefPass<J: Meant> {
    pub(crate) hold: PassHold<J>,
    ghost is_pass: { IsPass hold.sender Referenced
        (map (λ kept. kept.items) hold.own.items) hold.seat.me.0 },
    ghost empty: { (hold.seat.me.1 ≡ []) × (length hold.own.items ≡ hold.seat.table_id.slots) },
}

/// A pass that has put a job at a place, and owes a notification.
pub struct Owing<J: Meant> {
    pub(crate) hold: PassHold<J>,
    pub(crate) place: u32,
    pub(crate) nth: u64,
    ghost is_pass: { IsPass hold.sender (OwingAt place)
        (map (λ kept. kept.items) hold.own.items) hold.seat.me.0 },
    ghost empty: { (hold.seat.me.1 ≡ []) × (length hold.own.items ≡ hold.seat.table_id.slots) },
    ghost near: { place < hold.seat.table_id.slots },
}

/// A pass that has to bring a notice of a place to the mailbox.
pub struct Notice<J: Meant> {
    pub(crate) hold: PassHold<J>,
    pub(crate) place: u32,
    ghost is_pass: { IsPass hold.sender (Messenger place)
        (map (λ kept. kept.items) hold.own.items) hold.seat.me.0 },
    ghost empty: { (hold.seat.me.1 ≡ []) × (length hold.own.items ≡ hold.seat.table_id.slots) },
    ghost near: { place < hold.seat.table_id.slots },
}

/// What a pass or the owner has seen of a target. A pass that meets it has seen that too.
#[derive(Drop)]
pub struct SeenNote<J: Meant> {
    pub(crate) seat: Seat<Ring<Item<J>>, View<J::Meaning>>,
    ghost is_note: { (seat.me.0 ≡ noted seat.me.0) × (seat.me.1 ≡ []) },
}

/// A use of a place by one sender, of a target with jobs of this type.
pub struct PlaceUse<J> {
    pub(crate) target: u32,
    pub(crate) place: u32,
    pub(crate) sender: u32,
    pub(crate) marker: PhantomData<J>,
}
