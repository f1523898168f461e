//! The owner's steps at a place: receiving its note, looking for jobs, finishing.

ghost use Rattle.std.specs.Prelude.{◌≡◌, ℕ, ◌<◌, IsTrue, None, Some, [], length};
ghost use Rattle.proxy_laws.specs.declared.actors.Serving.TheVariants.{Away, Direct, SeenEmpty};
ghost use Rattle.proxy_laws.specs.Phases.{is_got};
ghost use Rattle.post_core.specs.Kept.{listed};
ghost use Rattle.post_core.specs.ServingSteps.{WorksAt, at_serving, began_directly, finished_place, looked_place, place_looked, place_received, received_place, serving_at};
ghost use Rattle.post_core.specs.Steps.{IsOneTable};
ghost use Rattle.post_core.specs.Views.{IsOwnerView, owner_of};

use crate::meant::Meant;
use crate::rule::{Law, Sizes};
use crate::slots::Item;
use crate::views::View;
use atomic_table::{Play, Seat, Shared};
use task_ring::Ring;

/// The owner receives a note.
pub struct ReceiveNote;

impl<J: Meant> Play<Ring<Item<J>>, View<J::Meaning>> for ReceiveNote {
    ghost then = { received_place };
}

/// The owner begins a direct execution.
pub struct BeginDirect;

impl<J: Meant> Play<Ring<Item<J>>, View<J::Meaning>> for BeginDirect {
    ghost then = { began_directly };
}

/// The owner finds no job waiting.
pub struct LookPlace;

impl<J: Meant> Play<Ring<Item<J>>, View<J::Meaning>> for LookPlace {
    ghost then = { looked_place };
}

/// The owner is done with a place.
pub struct FinishPlace;

impl<J: Meant> Play<Ring<Item<J>>, View<J::Meaning>> for FinishPlace {
    ghost then = { finished_place };
}

/// Stores received in the note of a place that was got.
pub(crate) fn receive_note<J: Meant>(
    shared: &Shared<Ring<Item<J>>, View<J::Meaning>, Sizes, Law<J>>,
    seat: &mut Seat<Ring<Item<J>>, View<J::Meaning>>,
    place: u32,
)
    requires table { IsOneTable seat.old.table_id shared.now.table_id shared.now.key.places }
    requires near { place < shared.now.key.places }
    requires got { IsOwnerView seat.old.me.0 × IsTrue (is_got (serving_at place seat.old.me.0)) }
    ensures seat { (seat.new.table_id ≡ seat.old.table_id) × (seat.new.id ≡ seat.old.id) }
    ensures received { seat.new.me ≡ (place_received place seat.old.me.0, seat.old.me.1) }
{
    shared.store::<ReceiveNote>(seat, 263 + 5 * place as usize, 2);
}

/// Begins to execute a place without a notice. Its note stays.
pub(crate) fn begin_direct<J: Meant>(
    shared: &Shared<Ring<Item<J>>, View<J::Meaning>, Sizes, Law<J>>,
    seat: &mut Seat<Ring<Item<J>>, View<J::Meaning>>,
    place: u32,
)
    requires table { IsOneTable seat.old.table_id shared.now.table_id shared.now.key.places }
    requires near { place < shared.now.key.places }
    requires owner { IsOwnerView seat.old.me.0 }
    requires away { (p : ℕ) → serving_at p seat.old.me.0 ≡ Away }
    ensures seat { (seat.new.table_id ≡ seat.old.table_id) × (seat.new.id ≡ seat.old.id) }
    ensures direct { seat.new.me ≡ (at_serving place Direct seat.old.me.0, seat.old.me.1) }
{
    let _note = shared.load::<BeginDirect>(seat, 263 + 5 * place as usize);
}

/// Finds as many jobs put at a place as were taken there, and answers their number.
pub(crate) fn look_place<J: Meant>(
    shared: &Shared<Ring<Item<J>>, View<J::Meaning>, Sizes, Law<J>>,
    seat: &mut Seat<Ring<Item<J>>, View<J::Meaning>>,
    place: u32,
) -> u64
    requires table { IsOneTable seat.old.table_id shared.now.table_id shared.now.key.places }
    requires near { place < shared.now.key.places }
    requires owner { IsOwnerView seat.old.me.0 × ((owner_of seat.old.me.0).turn ≡ Some place) }
    requires works { WorksAt place seat.old.me.0 }
    requires empty { (owner_of seat.old.me.0).ring ≡ [] }
    ensures seat { (seat.new.table_id ≡ seat.old.table_id) × (seat.new.id ≡ seat.old.id) }
    ensures count { result ≡ length (listed (owner_of seat.old.me.0).jobs place) }
    ensures looked { seat.new.me ≡ (place_looked place seat.old.me.0, seat.old.me.1) }
{
    shared.load::<LookPlace>(seat, 261 + 5 * place as usize)
}

/// Exchanges received for none in the note of a place that was seen empty, whether that wins or not.
pub(crate) fn finish_place<J: Meant>(
    shared: &Shared<Ring<Item<J>>, View<J::Meaning>, Sizes, Law<J>>,
    seat: &mut Seat<Ring<Item<J>>, View<J::Meaning>>,
    place: u32,
)
    requires table { IsOneTable seat.old.table_id shared.now.table_id shared.now.key.places }
    requires near { place < shared.now.key.places }
    requires owner { IsOwnerView seat.old.me.0 × ((owner_of seat.old.me.0).turn ≡ None) }
    requires seen { serving_at place seat.old.me.0 ≡ SeenEmpty }
    ensures seat { (seat.new.table_id ≡ seat.old.table_id) × (seat.new.id ≡ seat.old.id) }
    ensures finished { seat.new.me ≡ (at_serving place Away seat.old.me.0, seat.old.me.1) }
{
    let _found = shared.compare_exchange::<FinishPlace>(seat, 263 + 5 * place as usize, 2, 0);
}
