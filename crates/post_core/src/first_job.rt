//! The owner takes the first job that waits at a place, under the turn, or finds none.

ghost use Rattle.std.specs.Prelude.{◌≡◌, ◌^◌, ◌<◌, IsNone, IfSome, None, [], length};
ghost use Rattle.post_core.specs.declared.slots.Item.{Item};
ghost use Rattle.post_core.specs.Kept.{listed};
ghost use Rattle.post_core.specs.SendSteps.{meant_item};
ghost use Rattle.post_core.specs.ServingSteps.{WorksAt, job_started, place_emptied};
ghost use Rattle.post_core.specs.Steps.{HasEmptyTurn, HasTakenTurn, IsOneTable};
ghost use Rattle.post_core.specs.Views.{IsOwnerView, owner_of};

use crate::job_steps::start_job;
use crate::meant::Meant;
use crate::rule::{Law, Sizes};
use crate::serving::look_place;
use crate::slots::Item;
use crate::turns::{give_place, try_place};
use crate::views::View;
use atomic_table::{Seat, Shared};
use std::sync::Wait;
use task_ring::Ring;

/// Waits for the turn of a place, and takes it with its ring.
fn take_turn<J: Meant, R: Wait>(
    rt: &R,
    shared: &Shared<Ring<Item<J>>, View<J::Meaning>, Sizes, Law<J>>,
    seat: &mut Seat<Ring<Item<J>>, View<J::Meaning>>,
    place: u32,
)
    requires table { IsOneTable seat.old.table_id shared.now.table_id shared.now.key.places }
    requires near { place < shared.now.key.places }
    requires owner { IsOwnerView seat.old.me.0 × ((owner_of seat.old.me.0).turn ≡ None) }
    requires works { WorksAt place seat.old.me.0 }
    ensures seat { (seat.new.table_id ≡ seat.old.table_id) × (seat.new.id ≡ seat.old.id) }
    ensures taken { HasTakenTurn J.meaning place seat.old.me seat.new.me }
{
    for _ in rt.forever() {
        if try_place(shared, seat, place) == 0 {
            return;
        }
    }
    unreachable!()
}

/// Takes the first job that waits at a place, with its number, and gives the turn back. Where none waits the turn is kept.
pub(crate) fn take_first<J: Meant, R: Wait>(
    rt: &R,
    shared: &Shared<Ring<Item<J>>, View<J::Meaning>, Sizes, Law<J>>,
    seat: &mut Seat<Ring<Item<J>>, View<J::Meaning>>,
    place: u32,
) -> Option<(u64, Item<J>)>
    requires table { IsOneTable seat.old.table_id shared.now.table_id shared.now.key.places }
    requires near { place < shared.now.key.places }
    requires owner { IsOwnerView seat.old.me.0 × ((owner_of seat.old.me.0).turn ≡ None) }
    requires works { WorksAt place seat.old.me.0 }
    requires empty { seat.old.me.1 ≡ [] }
    ensures seat { (seat.new.table_id ≡ seat.old.table_id) × (seat.new.id ≡ seat.old.id) }
    ensures nth { IfSome result (λ x. x.0 ≡ length (listed (owner_of seat.old.me.0).jobs place)) }
    ensures few { IfSome result (λ x. x.0 < 2 ^ 63) }
    ensures suits { IfSome result
        (λ x. J.suits shared.now.key.target place x.1.mark (J.meaning x.1.job)) }
    ensures job { IfSome result (λ x. seat.new.me
        ≡ (job_started place (meant_item J.meaning x.1) seat.old.me.0, [])) }
    ensures none { IsNone result → HasEmptyTurn place seat.old.me.0 seat.new.me }
{
    take_turn(rt, shared, seat, place);
    let first = seat.slot_mut(shared, place as usize).pop();
    match first {
        Some(item) => {
            let nth = start_job(shared, seat, place);
            give_place(shared, seat, place);
            Some((nth, item))
        }
        None => None,
    }
}

/// Takes the first job that waits at a place, with its number, or finds as many taken as put.
pub(crate) fn first_job<J: Meant, R: Wait>(
    rt: &R,
    shared: &Shared<Ring<Item<J>>, View<J::Meaning>, Sizes, Law<J>>,
    seat: &mut Seat<Ring<Item<J>>, View<J::Meaning>>,
    place: u32,
) -> Option<(u64, Item<J>)>
    requires table { IsOneTable seat.old.table_id shared.now.table_id shared.now.key.places }
    requires near { place < shared.now.key.places }
    requires owner { IsOwnerView seat.old.me.0 × ((owner_of seat.old.me.0).turn ≡ None) }
    requires works { WorksAt place seat.old.me.0 }
    requires empty { seat.old.me.1 ≡ [] }
    ensures seat { (seat.new.table_id ≡ seat.old.table_id) × (seat.new.id ≡ seat.old.id) }
    ensures nth { IfSome result (λ x. x.0 ≡ length (listed (owner_of seat.old.me.0).jobs place)) }
    ensures suits { IfSome result
        (λ x. J.suits shared.now.key.target place x.1.mark (J.meaning x.1.job)) }
    ensures job { IfSome result (λ x. seat.new.me
        ≡ (job_started place (meant_item J.meaning x.1) seat.old.me.0, [])) }
    ensures none { IsNone result → seat.new.me ≡ (place_emptied place seat.old.me.0, []) }
{
    match take_first(rt, shared, seat, place) {
        Some(first) => Some(first),
        None => {
            let _count = look_place(shared, seat, place);
            give_place(shared, seat, place);
            None
        }
    }
}
