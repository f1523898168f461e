//! How a job comes to its place: its sender waits for the turn, pushes the job into the ring and counts it.

ghost use Rattle.std.specs.Prelude.{◌≡◌, ◌∷◌, [], ◌++◌, ◌<◌, IfOk, IfErr, None, OnOk, slice_index};
ghost use Rattle.task_ring.specs.Ring.{RingView};
ghost use Rattle.proxy_laws.specs.declared.actors.Phase.TheVariants.{Referenced};
ghost use Rattle.post_core.specs.declared.slots.Item.{Item};
ghost use Rattle.post_core.specs.SendSteps.{IsNextAt, IsNextMark, SenderHasTurn, job_sent, own_marks_max, place_given};
ghost use Rattle.post_core.specs.Steps.{IsOneTable};
ghost use Rattle.post_core.specs.Views.{IsPassView, pass_of};

use crate::meant::Meant;
use crate::rule::{Law, Sizes};
use crate::send_steps::{count_put, give_turn, try_turn};
use crate::slots::Item;
use crate::views::View;
use atomic_table::{Seat, Shared};
use proxy_laws::{Mark, OwnMark};
use std::sync::Wait;
use std::thread;
use task_ring::Ring;

/// How many jobs a pass puts at a place at most, so that no count of jobs wraps.
const OWN_MARKS_MAX: u64 = 1 << 48;

// Waits for good where a pass has put as many jobs at a place as it may.
fn wait_for_number<R: Wait>(rt: &R, put: u64)
    ensures { put < own_marks_max }
{
    if put < OWN_MARKS_MAX {
        return;
    }
    for _ in rt.forever() {
        thread::yield_now();
    }
    unreachable!()
}

// Waits until the pass has the turn of a place, with its ring.
fn wait_for_turn<R: Wait, J: Meant>(
    rt: &R,
    shared: &Shared<Ring<Item<J>>, View<J::Meaning>, Sizes, Law<J>>,
    seat: &mut Seat<Ring<Item<J>>, View<J::Meaning>>,
    place: u32,
)
    requires table { IsOneTable seat.old.table_id shared.now.table_id shared.now.key.places }
    requires near { place < shared.now.key.places }
    requires referenced { IsPassView seat.old.me.0 × ((pass_of seat.old.me.0).phase ≡ Referenced) }
    requires used { 0 < slice_index (pass_of seat.old.me.0).uses place }
    ensures seat { seat.new.table_id ≡ seat.old.table_id }
    ensures taken { SenderHasTurn J.meaning place seat.old.me seat.new.me }
{
    for _ in rt.forever() {
        if try_turn(shared, seat, place) == 0 {
            return;
        }
        thread::yield_now();
    }
    unreachable!()
}

// Pushes a job into a ring, or hands it back where memory is wanting.
fn push_item<J>(ring: &mut Ring<Item<J>>, mark: Mark, job: J) -> Result<(), J>
    ensures ok { OnOk result (ring.new.items
        ≡ ring.old.items ++ record { mark = mark; job = job } ∷ []) }
    ensures err { IfErr result (λ back. (back ≡ job) × (ring.new ≡ ring.old)) }
{
    if ring.reserve().is_err() {
        return Err(job);
    }
    ring.push(Item { mark, job });
    Ok(())
}

// Pushes a job into the ring that the seat holds.
fn push_held<J: Meant>(
    shared: &Shared<Ring<Item<J>>, View<J::Meaning>, Sizes, Law<J>>,
    seat: &mut Seat<Ring<Item<J>>, View<J::Meaning>>,
    place: u32,
    mark: Mark,
    job: J,
) -> Result<(), J>
    requires table { seat.old.table_id ≡ shared.now.table_id }
    requires held { (ring : RingView (Item J)) × (seat.old.me.1 ≡ (place, ring) ∷ []) }
    ensures seat { seat.new.table_id ≡ seat.old.table_id }
    ensures ok { OnOk result ((ring grown : RingView (Item J))
        × (seat.old.me.1 ≡ (place, ring) ∷ [])
        × (grown.items ≡ ring.items ++ record { mark = mark; job = job } ∷ [])
        × (seat.new.me ≡ (seat.old.me.0, (place, grown) ∷ []))) }
    ensures err { IfErr result (λ back. (back ≡ job) × (seat.new.me ≡ seat.old.me)) }
{
    let ring = seat.slot_mut(shared, place as usize);
    push_item(ring, mark, job)
}

// Puts a job at a place whose turn the pass has, gives the turn back, and answers the job's number, or hands it back where
// memory is wanting.
pub(crate) fn put_with_turn<J: Meant>(
    shared: &Shared<Ring<Item<J>>, View<J::Meaning>, Sizes, Law<J>>,
    seat: &mut Seat<Ring<Item<J>>, View<J::Meaning>>,
    place: u32,
    mark: Mark,
    job: J,
) -> Result<u64, J>
    requires table { IsOneTable seat.old.table_id shared.now.table_id shared.now.key.places }
    requires near { place < shared.now.key.places }
    requires pass { seat.old.me.0.owner ≡ None }
    requires turn { SenderHasTurn J.meaning place
        (place_given place seat.old.me.0, []) seat.old.me }
    requires mark { IsNextMark place mark seat.old.me.0 }
    requires room { mark.seq < own_marks_max }
    requires suits { J.suits shared.now.key.target place mark (J.meaning job) }
    ensures seat { seat.new.table_id ≡ seat.old.table_id }
    ensures put { IfOk result (λ nth. IsNextAt place nth seat.old.me.0 × (seat.new.me ≡
        (job_sent place nth (record { mark = mark; meaning = J.meaning job }) seat.old.me.0, []))) }
    ensures no_memory { IfErr result (λ back. (back ≡ job)
        × (seat.new.me ≡ (place_given place seat.old.me.0, []))) }
{
    if let Err(job) = push_held(shared, seat, place, mark, job) {
        give_turn(shared, seat, place);
        return Err(job);
    }
    let nth = count_put(shared, seat, place);
    give_turn(shared, seat, place);
    Ok(nth)
}

// Waits for the turn of a place and puts a job there, and answers its number, or hands it back where memory is wanting.
fn put_in_turn<R: Wait, J: Meant>(
    rt: &R,
    shared: &Shared<Ring<Item<J>>, View<J::Meaning>, Sizes, Law<J>>,
    seat: &mut Seat<Ring<Item<J>>, View<J::Meaning>>,
    place: u32,
    mark: Mark,
    job: J,
) -> Result<u64, J>
    requires table { IsOneTable seat.old.table_id shared.now.table_id shared.now.key.places }
    requires near { place < shared.now.key.places }
    requires referenced { IsPassView seat.old.me.0 × ((pass_of seat.old.me.0).phase ≡ Referenced)
        × ((pass_of seat.old.me.0).ring ≡ []) × (seat.old.me.1 ≡ []) }
    requires used { 0 < slice_index (pass_of seat.old.me.0).uses place }
    requires mark { IsNextMark place mark seat.old.me.0 }
    requires room { mark.seq < own_marks_max }
    requires suits { J.suits shared.now.key.target place mark (J.meaning job) }
    ensures seat { seat.new.table_id ≡ seat.old.table_id }
    ensures put { IfOk result (λ nth. IsNextAt place nth seat.old.me.0 × (seat.new.me ≡
        (job_sent place nth (record { mark = mark; meaning = J.meaning job }) seat.old.me.0, []))) }
    ensures no_memory { IfErr result (λ back. (back ≡ job) × (seat.new.me ≡ seat.old.me)) }
{
    wait_for_turn(rt, shared, seat, place);
    put_with_turn(shared, seat, place, mark, job)
}

// Puts a job at a place and keeps its mark, and answers the job's number, or hands it back where memory is wanting.
pub(crate) fn put_marked<R: Wait, J: Meant>(
    rt: &R,
    shared: &Shared<Ring<Item<J>>, View<J::Meaning>, Sizes, Law<J>>,
    seat: &mut Seat<Ring<Item<J>>, View<J::Meaning>>,
    kept: &mut Vec<OwnMark>,
    place: u32,
    mark: Mark,
    job: J,
) -> Result<u64, J>
    requires table { IsOneTable seat.old.table_id shared.now.table_id shared.now.key.places }
    requires near { place < shared.now.key.places }
    requires referenced { IsPassView seat.old.me.0 × ((pass_of seat.old.me.0).phase ≡ Referenced)
        × ((pass_of seat.old.me.0).ring ≡ []) × (seat.old.me.1 ≡ []) }
    requires used { 0 < slice_index (pass_of seat.old.me.0).uses place }
    requires mark { IsNextMark place mark seat.old.me.0 }
    requires suits { J.suits shared.now.key.target place mark (J.meaning job) }
    ensures seat { seat.new.table_id ≡ seat.old.table_id }
    ensures put { IfOk result (λ nth. IsNextAt place nth seat.old.me.0 × (seat.new.me
        ≡ (job_sent place nth (record { mark = mark; meaning = J.meaning job }) seat.old.me.0, []))
        × (kept.new.items ≡ kept.old.items ++ record { nth = nth; mark = mark } ∷ [])) }
    ensures no_memory { IfErr result (λ back. (back ≡ job) × (seat.new.me ≡ seat.old.me)
        × (kept.new.items ≡ kept.old.items)) }
{
    wait_for_number(rt, mark.seq);
    if kept.reserve(1).is_err() {
        return Err(job);
    }
    let nth = put_in_turn(rt, shared, seat, place, mark, job)?;
    kept.push_reserved(OwnMark { nth, mark });
    Ok(nth)
}
