//! How a job comes to its place without a wait: the turn is tried once.

ghost use Rattle.std.specs.Prelude.{◌≡◌, ◌∷◌, [], ◌++◌, ◌<◌, IfErr, IfOk, None, slice_index};
ghost use Rattle.proxy_laws.specs.declared.actors.Phase.TheVariants.{Referenced};
ghost use Rattle.post_core.specs.SendSteps.{IsNextAt, IsNextMark, SenderHasTurn, job_sent, own_marks_max, place_given};
ghost use Rattle.post_core.specs.Steps.{IsOneTable};
ghost use Rattle.post_core.specs.TryParts.{HasMissedTurn, IfTriedBusy, IfTriedNoMemory, IfTriedPut};
ghost use Rattle.post_core.specs.Views.{IsPassView, pass_of};

use crate::meant::Meant;
use crate::put_jobs::put_with_turn;
use crate::rule::{Law, Sizes};
use crate::send_steps::give_turn;
use crate::slots::Item;
use crate::try_steps::try_turn_once;
use crate::views::View;
use atomic_table::{Seat, Shared};
use proxy_laws::{Mark, OwnMark};
use task_ring::Ring;

/// What became of a job.
pub enum Tried<J> {
    /// It has this number at its place.
    Put(u64),
    /// Memory was wanting, and nothing was added.
    NoMemory(J),
    /// The exchange found this in the word of the turn, which somebody had.
    Busy(J, u64),
}

// Puts a job at a place whose turn the pass has and keeps its mark, and answers the job's number, or hands it back where
// memory is wanting.
fn put_kept<J: Meant>(
    shared: &Shared<Ring<Item<J>>, View<J::Meaning>, Sizes, Law<J>>,
    seat: &mut Seat<Ring<Item<J>>, View<J::Meaning>>,
    kept: &mut Vec<OwnMark>,
    place: u32,
    mark: Mark,
    job: J,
) -> Result<u64, J>
    requires table { IsOneTable seat.old.table_id shared.now.table_id shared.now.key.places }
    requires near { place < shared.now.key.places }
    requires pass { seat.old.me.0.owner ≡ None }
    requires turn { SenderHasTurn J.meaning place
        (place_given place seat.old.me.0, []) seat.old.me }
    requires mark { IsNextMark place mark seat.old.me.0 }
    requires room { mark.seq < own_marks_max }
    requires suits { J.suits shared.now.key.target place mark (J.meaning job) }
    ensures seat { seat.new.table_id ≡ seat.old.table_id }
    ensures put { IfOk result (λ nth. IsNextAt place nth seat.old.me.0 × (seat.new.me
        ≡ (job_sent place nth (record { mark = mark; meaning = J.meaning job }) seat.old.me.0, []))
        × (kept.new.items ≡ kept.old.items ++ record { nth = nth; mark = mark } ∷ [])) }
    ensures no_memory { IfErr result (λ back. (back ≡ job)
        × (seat.new.me ≡ (place_given place seat.old.me.0, []))
        × (kept.new.items ≡ kept.old.items)) }
{
    if kept.reserve(1).is_err() {
        give_turn(shared, seat, place);
        return Err(job);
    }
    let nth = put_with_turn(shared, seat, place, mark, job)?;
    kept.push_reserved(OwnMark { nth, mark });
    Ok(nth)
}

// Tries the turn of a place once, and where it was free puts a job there and keeps its mark.
pub(crate) fn try_marked<J: Meant>(
    shared: &Shared<Ring<Item<J>>, View<J::Meaning>, Sizes, Law<J>>,
    seat: &mut Seat<Ring<Item<J>>, View<J::Meaning>>,
    kept: &mut Vec<OwnMark>,
    place: u32,
    mark: Mark,
    job: J,
) -> Tried<J>
    requires table { IsOneTable seat.old.table_id shared.now.table_id shared.now.key.places }
    requires near { place < shared.now.key.places }
    requires referenced { IsPassView seat.old.me.0 × ((pass_of seat.old.me.0).phase ≡ Referenced)
        × ((pass_of seat.old.me.0).ring ≡ []) × (seat.old.me.1 ≡ []) }
    requires used { 0 < slice_index (pass_of seat.old.me.0).uses place }
    requires mark { IsNextMark place mark seat.old.me.0 }
    requires room { mark.seq < own_marks_max }
    requires suits { J.suits shared.now.key.target place mark (J.meaning job) }
    ensures seat { seat.new.table_id ≡ seat.old.table_id }
    ensures put { IfTriedPut result (λ nth. IsNextAt place nth seat.old.me.0 × (seat.new.me
        ≡ (job_sent place nth (record { mark = mark; meaning = J.meaning job }) seat.old.me.0, []))
        × (kept.new.items ≡ kept.old.items ++ record { nth = nth; mark = mark } ∷ [])) }
    ensures no_memory { IfTriedNoMemory result (λ back. (back ≡ job) × (seat.new.me ≡ seat.old.me)
        × (kept.new.items ≡ kept.old.items)) }
    ensures busy { IfTriedBusy result (λ back value. (back ≡ job)
        × HasMissedTurn place value seat.old.me.0 seat.new.me.0
        × (seat.new.me.1 ≡ []) × (kept.new.items ≡ kept.old.items)) }
{
    let found = try_turn_once(shared, seat, place);
    if found != 0 {
        return Tried::Busy(job, found);
    }
    match put_kept(shared, seat, kept, place, mark, job) {
        Ok(nth) => Tried::Put(nth),
        Err(job) => Tried::NoMemory(job),
    }
}
