//! A closed owner cancels the jobs that wait.

ghost use Rattle.std.specs.Prelude.{◌≡◌, ◌+◌, ◌^◌, ◌<◌, IfSome, IsNone, None, Some, [], length, slice_set};
ghost use Rattle.proxy_laws.specs.declared.actors.OwnerState.TheVariants.{Closed as IsClosed};
ghost use Rattle.proxy_laws.specs.declared.records.FateMark.TheVariants.{Cancelled};
ghost use Rattle.post_core.specs.ClosingParts.{MayEmpty};
ghost use Rattle.post_core.specs.ClosingSteps.{place_cleared};
ghost use Rattle.post_core.specs.ClosingViews.{IsCancelNext, IsClosedOf, closed_left, closed_view, left_cleared};
ghost use Rattle.post_core.specs.Kept.{listed};
ghost use Rattle.post_core.specs.Records.{counts_of, starts_of};
ghost use Rattle.post_core.specs.SendSteps.{meant_item};
ghost use Rattle.post_core.specs.ServingSteps.{job_started};
ghost use Rattle.post_core.specs.Steps.{IsOneTable};
ghost use Rattle.post_core.specs.Views.{job_settled, noted, owner_of};

use crate::closing_owner::{CancelNext, Closed};
use crate::closing_steps::reset_place;
use crate::first_job::take_first;
use crate::mailing::first_notice;
use crate::meant::Meant;
use crate::owner::Emptied;
use crate::post::{Post, SeenNote};
use crate::records::PlaceJobs;
use crate::rule::{Law, Sizes};
use crate::settle_steps::settle;
use crate::slots::Item;
use crate::turns::give_place;
use crate::views::View;
use atomic_table::{Seat, Shared};
use proxy_laws::FateMark;
use std::sync::Wait;
use task_ring::Ring;

/// Cancels the first job that waits at a place, and makes a note that has seen that. Where none waits, the owner is done
/// with the place.
fn cancel_at<R: Wait, J: Meant>(
    rt: &R,
    shared: &Shared<Ring<Item<J>>, View<J::Meaning>, Sizes, Law<J>>,
    seat: &mut Seat<Ring<Item<J>>, View<J::Meaning>>,
    place: u32,
) -> Option<(u64, Item<J>, Seat<Ring<Item<J>>, View<J::Meaning>>)>
    requires table { IsOneTable seat.old.table_id shared.now.table_id shared.now.key.places }
    requires near { place < shared.now.key.places }
    requires empties { MayEmpty place seat.old.me.0 }
    requires empty { seat.old.me.1 ≡ [] }
    ensures seat { (seat.new.table_id ≡ seat.old.table_id) × (seat.new.id ≡ seat.old.id) }
    ensures nth { IfSome result (λ x. x.0 ≡ length (listed (owner_of seat.old.me.0).jobs place)) }
    ensures few { IfSome result (λ x. x.0 < 2 ^ 63) }
    ensures suits { IfSome result
        (λ x. J.suits shared.now.key.target place x.1.mark (J.meaning x.1.job)) }
    ensures job { IfSome result (λ x. seat.new.me ≡ (
      job_settled place x.0 Cancelled
          (job_started place (meant_item J.meaning x.1) seat.old.me.0),
      [],
    )) }
    ensures note { IfSome result (λ x. (x.2.table_id ≡ seat.old.table_id)
        × (x.2.me ≡ (noted seat.new.me.0, []))) }
    ensures none { IsNone result → seat.new.me ≡ (place_cleared place seat.old.me.0, []) }
{
    match take_first(rt, shared, seat, place) {
        Some((nth, item)) => {
            let note = settle(shared, seat, place, nth, FateMark::Cancelled);
            Some((nth, item, note))
        }
        None => {
            reset_place(shared, seat, place);
            give_place(shared, seat, place);
            None
        }
    }
}

/// Cancels the first job that waits at the place that is left to empty, if one is.
fn cancel_left<R: Wait, J: Meant>(
    rt: &R,
    shared: &Shared<Ring<Item<J>>, View<J::Meaning>, Sizes, Law<J>>,
    seat: &mut Seat<Ring<Item<J>>, View<J::Meaning>>,
    left: Option<u32>,
) -> Option<(u32, u64, Item<J>, Seat<Ring<Item<J>>, View<J::Meaning>>)>
    requires table { IsOneTable seat.old.table_id shared.now.table_id shared.now.key.places }
    requires near { IfSome left (λ place. place < shared.now.key.places) }
    requires empties { IfSome left (λ place. MayEmpty place seat.old.me.0) }
    requires empty { seat.old.me.1 ≡ [] }
    ensures seat { (seat.new.table_id ≡ seat.old.table_id) × (seat.new.id ≡ seat.old.id) }
    ensures left { IfSome result (λ x. left ≡ Some x.0) }
    ensures nth { IfSome result (λ x. (x.1 < 2 ^ 63)
        × (x.1 ≡ length (listed (owner_of seat.old.me.0).jobs x.0))) }
    ensures suits { IfSome result
        (λ x. J.suits shared.now.key.target x.0 x.2.mark (J.meaning x.2.job)) }
    ensures job { IfSome result (λ x. seat.new.me ≡ (
      job_settled x.0 x.1 Cancelled
          (job_started x.0 (meant_item J.meaning x.2) seat.old.me.0),
      [],
    )) }
    ensures note { IfSome result (λ x. (x.3.table_id ≡ seat.old.table_id)
        × (x.3.me ≡ (noted seat.new.me.0, []))) }
    ensures none { IsNone result → seat.new.me ≡ (left_cleared left seat.old.me.0, []) }
{
    match left {
        Some(place) => match cancel_at(rt, shared, seat, place) {
            Some((nth, item, note)) => Some((place, nth, item, note)),
            None => None,
        },
        None => None,
    }
}

/// Counts the job of this number at the place as taken.
fn count_taken(jobs: &mut Vec<PlaceJobs>, place: u32, nth: u64)
    requires near { place < length jobs.old.items }
    requires few { nth < 2 ^ 63 }
    ensures started { starts_of jobs.new.items ≡ starts_of jobs.old.items }
    ensures taken { counts_of jobs.new.items
        ≡ slice_set (counts_of jobs.old.items) place (nth + 1) }
{
    jobs[place as usize].taken = nth + 1;
}

impl<J: Meant> Closed<J> {
    /// Cancels the first job that waits at the place that is left to empty, or else at the lowest place of the mailbox.
    /// Where the place has none, it goes on to the next. It waits for the turn of a place, and takes no memory.
    pub fn cancel_next<R: Wait>(self, rt: &R, post: &Post<J>) -> CancelNext<J>
        requires { IsClosedOf post.now self }
        ensures { IsCancelNext post.now (closed_left self) (closed_view self) result }
    {
        let Closed { mut hold, mut left } = self;
        let shared = &post.table.shared;
        for _ in rt.forever() {
            let cancelled = cancel_left(rt, shared, &mut hold.seat, left);
            if let Some((place, nth, Item { mark, job }, seat)) = cancelled {
                count_taken(&mut hold.jobs, place, nth);
                return CancelNext::Job {
                    closed: Closed { hold, left },
                    place,
                    nth,
                    mark,
                    job,
                    note: SeenNote { seat },
                };
            }
            let Some(place) = first_notice(shared, &mut hold.seat) else {
                return CancelNext::Done(Emptied { hold });
            };
            hold.got += 1;
            left = Some(place);
        }
        unreachable!()
    }
}
