//! The end of a target: its table is taken down, and its record made.

ghost use Rattle.std.specs.Prelude.{◌≡◌, ℕ, ◌<◌, All, map, length, IfOk, IfErr};
ghost use Rattle.std.specs.Slots.{slots_items, IsFull};
ghost use Rattle.proxy_laws.specs.Fates.{LawfulPost, jobs_of};
ghost use Rattle.post_core.specs.Ending.{AgreesWithPass, AreAllParts, Ended, FoundTaken, IsIdle, all_joined};
ghost use Rattle.post_core.specs.Kept.{listed};
ghost use Rattle.post_core.specs.Making.{IsMade};
ghost use Rattle.post_core.specs.OwnerViews.{emptied_view};
ghost use Rattle.post_core.specs.Records.{AreSettled, held_record};
ghost use Rattle.post_core.specs.SendParts.{pass_view, post_places, post_senders, post_target};
ghost use Rattle.post_core.specs.Views.{owner_of};

use crate::gathering::gather;
use crate::joining::Together;
use crate::making::Made;
use crate::meant::Meant;
use crate::owner::{Emptied, Owner, OwnerHold};
use crate::post::{PassHold, PlaceUse, Post, SendPass};
use crate::rule::{Law, Sizes};
use crate::slots::Item;
use crate::views::View;
use atomic_table::{Closed, Seat, Shared};
use proxy_laws::PostRecord;
use std::alloc::{AllocError, Global};
use task_ring::Ring;

/// What `close` was given, where it found no memory.
pub struct CloseBack<J: Meant> {
    pub post: Post<J>,
    pub emptied: Emptied<J>,
    pub passes: Vec<SendPass<J>>,
    pub uses: Vec<PlaceUse<J>>,
}

// Joins all passes into one seat.
fn join_all<J: Meant>(
    shared: &Shared<Ring<Item<J>>, View<J::Meaning>, Sizes, Law<J>>,
    seat: &mut Seat<Ring<Item<J>>, View<J::Meaning>>,
    mut passes: Vec<SendPass<J>>,
)
    requires table { (seat.old.table_id ≡ shared.now.table_id) × (0 < shared.now.table_id.words) }
    requires passes { All (λ pass. pass.hold.seat.table_id ≡ shared.now.table_id) passes.items }
    ensures table { (seat.new.table_id ≡ seat.old.table_id) × (seat.new.id ≡ seat.old.id) }
    ensures view { seat.new.me
        ≡ (all_joined seat.old.me.0 (map (λ pass. pass_view pass) passes.items), seat.old.me.1) }
{
    while let Some(pass) = passes.pop() {
        let SendPass { hold } = pass;
        let PassHold {
            seat: other,
            target: _,
            sender: _,
            own: _,
        } = hold;
        shared.join_seat::<Together>(seat, other);
    }
    passes.destroy_empty();
}

// Lets go of uses, which are nothing but numbers.
pub(crate) fn end_uses<J>(mut uses: Vec<PlaceUse<J>>) {
    while let Some(place_use) = uses.pop() {
        let PlaceUse {
            target: _,
            place: _,
            sender: _,
            marker: _,
        } = place_use;
    }
    uses.destroy_empty();
}

fn free_rings<J>(mut closed: Closed<Ring<Item<J>>, Global>)
    requires full { IsFull closed.slots }
    requires idle { All (λ x. IsIdle x) (slots_items closed.slots) }
{
    let mut i = 0;
    while i < closed.slot_count() {
        closed.take(i).close();
        i += 1;
    }
    closed.free();
}

/// Ends a target without a record.
pub fn discard<J: Meant>(
    post: Post<J>,
    emptied: Emptied<J>,
    passes: Vec<SendPass<J>>,
    uses: Vec<PlaceUse<J>>,
)
    requires { AreAllParts post emptied passes.items }
    ensures { Ended (post_senders post) (post_places post)
        (all_joined (emptied_view emptied) (map (λ pass. pass_view pass) passes.items)) }
{
    let Post {
        table,
        target: _,
        senders: _,
        places: _,
        waker: _,
    } = post;
    let Emptied { hold } = emptied;
    let OwnerHold {
        mut seat,
        target: _,
        jobs: _,
        got: _,
        parker: _,
    } = hold;
    join_all(&table.shared, &mut seat, passes);
    end_uses(uses);
    let closed = table.close_with(seat);
    free_rings(closed);
}

/// Ends a target, and makes its record.
pub fn close<J: Meant>(
    alloc: Global,
    post: Post<J>,
    emptied: Emptied<J>,
    passes: Vec<SendPass<J>>,
    uses: Vec<PlaceUse<J>>,
) -> Result<PostRecord, CloseBack<J>>
    requires parts { AreAllParts post emptied passes.items }
    requires settled { (p : ℕ) → p < post_places post
        → AreSettled (listed (owner_of (emptied_view emptied)).jobs p) }
    ensures lawful { IfOk result (λ r. LawfulPost r) }
    ensures sized { IfOk result (λ r. (r.target ≡ post_target post)
        × (length r.places.items ≡ post_places post)) }
    ensures owner { IfOk result (λ r. (p : ℕ) → p < post_places post
        → jobs_of r p ≡ map held_record (listed (owner_of (emptied_view emptied)).jobs p)) }
    ensures passes { IfOk result
        (λ r. All (λ pass. AgreesWithPass r (pass_view pass)) passes.items) }
    ensures found { IfOk result (λ r. All (λ pass. FoundTaken
        (map (λ other. pass_view other) passes.items) (pass_view pass)) passes.items) }
    ensures err { IfErr result (λ back. (back.post ≡ post) × (back.emptied ≡ emptied)
        × (back.passes ≡ passes) × (back.uses ≡ uses)) }
{
    match gather(alloc, &emptied, &passes) {
        Ok(places) => {
            let target = post.target;
            discard(post, emptied, passes, uses);
            Ok(PostRecord { target, places })
        }
        Err(AllocError) => Err(CloseBack {
            post,
            emptied,
            passes,
            uses,
        }),
    }
}

/// Ends a target that is as `make` answered it.
pub fn unmake<J: Meant>(made: Made<J>)
    requires { IsMade (post_senders made.post) (post_places made.post) made }
{
    let Made {
        post,
        owner,
        passes,
        system,
    } = made;
    let Post {
        table,
        target: _,
        senders: _,
        places: _,
        waker: _,
    } = post;
    let Owner { hold } = owner;
    let OwnerHold {
        mut seat,
        target: _,
        jobs: _,
        got: _,
        parker: _,
    } = hold;
    join_all(&table.shared, &mut seat, passes);
    end_uses(system);
    let closed = table.close_with(seat);
    free_rings(closed);
}
