//! A target's table, made.

ghost use Rattle.std.specs.Prelude.{◌≡◌, ◌+◌, ◌-◌, ◌<◌, ◌≤◌, All, IfOk, Some, [], length, map, replicate, vec_capacity};
ghost use Rattle.proxy_laws.specs.Limits.{places_max, senders_max};
ghost use Rattle.post_core.specs.Ending.{IsIdle};
ghost use Rattle.post_core.specs.Making.{AreDealt, IsMade, dealing_view, open_rings, opening_words, system_uses};
ghost use Rattle.post_core.specs.Records.{counts_of, starts_of};
ghost use Rattle.post_core.specs.SendParts.{pass_view, post_places, post_senders, post_target};

use crate::ending::end_uses;
use crate::joining::Dealt;
use crate::meant::Meant;
use crate::owner::{Owner, OwnerHold};
use crate::post::{PassHold, PlaceUse, Post, SendPass};
use crate::records::PlaceJobs;
use crate::rule::{Law, Sizes};
use crate::slots::Item;
use crate::views::View;
use atomic_table::{Refused, Seat, Shared, Table};
use crossbeam_utils::sync::{Parker, Unparker};
use proxy_laws::OwnMark;
use std::alloc::{AllocError, Global};
use std::marker::PhantomData;
use task_ring::Ring;

/// The cells of a ring at first.
const FIRST_CELLS: usize = 128;

/// A target as it is made: its table, its owner, and for each sender a pass and a use of place 0.
pub struct Made<J: Meant> {
    pub post: Post<J>,
    pub owner: Owner<J>,
    pub passes: Vec<SendPass<J>>,
    pub system: Vec<PlaceUse<J>>,
}

fn zeros(alloc: Global, count: u64) -> Result<Vec<u64>, AllocError>
    ensures { IfOk result (λ words. words.items ≡ replicate count 0) }
{
    let mut words = Vec::new(alloc);
    for _ in 0..count {
        words.push(0)?;
    }
    Ok(words)
}

fn new_words(alloc: Global, senders: u32, places: u32) -> Result<Vec<u64>, AllocError>
    requires { 1 ≤ places }
    ensures { IfOk result (λ words. words.items ≡ opening_words senders places) }
{
    let mut words = zeros(alloc, 261 + 5 * places as u64)?;
    words[0] = 1;
    words[264] = senders as u64 + 2;
    Ok(words)
}

fn new_rings<J>(alloc: Global, places: u32) -> Result<Vec<Ring<Item<J>>>, AllocError>
    ensures { IfOk result (λ rings. rings.items ≡ open_rings places) }
{
    let Ok(mut rings) = Vec::with_capacity(alloc, places as usize) else {
        return Err(AllocError);
    };
    for _ in 0..places {
        rings.push_reserved(Ring::new(alloc, FIRST_CELLS));
    }
    Ok(rings)
}

fn free_all<J>(mut rings: Vec<Ring<Item<J>>>)
    requires { All (λ x. IsIdle x) rings.items }
{
    while let Some(ring) = rings.pop() {
        ring.close();
    }
    rings.destroy_empty();
}

fn new_own(alloc: Global, places: u32) -> Result<Vec<Vec<OwnMark>>, AllocError>
    ensures { IfOk result (λ own. map (λ kept. kept.items) own.items ≡ replicate places []) }
{
    let mut own = Vec::new(alloc);
    for _ in 0..places {
        own.push(Vec::new(alloc))?;
    }
    Ok(own)
}

fn new_owns(alloc: Global, senders: u32, places: u32) -> Result<Vec<Vec<Vec<OwnMark>>>, AllocError>
    ensures { IfOk result (λ owns. (length owns.items ≡ senders)
        × All (λ own. map (λ kept. kept.items) own.items ≡ replicate places []) owns.items) }
{
    let mut owns = Vec::new(alloc);
    for _ in 0..senders {
        owns.push(new_own(alloc, places)?)?;
    }
    Ok(owns)
}

// Gives each sender's pass a seat of its own.
fn deal<J: Meant>(
    shared: &Shared<Ring<Item<J>>, View<J::Meaning>, Sizes, Law<J>>,
    seat: &mut Seat<Ring<Item<J>>, View<J::Meaning>>,
    target: u32,
    senders: u32,
    mut owns: Vec<Vec<Vec<OwnMark>>>,
    passes: &mut Vec<SendPass<J>>,
)
    requires table { (seat.old.table_id ≡ shared.now.table_id) × (0 < shared.now.table_id.words)
        × (shared.now.table_id.slots ≡ shared.now.key.places) }
    requires first { seat.old.me ≡ (dealing_view shared.now.key.places 0 senders, []) }
    requires owns { (length owns.items ≡ senders)
        × All (λ own. map (λ kept. kept.items) own.items
        ≡ replicate shared.now.key.places []) owns.items }
    requires room { (passes.old.items ≡ []) × (senders ≤ vec_capacity passes.old) }
    ensures seat { (seat.new.table_id ≡ seat.old.table_id)
        × (seat.new.me ≡ (dealing_view shared.now.key.places senders 0, [])) }
    ensures passes { AreDealt shared.now.key.places
        (map (λ pass. pass_view pass) passes.new.items) senders }
    ensures tables { All (λ pass. pass.hold.seat.table_id ≡ shared.now.table_id) passes.new.items }
{
    for sender in 0..senders {
        let Some(own) = owns.pop() else {
            return;
        };
        let dealt = shared.split_seat::<Dealt>(seat);
        passes.push_reserved(SendPass {
            hold: PassHold {
                seat: dealt,
                target,
                sender,
                own,
            },
        });
    }
}

fn new_jobs(alloc: Global, places: u32) -> Result<Vec<PlaceJobs>, AllocError>
    ensures started { IfOk result (λ jobs. starts_of jobs.items ≡ replicate places []) }
    ensures taken { IfOk result (λ jobs. counts_of jobs.items ≡ replicate places 0) }
{
    let mut jobs = Vec::new(alloc);
    for _ in 0..places {
        jobs.push(PlaceJobs {
            started: Vec::new(alloc),
            taken: 0,
        })?;
    }
    Ok(jobs)
}

// The uses of place 0, one for each sender.
fn new_system<J>(alloc: Global, target: u32, senders: u32) -> Result<Vec<PlaceUse<J>>, AllocError>
    ensures { IfOk result (λ uses. uses.items ≡ system_uses target senders) }
{
    let Ok(mut uses) = Vec::with_capacity(alloc, senders as usize) else {
        return Err(AllocError);
    };
    for sender in 0..senders {
        uses.push_reserved(PlaceUse {
            target,
            place: 0,
            sender,
            marker: PhantomData,
        });
    }
    Ok(uses)
}

// The table, with the first seat, which has the owner and all passes.
fn make_table<J: Meant>(
    alloc: Global,
    target: u32,
    senders: u32,
    places: u32,
    waker: Unparker,
) -> Result<(Post<J>, Seat<Ring<Item<J>>, View<J::Meaning>>), AllocError>
    requires senders { (1 ≤ senders) × (senders ≤ senders_max) }
    requires places { (1 ≤ places) × (places ≤ places_max) }
    ensures post { IfOk result (λ made. (post_target made.0 ≡ target)
        × (post_senders made.0 ≡ senders) × (post_places made.0 ≡ places)) }
    ensures seat { IfOk result (λ made. (made.1.table_id ≡ made.0.table.shared.table_id)
        × (made.1.me ≡ (dealing_view places 0 senders, []))) }
{
    let words = new_words(alloc, senders, places)?;
    let rings = new_rings(alloc, places)?;
    let key = Sizes {
        target,
        senders,
        places,
    };
    match Table::new(alloc, words.as_slice(), rings, &key) {
        Ok((table, seat)) => Ok((
            Post {
                table,
                target,
                senders,
                places,
                waker,
            },
            seat,
        )),
        Err(Refused { slots }) => {
            free_all(slots);
            Err(AllocError)
        }
    }
}

/// Makes a target's table.
pub fn make<J: Meant>(
    alloc: Global,
    target: u32,
    senders: u32,
    places: u32,
) -> Result<Made<J>, AllocError>
    requires senders { (1 ≤ senders) × (senders ≤ senders_max) }
    requires places { (1 ≤ places) × (places ≤ places_max) }
    ensures post { IfOk result (λ made. (post_target made.post ≡ target)
        × (post_senders made.post ≡ senders) × (post_places made.post ≡ places)) }
    ensures parts { IfOk result (λ made. IsMade senders places made) }
    ensures system { IfOk result (λ made. made.system.items ≡ system_uses target senders) }
{
    let parker = Parker::new(alloc)?;
    let waker = parker.unparker().clone()?;
    let owns = new_owns(alloc, senders, places)?;
    let jobs = new_jobs(alloc, places)?;
    let Ok(mut passes) = Vec::with_capacity(alloc, senders as usize) else {
        return Err(AllocError);
    };
    let Ok(system) = new_system(alloc, target, senders) else {
        passes.destroy_empty();
        return Err(AllocError);
    };
    let Ok((post, mut seat)) = make_table::<J>(alloc, target, senders, places, waker) else {
        passes.destroy_empty();
        end_uses(system);
        return Err(AllocError);
    };
    deal(
        &post.table.shared,
        &mut seat,
        target,
        senders,
        owns,
        &mut passes,
    );
    Ok(Made {
        post,
        owner: Owner {
            hold: OwnerHold {
                seat,
                target,
                jobs,
                got: 0,
                parker,
            },
        },
        passes,
        system,
    })
}
