//! Targets as the tests begin with them.

ghost use Rattle.std.specs.Prelude.{◌≡◌, ℕ, ◌<◌, ◌≤◌, ◌∷◌, [], length, replicate};
ghost use Rattle.post_core.specs.Kept.{listed};
ghost use Rattle.post_core.specs.OwnerViews.{IsEmptiedOf, IsOwnerOf, emptied_view, owner_view};
ghost use Rattle.post_core.specs.Records.{AreSettled};
ghost use Rattle.post_core.specs.SendParts.{IsPassOf, post_places, post_senders, post_target};
ghost use Rattle.mailbox.specs.Turns.{jobs_in};
ghost use Rattle.mailbox_tests.specs.Scenes.{AreAllPasses, MayAllSend, MaySend};

use post_core::{CloseBack, Emptied, Made, Owner, PlaceUse, Post, SendPass, close, make};
use proxy_laws::PostRecord;
use std::process::Abort;

/// A target of one sender.
pub(crate) struct Alone {
    pub(crate) post: Post<u64>,
    pub(crate) owner: Owner<u64>,
    pub(crate) pass: SendPass<u64>,
    pub(crate) place_use: PlaceUse<u64>,
}

/// A target with number 0.
pub(crate) fn target(rt: &(impl Abort + AllocGlobal), senders: u32, places: u32) -> Made<u64>
    requires senders { (1 ≤ senders) × (senders ≤ 64) }
    requires places { (1 ≤ places) × (places ≤ 256) }
    ensures post { (post_senders result.post ≡ senders) × (post_places result.post ≡ places) }
    ensures number { post_target result.post ≡ 0 }
    ensures owner { IsOwnerOf result.post result.owner
        × (jobs_in (owner_view result.owner) ≡ replicate places []) }
    ensures senders { MayAllSend result.post result.passes.items result.system.items }
    ensures passes { AreAllPasses result.post result.passes.items }
{
    match make::<u64>(rt.alloc(), 0, senders, places) {
        Ok(made) => made,
        Err(_) => panic!(rt; "memory for a target"),
    }
}

/// A list of one item.
pub(crate) fn only<T>(rt: &(impl Abort + AllocGlobal), item: T) -> Vec<T>
    ensures { result.items ≡ item ∷ [] }
{
    let Ok(mut items) = Vec::with_capacity(rt.alloc(), 1) else {
        panic!(rt; "memory for a list");
    };
    items.push_reserved(item);
    items
}

/// A target of one sender, with number 0.
pub(crate) fn one_sender(rt: &(impl Abort + AllocGlobal), places: u32) -> Alone
    requires places { (1 ≤ places) × (places ≤ 256) }
    ensures post { (post_senders result.post ≡ 1) × (post_places result.post ≡ places) }
    ensures number { post_target result.post ≡ 0 }
    ensures owner { IsOwnerOf result.post result.owner
        × (jobs_in (owner_view result.owner) ≡ replicate places []) }
    ensures sender { MaySend result.post result.pass result.place_use }
    ensures pass { AreAllPasses result.post (result.pass ∷ []) }
{
    let Made {
        post,
        owner,
        mut passes,
        mut system,
    } = target(rt, 1, places);
    match (passes.pop(), system.pop()) {
        (Some(pass), Some(place_use)) => {
            passes.destroy_empty();
            system.destroy_empty();
            Alone {
                post,
                owner,
                pass,
                place_use,
            }
        }
        _ => panic!(rt; "a target without its sender"),
    }
}

/// The record of a target of one sender that was shut down. Where memory was wanting, everything came back, and it is made
/// again.
pub(crate) fn end(
    rt: &(impl Abort + AllocGlobal),
    post: Post<u64>,
    emptied: Emptied<u64>,
    pass: SendPass<u64>,
    place_use: PlaceUse<u64>,
) -> PostRecord
    requires emptied { IsEmptiedOf post emptied }
    requires settled { (p : ℕ) → AreSettled (listed (jobs_in (emptied_view emptied)) p) }
    requires pass { AreAllPasses post (pass ∷ []) }
    ensures { length result.places.items ≡ post_places post }
{
    let passes = only(rt, pass);
    let uses = only(rt, place_use);
    match close(rt.alloc(), post, emptied, passes, uses) {
        Ok(record) => record,
        Err(
            CloseBack {
                post,
                emptied,
                passes,
                uses,
            },
        ) => match close(rt.alloc(), post, emptied, passes, uses) {
            Ok(record) => record,
            Err(_back) => panic!(rt; "memory for the record"),
        },
    }
}
