//! Targets as the tests begin with them.

ghost use Rattle.std.specs.Prelude.{◌≡◌, ◌<◌, ◌≤◌, ◌∷◌, None, []};
ghost use Rattle.post_core.specs.OwnerViews.{IsOwnerOf, owner_view};
ghost use Rattle.post_core.specs.SendParts.{IsPassOf, post_places, post_senders};
ghost use Rattle.post_tests.specs.Scenes.{AreAllPasses, HasHeld, MayAllSend, MaySend};

use post_core::{Made, Owner, PlaceUse, Post, SendPass, make};
use std::process::Abort;

/// A target of one sender.
pub(crate) struct Alone {
    pub(crate) post: Post<u64>,
    pub(crate) owner: Owner<u64>,
    pub(crate) pass: SendPass<u64>,
    pub(crate) place_use: PlaceUse<u64>,
}

/// A target with number 0.
pub(crate) fn target(rt: &(impl Abort + AllocGlobal), senders: u32, places: u32) -> Made<u64>
    requires senders { (1 ≤ senders) × (senders ≤ 64) }
    requires places { (1 ≤ places) × (places ≤ 256) }
    ensures post { (post_senders result.post ≡ senders) × (post_places result.post ≡ places) }
    ensures owner { IsOwnerOf result.post result.owner × HasHeld None (owner_view result.owner) }
    ensures senders { MayAllSend result.post result.passes.items result.system.items }
    ensures passes { AreAllPasses result.post result.passes.items }
{
    match make::<u64>(rt.alloc(), 0, senders, places) {
        Ok(made) => made,
        Err(_) => panic!(rt; "memory for a target"),
    }
}

/// A list of one item.
pub(crate) fn only<T>(rt: &(impl Abort + AllocGlobal), item: T) -> Vec<T>
    ensures { result.items ≡ item ∷ [] }
{
    let Ok(mut items) = Vec::with_capacity(rt.alloc(), 1) else {
        panic!(rt; "memory for a list");
    };
    items.push_reserved(item);
    items
}

/// A target of one sender, with number 0.
pub(crate) fn one_sender(rt: &(impl Abort + AllocGlobal), places: u32) -> Alone
    requires places { (1 ≤ places) × (places ≤ 256) }
    ensures post { (post_senders result.post ≡ 1) × (post_places result.post ≡ places) }
    ensures owner { IsOwnerOf result.post result.owner × HasHeld None (owner_view result.owner) }
    ensures sender { MaySend result.post result.pass result.place_use }
    ensures pass { AreAllPasses result.post (result.pass ∷ []) }
{
    let Made {
        post,
        owner,
        mut passes,
        mut system,
    } = target(rt, 1, places);
    match (passes.pop(), system.pop()) {
        (Some(pass), Some(place_use)) => {
            passes.destroy_empty();
            system.destroy_empty();
            Alone {
                post,
                owner,
                pass,
                place_use,
            }
        }
        _ => panic!(rt; "a target without its sender"),
    }
}
