//! Targets as the tests begin with them, and as they end.

ghost use Rattle.std.specs.Prelude.{◌≡◌, ◌≤◌, ◌∷◌, All, [], false, length};
ghost use Rattle.post_core.specs.SendParts.{pass_view, post_places, post_senders};
ghost use Rattle.mailbox.specs.Boxes.{is_unfinished};
ghost use Rattle.proxy_queue.specs.Sets.{AreSetParts, set_post};
ghost use Rattle.queue_tests.specs.Scenes.{AreAllPasses, HasClonedNone, HasSentNone, IsBoxIdle, IsEnd, MayAllSend, MaySend};

use mailbox::Mailbox;
use post_core::{Emptied, SendPass};
use proxy_laws::PostRecord;
use proxy_queue::{QueueSet, QueueUse, SetParts};
use std::process::Abort;

/// The queues of a target with number 1.
pub(crate) fn target(rt: &(impl Abort + AllocGlobal), senders: u32, places: u32) -> SetParts<u64>
    requires senders { (1 ≤ senders) × (senders ≤ 64) }
    requires places { (1 ≤ places) × (places ≤ 256) }
    ensures set { (post_senders (set_post result.set) ≡ senders)
        × (post_places (set_post result.set) ≡ places) }
    ensures mailbox { IsBoxIdle (set_post result.set) result.mailbox }
    ensures senders { MayAllSend (set_post result.set) result.passes.items result.system.items }
    ensures passes { AreAllPasses (set_post result.set) result.passes.items }
    ensures fresh { All (λ pass. HasSentNone (pass_view pass)) result.passes.items }
    ensures cloned { All (λ pass. HasClonedNone (pass_view pass)) result.passes.items }
    ensures made { AreSetParts senders places result }
{
    match QueueSet::make(rt.alloc(), 1, senders, places) {
        Ok(parts) => parts,
        Err(_) => panic!(rt; "memory for a target"),
    }
}

/// A target of one sender.
pub(crate) struct OneSender {
    pub(crate) set: QueueSet<u64>,
    pub(crate) mailbox: Mailbox<u64>,
    pub(crate) pass: SendPass<u64>,
    pub(crate) place_use: QueueUse<u64>,
}

/// A target of one sender, who has sent nothing and cloned no use.
pub(crate) fn one_sender(rt: &(impl Abort + AllocGlobal), places: u32) -> OneSender
    requires places { (1 ≤ places) × (places ≤ 256) }
    ensures mailbox { IsBoxIdle (set_post result.set) result.mailbox }
    ensures rests { is_unfinished result.mailbox ≡ false }
    ensures sender { MaySend (set_post result.set) result.pass result.place_use }
    ensures passes { AreAllPasses (set_post result.set) (result.pass ∷ []) }
    ensures places { post_places (set_post result.set) ≡ places }
    ensures fresh { HasSentNone (pass_view result.pass) }
    ensures cloned { HasClonedNone (pass_view result.pass) }
{
    let SetParts {
        set,
        mailbox,
        mut passes,
        mut system,
    } = target(rt, 1, places);
    match (passes.pop(), system.pop()) {
        (Some(pass), Some(place_use)) => {
            passes.destroy_empty();
            system.destroy_empty();
            OneSender {
                set,
                mailbox,
                pass,
                place_use,
            }
        }
        _ => panic!(rt; "a target without its sender"),
    }
}

/// The record of a target that was shut down.
pub(crate) fn end(
    rt: &(impl Abort + AllocGlobal),
    set: QueueSet<u64>,
    emptied: Emptied<u64>,
    passes: Vec<SendPass<u64>>,
    uses: Vec<QueueUse<u64>>,
) -> PostRecord
    requires emptied { IsEnd (set_post set) emptied }
    requires passes { AreAllPasses (set_post set) passes.items }
    ensures { length result.places.items ≡ post_places (set_post set) }
{
    match set.close(rt.alloc(), emptied, passes, uses) {
        Ok(record) => record,
        Err(_back) => panic!(rt; "memory for the record"),
    }
}

/// A list of one item.
pub(crate) fn only<T>(rt: &(impl Abort + AllocGlobal), item: T) -> Vec<T>
    ensures { result.items ≡ item ∷ [] }
{
    let Ok(mut items) = Vec::with_capacity(rt.alloc(), 1) else {
        panic!(rt; "memory for a list");
    };
    items.push_reserved(item);
    items
}
