//! Two senders of one target.

ghost use Rattle.std.specs.Prelude.{◌≡◌, ◌∷◌, ◌++◌, ℕ, [], length, replicate};
ghost use Rattle.post_core.specs.Kept.{listed};
ghost use Rattle.post_core.specs.OwnerViews.{IsEmptiedOf, IsOwnerOf, emptied_view, owner_view};
ghost use Rattle.post_core.specs.Records.{AreSettled};
ghost use Rattle.post_core.specs.SendParts.{pass_view, post_places, post_senders, post_target};
ghost use Rattle.mailbox.specs.Turns.{jobs_in};
ghost use Rattle.mailbox_tests.specs.Scenes.{AreAllPasses, KeepsUses, MayAllSend, MaySend};

use crate::boxes::fresh;
use crate::recorder::Recorder;
use crate::scenes::target;
use crate::sending::{Sent, send};
use post_core::{Emptied, Made, Owner, PlaceUse, Post, SendPass, close};
use proxy_laws::{FateMark, PostRecord, Started};
use std::process::Abort;
use std::sync::Wait;

/// What one of two senders has.
struct Sender {
    pass: SendPass<u64>,
    place_use: PlaceUse<u64>,
}

/// A target of two senders.
struct Pair {
    post: Post<u64>,
    owner: Owner<u64>,
    first: Sender,
    second: Sender,
}

/// The last of the senders that are left.
fn take_sender(
    rt: &impl Abort,
    passes: &mut Vec<SendPass<u64>>,
    system: &mut Vec<PlaceUse<u64>>,
) -> Sender
    ensures pass { passes.old.items ≡ passes.new.items ++ result.pass ∷ [] }
    ensures place_use { system.old.items ≡ system.new.items ++ result.place_use ∷ [] }
{
    match (passes.pop(), system.pop()) {
        (Some(pass), Some(place_use)) => Sender { pass, place_use },
        _ => panic!(rt; "a target without its senders"),
    }
}

/// A target of two senders and two places, with number 0.
fn two_senders(rt: &(impl Abort + AllocGlobal)) -> Pair
    ensures post { (post_target result.post ≡ 0) × (post_senders result.post ≡ 2)
        × (post_places result.post ≡ 2) }
    ensures owner { IsOwnerOf result.post result.owner
        × (jobs_in (owner_view result.owner) ≡ replicate 2 []) }
    ensures senders { MayAllSend result.post
        (result.first.pass ∷ result.second.pass ∷ [])
        (result.first.place_use ∷ result.second.place_use ∷ []) }
    ensures passes { AreAllPasses result.post (result.first.pass ∷ result.second.pass ∷ []) }
{
    let Made {
        post,
        owner,
        mut passes,
        mut system,
    } = target(rt, 2, 2);
    let second = take_sender(rt, &mut passes, &mut system);
    let first = take_sender(rt, &mut passes, &mut system);
    passes.destroy_empty();
    system.destroy_empty();
    Pair {
        post,
        owner,
        first,
        second,
    }
}

/// A sender sends a job.
fn send_by<R: Abort + Wait>(rt: &R, post: &Post<u64>, sender: Sender, job: u64) -> (Sender, Sent)
    requires { MaySend post.now sender.pass sender.place_use }
    ensures may { MaySend post.now result.0.pass result.0.place_use }
    ensures uses { KeepsUses (pass_view sender.pass) (pass_view result.0.pass)
        × (result.0.place_use ≡ sender.place_use) }
{
    let Sender { pass, place_use } = sender;
    let (pass, sent) = send(rt, post, pass, &place_use, job);
    (Sender { pass, place_use }, sent)
}

/// A list of two items.
fn both<T>(rt: &(impl Abort + AllocGlobal), first: T, second: T) -> Vec<T>
    ensures { result.items ≡ first ∷ second ∷ [] }
{
    let Ok(mut items) = Vec::with_capacity(rt.alloc(), 2) else {
        panic!(rt; "memory for a list");
    };
    items.push_reserved(first);
    items.push_reserved(second);
    items
}

/// The record of a target of two senders that was shut down.
fn end_pair(
    rt: &(impl Abort + AllocGlobal),
    post: Post<u64>,
    emptied: Emptied<u64>,
    first: Sender,
    second: Sender,
) -> PostRecord
    requires emptied { IsEmptiedOf post emptied }
    requires settled { (p : ℕ) → AreSettled (listed (jobs_in (emptied_view emptied)) p) }
    requires passes { AreAllPasses post (first.pass ∷ second.pass ∷ []) }
    ensures { length result.places.items ≡ post_places post }
{
    let Sender { pass, place_use } = first;
    let Sender {
        pass: last,
        place_use: last_use,
    } = second;
    let passes = both(rt, pass, last);
    let uses = both(rt, place_use, last_use);
    match close(rt.alloc(), post, emptied, passes, uses) {
        Ok(record) => record,
        Err(_back) => panic!(rt; "memory for the record"),
    }
}

#[test]
fn two_sends_need_one_notice(rt: HostRuntime) {
    let Pair {
        post,
        owner,
        first,
        second,
    } = two_senders(&rt);
    let (first, sent) = send_by(&rt, &post, first, 10);
    assert_eq!(&rt;
        sent,
        Sent::Accepted {
            nth: 0,
            messenger: true
        }
    );
    let (second, sent) = send_by(&rt, &post, second, 11);
    assert_eq!(&rt;
        sent,
        Sent::Accepted {
            nth: 1,
            messenger: false
        }
    );
    let mut runner = Recorder::new(rt.alloc(), 0);
    let mut mailbox = fresh(&post, owner);
    let notices = mailbox
        .check(&rt, &post, &mut runner)
        .expect(&rt, "memory for jobs");
    assert_eq!(&rt; notices, 1);
    let (emptied, _cancelled) = mailbox.shutdown(&rt, &post, &mut runner);
    let record = end_pair(&rt, post, emptied, first, second);
    let jobs = &record.places[0].jobs;
    assert_eq!(&rt; jobs.len(), 2);
    for (nth, job) in jobs.iter().enumerate() {
        assert_eq!(&rt; job.mark.sender as usize, nth);
        assert_eq!(&rt; job.started, Started::Notice(1));
        assert_eq!(&rt; job.fate, FateMark::Finished);
    }
}
