//! Queues of a target beside its system queue, and notes of what was seen.

ghost use Rattle.std.specs.Prelude.{◌≡◌, ◌≢◌, ◌∷◌, []};
ghost use Rattle.post_core.specs.SendParts.{pass_view, use_place};
ghost use Rattle.post_core.specs.Views.{pass_of};
ghost use Rattle.proxy_queue.specs.Sets.{set_post};
ghost use Rattle.queue_tests.specs.Scenes.{AreAllPasses, HasClonedNone, HasUses, MaySend};

use crate::parts::Counter;
use crate::scenes::{OneSender, end, one_sender, only};
use crate::sending::{Sent, send};
use post_core::{CreateAnswer, Released, SendPass};
use proxy_laws::Started;
use proxy_queue::{QueueSet, QueueUse};
use std::process::Abort;

/// Creates a queue, which is this one.
fn create(
    rt: &impl Abort,
    set: &QueueSet<u64>,
    pass: SendPass<u64>,
    wanted: u32,
) -> (SendPass<u64>, QueueUse<u64>)
    requires { AreAllPasses (set_post set.now) (pass ∷ []) }
    ensures pass { AreAllPasses (set_post set.now) (result.0 ∷ []) }
    ensures made { HasUses 1 (set_post set.now) (pass_view result.0) result.1 }
    ensures may { MaySend (set_post set.now) result.0 result.1 }
    ensures clones { (pass_of (pass_view result.0)).clones ≡ (pass_of (pass_view pass)).clones }
{
    match set.create(pass) {
        CreateAnswer::Made { pass, place_use } => {
            assert_eq!(rt; place_use.place(), wanted);
            (pass, place_use)
        }
        CreateAnswer::Full(_pass) => panic!(rt; "no queue is free"),
    }
}

/// Finds no queue free.
fn finds_full(rt: &impl Abort, set: &QueueSet<u64>, pass: SendPass<u64>) -> SendPass<u64>
    requires { AreAllPasses (set_post set.now) (pass ∷ []) }
    ensures { AreAllPasses (set_post set.now) (result ∷ []) }
{
    match set.create(pass) {
        CreateAnswer::Full(pass) => pass,
        CreateAnswer::Made {
            pass: _pass,
            place_use: _place_use,
        } => panic!(rt; "a queue is free"),
    }
}

/// Clones the only use of a queue, by a pass that has cloned none.
fn clone_only(
    set: &QueueSet<u64>,
    pass: SendPass<u64>,
    place_use: &QueueUse<u64>,
) -> (SendPass<u64>, QueueUse<u64>)
    requires pass { AreAllPasses (set_post set.now) (pass ∷ []) }
    requires made { HasUses 1 (set_post set.now) (pass_view pass) place_use.now }
    requires cloned { HasClonedNone (pass_view pass) }
    ensures pass { AreAllPasses (set_post set.now) (result.0 ∷ []) }
    ensures made { HasUses 2 (set_post set.now) (pass_view result.0) place_use.now }
    ensures same { result.1 ≡ place_use.now }
{
    set.clone_use(pass, place_use)
}

/// Releases one of two uses of a queue, which keeps it.
fn release_one(
    rt: &impl Abort,
    set: &QueueSet<u64>,
    pass: SendPass<u64>,
    place_use: QueueUse<u64>,
) -> SendPass<u64>
    requires pass { AreAllPasses (set_post set.now) (pass ∷ []) }
    requires made { HasUses 2 (set_post set.now) (pass_view pass) place_use }
    ensures pass { AreAllPasses (set_post set.now) (result ∷ []) }
    ensures made { HasUses 1 (set_post set.now) (pass_view result) place_use }
    ensures may { MaySend (set_post set.now) result place_use }
{
    let (pass, released) = set.release(pass, place_use);
    assert_eq!(rt; released, Released::Kept);
    pass
}

/// Releases a use of a queue other than the system queue.
fn release(
    set: &QueueSet<u64>,
    pass: SendPass<u64>,
    place_use: QueueUse<u64>,
) -> (SendPass<u64>, Released)
    requires pass { AreAllPasses (set_post set.now) (pass ∷ []) }
    requires may { MaySend (set_post set.now) pass place_use }
    requires other { use_place place_use ≢ 0 }
    ensures { AreAllPasses (set_post set.now) (result.0 ∷ []) }
{
    set.release(pass, place_use)
}

fn add<T>(rt: &impl Abort, items: &mut Vec<T>, item: T) {
    items.reserve(1).expect(rt, "memory for an item");
    items.push_reserved(item);
}

/// Of two queues beside the system queue both are created, and then none is free. One that is released is free again.
#[test]
fn queues_run_out(rt: HostRuntime) {
    let OneSender {
        set,
        mailbox,
        pass,
        place_use,
    } = one_sender(&rt, 3);
    let (pass, first) = create(&rt, &set, pass, 1);
    let (pass, last) = create(&rt, &set, pass, 2);
    let (pass, released) = release(&set, pass, last);
    assert_eq!(&rt; released, Released::Freed);
    let (pass, again) = create(&rt, &set, pass, 2);
    let pass = finds_full(&rt, &set, pass);
    let mut counter = Counter::new(8);
    let (emptied, _cancelled) = set.shutdown(&rt, mailbox, &mut counter);
    let mut uses = only(&rt, place_use);
    add(&rt, &mut uses, first);
    add(&rt, &mut uses, again);
    let record = end(&rt, set, emptied, only(&rt, pass), uses);
    assert_eq!(&rt; record.places.len(), 3);
}

/// A clone is a use of its own: the queue is free once both are released. A job was sent by the clone.
#[test]
fn a_clone_keeps_its_queue(rt: HostRuntime) {
    let OneSender {
        set,
        mut mailbox,
        pass,
        place_use,
    } = one_sender(&rt, 2);
    let (pass, first) = create(&rt, &set, pass, 1);
    let (pass, second) = clone_only(&set, pass, &first);
    let pass = release_one(&rt, &set, pass, first);
    let (pass, sent) = send(&rt, &set, pass, &second, 10);
    assert_eq!(&rt; sent, Sent::Accepted(0));
    let mut counter = Counter::new(8);
    let notices = set.check(&rt, &mut mailbox, &mut counter);
    assert_eq!(&rt; notices.expect(&rt, "memory for jobs"), 1);
    let (pass, released) = release(&set, pass, second);
    assert_eq!(&rt; released, Released::Freed);
    let (emptied, _cancelled) = set.shutdown(&rt, mailbox, &mut counter);
    let record = end(&rt, set, emptied, only(&rt, pass), only(&rt, place_use));
    let jobs = &record.places[1].jobs;
    assert_eq!(&rt; jobs.len(), 1);
    for job in jobs {
        assert_eq!(&rt; job.started, Started::Notice(1));
    }
}

/// The last use of a queue is released while its note is pending, so that it is a zombie. A `create` leaves it; after the
/// check the next one sets it free, and has it.
#[test]
fn a_zombie_is_free_once_its_note_is_none(rt: HostRuntime) {
    let OneSender {
        set,
        mut mailbox,
        pass,
        place_use,
    } = one_sender(&rt, 2);
    let (pass, first) = create(&rt, &set, pass, 1);
    let (pass, sent) = send(&rt, &set, pass, &first, 10);
    assert_eq!(&rt; sent, Sent::Accepted(0));
    let (pass, released) = release(&set, pass, first);
    assert_eq!(&rt; released, Released::Zombie);
    let pass = finds_full(&rt, &set, pass);
    let mut counter = Counter::new(8);
    let notices = set.check(&rt, &mut mailbox, &mut counter);
    assert_eq!(&rt; notices.expect(&rt, "memory for jobs"), 1);
    let (pass, again) = create(&rt, &set, pass, 1);
    let (emptied, _cancelled) = set.shutdown(&rt, mailbox, &mut counter);
    let mut uses = only(&rt, place_use);
    add(&rt, &mut uses, again);
    let record = end(&rt, set, emptied, only(&rt, pass), uses);
    assert_eq!(&rt; record.places[1].jobs.len(), 1);
}

/// A pass makes a note of what it has seen, and meets it. The target is ended without a record.
#[test]
fn a_note_is_met(rt: HostRuntime) {
    let OneSender {
        set,
        mailbox,
        pass,
        place_use,
    } = one_sender(&rt, 1);
    let (pass, sent) = send(&rt, &set, pass, &place_use, 10);
    assert_eq!(&rt; sent, Sent::Accepted(0));
    let (pass, note) = set.note(pass);
    let pass = set.meet(pass, note);
    let mut counter = Counter::new(8);
    let (emptied, cancelled) = set.shutdown(&rt, mailbox, &mut counter);
    assert_eq!(&rt; cancelled.waiting, 1);
    set.discard(emptied, only(&rt, pass), only(&rt, place_use));
}
