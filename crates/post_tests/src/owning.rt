//! An owner's calls, one after another. The pass that each takes meets the notes of what was settled.

ghost use Rattle.std.specs.Prelude.{◌≡◌, Some, None, length};
ghost use Rattle.post_core.specs.ClosingViews.{IsClosedOf, IsClosingOf, closed_view, closing_view};
ghost use Rattle.post_core.specs.OwnerViews.{IsEmptiedOf, IsExecOf, IsGotOf, IsOwnerOf, emptied_view, exec_place, exec_view, got_place, got_view, owner_view};
ghost use Rattle.post_core.specs.SendParts.{HasPlace, IsPassOf, pass_view, post_places};
ghost use Rattle.post_tests.specs.Scenes.{AreAllPasses, HasHeld, KeepsUses};

use crate::parts::Job;
use post_core::{
    CancelNext, Closed, Closing, ClosingLook, Emptied, Exec, Got, Noticed, Owner, PlaceUse, Post,
    SendPass, Taken, close,
};
use proxy_laws::{FateMark, PostRecord};
use std::process::Abort;
use std::sync::Wait;

/// Finishes each job that waits at the place. One that was taken before may be active at place 0.
pub(crate) fn execute<R: Abort + Wait>(
    rt: &R,
    post: &Post<u64>,
    mut exec: Exec<u64>,
    place: u32,
    held: Option<u64>,
    mut pass: SendPass<u64>,
    log: &mut Vec<Job>,
) -> (Owner<u64>, SendPass<u64>)
    requires exec { IsExecOf post.now exec × (exec_place exec ≡ place) × HasPlace post.now place }
    requires held { HasHeld held (exec_view exec) }
    requires pass { IsPassOf post.now pass }
    ensures owner { IsOwnerOf post.now result.0 × HasHeld held (owner_view result.0) }
    ensures pass { IsPassOf post.now result.1 × KeepsUses (pass_view pass) (pass_view result.1) }
{
    for _ in rt.forever() {
        exec.ready().expect(rt, "memory for a started job");
        match exec.take(rt, post) {
            Taken::Job {
                exec: mut after,
                nth,
                mark,
                job,
            } => {
                let note = after.settle(post, place, nth, FateMark::Finished);
                pass = pass.meet(post, note);
                log.push(Job {
                    place,
                    nth,
                    mark,
                    job,
                })
                .expect(rt, "memory for a job of the log");
                exec = after;
            }
            Taken::Empty(seen) => return (seen.finish(post), pass),
        }
    }
    unreachable!()
}

/// Serves each notice of the mailbox until it finds none, and answers how many it got.
pub(crate) fn serve<R: Abort + Wait>(
    rt: &R,
    post: &Post<u64>,
    mut owner: Owner<u64>,
    held: Option<u64>,
    mut pass: SendPass<u64>,
    log: &mut Vec<Job>,
) -> (Owner<u64>, SendPass<u64>, u64)
    requires owner { IsOwnerOf post.now owner × HasHeld held (owner_view owner) }
    requires pass { IsPassOf post.now pass }
    ensures owner { IsOwnerOf post.now result.0 × HasHeld held (owner_view result.0) }
    ensures pass { IsPassOf post.now result.1 × KeepsUses (pass_view pass) (pass_view result.1) }
{
    for notices in 0..u64::MAX {
        match owner.next_notice(post) {
            Noticed::Got(got) => {
                let place = got.place();
                let exec = got.receive(post);
                let (after, back) = execute(rt, post, exec, place, held, pass, log);
                owner = after;
                pass = back;
            }
            Noticed::Nothing(after) => return (after, pass, notices),
        }
    }
    (owner, pass, u64::MAX)
}

/// Takes the first job of the place that was got, which stays active.
fn hold_of<R: Abort + Wait>(rt: &R, post: &Post<u64>, got: Got<u64>) -> (Exec<u64>, Job)
    requires { IsGotOf post.now got × (got_place got ≡ 0) × HasHeld None (got_view got) }
    ensures exec { IsExecOf post.now result.0 × (exec_place result.0 ≡ 0) }
    ensures held { HasHeld (Some result.1.nth) (exec_view result.0) }
{
    let place = got.place();
    let mut exec = got.receive(post);
    exec.ready().expect(rt, "memory for a started job");
    match exec.take(rt, post) {
        Taken::Job {
            exec,
            nth,
            mark,
            job,
        } => (
            exec,
            Job {
                place,
                nth,
                mark,
                job,
            },
        ),
        Taken::Empty(_seen) => panic!(rt; "no job"),
    }
}

/// Gets the notice of the one place, and takes the first job there, which stays active.
pub(crate) fn hold_first<R: Abort + Wait>(
    rt: &R,
    post: &Post<u64>,
    owner: Owner<u64>,
) -> (Exec<u64>, Job)
    requires one { post_places post.now ≡ 1 }
    requires owner { IsOwnerOf post.now owner × HasHeld None (owner_view owner) }
    ensures exec { IsExecOf post.now result.0 × (exec_place result.0 ≡ 0) }
    ensures held { HasHeld (Some result.1.nth) (exec_view result.0) }
{
    match owner.next_notice(post) {
        Noticed::Got(got) => hold_of(rt, post, got),
        Noticed::Nothing(_owner) => panic!(rt; "no notice"),
    }
}

/// Parks until no reference is left.
pub(crate) fn shut<R: Wait>(
    rt: &R,
    post: &Post<u64>,
    mut closing: Closing<u64>,
    held: Option<u64>,
) -> Closed<u64>
    requires { IsClosingOf post.now closing × HasHeld held (closing_view closing) }
    ensures { IsClosedOf post.now result × HasHeld held (closed_view result) }
{
    for _ in rt.forever() {
        match closing.look(post) {
            ClosingLook::Closed(closed) => return closed,
            ClosingLook::Referenced {
                closing: after,
                count: _,
            } => closing = after.park(rt, post),
        }
    }
    unreachable!()
}

/// Cancels each job that waits.
pub(crate) fn cancel_all<R: Abort + Wait>(
    rt: &R,
    post: &Post<u64>,
    mut closed: Closed<u64>,
    held: Option<u64>,
    mut pass: SendPass<u64>,
    log: &mut Vec<Job>,
) -> (Emptied<u64>, SendPass<u64>)
    requires closed { IsClosedOf post.now closed × HasHeld held (closed_view closed) }
    requires pass { IsPassOf post.now pass }
    ensures emptied { IsEmptiedOf post.now result.0 × HasHeld held (emptied_view result.0) }
    ensures pass { IsPassOf post.now result.1 × KeepsUses (pass_view pass) (pass_view result.1) }
{
    for _ in rt.forever() {
        match closed.cancel_next(rt, post) {
            CancelNext::Job {
                closed: after,
                place,
                nth,
                mark,
                job,
                note,
            } => {
                closed = after;
                pass = pass.meet(post, note);
                log.push(Job {
                    place,
                    nth,
                    mark,
                    job,
                })
                .expect(rt, "memory for a job of the log");
            }
            CancelNext::Done(emptied) => return (emptied, pass),
        }
    }
    unreachable!()
}

/// Ends the target with its record.
pub(crate) fn end(
    rt: &(impl Abort + AllocGlobal),
    post: Post<u64>,
    emptied: Emptied<u64>,
    passes: Vec<SendPass<u64>>,
    uses: Vec<PlaceUse<u64>>,
) -> PostRecord
    requires emptied { IsEmptiedOf post emptied × HasHeld None (emptied_view emptied) }
    requires passes { AreAllPasses post passes.items }
    ensures { length result.places.items ≡ post_places post }
{
    match close(rt.alloc(), post, emptied, passes, uses) {
        Ok(record) => record,
        Err(_back) => panic!(rt; "memory for the record"),
    }
}
