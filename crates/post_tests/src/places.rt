//! Places of a target: as many as it has are created, are served in their order, and run out.

ghost use Rattle.std.specs.Prelude.{◌≡◌, ◌<◌, All, None, [], ◌∷◌, length};
ghost use Rattle.post_core.specs.OwnerViews.{IsExecOf, IsOwnerOf, exec_place, exec_view, owner_view};
ghost use Rattle.post_core.specs.SendParts.{HasPlace, IsPassOf, pass_view};
ghost use Rattle.post_tests.specs.Places.{IsCreatedFor};
ghost use Rattle.post_tests.specs.Scenes.{AreAllPasses, HasHeld, MayPut};

use crate::owning::{cancel_all, end, execute, serve, shut};
use crate::scenes::{Alone, one_sender, only};
use crate::sending::{Sent, send};
use post_core::{CreateAnswer, Exec, Noticed, Owner, PlaceUse, Post, Released, SendPass};
use proxy_laws::PostRecord;
use std::process::Abort;
use std::sync::Wait;

/// Creates a place, which is this one.
fn create_place(
    rt: &impl Abort,
    post: &Post<u64>,
    pass: SendPass<u64>,
    wanted: u32,
) -> (SendPass<u64>, PlaceUse<u64>)
    requires { AreAllPasses post.now (pass ∷ []) }
    ensures pass { AreAllPasses post.now (result.0 ∷ []) }
    ensures uses { IsCreatedFor post.now (pass_view pass) (pass_view result.0) result.1 }
{
    match post.create(pass) {
        CreateAnswer::Made { pass, place_use } => {
            assert_eq!(rt; place_use.place(), wanted);
            (pass, place_use)
        }
        CreateAnswer::Full(_pass) => panic!(rt; "no place is free"),
    }
}

/// Creates so many places, which are those from 1 up.
fn create_each(
    rt: &(impl Abort + AllocGlobal),
    post: &Post<u64>,
    mut pass: SendPass<u64>,
    count: u32,
) -> (SendPass<u64>, Vec<PlaceUse<u64>>)
    requires { AreAllPasses post.now (pass ∷ []) }
    ensures pass { AreAllPasses post.now (result.0 ∷ []) }
    ensures uses { All (λ u. MayPut post.now (pass_view result.0) u) result.1.items }
    ensures count { length result.1.items ≡ count }
{
    let mut uses = Vec::new(rt.alloc());
    for before in 0..count {
        let (back, place_use) = create_place(rt, post, pass, before + 1);
        pass = back;
        uses.reserve(1).expect(rt, "memory for a use");
        uses.push_reserved(place_use);
    }
    (pass, uses)
}

/// Sends a job to the place of one of the uses.
fn send_to<R: Abort + Wait>(
    rt: &R,
    post: &Post<u64>,
    pass: SendPass<u64>,
    uses: &Vec<PlaceUse<u64>>,
    index: usize,
    job: u64,
) -> SendPass<u64>
    requires pass { AreAllPasses post.now (pass ∷ []) }
    requires uses { All (λ u. MayPut post.now (pass_view pass) u) uses.now.items }
    requires near { index < length uses.now.items }
    ensures table { IsPassOf post.now result }
    ensures pass { AreAllPasses post.now (result ∷ []) }
    ensures uses { All (λ u. MayPut post.now (pass_view result) u) uses.now.items }
{
    let (pass, sent) = send(rt, post, pass, &uses[index], job);
    assert!(rt; sent != Sent::Closed, "the target is closed");
    pass
}

/// Finds no place free.
fn finds_full(rt: &impl Abort, post: &Post<u64>, pass: SendPass<u64>) -> SendPass<u64>
    requires { AreAllPasses post.now (pass ∷ []) }
    ensures table { IsPassOf post.now result }
    ensures pass { AreAllPasses post.now (result ∷ []) }
{
    match post.create(pass) {
        CreateAnswer::Full(pass) => pass,
        CreateAnswer::Made {
            pass: _pass,
            place_use: _place_use,
        } => panic!(rt; "a place is free"),
    }
}

/// Releases the use that was made last, of a place other than 0.
fn release_last(
    rt: &impl Abort,
    post: &Post<u64>,
    pass: SendPass<u64>,
    uses: &mut Vec<PlaceUse<u64>>,
) -> (SendPass<u64>, Released)
    requires pass { AreAllPasses post.now (pass ∷ []) }
    requires uses { All (λ u. MayPut post.now (pass_view pass) u) uses.old.items }
    ensures { AreAllPasses post.now (result.0 ∷ []) }
{
    match uses.pop() {
        Some(place_use) => {
            assert!(rt; place_use.place() != 0, "a use of place 0");
            post.release(pass, place_use)
        }
        None => panic!(rt; "no use is left"),
    }
}

/// Gets the first notice, and receives its place's note.
fn receive(rt: &impl Abort, post: &Post<u64>, owner: Owner<u64>) -> (Exec<u64>, u32)
    requires { IsOwnerOf post.now owner × HasHeld None (owner_view owner) }
    ensures exec { IsExecOf post.now result.0 × (exec_place result.0 ≡ result.1)
        × HasPlace post.now result.1 }
    ensures held { HasHeld None (exec_view result.0) }
{
    match owner.next_notice(post) {
        Noticed::Got(got) => {
            let place = got.place();
            (got.receive(post), place)
        }
        Noticed::Nothing(_owner) => panic!(rt; "no notice"),
    }
}

/// Closes the target, cancels what waits, and ends it with its record.
fn close_alone<R: Abort + Wait + AllocGlobal>(
    rt: &R,
    post: Post<u64>,
    owner: Owner<u64>,
    pass: SendPass<u64>,
    uses: Vec<PlaceUse<u64>>,
) -> PostRecord
    requires owner { IsOwnerOf post owner × HasHeld None (owner_view owner) }
    requires pass { AreAllPasses post (pass ∷ []) }
{
    let mut log = Vec::new(rt.alloc());
    let closed = shut(rt, &post, owner.begin_close(&post), None);
    let (emptied, pass) = cancel_all(rt, &post, closed, None, pass, &mut log);
    end(rt, post, emptied, only(rt, pass), uses)
}

fn add<T>(rt: &impl Abort, items: &mut Vec<T>, item: T) {
    items.reserve(1).expect(rt, "memory for an item");
    items.push_reserved(item);
}

/// A job is sent to place 129, and then one to place 70: the notice of place 70 comes first.
#[test]
fn the_lowest_place_comes_first(rt: HostRuntime) {
    let Alone {
        post,
        owner,
        pass,
        place_use,
    } = one_sender(&rt, 130);
    let (pass, mut uses) = create_each(&rt, &post, pass, 129);
    let pass = send_to(&rt, &post, pass, &uses, 128, 1);
    let pass = send_to(&rt, &post, pass, &uses, 69, 2);
    let mut log = Vec::new(rt.alloc());
    let (owner, pass, notices) = serve(&rt, &post, owner, None, pass, &mut log);
    assert_eq!(&rt; notices, 2);
    let places = log
        .iter()
        .map(|job| job.place)
        .collect::<Vec<u32>>(rt.alloc())
        .expect(&rt, "memory for the places");
    assert_eq!(&rt; places.as_slice(), [70, 129].as_slice());
    add(&rt, &mut uses, place_use);
    let record = close_alone(&rt, post, owner, pass, uses);
    assert_eq!(&rt; record.places.len(), 130);
}

/// Of 32 places 31 can be created. One that is released is free again.
#[test]
fn places_run_out(rt: HostRuntime) {
    let Alone {
        post,
        owner,
        pass,
        place_use,
    } = one_sender(&rt, 32);
    let (pass, mut uses) = create_each(&rt, &post, pass, 31);
    let (pass, released) = release_last(&rt, &post, pass, &mut uses);
    assert_eq!(&rt; released, Released::Freed);
    let (pass, again) = create_place(&rt, &post, pass, 31);
    add(&rt, &mut uses, again);
    let pass = finds_full(&rt, &post, pass);
    add(&rt, &mut uses, place_use);
    let record = close_alone(&rt, post, owner, pass, uses);
    assert_eq!(&rt; record.places.len(), 32);
}

/// The last use of a place is released while its note is received, so the place is a zombie. A `create` leaves it; after the
/// owner's `finish` the next one sets it free, and has it.
#[test]
fn a_zombie_is_culled_once_its_note_is_none(rt: HostRuntime) {
    let Alone {
        post,
        owner,
        pass,
        place_use,
    } = one_sender(&rt, 2);
    let (pass, mut uses) = create_each(&rt, &post, pass, 1);
    let pass = send_to(&rt, &post, pass, &uses, 0, 1);
    let (exec, place) = receive(&rt, &post, owner);
    assert_eq!(&rt; place, 1);
    let (pass, released) = release_last(&rt, &post, pass, &mut uses);
    assert_eq!(&rt; released, Released::Zombie);
    let pass = finds_full(&rt, &post, pass);
    let mut log = Vec::new(rt.alloc());
    let (owner, pass) = execute(&rt, &post, exec, place, None, pass, &mut log);
    let (pass, again) = create_place(&rt, &post, pass, 1);
    add(&rt, &mut uses, again);
    add(&rt, &mut uses, place_use);
    close_alone(&rt, post, owner, pass, uses);
}
