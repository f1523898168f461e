//! A sender's calls, one after another.

ghost use Rattle.std.specs.Prelude.{◌≡◌};
ghost use Rattle.post_core.specs.SendParts.{IsOwingOf, IsRefPassOf, owing_view, pass_view, ref_view};
ghost use Rattle.mailbox_tests.specs.Scenes.{KeepsUses, MayPut, MaySend};

use post_core::{Notified, Owing, PlaceUse, Post, PutAnswer, RefAnswer, RefPass, SendPass};
use std::process::Abort;
use std::sync::Wait;

/// What became of a send.
#[derive(Clone, Copy, Debug, PartialEq, Eq)]
pub(crate) enum Sent {
    /// The job has this number at its place, and the sender brought a notice or not.
    Accepted { nth: u64, messenger: bool },
    /// The target takes no more jobs.
    Closed,
}

/// Puts a job, and does so again where memory was wanting: it came back, and nothing was put.
pub(crate) fn put<R: Abort + Wait>(
    rt: &R,
    post: &Post<u64>,
    held: RefPass<u64>,
    place_use: &PlaceUse<u64>,
    job: u64,
) -> Owing<u64>
    requires { IsRefPassOf post.now held × MayPut post.now (ref_view held) place_use.now }
    ensures { IsOwingOf post.now result × KeepsUses (ref_view held) (owing_view result) }
{
    match held.put(rt, post, place_use, job, job) {
        PutAnswer::Put(owing) => owing,
        PutAnswer::NoMemory(held, back) => {
            assert_eq!(rt; back, job);
            match held.put(rt, post, place_use, job, back) {
                PutAnswer::Put(owing) => owing,
                PutAnswer::NoMemory(_held, _) => panic!(rt; "memory for a job"),
            }
        }
    }
}

/// Notifies, and answers whether the sender brought a notice.
pub(crate) fn notify(post: &Post<u64>, owing: Owing<u64>) -> (RefPass<u64>, bool)
    requires { IsOwingOf post.now owing }
    ensures { IsRefPassOf post.now result.0 × KeepsUses (owing_view owing) (ref_view result.0) }
{
    match owing.notify(post) {
        Notified::Quiet(held) => (held, false),
        Notified::Messenger(notice) => (notice.deliver(post), true),
    }
}

/// Sends a job, whose tag is its number.
pub(crate) fn send<R: Abort + Wait>(
    rt: &R,
    post: &Post<u64>,
    pass: SendPass<u64>,
    place_use: &PlaceUse<u64>,
    job: u64,
) -> (SendPass<u64>, Sent)
    requires { MaySend post.now pass place_use.now }
    ensures may { MaySend post.now result.0 place_use.now }
    ensures uses { KeepsUses (pass_view pass) (pass_view result.0) }
{
    match post.take_ref(rt, pass) {
        RefAnswer::Closed(pass) => (pass, Sent::Closed),
        RefAnswer::Held(held) => {
            let owing = put(rt, post, held, place_use, job);
            let nth = owing.nth();
            let (held, messenger) = notify(post, owing);
            (held.give(post), Sent::Accepted { nth, messenger })
        }
    }
}

/// Sends each of these jobs, which the target takes.
pub(crate) fn send_each<R: Abort + Wait>(
    rt: &R,
    post: &Post<u64>,
    mut pass: SendPass<u64>,
    place_use: &PlaceUse<u64>,
    jobs: &[u64],
) -> SendPass<u64>
    requires { MaySend post.now pass place_use.now }
    ensures { MaySend post.now result place_use.now }
{
    for job in jobs {
        let (back, sent) = send(rt, post, pass, place_use, *job);
        assert!(rt; sent != Sent::Closed, "the target is closed");
        pass = back;
    }
    pass
}
