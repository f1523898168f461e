//! Lists of events that the tests share, and what the tests ask of a step.

use proxy_model::{Actor, Event, StepRefusal, Why, World};
use std::process::Abort;

pub(crate) const OWNER: Actor = Actor::Owner;

/// One whole send to a place of which the sender has a use.
pub(crate) fn send(sender: u32, place: u32, tag: u64) -> [Event; 7] {
    let who = Actor::Sender(sender);
    [
        Event::AddRef(sender),
        Event::TakePlace(who, place),
        Event::Put(sender, place, tag),
        Event::GivePlace(who, place),
        Event::SwapNote(sender, place),
        Event::AddMail(sender),
        Event::DropRef(sender),
    ]
}

/// The owner takes the notice of a place, runs job number `n` there, and finds no other.
pub(crate) fn serve(place: u32, n: u64) -> [Event; 9] {
    [
        Event::TakeNotice(place),
        Event::Receive(place),
        Event::TakePlace(OWNER, place),
        Event::TakeJob(place),
        Event::GivePlace(OWNER, place),
        Event::SettleFinished(place, n),
        Event::TakePlace(OWNER, place),
        Event::LookPlace(place),
        Event::GivePlace(OWNER, place),
    ]
}

/// Steps by each event, after which the world is sound.
pub(crate) fn go(rt: &impl Abort, world: &mut World, events: &[Event]) {
    for event in events {
        let answer = world.step(event);
        assert!(rt; answer.is_ok(), "{event:?}");
        assert!(rt; world.sound(), "{event:?}");
    }
}

/// The event is refused for this reason.
pub(crate) fn refuses(rt: &impl Abort, world: &mut World, event: Event, part: u32, value: u64) {
    let why = Why { part, value };
    let refused = Err(StepRefusal::NotEnabled(why));
    assert_eq!(rt; world.step(&event), refused, "{event:?}");
}
