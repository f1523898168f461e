//! Runs of a target from end to end.

use crate::scenes::{OWNER, go, refuses, send, serve};
use proxy_model::{Actor, Event, StepRefusal, Why, World, run};
use std::test::Fail;

const S: Actor = Actor::Sender(0);

#[test]
fn opens_sound(rt: HostRuntime) -> Result<(), Fail> {
    // Place 0 has a use for each sender, so that its life is two more.
    for (senders, places, life) in [(1, 1, 3), (64, 256, 66), (1, 256, 3), (64, 1, 66)] {
        let mut world = World::opening(rt.alloc(), senders, places)?;
        assert!(rt; world.sound());
        refuses(&rt, &mut world, Event::Create(0, 0), 1, life);
        refuses(&rt, &mut world, Event::LoadRefs(senders), 0, 0);
        refuses(&rt, &mut world, Event::TakeNotice(places), 0, 0);
        go(&rt, &mut world, &[Event::LoadRefs(senders - 1)]);
        refuses(&rt, &mut world, Event::TakeNotice(places - 1), 2, 0);
    }
    Ok(())
}

#[test]
fn always_enabled(rt: HostRuntime) -> Result<(), Fail> {
    let mut world = World::opening(rt.alloc(), 1, 1)?;
    let looks = [
        Event::Split(S),
        Event::Split(OWNER),
        Event::Join(0),
        Event::LoadRefs(0),
        Event::LookMail(0),
        Event::LookMail(1),
        Event::LookMail(2),
        Event::LookMail(3),
    ];
    go(&rt, &mut world, &looks);
    Ok(())
}

/// The sender sends while the owner finishes, so that the note stays pending and the sender is the one
/// messenger.
#[test]
fn hand_over(rt: HostRuntime) -> Result<(), Fail> {
    let mut world = World::opening(rt.alloc(), 1, 1)?;
    go(&rt, &mut world, &send(0, 0, 7));
    go(&rt, &mut world, &[Event::LookMail(0)]);
    go(&rt, &mut world, &serve(0, 0));
    let again = [
        Event::AddRef(0),
        Event::TakePlace(S, 0),
        Event::Put(0, 0, 8),
        Event::GivePlace(S, 0),
        Event::SwapNote(0, 0),
        Event::Finish(0),
    ];
    go(&rt, &mut world, &again);
    refuses(&rt, &mut world, Event::SwapNote(0, 0), 1, 0);
    refuses(&rt, &mut world, Event::TakeNotice(0), 2, 0);
    // Since the note is pending, the next send is no messenger.
    let next = [
        Event::AddMail(0),
        Event::TakePlace(S, 0),
        Event::Put(0, 0, 9),
        Event::GivePlace(S, 0),
        Event::SwapNote(0, 0),
    ];
    go(&rt, &mut world, &next);
    refuses(&rt, &mut world, Event::AddMail(0), 1, 0);
    // The notice is there still, and one execution takes both jobs.
    let both = [
        Event::DropRef(0),
        Event::TakeNotice(0),
        Event::Receive(0),
        Event::TakePlace(OWNER, 0),
        Event::TakeJob(0),
        Event::TakeJob(0),
    ];
    go(&rt, &mut world, &both);
    refuses(&rt, &mut world, Event::TakeJob(0), 2, 3);
    Ok(())
}

#[test]
fn finish_too_early(rt: HostRuntime) -> Result<(), Fail> {
    let mut world = World::opening(rt.alloc(), 2, 2)?;
    refuses(&rt, &mut world, Event::Finish(0), 1, 0);
    assert!(rt; world.sound());
    // The world is as it was: the owner is away, and the first send goes its way.
    go(&rt, &mut world, &send(1, 0, 7));
    go(&rt, &mut world, &serve(0, 0));
    go(&rt, &mut world, &[Event::Finish(0)]);
    Ok(())
}

#[test]
fn high_places(rt: HostRuntime) -> Result<(), Fail> {
    let mut world = World::opening(rt.alloc(), 1, 256)?;
    for place in [63, 64, 255] {
        go(&rt, &mut world, &[Event::Create(0, place)]);
        go(&rt, &mut world, &send(0, place, 7));
    }
    // In any order, and each once.
    for place in [255, 63, 64] {
        go(&rt, &mut world, &serve(place, 0));
        go(&rt, &mut world, &[Event::Finish(place)]);
        refuses(&rt, &mut world, Event::TakeNotice(place), 2, 0);
    }
    Ok(())
}

#[test]
fn closes_with_a_job_waiting(rt: HostRuntime) -> Result<(), Fail> {
    let mut world = World::opening(rt.alloc(), 1, 1)?;
    go(&rt, &mut world, &send(0, 0, 7));
    go(&rt, &mut world, &serve(0, 0));
    go(&rt, &mut world, &[Event::Finish(0)]);
    go(&rt, &mut world, &send(0, 0, 8));
    let closed = [
        Event::DropOwn,
        Event::LookClosed,
        Event::LookMail(0),
        Event::TakeNotice(0),
        Event::TakePlace(OWNER, 0),
        Event::TakeJob(0),
        Event::GivePlace(OWNER, 0),
    ];
    go(&rt, &mut world, &closed);
    refuses(&rt, &mut world, Event::SettleFinished(0, 1), 2, 0);
    go(&rt, &mut world, &[Event::SettleCancelled(0, 1)]);
    refuses(&rt, &mut world, Event::SettleCancelled(0, 1), 1, 0);
    go(&rt, &mut world, &[Event::ResetPlace(0), Event::LookMail(3)]);
    refuses(&rt, &mut world, Event::AddRef(0), 2, 0);
    Ok(())
}

/// A sender that still has a reference keeps the owner from closing.
#[test]
fn closing_waits_for_senders(rt: HostRuntime) -> Result<(), Fail> {
    let mut world = World::opening(rt.alloc(), 1, 1)?;
    let closing = [Event::AddRef(0), Event::DropOwn, Event::LookClosed];
    go(&rt, &mut world, &closing);
    refuses(&rt, &mut world, Event::LookMail(0), 1, 0);
    go(&rt, &mut world, &[Event::DropRef(0), Event::LookClosed]);
    go(&rt, &mut world, &[Event::LookMail(0)]);
    Ok(())
}

/// A place whose last use goes while its note is pending is a zombie, which another sender claims.
#[test]
fn zombie(rt: HostRuntime) -> Result<(), Fail> {
    let mut world = World::opening(rt.alloc(), 2, 2)?;
    go(
        &rt,
        &mut world,
        &[Event::Create(0, 1), Event::CloneUse(0, 1)],
    );
    refuses(&rt, &mut world, Event::Create(1, 1), 1, 4);
    go(&rt, &mut world, &send(0, 1, 7));
    let left = [
        Event::ReleaseUse(0, 1),
        Event::ReleaseUse(0, 1),
        Event::LookNote(0, 1),
        Event::MarkLife(0, 1),
    ];
    go(&rt, &mut world, &left);
    refuses(&rt, &mut world, Event::Create(1, 1), 1, 1);
    go(&rt, &mut world, &serve(1, 0));
    let freed = [
        Event::Finish(1),
        Event::Claim(1, 1),
        Event::LookNote(1, 1),
        Event::MarkLife(1, 1),
        Event::Create(1, 1),
    ];
    go(&rt, &mut world, &freed);
    refuses(&rt, &mut world, Event::Create(0, 1), 1, 3);
    Ok(())
}

#[test]
fn direct_execution(rt: HostRuntime) -> Result<(), Fail> {
    let mut world = World::opening(rt.alloc(), 1, 1)?;
    go(&rt, &mut world, &send(0, 0, 7));
    let executed = [
        Event::Direct(0),
        Event::TakePlace(OWNER, 0),
        Event::TakeJob(0),
        Event::GivePlace(OWNER, 0),
        Event::SettleFinished(0, 0),
        Event::TakePlace(OWNER, 0),
        Event::LookPlace(0),
        Event::GivePlace(OWNER, 0),
    ];
    go(&rt, &mut world, &executed);
    // It leaves the note alone, and the owner away: the notice is taken next, and nothing waits.
    refuses(&rt, &mut world, Event::Finish(0), 1, 0);
    let taken = [
        Event::TakeNotice(0),
        Event::Receive(0),
        Event::TakePlace(OWNER, 0),
    ];
    go(&rt, &mut world, &taken);
    refuses(&rt, &mut world, Event::TakeJob(0), 2, 1);
    Ok(())
}

#[test]
fn runs_to_the_first_refusal(rt: HostRuntime) -> Result<(), Fail> {
    let mut world = World::opening(rt.alloc(), 1, 1)?;
    let whole = run(&mut world, &[Event::AddRef(0), Event::DropRef(0)]);
    assert_eq!(rt; whole, Ok(()));
    let why = Why { part: 1, value: 0 };
    let cut = run(
        &mut world,
        &[Event::AddRef(0), Event::AddRef(0), Event::DropRef(0)],
    );
    assert_eq!(rt; cut, Err((1, StepRefusal::NotEnabled(why))));
    // The events before the refusal were done, and those after it were not.
    go(&rt, &mut world, &[Event::DropRef(0)]);
    Ok(())
}
