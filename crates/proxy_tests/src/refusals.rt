//! Each condition of each event fails in turn, in a world of two senders and two places.

use crate::scenes::{OWNER, go, refuses};
use proxy_model::{Actor, Event, World};
use std::process::Abort;
use std::test::Fail;

const S: Actor = Actor::Sender(0);

const T: Actor = Actor::Sender(1);

/// No sender has this number.
const NOBODY: Actor = Actor::Sender(2);

/// Before the first event.
const START: usize = 0;

/// A send to place 0, and how the owner serves it. Each name below says what its event leaves.
const SEND: [Event; 14] = [
    Event::AddRef(0),
    Event::TakePlace(S, 0),
    Event::Put(0, 0, 7),
    Event::GivePlace(S, 0),
    Event::SwapNote(0, 0),
    Event::AddMail(0),
    Event::DropRef(0),
    Event::TakeNotice(0),
    Event::Receive(0),
    Event::TakePlace(OWNER, 0),
    Event::TakeJob(0),
    Event::LookPlace(0),
    Event::GivePlace(OWNER, 0),
    Event::Finish(0),
];

const REFERENCED: usize = 1;

const HOLDING: usize = 2;

const PUT: usize = 3;

const OWING: usize = 4;

const MESSENGER: usize = 5;

const MAILED: usize = 6;

const SENT: usize = 7;

const GOT: usize = 8;

const EXECUTING: usize = 9;

const WORKING: usize = 10;

const TAKEN: usize = 11;

const SEEN_WITH_TURN: usize = 12;

const SEEN_EMPTY: usize = 13;

const FINISHED: usize = 14;

/// The events before the number, and then the event, which is refused for this reason.
type Row = (usize, Event, u32, u64);

fn refuses_each(
    rt: &(impl Abort + AllocGlobal),
    scene: &[Event],
    rows: &[Row],
) -> Result<(), Fail> {
    for row in rows {
        let (count, event, part, value) = *row;
        let mut world = World::opening(rt.alloc(), 2, 2)?;
        for before in scene.iter().take(count) {
            go(rt, &mut world, &[*before]);
        }
        refuses(rt, &mut world, event, part, value);
    }
    Ok(())
}

#[test]
fn nobody_there(rt: HostRuntime) -> Result<(), Fail> {
    refuses_each(
        &rt,
        &SEND,
        &[
            (START, Event::LoadRefs(2), 0, 0),
            (START, Event::AddRef(2), 0, 0),
            (START, Event::DropRef(2), 0, 0),
            (START, Event::TakePlace(NOBODY, 0), 0, 0),
            (START, Event::TakePlace(S, 2), 0, 0),
            (START, Event::TakePlace(OWNER, 2), 0, 0),
            (START, Event::Put(2, 0, 7), 0, 0),
            (START, Event::Put(0, 2, 7), 0, 0),
            (START, Event::GivePlace(NOBODY, 0), 0, 0),
            (START, Event::GivePlace(OWNER, 2), 0, 0),
            (START, Event::SwapNote(2, 0), 0, 0),
            (START, Event::SwapNote(0, 2), 0, 0),
            (START, Event::AddMail(2), 0, 0),
            (START, Event::TakeNotice(2), 0, 0),
            (START, Event::Receive(2), 0, 0),
            (START, Event::Direct(2), 0, 0),
            (START, Event::TakeJob(2), 0, 0),
            (START, Event::LookPlace(2), 0, 0),
            (START, Event::Finish(2), 0, 0),
            (START, Event::SettleFinished(2, 0), 0, 0),
            (START, Event::SettleCancelled(2, 0), 0, 0),
            (START, Event::ResetPlace(2), 0, 0),
            (START, Event::Create(2, 1), 0, 0),
            (START, Event::Create(0, 2), 0, 0),
            (START, Event::CloneUse(2, 0), 0, 0),
            (START, Event::CloneUse(0, 2), 0, 0),
            (START, Event::ReleaseUse(2, 1), 0, 0),
            (START, Event::ReleaseUse(0, 2), 0, 0),
            (START, Event::Claim(2, 1), 0, 0),
            (START, Event::Claim(0, 2), 0, 0),
            (START, Event::LookNote(2, 1), 0, 0),
            (START, Event::LookNote(0, 2), 0, 0),
            (START, Event::MarkLife(2, 1), 0, 0),
            (START, Event::MarkLife(0, 2), 0, 0),
            (START, Event::Split(NOBODY), 0, 0),
            (START, Event::Join(2), 0, 0),
        ],
    )
}

#[test]
fn sending(rt: HostRuntime) -> Result<(), Fail> {
    refuses_each(
        &rt,
        &SEND,
        &[
            (REFERENCED, Event::LoadRefs(0), 1, 0),
            (REFERENCED, Event::AddRef(0), 1, 0),
            (REFERENCED, Event::Join(0), 1, 0),
            (START, Event::DropRef(0), 1, 0),
            (HOLDING, Event::DropRef(0), 1, 0),
            (START, Event::TakePlace(S, 0), 1, 0),
            (REFERENCED, Event::TakePlace(S, 1), 1, 0),
            (START, Event::TakePlace(OWNER, 0), 1, 0),
            (GOT, Event::TakePlace(OWNER, 0), 1, 0),
            (WORKING, Event::TakePlace(OWNER, 0), 2, 1),
            (REFERENCED, Event::Put(0, 0, 7), 1, 0),
            (HOLDING, Event::Put(0, 1, 7), 1, 0),
            (PUT, Event::Put(0, 0, 7), 1, 0),
            (REFERENCED, Event::GivePlace(S, 0), 1, 0),
            (HOLDING, Event::GivePlace(T, 0), 1, 0),
            (HOLDING, Event::GivePlace(OWNER, 0), 1, 0),
            (PUT, Event::SwapNote(0, 0), 1, 0),
            (OWING, Event::SwapNote(0, 1), 1, 0),
            (MESSENGER, Event::SwapNote(0, 0), 1, 0),
            (OWING, Event::AddMail(0), 1, 0),
            (MAILED, Event::AddMail(0), 1, 0),
        ],
    )
}

#[test]
fn serving(rt: HostRuntime) -> Result<(), Fail> {
    refuses_each(
        &rt,
        &SEND,
        &[
            (GOT, Event::LookMail(0), 1, 0),
            (START, Event::LookMail(4), 2, 0),
            (GOT, Event::TakeNotice(0), 1, 0),
            (MESSENGER, Event::TakeNotice(0), 2, 0),
            (SENT, Event::TakeNotice(1), 2, 0),
            (FINISHED, Event::TakeNotice(0), 2, 0),
            (SENT, Event::Receive(0), 1, 0),
            (EXECUTING, Event::Receive(0), 1, 0),
            (GOT, Event::Direct(1), 1, 0),
            (EXECUTING, Event::TakeJob(0), 1, 0),
            (HOLDING, Event::TakeJob(0), 1, 0),
            (TAKEN, Event::TakeJob(0), 2, 1),
            (EXECUTING, Event::LookPlace(0), 1, 0),
            (WORKING, Event::LookPlace(0), 2, 0),
            (TAKEN, Event::Finish(0), 1, 0),
            (SEEN_WITH_TURN, Event::Finish(0), 1, 0),
            (FINISHED, Event::Finish(0), 1, 0),
            (WORKING, Event::SettleFinished(0, 0), 1, 0),
            (TAKEN, Event::SettleFinished(0, 1), 1, 0),
            (TAKEN, Event::SettleFinished(1, 0), 1, 0),
            (WORKING, Event::SettleCancelled(0, 0), 1, 0),
            (TAKEN, Event::SettleCancelled(0, 0), 2, 0),
            (SEEN_EMPTY, Event::ResetPlace(0), 1, 0),
        ],
    )
}

#[test]
fn closing(rt: HostRuntime) -> Result<(), Fail> {
    // The job of a direct execution is active while the owner drops its reference, and closes.
    let scene = [
        Event::AddRef(0),
        Event::TakePlace(S, 0),
        Event::Put(0, 0, 7),
        Event::GivePlace(S, 0),
        Event::Direct(0),
        Event::TakePlace(OWNER, 0),
        Event::TakeJob(0),
        Event::DropOwn,
        Event::SwapNote(0, 0),
        Event::AddMail(0),
        Event::DropRef(0),
        Event::LookClosed,
        Event::SettleCancelled(0, 0),
    ];
    refuses_each(
        &rt,
        &scene,
        &[
            (0, Event::LookClosed, 1, 0),
            (8, Event::SettleFinished(0, 0), 2, 0),
            (8, Event::SettleCancelled(0, 0), 2, 0),
            (8, Event::DropOwn, 1, 0),
            (11, Event::AddRef(0), 2, 0),
            (12, Event::LookClosed, 1, 0),
            (12, Event::DropOwn, 1, 0),
            (12, Event::AddRef(0), 2, 0),
            (12, Event::SettleFinished(0, 0), 2, 0),
            (12, Event::ResetPlace(1), 2, 0),
            (13, Event::SettleCancelled(0, 0), 1, 0),
        ],
    )?;
    // A closing owner looks at no mailbox, and a closed one resets no place where a job waits.
    let waiting = [
        Event::AddRef(0),
        Event::TakePlace(S, 0),
        Event::Put(0, 0, 7),
        Event::GivePlace(S, 0),
        Event::SwapNote(0, 0),
        Event::AddMail(0),
        Event::DropRef(0),
        Event::DropOwn,
        Event::LookClosed,
        Event::TakeNotice(0),
    ];
    refuses_each(
        &rt,
        &waiting,
        &[
            (8, Event::LookMail(0), 1, 0),
            (8, Event::TakeNotice(0), 1, 0),
            (9, Event::ResetPlace(0), 2, 0),
            (10, Event::ResetPlace(0), 2, 0),
        ],
    )
}

#[test]
fn turns(rt: HostRuntime) -> Result<(), Fail> {
    let scene = [
        Event::AddRef(0),
        Event::AddRef(1),
        Event::TakePlace(S, 0),
        Event::Direct(0),
    ];
    refuses_each(
        &rt,
        &scene,
        &[
            (3, Event::TakePlace(T, 0), 2, 1),
            (4, Event::TakePlace(OWNER, 0), 2, 1),
            (4, Event::TakeJob(0), 1, 0),
        ],
    )
}

#[test]
fn lives(rt: HostRuntime) -> Result<(), Fail> {
    let scene = [
        Event::Create(0, 1),
        Event::ReleaseUse(0, 1),
        Event::LookNote(0, 1),
        Event::MarkLife(0, 1),
    ];
    refuses_each(
        &rt,
        &scene,
        &[
            (0, Event::Create(0, 0), 1, 4),
            (1, Event::Create(1, 1), 1, 3),
            (2, Event::Create(1, 1), 1, 2),
            (0, Event::CloneUse(0, 1), 1, 0),
            (1, Event::CloneUse(1, 1), 1, 0),
            (2, Event::ReleaseUse(0, 0), 1, 0),
            (0, Event::ReleaseUse(0, 1), 2, 0),
            (0, Event::ReleaseUse(0, 0), 3, 0),
            (2, Event::Claim(0, 1), 1, 0),
            (0, Event::Claim(0, 1), 2, 0),
            (0, Event::Claim(0, 0), 2, 4),
            (2, Event::Claim(1, 1), 2, 2),
            (1, Event::LookNote(0, 1), 1, 0),
            (2, Event::LookNote(0, 0), 1, 0),
            (2, Event::LookNote(1, 1), 1, 0),
            (1, Event::MarkLife(0, 1), 1, 0),
            (2, Event::MarkLife(0, 1), 2, 0),
            (3, Event::MarkLife(0, 0), 1, 0),
            (4, Event::MarkLife(0, 1), 1, 0),
        ],
    )?;
    // A use that the sender's phase engages is neither copied nor given up.
    refuses_each(
        &rt,
        &[
            Event::Create(0, 1),
            Event::AddRef(0),
            Event::TakePlace(S, 1),
        ],
        &[
            (3, Event::CloneUse(0, 1), 1, 0),
            (3, Event::ReleaseUse(0, 1), 2, 0),
        ],
    )
}
