//! Random walks stay sound.

ghost use Rattle.std.specs.Prelude.{◌<◌};

use proxy_model::{Actor, Event, World};
use std::process::Abort;
use std::test::Fail;

/// A draw of the generator with Knuth's constants, below the bound.
fn draw(state: &mut u64, bound: u32) -> u32
    requires { 0 < bound }
    ensures { result < bound }
{
    *state = state
        .wrapping_mul(6364136223846793005)
        .wrapping_add(1442695040888963407);
    (*state >> 33) as u32 % bound
}

fn draw_actor(state: &mut u64, sender: u32) -> Actor {
    if draw(state, 2) == 0 {
        Actor::Owner
    } else {
        Actor::Sender(sender)
    }
}

fn draw_event(state: &mut u64) -> Event {
    let s = draw(state, 3);
    let p = draw(state, 3);
    let n = u64::from(draw(state, 6));
    let who = draw_actor(state, s);
    match draw(state, 27) {
        0 => Event::LoadRefs(s),
        1 => Event::AddRef(s),
        2 => Event::DropRef(s),
        3 | 4 => Event::TakePlace(who, p),
        5 => Event::Put(s, p, n),
        6 | 7 => Event::GivePlace(who, p),
        8 => Event::SwapNote(s, p),
        9 => Event::AddMail(s),
        10 => Event::LookMail(s),
        11 => Event::TakeNotice(p),
        12 => Event::Receive(p),
        13 => Event::Direct(p),
        14 => Event::TakeJob(p),
        15 => Event::LookPlace(p),
        16 => Event::Finish(p),
        17 => Event::SettleFinished(p, n),
        18 => Event::SettleCancelled(p, n),
        19 => Event::ResetPlace(p),
        20 => Event::Create(s, p),
        21 => Event::CloneUse(s, p),
        22 => Event::ReleaseUse(s, p),
        23 => Event::Claim(s, p),
        24 => Event::LookNote(s, p),
        25 => Event::MarkLife(s, p),
        _ => Event::Join(s),
    }
}

/// Draws events, of which the enabled ones are taken. After two thirds of them the target begins to
/// close. The answer is how many were taken.
fn walk(rt: &(impl Abort + AllocGlobal), state: &mut u64) -> Result<u32, Fail> {
    let mut world = World::opening(rt.alloc(), 3, 3)?;
    let mut taken: u32 = 0;
    for turn in 0..1500u32 {
        let event = if turn == 1000 {
            Event::DropOwn
        } else if turn % 50 == 49 {
            Event::LookClosed
        } else {
            draw_event(state)
        };
        if world.step(&event).is_ok() {
            assert!(rt; world.sound(), "{event:?}");
            taken = taken.saturating_add(1);
        }
    }
    Ok(taken)
}

#[test]
fn stay_sound(rt: HostRuntime) -> Result<(), Fail> {
    let mut state = 1;
    let mut taken: u32 = 0;
    for _walk in 0..70 {
        taken = taken.saturating_add(walk(&rt, &mut state)?);
    }
    assert!(rt; taken > 10_000, "only {taken} events were enabled");
    Ok(())
}
