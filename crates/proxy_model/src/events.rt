//! What an event names.

ghost use Rattle.std.specs.Prelude.{◌≡◌};
ghost use Rattle.proxy_laws.specs.Events.{event_place, event_sender};

use proxy_laws::{Actor, Event};

/// The sender that the event names, if it names one.
pub(crate) fn event_sender(event: &Event) -> Option<u32>
    ensures { result ≡ event_sender event.now }
{
    match *event {
        Event::LoadRefs(s) | Event::AddRef(s) | Event::DropRef(s) | Event::Join(s) => Some(s),
        Event::Put(s, _, _) | Event::SwapNote(s, _) | Event::AddMail(s) => Some(s),
        Event::Create(s, _) | Event::CloneUse(s, _) | Event::ReleaseUse(s, _) => Some(s),
        Event::Claim(s, _) | Event::LookNote(s, _) | Event::MarkLife(s, _) => Some(s),
        Event::TakePlace(Actor::Sender(s), _) | Event::GivePlace(Actor::Sender(s), _) => Some(s),
        Event::Split(Actor::Sender(s)) => Some(s),
        _ => None,
    }
}

/// The place that the event names, if it names one.
pub(crate) fn event_place(event: &Event) -> Option<u32>
    ensures { result ≡ event_place event.now }
{
    match *event {
        Event::TakePlace(_, p) | Event::GivePlace(_, p) => Some(p),
        Event::Put(_, p, _) | Event::SwapNote(_, p) => Some(p),
        Event::TakeNotice(p) | Event::Receive(p) | Event::Direct(p) => Some(p),
        Event::TakeJob(p) | Event::LookPlace(p) | Event::Finish(p) => Some(p),
        Event::SettleFinished(p, _) | Event::SettleCancelled(p, _) => Some(p),
        Event::ResetPlace(p) => Some(p),
        Event::Create(_, p) | Event::CloneUse(_, p) | Event::ReleaseUse(_, p) => Some(p),
        Event::Claim(_, p) | Event::LookNote(_, p) | Event::MarkLife(_, p) => Some(p),
        _ => None,
    }
}
