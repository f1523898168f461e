//! The step of a world by one event.

ghost use Rattle.std.specs.Prelude.{◌≡◌, ◌<◌, false, OnOk, OnErr, IfErr, IsErr, IsOk, IsErrOf, IsTrue, ◌⊎◌};
ghost use Rattle.proxy_laws.specs.Events.{IsThere, world_after};
ghost use Rattle.proxy_laws.specs.Sound.{Sound};
ghost use Rattle.proxy_model.specs.Refusals.{CanStep, IsRefusal, is_at_last, takes_memory};
ghost use Rattle.proxy_model.specs.Runs.{StepsBy};
ghost use Rattle.proxy_model.specs.Shown.{world_of};
ghost use Rattle.proxy_model.specs.declared.refusals.StepRefusal.TheVariants as refusal;

mod conditions;
mod lives;
mod owning;
mod sending;

use crate::refusals::StepRefusal;
use crate::worlds::World;
use proxy_laws::{Actor, Event, FateMark, Serving};
use std::alloc::AllocError;

impl World {
    /// What the event changes, where no list grows.
    fn change(&mut self, event: &Event)
        requires there { IsThere (world_of self.old) event.now }
        requires room { is_at_last (world_of self.old) event.now ≡ false }
        requires fixed { takes_memory event.now ≡ false }
        ensures { world_of self.new ≡ world_after (world_of self.old) event.now }
    {
        match *event {
            Event::LoadRefs(_) | Event::LookMail(_) | Event::Split(_) | Event::Join(_) => {}
            Event::AddRef(s) => self.add_ref(s),
            Event::DropRef(s) => self.drop_ref(s),
            Event::TakePlace(Actor::Sender(s), p) => self.take_place(s, p),
            Event::TakePlace(Actor::Owner, p) => self.set_turn(p, Some(Actor::Owner)),
            Event::GivePlace(Actor::Sender(s), p) => self.give_place(s, p),
            Event::GivePlace(Actor::Owner, p) => self.set_turn(p, None),
            Event::SwapNote(s, p) => self.swap_note(s, p),
            Event::AddMail(s) => self.add_mail(s),
            Event::TakeNotice(p) => self.take_notice(p),
            Event::Receive(p) => self.receive(p),
            Event::Direct(p) => self.set_serving(p, Serving::Direct),
            Event::LookPlace(p) => self.look_place(p),
            Event::Finish(p) => self.finish(p),
            Event::SettleFinished(p, n) => self.settle(p, n, FateMark::Finished),
            Event::SettleCancelled(p, n) => self.settle(p, n, FateMark::Cancelled),
            Event::DropOwn => self.drop_own(),
            Event::LookClosed => self.look_closed(),
            Event::ResetPlace(p) => self.reset_place(p),
            Event::Create(s, p) => self.create(s, p),
            Event::CloneUse(s, p) => self.clone_use(s, p),
            Event::ReleaseUse(s, p) => self.release_use(s, p),
            Event::Claim(s, p) => self.claim(s, p),
            Event::LookNote(s, p) => self.look_note(s, p),
            Event::MarkLife(s, p) => self.mark_life(s, p),
            Event::Put(_, _, _) | Event::TakeJob(_) => unreachable!(),
        }
    }

    /// What the event changes.
    fn apply(&mut self, event: &Event) -> Result<(), AllocError>
        requires there { IsThere (world_of self.old) event.now }
        requires room { is_at_last (world_of self.old) event.now ≡ false }
        ensures ok { OnOk result (world_of self.new ≡ world_after (world_of self.old) event.now) }
        ensures err { OnErr result (world_of self.new ≡ world_of self.old) }
        ensures takes { IsErr result → IsTrue (takes_memory event.now) }
    {
        match *event {
            Event::Put(s, p, tag) => self.put(s, p, tag),
            Event::TakeJob(p) => self.take_job(p),
            _ => {
                self.change(event);
                Ok(())
            }
        }
    }

    /// Steps by one event, if it is enabled. A refusal changes nothing.
    pub fn step(&mut self, event: &Event) -> Result<(), StepRefusal>
        ensures ok { OnOk result (StepsBy (world_of self.old) event.now (world_of self.new)) }
        // The first condition that fails, a counter at its end, or want of memory where a list grows.
        ensures refused { IfErr result (IsRefusal (world_of self.old) event.now) }
        ensures err { OnErr result (world_of self.new ≡ world_of self.old) }
        ensures sound { Sound (world_of self.old) → Sound (world_of self.new) }
        // Want of memory alone is free.
        ensures accepts { CanStep (world_of self.old) event.now
            → IsOk result ⊎ IsErrOf result refusal.NoMemory }
    {
        if let Err(why) = self.check_enabled(event) {
            return Err(StepRefusal::NotEnabled(why));
        }
        if self.is_at_last(event) {
            return Err(StepRefusal::AtLast);
        }
        match self.apply(event) {
            Ok(()) => Ok(()),
            Err(_) => Err(StepRefusal::NoMemory),
        }
    }
}
