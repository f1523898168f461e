//! What the events of a send change.

ghost use Rattle.std.specs.Prelude.{◌≡◌, ◌<◌, false, OnOk, OnErr};
ghost use Rattle.proxy_laws.specs.declared.actors.Actor.TheVariants as actor;
ghost use Rattle.proxy_laws.specs.declared.events.Event.TheVariants as event;
ghost use Rattle.proxy_laws.specs.Events.{world_after};
ghost use Rattle.proxy_model.specs.Refusals.{is_at_last};
ghost use Rattle.proxy_model.specs.Shown.{world_of};

use crate::actors::{phase_after_give, phase_after_swap};
use crate::worlds::World;
use proxy_laws::{Actor, Mark, Note, Phase};
use std::alloc::AllocError;

impl World {
    pub(super) fn add_ref(&mut self, sender: u32)
        requires there { sender < self.old.senders }
        requires room { is_at_last (world_of self.old) (event.AddRef sender) ≡ false }
        ensures { world_of self.new ≡ world_after (world_of self.old) (event.AddRef sender) }
    {
        self.refs += 1;
        self.set_phase(sender, Phase::Referenced);
    }

    pub(super) fn drop_ref(&mut self, sender: u32)
        requires { sender < self.old.senders }
        ensures { world_of self.new ≡ world_after (world_of self.old) (event.DropRef sender) }
    {
        self.refs = self.refs.saturating_sub(1);
        self.set_phase(sender, Phase::Idle);
    }

    pub(super) fn take_place(&mut self, sender: u32, place: u32)
        requires there { sender < self.old.senders }
        requires place_there { place < self.old.places }
        ensures { world_of self.new
            ≡ world_after (world_of self.old) (event.TakePlace (actor.Sender sender) place) }
    {
        self.set_turn(place, Some(Actor::Sender(sender)));
        self.set_phase(sender, Phase::Holding(place));
    }

    pub(super) fn put(&mut self, sender: u32, place: u32, tag: u64) -> Result<(), AllocError>
        requires there { sender < self.old.senders }
        requires place_there { place < self.old.places }
        ensures ok { OnOk result
            (world_of self.new ≡ world_after (world_of self.old) (event.Put sender place tag)) }
        ensures err { OnErr result (world_of self.new ≡ world_of self.old) }
    {
        let seq = self.mark_count(sender, place);
        self.push_mark(place, Mark { sender, seq, tag })?;
        self.set_phase(sender, Phase::Put(place));
        Ok(())
    }

    pub(super) fn give_place(&mut self, sender: u32, place: u32)
        requires there { sender < self.old.senders }
        requires place_there { place < self.old.places }
        ensures { world_of self.new
            ≡ world_after (world_of self.old) (event.GivePlace (actor.Sender sender) place) }
    {
        let phase = phase_after_give(place, self.phase(sender));
        self.set_turn(place, None);
        self.set_phase(sender, phase);
    }

    pub(super) fn swap_note(&mut self, sender: u32, place: u32)
        requires there { sender < self.old.senders }
        requires place_there { place < self.old.places }
        ensures { world_of self.new
            ≡ world_after (world_of self.old) (event.SwapNote sender place) }
    {
        let phase = phase_after_swap(place, self.note(place));
        self.set_phase(sender, phase);
        self.set_note(place, Note::Pending);
    }

    pub(super) fn add_mail(&mut self, sender: u32)
        requires { sender < self.old.senders }
        ensures { world_of self.new ≡ world_after (world_of self.old) (event.AddMail sender) }
    {
        let phase = self.phase(sender);
        self.add_notice(phase);
        self.mail_note = Note::Pending;
        self.set_phase(sender, Phase::Referenced);
    }
}
