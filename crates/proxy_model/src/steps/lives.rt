//! What the events on the lives of places change.

ghost use Rattle.std.specs.Prelude.{◌≡◌, ◌<◌, false};
ghost use Rattle.proxy_laws.specs.declared.events.Event.TheVariants as event;
ghost use Rattle.proxy_laws.specs.Events.{world_after};
ghost use Rattle.proxy_model.specs.Refusals.{is_at_last};
ghost use Rattle.proxy_model.specs.Shown.{world_of};

use crate::actors::{life_after_mark, look_after_release};
use crate::worlds::World;
use proxy_laws::Look;

impl World {
    pub(super) fn create(&mut self, sender: u32, place: u32)
        requires there { sender < self.old.senders }
        requires place_there { place < self.old.places }
        requires room { is_at_last (world_of self.old) (event.Create sender place) ≡ false }
        ensures { world_of self.new ≡ world_after (world_of self.old) (event.Create sender place) }
    {
        let count = self.use_count(sender, place);
        self.set_life(place, 3);
        self.set_use_count(sender, place, count + 1);
    }

    pub(super) fn clone_use(&mut self, sender: u32, place: u32)
        requires there { sender < self.old.senders }
        requires place_there { place < self.old.places }
        requires room { is_at_last (world_of self.old) (event.CloneUse sender place) ≡ false }
        ensures { world_of self.new
            ≡ world_after (world_of self.old) (event.CloneUse sender place) }
    {
        let life = self.life(place);
        let count = self.use_count(sender, place);
        self.set_life(place, life + 1);
        self.set_use_count(sender, place, count + 1);
    }

    pub(super) fn release_use(&mut self, sender: u32, place: u32)
        requires there { sender < self.old.senders }
        requires place_there { place < self.old.places }
        ensures { world_of self.new
            ≡ world_after (world_of self.old) (event.ReleaseUse sender place) }
    {
        let life = self.life(place).saturating_sub(1);
        let count = self.use_count(sender, place).saturating_sub(1);
        let look = look_after_release(life, place, self.look(sender));
        self.set_life(place, life);
        self.set_look(sender, look);
        self.set_use_count(sender, place, count);
    }

    pub(super) fn claim(&mut self, sender: u32, place: u32)
        requires there { sender < self.old.senders }
        requires place_there { place < self.old.places }
        ensures { world_of self.new ≡ world_after (world_of self.old) (event.Claim sender place) }
    {
        self.set_life(place, 2);
        self.set_look(sender, Look::At(place));
    }

    pub(super) fn look_note(&mut self, sender: u32, place: u32)
        requires there { sender < self.old.senders }
        requires place_there { place < self.old.places }
        ensures { world_of self.new
            ≡ world_after (world_of self.old) (event.LookNote sender place) }
    {
        let note = self.note(place);
        self.set_look(sender, Look::Saw(place, note));
    }

    pub(super) fn mark_life(&mut self, sender: u32, place: u32)
        requires there { sender < self.old.senders }
        requires place_there { place < self.old.places }
        ensures { world_of self.new
            ≡ world_after (world_of self.old) (event.MarkLife sender place) }
    {
        let life = life_after_mark(self.look(sender));
        self.set_life(place, life);
        self.set_look(sender, Look::Nowhere);
    }
}
