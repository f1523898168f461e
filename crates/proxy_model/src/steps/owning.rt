//! What the events of the owner change: taking a notice, executing a place, closing.

ghost use Rattle.std.specs.Prelude.{◌≡◌, ◌<◌, false, OnOk, OnErr};
ghost use Rattle.proxy_laws.specs.declared.events.Event.TheVariants as event;
ghost use Rattle.proxy_laws.specs.Events.{world_after};
ghost use Rattle.proxy_model.specs.Refusals.{is_at_last};
ghost use Rattle.proxy_model.specs.Shown.{world_of};

use crate::actors::{note_after_exchange, serving_after_look, serving_after_receive, start_under};
use crate::worlds::World;
use proxy_laws::{Job, Note, OwnerState, Serving};
use std::alloc::AllocError;

impl World {
    pub(super) fn take_notice(&mut self, place: u32)
        requires there { place < self.old.places }
        requires room { is_at_last (world_of self.old) (event.TakeNotice place) ≡ false }
        ensures { world_of self.new ≡ world_after (world_of self.old) (event.TakeNotice place) }
    {
        self.got += 1;
        let notice = self.got;
        self.set_mailed(place, false);
        self.clear_mail_note();
        self.set_serving(place, Serving::Got(notice));
    }

    pub(super) fn receive(&mut self, place: u32)
        requires { place < self.old.places }
        ensures { world_of self.new ≡ world_after (world_of self.old) (event.Receive place) }
    {
        let serving = serving_after_receive(self.serving(place));
        self.set_note(place, Note::Received);
        self.set_serving(place, serving);
    }

    pub(super) fn take_job(&mut self, place: u32) -> Result<(), AllocError>
        requires { place < self.old.places }
        ensures ok { OnOk result
            (world_of self.new ≡ world_after (world_of self.old) (event.TakeJob place)) }
        ensures err { OnErr result (world_of self.new ≡ world_of self.old) }
    {
        let started = start_under(self.owner, self.serving(place));
        self.push_job(
            place,
            Job {
                started,
                fate: None,
            },
        )
    }

    pub(super) fn look_place(&mut self, place: u32)
        requires { place < self.old.places }
        ensures { world_of self.new ≡ world_after (world_of self.old) (event.LookPlace place) }
    {
        let serving = serving_after_look(self.serving(place));
        self.set_serving(place, serving);
    }

    pub(super) fn finish(&mut self, place: u32)
        requires { place < self.old.places }
        ensures { world_of self.new ≡ world_after (world_of self.old) (event.Finish place) }
    {
        let note = note_after_exchange(self.note(place));
        self.set_note(place, note);
        self.set_serving(place, Serving::Away);
    }

    pub(super) fn drop_own(&mut self)
        ensures { world_of self.new ≡ world_after (world_of self.old) event.DropOwn }
    {
        self.refs = self.refs.saturating_sub(1);
        self.owner = OwnerState::Closing;
    }

    pub(super) fn look_closed(&mut self)
        ensures { world_of self.new ≡ world_after (world_of self.old) event.LookClosed }
    {
        if self.refs == 0 {
            self.owner = OwnerState::Closed;
        }
    }

    pub(super) fn reset_place(&mut self, place: u32)
        requires { place < self.old.places }
        ensures { world_of self.new ≡ world_after (world_of self.old) (event.ResetPlace place) }
    {
        self.set_note(place, Note::None);
        self.set_serving(place, Serving::Away);
    }
}
