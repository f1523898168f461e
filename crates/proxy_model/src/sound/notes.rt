//! The parts of the invariant on the notes and notices of a place, as tests.

ghost use Rattle.std.specs.Prelude.{◌≡◌, ◌<◌, ◌↔◌, IsTrue};
ghost use Rattle.proxy_laws.specs.Sound.{IsAnnounced, IsBorne, IsBorneClosed, IsServed, bearers};
ghost use Rattle.proxy_model.specs.Parts.{AreNotesSound};
ghost use Rattle.proxy_model.specs.Shown.{world_of};

use crate::actors::is_executing;
use crate::worlds::World;
use proxy_laws::{Note, OwnerState, Serving};

impl World {
    /// Where a job waits at the place, somebody tells of it.
    fn is_announced(&self, place: u32) -> bool
        requires { place < self.now.places }
        ensures { let w = world_of self.now in IsTrue result
            ↔ IsAnnounced w.senders w.phase (w.sent place) (w.jobs place) (w.note place)
            (w.serving place) place }
    {
        let note = self.note(place);
        self.taken_count(place) >= self.put_count(place)
            || note == Note::Pending
            || self.put_or_owing_count(place) > 0
            || (note == Note::Received && matches!(self.serving(place), Serving::Executing(_)))
    }

    /// How many bear a notice of the place.
    fn bearer_count(&self, place: u32) -> u128
        requires { place < self.now.places }
        ensures { let w = world_of self.now in
            result ≡ bearers w.senders w.phase (w.mail place) (w.serving place) place }
    {
        self.messenger_count(place) as u128
            + u128::from(self.is_mailed(place))
            + u128::from(matches!(self.serving(place), Serving::Got(_)))
    }

    /// What bears the notices of the place, where the owner is closed.
    fn is_borne_closed(&self, place: u32) -> bool
        requires { place < self.now.places }
        ensures { let w = world_of self.now in IsTrue result
            ↔ IsBorneClosed (w.sent place) (w.jobs place) (w.mail place) (w.note place)
            (w.serving place) }
    {
        let serving = self.serving(place);
        let is_got = matches!(serving, Serving::Got(_));
        let has_notice = self.is_mailed(place) || is_got;
        let waits = self.taken_count(place) < self.put_count(place);
        (!waits || has_notice || is_executing(serving))
            && !(is_got && self.is_mailed(place))
            && !(has_notice && self.note(place) == Note::Received)
    }

    /// What bears the notices of the place.
    fn is_borne(&self, place: u32) -> bool
        requires { place < self.now.places }
        ensures { let w = world_of self.now in IsTrue result
            ↔ IsBorne w.senders w.owner w.phase (w.sent place) (w.jobs place) (w.mail place)
            (w.note place) (w.serving place) place }
    {
        match self.owner {
            OwnerState::Closed => self.is_borne_closed(place),
            _ => self.bearer_count(place) == u128::from(self.note(place) == Note::Pending),
        }
    }

    /// What the owner does at the place fits its note.
    fn is_served(&self, place: u32) -> bool
        requires { place < self.now.places }
        ensures { let w = world_of self.now in IsTrue result
            ↔ IsServed w.owner (w.note place) (w.serving place) }
    {
        let serving = self.serving(place);
        match self.note(place) {
            Note::None => {
                self.owner == OwnerState::Closed
                    || serving == Serving::Away
                    || serving == Serving::Direct
            }
            Note::Pending => true,
            Note::Received => matches!(serving, Serving::Executing(_) | Serving::SeenEmpty),
        }
    }

    pub(super) fn are_notes_sound(&self, place: u32) -> bool
        requires { place < self.now.places }
        ensures { IsTrue result ↔ AreNotesSound (world_of self.now) place }
    {
        self.is_announced(place)
            && self.is_borne(place)
            && self.is_served(place)
            && (!self.is_mailed(place) || self.mail_note == Note::Pending)
    }
}
