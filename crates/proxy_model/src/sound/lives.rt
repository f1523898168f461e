//! The parts of the invariant on the life and the users of a place, as tests.

ghost use Rattle.std.specs.Prelude.{◌≡◌, ℕ, ◌<◌, ◌↔◌, IsTrue};
ghost use Rattle.proxy_laws.specs.Sound.{IsQuiet};
ghost use Rattle.proxy_model.specs.Parts.{IsLifeSound, IsOneUser, IsSenderSound};
ghost use Rattle.proxy_model.specs.Shown.{world_of};

use crate::actors::{has_turn_at, names, saw_none_at};
use crate::worlds::World;
use proxy_laws::{Actor, Note, OwnerState};

impl World {
    /// Nothing waits at the place, and its note is none unless the owner is closed.
    fn is_quiet(&self, place: u32) -> bool
        requires { place < self.now.places }
        ensures { let w = world_of self.now in IsTrue result
            ↔ IsQuiet w.owner (w.sent place) (w.jobs place) (w.note place) }
    {
        self.put_count(place) <= self.taken_count(place)
            && (self.owner == OwnerState::Closed || self.note(place) == Note::None)
    }

    /// The life of the place fits its uses and its lookers.
    pub(super) fn is_life_sound(&self, place: u32) -> bool
        requires { place < self.now.places }
        ensures { IsTrue result ↔ IsLifeSound (world_of self.now) place }
    {
        let life = self.life(place);
        self.use_sum(place) == u128::from(life.saturating_sub(2))
            && self.looker_count(place) == usize::from(life == 2)
            && (life != 0 || self.is_quiet(place))
    }

    /// The two senders are one where both use the place, unless it is place 0.
    fn is_one_user(&self, sender: u32, other: u32, place: u32) -> bool
        requires there { sender < self.now.senders }
        requires other_there { other < self.now.senders }
        requires place_there { place < self.now.places }
        ensures { IsTrue result ↔ IsOneUser (world_of self.now) sender other place }
    {
        place == 0
            || sender == other
            || self.use_count(sender, place) == 0
            || self.use_count(other, place) == 0
    }

    /// No other sender uses the place where this one does, unless it is place 0.
    fn is_only_user(&self, sender: u32, place: u32) -> bool
        requires there { sender < self.now.senders }
        requires place_there { place < self.now.places }
        ensures { IsTrue result
            ↔ ((t : ℕ) → t < self.now.senders → IsOneUser (world_of self.now) sender t place) }
    {
        (0..self.senders).all(|other| self.is_one_user(sender, other, place))
    }

    /// The sender's phase and look fit the place.
    fn is_sender_sound(&self, sender: u32, place: u32) -> bool
        requires there { sender < self.now.senders }
        requires place_there { place < self.now.places }
        ensures { IsTrue result ↔ IsSenderSound (world_of self.now) sender place }
    {
        let phase = self.phase(sender);
        (!names(place, phase) || self.use_count(sender, place) > 0)
            && (!has_turn_at(place, phase) || self.turn(place) == Some(Actor::Sender(sender)))
            && (!saw_none_at(place, self.look(sender)) || self.is_quiet(place))
            && self.is_only_user(sender, place)
    }

    /// The phases and looks of all senders fit the place.
    pub(super) fn are_senders_sound(&self, place: u32) -> bool
        requires { place < self.now.places }
        ensures { IsTrue result
            ↔ ((s : ℕ) → s < self.now.senders → IsSenderSound (world_of self.now) s place) }
    {
        (0..self.senders).all(|sender| self.is_sender_sound(sender, place))
    }
}
