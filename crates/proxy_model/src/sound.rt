//! The test of the invariant.

ghost use Rattle.std.specs.Prelude.{◌≡◌, ℕ, ◌<◌, ◌↔◌, IsTrue};
ghost use Rattle.proxy_laws.specs.Sound.{ClosedHasNone, NoticesAreFew, RefsAreCounted, Sound};
ghost use Rattle.proxy_model.specs.Parts.{AreTotalsSound, IsPlaceSound};
ghost use Rattle.proxy_model.specs.Shown.{world_of};

mod jobs;
mod lives;
mod notes;

use crate::worlds::World;
use proxy_laws::OwnerState;

impl World {
    /// There is a reference for each sender that is not idle, and one for an open owner.
    fn are_refs_counted(&self) -> bool
        ensures { IsTrue result
            ↔ RefsAreCounted self.now.senders self.now.refs self.now.owner
            (world_of self.now).phase }
    {
        let open = u128::from(self.owner == OwnerState::Open);
        u128::from(self.refs) == self.not_idle_count() as u128 + open
    }

    /// A closed target has no references.
    fn has_closed_none(&self) -> bool
        ensures { IsTrue result ↔ ClosedHasNone self.now.owner self.now.refs }
    {
        self.owner != OwnerState::Closed || self.refs == 0
    }

    /// Each notice that was got, is in the mailbox or is on its way there stands for a mark.
    fn are_notices_few(&self) -> bool
        ensures { IsTrue result
            ↔ NoticesAreFew self.now.senders self.now.places self.now.got
            (world_of self.now).mail (world_of self.now).phase (world_of self.now).sent }
    {
        let notices = u128::from(self.got) + self.notice_count() as u128;
        notices + self.notifying_count() as u128 <= self.put_sum()
    }

    fn are_totals_sound(&self) -> bool
        ensures { IsTrue result ↔ AreTotalsSound (world_of self.now) }
    {
        self.are_refs_counted() && self.has_closed_none() && self.are_notices_few()
    }

    fn is_place_sound(&self, place: u32) -> bool
        requires { place < self.now.places }
        ensures { IsTrue result ↔ IsPlaceSound (world_of self.now) place }
    {
        self.are_notes_sound(place)
            && self.are_jobs_sound(place)
            && self.is_life_sound(place)
            && self.are_senders_sound(place)
    }

    fn are_places_sound(&self) -> bool
        ensures { IsTrue result
            ↔ ((p : ℕ) → p < self.now.places → IsPlaceSound (world_of self.now) p) }
    {
        (0..self.places).all(|place| self.is_place_sound(place))
    }

    /// Whether the world meets the invariant.
    pub fn sound(&self) -> bool
        ensures { IsTrue result ↔ Sound (world_of self.now) }
    {
        self.are_totals_sound() && self.are_places_sound()
    }
}
