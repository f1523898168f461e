//! What a world shows of one place or one sender.

ghost use Rattle.std.specs.Prelude.{◌≡◌, ◌<◌, count_by, IsTrue, ◌↔◌};
ghost use Rattle.proxy_laws.specs.Lists.{IsActive, is_by};
ghost use Rattle.proxy_laws.specs.Worlds.{put, taken};
ghost use Rattle.proxy_model.specs.Shown.{world_of};

use crate::order::count_of;
use crate::worlds::World;
use proxy_laws::{Actor, Job, Look, Mark, Note, Phase, Serving};

#[tactic(auto, using(std::proofs::lemmas::List::get_or_read_under))]
impl World {
    pub(crate) fn note(&self, place: u32) -> Note
        requires { place < self.now.places }
        ensures { result ≡ (world_of self.now).note place }
    {
        self.notes[place as usize]
    }

    pub(crate) fn life(&self, place: u32) -> u64
        requires { place < self.now.places }
        ensures { result ≡ (world_of self.now).life place }
    {
        self.lives[place as usize]
    }

    pub(crate) fn turn(&self, place: u32) -> Option<Actor>
        requires { place < self.now.places }
        ensures { result ≡ (world_of self.now).turn place }
    {
        self.turns[place as usize]
    }

    pub(crate) fn serving(&self, place: u32) -> Serving
        requires { place < self.now.places }
        ensures { result ≡ (world_of self.now).serving place }
    {
        self.serving[place as usize]
    }

    /// Whether a notice of the place is in the mailbox.
    pub(crate) fn is_mailed(&self, place: u32) -> bool
        requires { place < self.now.places }
        ensures { result ≡ (world_of self.now).mail place }
    {
        self.mail[place as usize]
    }

    pub(crate) fn phase(&self, sender: u32) -> Phase
        requires { sender < self.now.senders }
        ensures { result ≡ (world_of self.now).phase sender }
    {
        self.phases[sender as usize]
    }

    pub(crate) fn look(&self, sender: u32) -> Look
        requires { sender < self.now.senders }
        ensures { result ≡ (world_of self.now).look sender }
    {
        self.looks[sender as usize]
    }

    pub(crate) fn use_count(&self, sender: u32, place: u32) -> u64
        requires there { sender < self.now.senders }
        requires place_there { place < self.now.places }
        ensures { result ≡ (world_of self.now).uses sender place }
    {
        self.uses[sender as usize].as_slice()[place as usize]
    }

    /// How many jobs were put at the place.
    pub(crate) fn put_count(&self, place: u32) -> u64
        requires { place < self.now.places }
        ensures { result ≡ put (world_of self.now) place }
    {
        self.marks_at(place).len() as u64
    }

    /// How many jobs were taken at the place.
    pub(crate) fn taken_count(&self, place: u32) -> u64
        requires { place < self.now.places }
        ensures { result ≡ taken (world_of self.now) place }
    {
        self.jobs_at(place).len() as u64
    }

    /// How many marks at the place are the sender's.
    pub(crate) fn mark_count(&self, sender: u32, place: u32) -> u64
        requires { place < self.now.places }
        ensures { result ≡ count_by (is_by sender) ((world_of self.now).sent place) }
    {
        count_of(self.marks_at(place), sender) as u64
    }

    /// The marks that were put at the place.
    pub(crate) fn marks_at(&self, place: u32) -> &[Mark]
        requires { place < self.now.places }
        ensures { result.now ≡ (world_of self.now).sent place }
    {
        self.sent[place as usize].as_slice()
    }

    /// The jobs that were taken at the place.
    pub(crate) fn jobs_at(&self, place: u32) -> &[Job]
        requires { place < self.now.places }
        ensures { result.now ≡ (world_of self.now).jobs place }
    {
        self.jobs[place as usize].as_slice()
    }

    /// Whether job number `n` of the place is active.
    pub(crate) fn is_active(&self, place: u32, n: u64) -> bool
        requires { place < self.now.places }
        ensures { IsTrue result ↔ IsActive ((world_of self.now).jobs place) n }
    {
        let jobs = self.jobs_at(place);
        n < jobs.len() as u64 && jobs[n as usize].fate.is_none()
    }
}
