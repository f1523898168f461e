//! The parts of the invariant on the marks and jobs of a place, as tests.

ghost use Rattle.std.specs.Prelude.{◌≡◌, ℕ, ◌<◌, ◌≤◌, ◌↔◌, IsTrue, All};
ghost use Rattle.std.specs.List.{list_any};
ghost use Rattle.proxy_laws.specs.Phases.{is_under};
ghost use Rattle.proxy_laws.specs.Sound.{IsLawfulJob, uses_notice};
ghost use Rattle.proxy_laws.specs.Starts.{is_notice};
ghost use Rattle.proxy_model.specs.Parts.{AreApart, AreJobsSound, IsPhaseApart, IsPhaseGot, IsStartApart};
ghost use Rattle.proxy_model.specs.Shown.{world_of};

use crate::actors::{is_notice, is_under, notice_of};
use crate::order::{are_in_order, are_numbered};
use crate::worlds::World;
use proxy_laws::{FateMark, Job, OwnerState, Serving, Started};

/// Whether the fate and the start of a job fit the owner.
fn is_lawful(job: &Job, owner: OwnerState, got: u64, serving: Serving) -> bool
    ensures { IsTrue result ↔ IsLawfulJob owner got serving job.now }
{
    let fits = job.fate != Some(FateMark::Cancelled) || owner == OwnerState::Closed;
    fits && match job.started {
        Started::Notice(notice) => notice <= got && is_not_below(notice, serving),
        Started::Closing => owner == OwnerState::Closed && job.fate != Some(FateMark::Finished),
        Started::Direct => true,
    }
}

/// Whether the owner is at a place under no smaller notice.
fn is_not_below(notice: u64, serving: Serving) -> bool
    ensures { IsTrue result ↔ ((m : ℕ) → IsTrue (is_under m serving) → notice ≤ m) }
{
    match notice_of(serving) {
        Some(number) => notice <= number,
        None => true,
    }
}

/// Whether the notice started one of the jobs.
fn has_notice(jobs: &[Job], notice: u64) -> bool
    ensures { result ≡ list_any (λ job. is_notice notice job.started) jobs.now }
{
    jobs.iter().any(|job| is_notice(notice, job.started))
}

impl World {
    /// Whether the owner started a job of the place under the notice, or is there under it.
    fn uses_notice(&self, notice: u64, place: u32) -> bool
        requires { place < self.now.places }
        ensures { result
            ≡ uses_notice notice ((world_of self.now).jobs place)
            ((world_of self.now).serving place) }
    {
        has_notice(self.jobs_at(place), notice) || is_under(notice, self.serving(place))
    }

    /// The start was not under a notice of the place.
    fn is_start_apart(&self, started: Started, place: u32) -> bool
        requires { place < self.now.places }
        ensures { IsTrue result ↔ IsStartApart (world_of self.now) started place }
    {
        match started {
            Started::Notice(notice) => !self.uses_notice(notice, place),
            _ => true,
        }
    }

    /// No job of the place started under a notice of the other.
    fn are_starts_apart(&self, place: u32, other: u32) -> bool
        requires there { place < self.now.places }
        requires other_there { other < self.now.places }
        ensures { IsTrue result
            ↔ All (λ job. IsStartApart (world_of self.now) job.started other)
            ((world_of self.now).jobs place) }
    {
        self.jobs_at(place)
            .iter()
            .all(|job| self.is_start_apart(job.started, other))
    }

    /// The owner is not at the place under a notice of the other.
    fn is_phase_apart(&self, place: u32, other: u32) -> bool
        requires there { place < self.now.places }
        requires other_there { other < self.now.places }
        ensures { IsTrue result
            ↔ IsPhaseApart (world_of self.now) ((world_of self.now).serving place) other }
    {
        match notice_of(self.serving(place)) {
            Some(notice) => !self.uses_notice(notice, other),
            None => true,
        }
    }

    /// The two places share no notice, unless they are one.
    fn are_apart(&self, place: u32, other: u32) -> bool
        requires there { place < self.now.places }
        requires other_there { other < self.now.places }
        ensures { IsTrue result ↔ AreApart (world_of self.now) place other }
    {
        place == other || (self.is_phase_apart(place, other) && self.are_starts_apart(place, other))
    }

    /// The place shares no notice with another.
    fn is_apart(&self, place: u32) -> bool
        requires { place < self.now.places }
        ensures { IsTrue result
            ↔ ((q : ℕ) → q < self.now.places → AreApart (world_of self.now) place q) }
    {
        (0..self.places).all(|other| self.are_apart(place, other))
    }

    /// The owner is at the place under a notice that it got.
    fn is_phase_got(&self, place: u32) -> bool
        requires { place < self.now.places }
        ensures { IsTrue result ↔ IsPhaseGot (world_of self.now) place }
    {
        match notice_of(self.serving(place)) {
            Some(notice) => notice <= self.got,
            None => true,
        }
    }

    /// The fates and starts of the jobs of the place fit the owner.
    fn are_jobs_lawful(&self, place: u32) -> bool
        requires { place < self.now.places }
        ensures { let w = world_of self.now in IsTrue result
            ↔ All (IsLawfulJob w.owner w.got (w.serving place)) (w.jobs place) }
    {
        let serving = self.serving(place);
        self.jobs_at(place)
            .iter()
            .all(|job| is_lawful(job, self.owner, self.got, serving))
    }

    pub(super) fn are_jobs_sound(&self, place: u32) -> bool
        requires { place < self.now.places }
        ensures { IsTrue result ↔ AreJobsSound (world_of self.now) place }
    {
        self.taken_count(place) <= self.put_count(place)
            && self.are_jobs_lawful(place)
            && are_in_order(self.jobs_at(place))
            && self.is_apart(place)
            && self.is_phase_got(place)
            && are_numbered(self.marks_at(place))
    }
}
