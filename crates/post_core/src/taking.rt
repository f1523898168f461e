//! The owner takes jobs of the place that it executes, and finishes with it.

ghost use Rattle.std.specs.Prelude.{◌≡◌, ◌+◌, ◌-◌, ◌∷◌, ◌++◌, ◌<◌, ◌≤◌, Some, [], length, slice_get, slice_index, slice_set, OnOk};
ghost use Rattle.proxy_laws.specs.declared.actors.Serving.TheVariants.{Away};
ghost use Rattle.post_core.specs.Kept.{listed};
ghost use Rattle.post_core.specs.OwnerViews.{IsExecOf, IsOwnerOf, IsSameExec, IsSeenEmptyOf, IsTaken, exec_place, exec_room, exec_view, owner_view, room_here, seen_place, seen_view};
ghost use Rattle.post_core.specs.Records.{counts_of, starts_of};
ghost use Rattle.post_core.specs.ServingSteps.{at_serving};

use crate::first_job::first_job;
use crate::meant::Meant;
use crate::owner::{Exec, Owner, SeenEmpty, Taken};
use crate::post::Post;
use crate::records::{PlaceJobs, StartedJob};
use crate::serving::finish_place;
use crate::slots::Item;
use proxy_laws::Started;
use std::alloc::AllocError;
use std::sync::Wait;

/// Makes room to keep one job more of the place.
fn make_room(jobs: &mut Vec<PlaceJobs>, place: u32) -> Result<(), AllocError>
    requires { place < length jobs.old.items }
    ensures room { OnOk result (1 ≤ room_here (slice_get jobs.new.items place)) }
    ensures started { starts_of jobs.new.items ≡ starts_of jobs.old.items }
    ensures taken { counts_of jobs.new.items ≡ counts_of jobs.old.items }
{
    jobs[place as usize].started.reserve(1)?;
    Ok(())
}

/// Keeps a job that was started at the place, as the last.
fn keep_started(jobs: &mut Vec<PlaceJobs>, place: u32, job: StartedJob)
    requires near { place < length jobs.old.items }
    requires room { 1 ≤ room_here (slice_get jobs.old.items place) }
    requires all { slice_index (counts_of jobs.old.items) place
        ≡ length (listed (starts_of jobs.old.items) place) }
    ensures started { starts_of jobs.new.items ≡ slice_set (starts_of jobs.old.items) place
        (listed (starts_of jobs.old.items) place ++ job ∷ []) }
    ensures taken { counts_of jobs.new.items ≡ slice_set (counts_of jobs.old.items) place
        (slice_index (counts_of jobs.old.items) place + 1) }
{
    let kept = &mut jobs[place as usize];
    kept.started.push_reserved(job);
    kept.taken += 1;
}

impl<J: Meant> Exec<J> {
    /// The place that is executed.
    pub fn place(&self) -> u32
        ensures { result ≡ exec_place self.now }
    {
        self.place
    }

    /// Makes room to keep one job more.
    pub fn ready(&mut self) -> Result<(), AllocError>
        ensures room { OnOk result (1 ≤ exec_room self.new) }
        ensures kept { IsSameExec self.old self.new }
    {
        make_room(&mut self.hold.jobs, self.place)
    }

    /// Takes the first job that waits at the place, or finds as many taken as put. It waits for the turn.
    pub fn take<R: Wait>(self, rt: &R, post: &Post<J>) -> Taken<J>
        requires table { IsExecOf post.now self }
        requires room { 1 ≤ exec_room self }
        ensures { IsTaken post.now (exec_place self) (exec_view self) result }
    {
        let Exec {
            mut hold,
            place,
            start,
        } = self;
        match first_job(rt, &post.table.shared, &mut hold.seat, place) {
            Some((nth, Item { mark, job })) => {
                let started = StartedJob {
                    mark,
                    started: start,
                    fate: None,
                };
                keep_started(&mut hold.jobs, place, started);
                Taken::Job {
                    exec: Exec { hold, place, start },
                    nth,
                    mark,
                    job,
                }
            }
            None => Taken::Empty(SeenEmpty { hold, place, start }),
        }
    }
}

impl<J: Meant> SeenEmpty<J> {
    /// Is done with the place. After an execution under a notice the place's note is exchanged from received
    /// for none, whether that wins or not; after a direct one nothing is left to do.
    pub fn finish(self, post: &Post<J>) -> Owner<J>
        requires { IsSeenEmptyOf post.now self }
        ensures { IsOwnerOf post.now result
            × (owner_view result ≡ at_serving (seen_place self) Away (seen_view self)) }
    {
        let SeenEmpty {
            mut hold,
            place,
            start,
        } = self;
        if let Started::Notice(_) = start {
            finish_place(&post.table.shared, &mut hold.seat, place);
        }
        Owner { hold }
    }
}
