//! The record of a closed target, before its table is taken down.

ghost use Rattle.std.specs.Prelude.{◌≡◌, ℕ, ◌<◌, ◌≤◌, map, length, slice_index, All, IfOk, ◌++◌, ◌-◌, replicate};
ghost use Rattle.post_core.specs.Kept.{listed};
ghost use Rattle.post_core.specs.Records.{blank_job, counts_of, place_record, record_of, starts_of};

use crate::meant::Meant;
use crate::owner::Emptied;
use crate::post::SendPass;
use crate::records::{PlaceJobs, fill};
use proxy_laws::{FateMark, JobRecord, Mark, PlaceRecord, Started};
use std::alloc::{AllocError, Global};

const BLANK: JobRecord = JobRecord {
    mark: Mark {
        sender: 0,
        seq: 0,
        tag: 0,
    },
    started: Started::Closing,
    fate: FateMark::Cancelled,
};

// The records of a place's jobs, of which those of a closed owner have no marks yet.
fn begin(alloc: Global, kept: &PlaceJobs) -> Result<Vec<JobRecord>, AllocError>
    requires { length kept.now.started.items ≤ kept.now.taken }
    ensures { IfOk result (λ jobs. jobs.items ≡ map record_of kept.now.started.items
        ++ replicate (kept.now.taken - length kept.now.started.items) blank_job) }
{
    let mut jobs = Vec::new(alloc);
    for job in &kept.started {
        let fate = match job.fate {
            Some(fate) => fate,
            None => FateMark::Cancelled,
        };
        jobs.push(JobRecord {
            mark: job.mark,
            started: job.started,
            fate,
        })?;
    }
    let first = kept.started.len() as u64;
    for _ in first..kept.taken {
        jobs.push(BLANK)?;
    }
    Ok(jobs)
}

// The records of a place's jobs.
fn place_jobs<J: Meant>(
    alloc: Global,
    kept: &PlaceJobs,
    passes: &Vec<SendPass<J>>,
    place: usize,
) -> Result<Vec<JobRecord>, AllocError>
    requires first { length kept.now.started.items ≤ kept.now.taken }
    requires wide { All (λ pass. place < length pass.hold.own.items) passes.now.items }
    ensures { IfOk result (λ jobs. jobs.items ≡ place_record kept.now.started.items kept.now.taken
        (map (λ pass. listed (map (λ own. own.items) pass.hold.own.items) place)
        passes.now.items)) }
{
    let mut jobs = begin(alloc, kept)?;
    for pass in passes {
        fill(&mut jobs, &pass.hold.own[place]);
    }
    Ok(jobs)
}

// The records of all places.
pub(crate) fn gather<J: Meant>(
    alloc: Global,
    emptied: &Emptied<J>,
    passes: &Vec<SendPass<J>>,
) -> Result<Vec<PlaceRecord>, AllocError>
    requires { All (λ pass. pass.hold.seat.table_id ≡ emptied.now.hold.seat.table_id)
        passes.now.items }
    ensures count { IfOk result
        (λ places. length places.items ≡ length emptied.now.hold.jobs.items) }
    ensures each { IfOk result (λ places. (p : ℕ) → p < length places.items
        → listed (map (λ place. place.jobs.items) places.items) p ≡ place_record
        (listed (starts_of emptied.now.hold.jobs.items) p)
        (slice_index (counts_of emptied.now.hold.jobs.items) p)
        (map (λ pass. listed (map (λ own. own.items) pass.hold.own.items) p) passes.now.items)) }
{
    let mut places = Vec::new(alloc);
    for (place, kept) in emptied.hold.jobs.iter().enumerate() {
        let jobs = place_jobs(alloc, kept, passes, place)?;
        places.push(PlaceRecord { jobs })?;
    }
    Ok(places)
}
