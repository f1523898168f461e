//! The record of a closed target, made from what the passes and the owner keep.

ghost use Rattle.std.specs.Prelude.{◌≡◌, ◌<◌};
ghost use Rattle.post_core.specs.Records.{filled};

use proxy_laws::{FateMark, JobRecord, Mark, OwnMark, Started};

/// A job that an owner took before it closed, at a place.
#[derive(Clone, Copy, Debug, PartialEq, Eq)]
pub struct StartedJob {
    pub mark: Mark,
    pub started: Started,
    pub fate: Option<FateMark>,
}

/// The jobs of one place that the owner took.
#[derive(Drop)]
pub struct PlaceJobs {
    /// Those that it took before it closed.
    pub(crate) started: Vec<StartedJob>,
    /// How many it took in all.
    pub(crate) taken: u64,
}

// Writes each mark at its number.
pub(crate) fn fill(jobs: &mut Vec<JobRecord>, own: &Vec<OwnMark>)
    ensures { jobs.new.items ≡ filled jobs.old.items own.now.items }
{
    for kept in own {
        let nth = kept.nth as usize;
        if nth < jobs.len() {
            let job = jobs[nth];
            jobs[nth] = JobRecord {
                mark: kept.mark,
                started: job.started,
                fate: job.fate,
            };
        }
    }
}
