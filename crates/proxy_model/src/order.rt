//! Whether marks and jobs stand in order.

ghost use Rattle.std.specs.Prelude.{◌≡◌, ℕ, ◌<◌, ◌↔◌, IsTrue, count_by, length, slice_index_or};
ghost use Rattle.proxy_laws.specs.declared.records.Job.{Job};
ghost use Rattle.proxy_laws.specs.Lists.{is_by};
ghost use Rattle.proxy_laws.specs.Starts.{AreInOrder, AreNumbered, MayFollow};

use crate::actors::may_follow;
use proxy_laws::{Job, Mark};

/// How many of the marks are the sender's.
pub(crate) fn count_of(marks: &[Mark], sender: u32) -> usize
    ensures { result ≡ count_by (is_by sender) marks.now }
{
    marks.iter().filter(|mark| mark.sender == sender).count()
}

/// Whether each mark's seq is the number of its sender's marks before it.
pub(crate) fn are_numbered(marks: &[Mark]) -> bool
    ensures { IsTrue result ↔ AreNumbered marks.now }
{
    for (index, mark) in marks.iter().enumerate() {
        if mark.seq != count_of(&marks[..index], mark.sender) as u64 {
            return false;
        }
    }
    true
}

/// Whether the job of this index may follow each one before it.
fn follows_all(jobs: &[Job], index: usize) -> bool
    requires { index < length jobs.now }
    ensures { IsTrue result ↔ ((n : ℕ) (d : Job) → n < index
        → MayFollow (slice_index_or jobs.now n d).started
        (slice_index_or jobs.now index d).started) }
{
    for earlier in 0..index {
        if !may_follow(jobs[earlier].started, jobs[index].started) {
            return false;
        }
    }
    true
}

/// Whether the numbers of notices never fall, and after a start by a closed owner all are such.
pub(crate) fn are_in_order(jobs: &[Job]) -> bool
    ensures { IsTrue result ↔ AreInOrder (λ job. job.started) jobs.now }
{
    (0..jobs.len()).all(|index| follows_all(jobs, index))
}
