//! The owner settles jobs that it took.

ghost use Rattle.std.specs.Prelude.{◌≡◌, ◌<◌, Some, length, slice_set};
ghost use Rattle.proxy_laws.specs.declared.records.FateMark.TheVariants.{Cancelled, Finished};
ghost use Rattle.post_core.specs.Kept.{listed};
ghost use Rattle.post_core.specs.OwnerViews.{IsEmptiedOf, IsExecOf, IsOwnerOf, emptied_view, exec_place, exec_view, owner_view};
ghost use Rattle.post_core.specs.Parts.{kept_settled};
ghost use Rattle.post_core.specs.Records.{counts_of, starts_of};
ghost use Rattle.post_core.specs.SendParts.{HasPlace, IsNoteOf, note_view};
ghost use Rattle.post_core.specs.Steps.{IsActiveHere};
ghost use Rattle.post_core.specs.Views.{job_settled, noted, owner_of};

use crate::meant::Meant;
use crate::owner::{Emptied, Exec, Owner};
use crate::post::{Post, SeenNote};
use crate::records::PlaceJobs;
use crate::settle_steps::settle;
use proxy_laws::FateMark;

/// Keeps the fate of a job that was started at the place.
fn keep_fate(jobs: &mut Vec<PlaceJobs>, place: u32, nth: u64, fate: FateMark)
    requires near { place < length jobs.old.items }
    requires there { nth < length (listed (starts_of jobs.old.items) place) }
    ensures started { starts_of jobs.new.items ≡ slice_set (starts_of jobs.old.items) place
        (kept_settled nth fate (listed (starts_of jobs.old.items) place)) }
    ensures taken { counts_of jobs.new.items ≡ counts_of jobs.old.items }
{
    jobs[place as usize].started[nth as usize].fate = Some(fate);
}

impl<J: Meant> Owner<J> {
    /// Settles a job that it took and that is not settled. The note has seen that.
    pub fn settle(&mut self, post: &Post<J>, place: u32, nth: u64, fate: FateMark) -> SeenNote<J>
        requires table { IsOwnerOf post.now self.old }
        requires near { HasPlace post.now place }
        requires active { IsActiveHere (listed (owner_of (owner_view self.old)).jobs place) nth }
        requires finished { fate ≡ Finished }
        ensures owner { IsOwnerOf post.now self.new
            × (owner_view self.new ≡ job_settled place nth Finished (owner_view self.old)) }
        ensures note { IsNoteOf post.now result × (note_view result ≡ noted (owner_view self.new)) }
    {
        let note = settle(&post.table.shared, &mut self.hold.seat, place, nth, fate);
        keep_fate(&mut self.hold.jobs, place, nth, fate);
        SeenNote { seat: note }
    }
}

impl<J: Meant> Exec<J> {
    /// Settles a job that it took and that is not settled. The note has seen that.
    pub fn settle(&mut self, post: &Post<J>, place: u32, nth: u64, fate: FateMark) -> SeenNote<J>
        requires table { IsExecOf post.now self.old }
        requires near { HasPlace post.now place }
        requires active { IsActiveHere (listed (owner_of (exec_view self.old)).jobs place) nth }
        requires finished { fate ≡ Finished }
        ensures owner { IsExecOf post.now self.new × (exec_place self.new ≡ exec_place self.old)
            × (exec_view self.new ≡ job_settled place nth Finished (exec_view self.old)) }
        ensures note { IsNoteOf post.now result × (note_view result ≡ noted (exec_view self.new)) }
    {
        let note = settle(&post.table.shared, &mut self.hold.seat, place, nth, fate);
        keep_fate(&mut self.hold.jobs, place, nth, fate);
        SeenNote { seat: note }
    }
}

impl<J: Meant> Emptied<J> {
    /// Settles a job that it took before it closed and that is not settled. It is cancelled, and the note has seen that.
    pub fn settle(&mut self, post: &Post<J>, place: u32, nth: u64, fate: FateMark) -> SeenNote<J>
        requires table { IsEmptiedOf post.now self.old }
        requires near { HasPlace post.now place }
        requires active { IsActiveHere (listed (owner_of (emptied_view self.old)).jobs place) nth }
        requires cancelled { fate ≡ Cancelled }
        ensures owner { IsEmptiedOf post.now self.new
            × (emptied_view self.new ≡ job_settled place nth Cancelled (emptied_view self.old)) }
        ensures note { IsNoteOf post.now result
            × (note_view result ≡ noted (emptied_view self.new)) }
    {
        let note = settle(&post.table.shared, &mut self.hold.seat, place, nth, fate);
        keep_fate(&mut self.hold.jobs, place, nth, fate);
        SeenNote { seat: note }
    }
}
