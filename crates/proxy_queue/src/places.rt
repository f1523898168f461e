//! A sender's calls on queues, and on notes of what was seen.

ghost use Rattle.std.specs.Prelude.{◌≡◌, ◌≢◌, ◌<◌};
ghost use Rattle.post_core.specs.LifeParts.{IfFull, IfMade, IsAllFound, IsCreated, IsNewUse, IsReleased};
ghost use Rattle.post_core.specs.LifeSteps.{use_cloned};
ghost use Rattle.post_core.specs.Rule.{clones_max};
ghost use Rattle.post_core.specs.SendParts.{HasPlace, IsNoteOf, IsPassOf, IsUseOf, note_view, pass_sender, pass_view, post_places, use_place, with_seen};
ghost use Rattle.post_core.specs.Views.{noted, pass_of};
ghost use Rattle.proxy_queue.specs.Sets.{set_post};

use crate::queue_set::QueueSet;
use post_core::{CreateAnswer, Meant, PlaceUse, Released, SeenNote, SendPass};

impl<J: Meant> QueueSet<J> {
    /// Creates a queue other than the system queue, with one use. It first sets each zombie free whose note is none.
    pub fn create(&self, pass: SendPass<J>) -> CreateAnswer<J>
        requires table { IsPassOf (set_post self.now) pass }

        // The pass tried to claim each place from 1 up. After that it found those below this one not free, and then this
        // one free.
        ensures made { IfMade result (λ back place_use. IsPassOf (set_post self.now) back
            × (pass_sender back ≡ pass_sender pass)
            × IsNewUse (set_post self.now) (pass_view back) place_use
            × IsCreated (post_places (set_post self.now)) (use_place place_use)
            (pass_view pass) (pass_view back)) }

        // The pass tried to claim each place from 1 up. After that it found each of them not free.
        ensures full { IfFull result (λ back. IsPassOf (set_post self.now) back
            × (pass_sender back ≡ pass_sender pass)
            × IsAllFound (post_places (set_post self.now)) (pass_view pass) (pass_view back)) }
    {
        self.post.create(pass)
    }

    /// Clones a use. A pass makes at most 2^32 clones.
    pub fn clone_use(
        &self,
        pass: SendPass<J>,
        place_use: &PlaceUse<J>,
    ) -> (SendPass<J>, PlaceUse<J>)
        requires table { IsPassOf (set_post self.now) pass }
        requires near { HasPlace (set_post self.now) (use_place place_use.now) }
        requires used { IsUseOf (set_post self.now) (pass_view pass) place_use.now }
        requires few { (pass_of (pass_view pass)).clones < clones_max }
        ensures { IsPassOf (set_post self.now) result.0 × (result.1 ≡ place_use.now)
            × (pass_view result.0 ≡ use_cloned (use_place place_use.now) (pass_view pass)) }
    {
        self.post.clone_use(pass, place_use)
    }

    /// Releases a use of a queue other than the system queue. The last one sets the place free, or leaves a zombie.
    pub fn release(&self, pass: SendPass<J>, place_use: PlaceUse<J>) -> (SendPass<J>, Released)
        requires table { IsPassOf (set_post self.now) pass }
        requires near { HasPlace (set_post self.now) (use_place place_use) }
        requires used { IsUseOf (set_post self.now) (pass_view pass) place_use }
        requires other { use_place place_use ≢ 0 }
        ensures { IsPassOf (set_post self.now) result.0
            × IsReleased (use_place place_use) (pass_view pass) result.1 (pass_view result.0) }
    {
        self.post.release(pass, place_use)
    }

    /// The pass has seen what the note has.
    pub fn meet(&self, pass: SendPass<J>, note: SeenNote<J>) -> SendPass<J>
        requires table { IsPassOf (set_post self.now) pass × IsNoteOf (set_post self.now) note }
        ensures { IsPassOf (set_post self.now) result
            × (pass_view result ≡ with_seen (note_view note).seen (pass_view pass)) }
    {
        pass.meet(&self.post, note)
    }

    /// Makes a note of what the pass has seen.
    pub fn note(&self, pass: SendPass<J>) -> (SendPass<J>, SeenNote<J>)
        requires table { IsPassOf (set_post self.now) pass }
        ensures pass { IsPassOf (set_post self.now) result.0
            × (pass_view result.0 ≡ pass_view pass) }
        ensures note { IsNoteOf (set_post self.now) result.1
            × (note_view result.1 ≡ noted (pass_view pass)) }
    {
        pass.note(&self.post)
    }
}
