//! What one part of a target has seen is handed to another.

ghost use Rattle.std.specs.Prelude.{◌≡◌};
ghost use Rattle.post_core.specs.SendParts.{IsNoteOf, IsPassOf, note_view, pass_view, with_seen};
ghost use Rattle.post_core.specs.Views.{noted};

use crate::joining::{Noted, Together};
use crate::meant::Meant;
use crate::post::{Post, SeenNote, SendPass};

impl<J: Meant> SendPass<J> {
    /// Makes a note of what the pass has seen.
    pub fn note(self, post: &Post<J>) -> (SendPass<J>, SeenNote<J>)
        requires table { IsPassOf post.now self }
        ensures pass { IsPassOf post.now result.0 × (pass_view result.0 ≡ pass_view self) }
        ensures note { IsNoteOf post.now result.1 × (note_view result.1 ≡ noted (pass_view self)) }
    {
        let SendPass { mut hold } = self;
        let note = post.table.shared.split_seat::<Noted>(&mut hold.seat);
        (SendPass { hold }, SeenNote { seat: note })
    }

    /// The pass has seen what the note has.
    pub fn meet(self, post: &Post<J>, note: SeenNote<J>) -> SendPass<J>
        requires table { IsPassOf post.now self × IsNoteOf post.now note }
        ensures { IsPassOf post.now result
            × (pass_view result ≡ with_seen (note_view note).seen (pass_view self)) }
    {
        let SendPass { mut hold } = self;
        let SeenNote { seat: seen } = note;
        post.table
            .shared
            .join_seat::<Together>(&mut hold.seat, seen);
        SendPass { hold }
    }
}
