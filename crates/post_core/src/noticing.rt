//! The owner looks for notices, receives them, and begins to execute.

ghost use Rattle.std.specs.Prelude.{◌≡◌};
ghost use Rattle.proxy_laws.specs.declared.actors.Serving.TheVariants.{Direct};
ghost use Rattle.post_core.specs.OwnerViews.{IsExecOf, IsGotOf, IsNextNotice, IsOwnerOf, exec_place, exec_view, got_place, got_view, owner_view};
ghost use Rattle.post_core.specs.SendParts.{HasPlace, use_place};
ghost use Rattle.post_core.specs.ServingSteps.{at_serving, place_received};

use crate::mailing::first_notice;
use crate::meant::Meant;
use crate::owner::{Exec, Got, Noticed, Owner};
use crate::post::{PlaceUse, Post};
use crate::serving::{begin_direct, receive_note};
use proxy_laws::Started;
use std::sync::Wait;

impl<J: Meant> Owner<J> {
    /// Looks into the words of the mailbox in turn, up to the first that is not 0, and takes the notice of
    /// its lowest place. Notices are numbered from 1.
    pub fn next_notice(self, post: &Post<J>) -> Noticed<J>
        requires { IsOwnerOf post.now self }
        ensures { IsNextNotice post.now (owner_view self) result }
    {
        let Owner { mut hold } = self;
        match first_notice(&post.table.shared, &mut hold.seat) {
            Some(place) => {
                hold.got += 1;
                Noticed::Got(Got { hold, place })
            }
            None => Noticed::Nothing(Owner { hold }),
        }
    }
}

impl<J: Meant> Owner<J> {
    /// Waits until somebody wakes the owner, or for no reason.
    pub fn park<R: Wait>(self, rt: &R, _post: &Post<J>) -> Owner<J>
        ensures { result ≡ self }
    {
        self.hold.parker.park(rt);
        self
    }
}

impl<J: Meant> Got<J> {
    /// The place whose notice was got.
    pub fn place(&self) -> u32
        ensures { result ≡ got_place self.now }
    {
        self.place
    }

    /// Receives the place's note, and begins to execute its jobs.
    pub fn receive(self, post: &Post<J>) -> Exec<J>
        requires { IsGotOf post.now self }
        ensures { IsExecOf post.now result × (exec_place result ≡ got_place self)
            × (exec_view result ≡ place_received (got_place self) (got_view self)) }
    {
        let Got { mut hold, place } = self;
        receive_note(&post.table.shared, &mut hold.seat, place);
        Exec {
            start: Started::Notice(hold.got),
            hold,
            place,
        }
    }
}

impl<J: Meant> Owner<J> {
    /// Begins to execute the place's jobs without a notice. Its note stays as it is.
    pub fn direct(self, post: &Post<J>, place_use: &PlaceUse<J>) -> Exec<J>
        requires table { IsOwnerOf post.now self }
        requires near { HasPlace post.now (use_place place_use.now) }
        ensures { IsExecOf post.now result × (exec_place result ≡ use_place place_use.now)
            × (exec_view result ≡ at_serving (use_place place_use.now) Direct (owner_view self)) }
    {
        let Owner { mut hold } = self;
        let place = place_use.place;
        begin_direct(&post.table.shared, &mut hold.seat, place);
        Exec {
            hold,
            place,
            start: Started::Direct,
        }
    }
}
