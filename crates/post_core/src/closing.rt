//! The owner drops its reference, and looks whether another is left.

ghost use Rattle.std.specs.Prelude.{◌≡◌, None, Some};
ghost use Rattle.post_core.specs.ClosingSteps.{own_dropped};
ghost use Rattle.post_core.specs.ClosingViews.{IsClosingLook, IsClosingOf, closing_left, closing_view};
ghost use Rattle.post_core.specs.OwnerViews.{IsExecOf, IsOwnerOf, exec_place, exec_view, owner_view};

use crate::closing_owner::{Closed, Closing, ClosingLook};
use crate::closing_steps::{drop_own, look_closed};
use crate::meant::Meant;
use crate::owner::{Exec, Owner};
use crate::post::Post;
use std::sync::Wait;

impl<J: Meant> Owner<J> {
    /// Begins to close the target: drops the owner's reference. It takes no memory.
    pub fn begin_close(self, post: &Post<J>) -> Closing<J>
        requires { IsOwnerOf post.now self }
        ensures { IsClosingOf post.now result × (closing_left result ≡ None)
            × (closing_view result ≡ own_dropped (owner_view self)) }
    {
        let Owner { mut hold } = self;
        drop_own(&post.table.shared, &mut hold.seat);
        Closing { hold, left: None }
    }
}

impl<J: Meant> Exec<J> {
    /// Begins to close the target: drops the owner's reference, and remembers the place. It takes no memory.
    pub fn begin_close(self, post: &Post<J>) -> Closing<J>
        requires { IsExecOf post.now self }
        ensures { IsClosingOf post.now result × (closing_left result ≡ Some (exec_place self))
            × (closing_view result ≡ own_dropped (exec_view self)) }
    {
        let Exec {
            mut hold,
            place,
            start: _,
        } = self;
        drop_own(&post.table.shared, &mut hold.seat);
        Closing {
            hold,
            left: Some(place),
        }
    }
}

impl<J: Meant> Closing<J> {
    /// Waits until the last reference is given back, until somebody wakes the owner for another reason, or for no reason.
    pub fn park<R: Wait>(self, rt: &R, _post: &Post<J>) -> Closing<J>
        ensures { result ≡ self }
    {
        self.hold.parker.park(rt);
        self
    }

    /// Looks how many references are left. With none the target is closed. It takes no memory.
    pub fn look(self, post: &Post<J>) -> ClosingLook<J>
        requires { IsClosingOf post.now self }
        ensures { IsClosingLook post.now (closing_left self) (closing_view self) result }
    {
        let Closing { mut hold, left } = self;
        let count = look_closed(&post.table.shared, &mut hold.seat);
        if count == 0 {
            ClosingLook::Closed(Closed { hold, left })
        } else {
            ClosingLook::Referenced {
                closing: Closing { hold, left },
                count,
            }
        }
    }
}
