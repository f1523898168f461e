//! The calls of a sender: it takes a reference, puts jobs, notifies, and gives the reference back.

ghost use Rattle.std.specs.Prelude.{◌≡◌, false};
ghost use Rattle.proxy_laws.specs.declared.actors.Phase.TheVariants.{Idle, Messenger, Referenced};
ghost use Rattle.post_core.specs.SendParts.{HasPlace, IfClosed, IfHeld, IfMessenger, IfNoMemory, IfPut, IfQuiet, IsHandedBack, IsNoticeOf, IsOwingOf, IsPassOf, IsPutFor, IsRefPassOf, IsUseOf, next_own_mark, notice_place, notice_view, owing_nth, owing_place, owing_view, pass_view, post_target, ref_view, use_place};
ghost use Rattle.post_core.specs.SendSteps.{has_seen_closed, none_seen};
ghost use Rattle.post_core.specs.Views.{at_phase};

use crate::mailing::add_mail;
use crate::meant::Meant;
use crate::post::{Notice, Owing, PassHold, PlaceUse, Post, RefPass, SendPass};
use crate::put_jobs::put_marked;
use crate::send_answers::{Notified, PutAnswer, RefAnswer};
use crate::send_steps::{add_ref, drop_ref, load_refs, swap_note};
use proxy_laws::Mark;
use std::sync::Wait;

/// The word of a note that is pending.
const PENDING: u64 = 1;

impl<J: Meant> Post<J> {
    /// Takes a reference of the target for a pass. It waits where other senders keep changing their number.
    pub fn take_ref<R: Wait>(&self, rt: &R, pass: SendPass<J>) -> RefAnswer<J>
        requires table { IsPassOf self.now pass }
        ensures held { IfHeld result (λ held. IsRefPassOf self.now held
            × (ref_view held ≡ at_phase Referenced (pass_view pass))) }

        // A pass that has seen that the target is closed gets no reference.
        ensures stands { IfHeld result (λ held. has_seen_closed (pass_view pass) ≡ false) }

        // A load in this call found no reference, and the pass has seen that.
        ensures closed { IfClosed result (λ back. IsPassOf self.now back
            × (pass_view back ≡ none_seen (pass_view pass))) }
    {
        let SendPass { hold } = pass;
        let PassHold {
            mut seat,
            target,
            sender,
            own,
        } = hold;
        let mut seen = load_refs(&self.table.shared, &mut seat);
        for _ in rt.forever() {
            if seen == 0 {
                return RefAnswer::Closed(SendPass {
                    hold: PassHold {
                        seat,
                        target,
                        sender,
                        own,
                    },
                });
            }
            let found = add_ref(&self.table.shared, &mut seat, seen);
            if found == seen {
                return RefAnswer::Held(RefPass {
                    hold: PassHold {
                        seat,
                        target,
                        sender,
                        own,
                    },
                });
            }
            seen = found;
        }
        unreachable!()
    }
}

impl<J: Meant> RefPass<J> {
    /// Puts a job at the place of a use, under the mark of this sender's next job there with this tag. It waits until the
    /// turn of the place is free, and for good where the pass has put 2^48 jobs there.
    pub fn put<R: Wait>(
        self,
        rt: &R,
        post: &Post<J>,
        place_use: &PlaceUse<J>,
        tag: u64,
        job: J,
    ) -> PutAnswer<J>
        requires table { IsRefPassOf post.now self }
        requires near { HasPlace post.now (use_place place_use.now) }
        requires used { IsUseOf post.now (ref_view self) place_use.now }
        requires suits { J.suits (post_target post.now) (use_place place_use.now)
            (next_own_mark (use_place place_use.now) tag (ref_view self)) (J.meaning job) }
        ensures put { IfPut result
            (IsPutFor post.now (use_place place_use.now) tag (J.meaning job) (ref_view self)) }
        ensures no_memory { IfNoMemory result (IsHandedBack post.now job (ref_view self)) }
    {
        let RefPass { mut hold } = self;
        let place = place_use.place;
        let kept = &mut hold.own[place as usize];
        match put_marked(
            rt,
            &post.table.shared,
            &mut hold.seat,
            kept,
            place,
            Mark {
                sender: hold.sender,
                seq: kept.len() as u64,
                tag,
            },
            job,
        ) {
            Ok(nth) => PutAnswer::Put(Owing { hold, place, nth }),
            Err(job) => PutAnswer::NoMemory(RefPass { hold }, job),
        }
    }

    /// Gives the reference back. Where it was the last one it wakes the owner, which is closing.
    pub fn give(self, post: &Post<J>) -> SendPass<J>
        requires table { IsRefPassOf post.now self }
        ensures { IsPassOf post.now result × (pass_view result ≡ at_phase Idle (ref_view self)) }
    {
        let RefPass { mut hold } = self;
        if drop_ref(&post.table.shared, &mut hold.seat) == 1 {
            post.waker.unpark();
        }
        SendPass { hold }
    }
}

impl<J: Meant> Owing<J> {
    /// The number of the job at its place.
    pub fn nth(&self) -> u64
        ensures { result ≡ owing_nth self.now }
    {
        self.nth
    }

    /// Makes the note of the place pending.
    pub fn notify(self, post: &Post<J>) -> Notified<J>
        requires table { IsOwingOf post.now self }

        // The note was pending.
        ensures quiet { IfQuiet result (λ pass. IsRefPassOf post.now pass
            × (ref_view pass ≡ at_phase Referenced (owing_view self))) }

        // It was not.
        ensures messenger { IfMessenger result (λ notice. IsNoticeOf post.now notice
            × (notice_place notice ≡ owing_place self)
            × (notice_view notice ≡ at_phase (Messenger (owing_place self)) (owing_view self))) }
    {
        let Owing {
            mut hold,
            place,
            nth: _,
        } = self;
        let found = swap_note(&post.table.shared, &mut hold.seat, place);
        if found == PENDING {
            return Notified::Quiet(RefPass { hold });
        }
        Notified::Messenger(Notice { hold, place })
    }
}

impl<J: Meant> Notice<J> {
    /// Brings the notice to the mailbox, and wakes the owner where its word held none.
    pub fn deliver(self, post: &Post<J>) -> RefPass<J>
        requires table { IsNoticeOf post.now self }
        ensures { IsRefPassOf post.now result
            × (ref_view result ≡ at_phase Referenced (notice_view self)) }
    {
        let Notice { mut hold, place } = self;
        if add_mail(&post.table.shared, &mut hold.seat, place) == 0 {
            post.waker.unpark();
        }
        RefPass { hold }
    }
}
