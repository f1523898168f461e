//! The calls of a sender that does not wait: it takes a reference and puts a job, each by one exchange.

ghost use Rattle.std.specs.Prelude.{◌≡◌, ◌<◌, false, length};
ghost use Rattle.proxy_laws.specs.declared.actors.Phase.TheVariants.{Referenced};
ghost use Rattle.post_core.specs.Kept.{listed};
ghost use Rattle.post_core.specs.SendParts.{HasPlace, IsHandedBack, IsPassOf, IsPutFor, IsRefPassOf, IsUseOf, next_own_mark, pass_view, post_target, ref_view, use_place};
ghost use Rattle.post_core.specs.SendSteps.{has_seen_closed, own_marks_max};
ghost use Rattle.post_core.specs.TryParts.{HasFoundNone, HasMissedRef, HasMissedTurn, IfBusyNow, IfClosedNow, IfHeldNow, IfNoMemoryNow, IfPutNow, IfTurnMissed};
ghost use Rattle.post_core.specs.Views.{at_phase, pass_of};
ghost use Rattle.post_core.specs.Words.{refs_at, turn_at};

use crate::meant::Meant;
use crate::post::{Owing, PlaceUse, Post, RefPass, SendPass};
use crate::send_answers::{TryPutAnswer, TryRefAnswer};
use crate::send_steps::load_refs;
use crate::try_jobs::{Tried, try_marked};
use crate::try_steps::try_ref;
use proxy_laws::Mark;

/// The word of a table that holds the number of references.
const REFS_WORD: u32 = 0;

/// The word of a table that holds the turn of place 0. Those of the other places follow it.
const FIRST_TURN_WORD: u32 = 1;

impl<J: Meant> Post<J> {
    /// Takes a reference of the target for a pass, by one load and one exchange. It does not wait: where others change the
    /// number of references between the two, it answers so.
    pub fn try_take_ref(&self, pass: SendPass<J>) -> TryRefAnswer<J>
        requires table { IsPassOf self.now pass }
        ensures held { IfHeldNow result (λ held. IsRefPassOf self.now held
            × (ref_view held ≡ at_phase Referenced (pass_view pass))) }

        // A pass that has seen that the target is closed gets no reference.
        ensures stands { IfHeldNow result (λ held. has_seen_closed (pass_view pass) ≡ false) }

        // The load or the exchange found no reference, and the pass has seen that.
        ensures closed { IfClosedNow result (λ back. IsPassOf self.now back
            × HasFoundNone (pass_view pass) (pass_view back)) }

        // The exchange failed, and the pass keeps it.
        ensures busy { IfBusyNow result (λ back word value. IsPassOf self.now back
            × (word ≡ refs_at) × HasMissedRef value (pass_view pass) (pass_view back)) }
    {
        let SendPass { mut hold } = pass;
        let seen = load_refs(&self.table.shared, &mut hold.seat);
        if seen == 0 {
            return TryRefAnswer::Closed(SendPass { hold });
        }
        let found = try_ref(&self.table.shared, &mut hold.seat, seen);
        if found == seen {
            return TryRefAnswer::Held(RefPass { hold });
        }
        if found == 0 {
            return TryRefAnswer::Closed(SendPass { hold });
        }
        TryRefAnswer::Busy {
            pass: SendPass { hold },
            word: REFS_WORD,
            value: found,
        }
    }
}

impl<J: Meant> RefPass<J> {
    /// Puts a job at the place of a use, as `put` does, where one exchange takes the turn of the place. It does not wait:
    /// where somebody has the turn, it answers so, and puts nothing.
    pub fn try_put(
        self,
        post: &Post<J>,
        place_use: &PlaceUse<J>,
        tag: u64,
        job: J,
    ) -> TryPutAnswer<J>
        requires table { IsRefPassOf post.now self }
        requires near { HasPlace post.now (use_place place_use.now) }
        requires used { IsUseOf post.now (ref_view self) place_use.now }

        // The pass has put fewer than 2^48 jobs there.
        requires room { length (listed (pass_of (ref_view self)).own (use_place place_use.now))
            < own_marks_max }
        requires suits { J.suits (post_target post.now) (use_place place_use.now)
            (next_own_mark (use_place place_use.now) tag (ref_view self)) (J.meaning job) }
        ensures put { IfPutNow result
            (IsPutFor post.now (use_place place_use.now) tag (J.meaning job) (ref_view self)) }
        ensures no_memory { IfNoMemoryNow result (IsHandedBack post.now job (ref_view self)) }

        // Somebody had the turn, and the pass keeps the exchange that failed.
        ensures busy { IfTurnMissed result (λ pass back word value. IsRefPassOf post.now pass
            × (word ≡ turn_at (use_place place_use.now))
            × HasMissedTurn (use_place place_use.now) value (ref_view self) (ref_view pass)
            × (back ≡ job)) }
    {
        let RefPass { mut hold } = self;
        let place = place_use.place;
        let kept = &mut hold.own[place as usize];
        match try_marked(
            &post.table.shared,
            &mut hold.seat,
            kept,
            place,
            Mark {
                sender: hold.sender,
                seq: kept.len() as u64,
                tag,
            },
            job,
        ) {
            Tried::Put(nth) => TryPutAnswer::Put(Owing { hold, place, nth }),
            Tried::NoMemory(job) => TryPutAnswer::NoMemory(RefPass { hold }, job),
            Tried::Busy(job, value) => TryPutAnswer::Busy {
                pass: RefPass { hold },
                job,
                word: FIRST_TURN_WORD + place,
                value,
            },
        }
    }
}
