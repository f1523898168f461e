//! A sender sends a job without waiting: each exchange is tried once.

ghost use Rattle.std.specs.Prelude.{◌≡◌, ◌<◌, false, length};
ghost use Rattle.post_core.specs.Kept.{listed};
ghost use Rattle.post_core.specs.SendParts.{HasPlace, IsPassOf, IsUseOf, next_own_mark, pass_view, post_target, use_place};
ghost use Rattle.post_core.specs.SendSteps.{has_seen_closed, own_marks_max};
ghost use Rattle.post_core.specs.TryParts.{HasFoundNone};
ghost use Rattle.post_core.specs.Views.{pass_of};
ghost use Rattle.proxy_queue.specs.Sends.{HasMissed, IfBusy, IfTriedRefused, IfTriedSent, IfTriedWanting, IsAccepted};
ghost use Rattle.proxy_queue.specs.Sets.{set_post};

use crate::answers::TryAnswer;
use crate::queue_set::QueueSet;
use crate::sending::notify_and_give;
use post_core::{Meant, PlaceUse, SendPass, TryPutAnswer, TryRefAnswer};

impl<J: Meant> QueueSet<J> {
    /// Sends a job as `send` does, but does not wait. Where another thread changes the number of references, or has the turn
    /// of the place, the answer is `Busy`, and nothing was put. It always returns.
    pub fn try_send(
        &self,
        pass: SendPass<J>,
        place_use: &PlaceUse<J>,
        tag: u64,
        job: J,
    ) -> TryAnswer<J>
        requires table { IsPassOf (set_post self.now) pass }
        requires near { HasPlace (set_post self.now) (use_place place_use.now) }
        requires used { IsUseOf (set_post self.now) (pass_view pass) place_use.now }

        // The pass has put fewer than 2^48 jobs at the place.
        requires room { length (listed (pass_of (pass_view pass)).own (use_place place_use.now))
            < own_marks_max }
        requires suits { J.suits (post_target (set_post self.now)) (use_place place_use.now)
            (next_own_mark (use_place place_use.now) tag (pass_view pass)) (J.meaning job) }
        ensures accepted { IfTriedSent result (λ back nth. IsPassOf (set_post self.now) back
            × IsAccepted (use_place place_use.now) tag (J.meaning job) nth
            (pass_view pass) (pass_view back)) }

        // A pass that has seen that the target is closed sends nothing.
        ensures stands { IfTriedSent result (λ back nth. has_seen_closed (pass_view pass) ≡ false) }

        // The load or the exchange found no reference, and the pass has seen that.
        ensures closed { IfTriedRefused result (λ back same. IsPassOf (set_post self.now) back
            × HasFoundNone (pass_view pass) (pass_view back) × (same ≡ job)) }
        ensures no_memory { IfTriedWanting result (λ back same. IsPassOf (set_post self.now) back
            × (pass_view back ≡ pass_view pass) × (same ≡ job)) }

        // One exchange failed. The pass keeps it; it has put nothing, and has no reference.
        ensures busy { IfBusy result (λ back same word value. IsPassOf (set_post self.now) back
            × HasMissed (use_place place_use.now) word value (pass_view pass) (pass_view back)
            × (same ≡ job)) }
    {
        match self.post.try_take_ref(pass) {
            TryRefAnswer::Closed(pass) => TryAnswer::Closed { pass, job },
            TryRefAnswer::Busy { pass, word, value } => TryAnswer::Busy {
                pass,
                job,
                word,
                value,
            },
            TryRefAnswer::Held(held) => match held.try_put(&self.post, place_use, tag, job) {
                TryPutAnswer::Put(owing) => {
                    let nth = owing.nth();
                    TryAnswer::Accepted {
                        pass: notify_and_give(&self.post, owing),
                        nth,
                    }
                }
                TryPutAnswer::NoMemory(held, job) => TryAnswer::NoMemory {
                    pass: held.give(&self.post),
                    job,
                },
                TryPutAnswer::Busy {
                    pass,
                    job,
                    word,
                    value,
                } => TryAnswer::Busy {
                    pass: pass.give(&self.post),
                    job,
                    word,
                    value,
                },
            },
        }
    }
}
