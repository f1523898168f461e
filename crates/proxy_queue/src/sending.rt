//! A sender sends a job: it takes a reference, puts the job, notifies the owner and gives the reference back.

ghost use Rattle.std.specs.Prelude.{◌≡◌, false};
ghost use Rattle.proxy_laws.specs.declared.actors.Phase.TheVariants.{Idle};
ghost use Rattle.post_core.specs.SendParts.{HasPlace, IsOwingOf, IsPassOf, IsUseOf, next_own_mark, owing_view, pass_view, post_target, use_place};
ghost use Rattle.post_core.specs.SendSteps.{has_seen_closed, none_seen};
ghost use Rattle.post_core.specs.Views.{at_phase};
ghost use Rattle.proxy_queue.specs.Sends.{IfRefused, IfSent, IfWanting, IsAccepted};
ghost use Rattle.proxy_queue.specs.Sets.{set_post};

use crate::answers::SendAnswer;
use crate::queue_set::QueueSet;
use post_core::{Meant, Notified, Owing, PlaceUse, Post, PutAnswer, RefAnswer, SendPass};
use std::sync::Wait;

/// Notifies the owner of a job that was put, and gives the reference back.
pub(crate) fn notify_and_give<J: Meant>(post: &Post<J>, owing: Owing<J>) -> SendPass<J>
    requires { IsOwingOf post.now owing }
    ensures { IsPassOf post.now result × (pass_view result ≡ at_phase Idle (owing_view owing)) }
{
    match owing.notify(post) {
        Notified::Quiet(held) => held.give(post),
        Notified::Messenger(notice) => notice.deliver(post).give(post),
    }
}

impl<J: Meant> QueueSet<J> {
    /// Sends a job to the queue of a use, under the mark of this sender's next job there with this tag. It waits where other
    /// senders keep changing the number of references, and for the turn of the place; and for good where the pass has put
    /// 2^48 jobs there. A job that is not accepted is handed back.
    pub fn send<R: Wait>(
        &self,
        rt: &R,
        pass: SendPass<J>,
        place_use: &PlaceUse<J>,
        tag: u64,
        job: J,
    ) -> SendAnswer<J>
        requires table { IsPassOf (set_post self.now) pass }
        requires near { HasPlace (set_post self.now) (use_place place_use.now) }
        requires used { IsUseOf (set_post self.now) (pass_view pass) place_use.now }
        requires suits { J.suits (post_target (set_post self.now)) (use_place place_use.now)
            (next_own_mark (use_place place_use.now) tag (pass_view pass)) (J.meaning job) }
        ensures accepted { IfSent result (λ back nth. IsPassOf (set_post self.now) back
            × IsAccepted (use_place place_use.now) tag (J.meaning job) nth
            (pass_view pass) (pass_view back)) }

        // A pass that has seen that the target is closed sends nothing.
        ensures stands { IfSent result (λ back nth. has_seen_closed (pass_view pass) ≡ false) }

        // A load in this call found no reference, and the pass has seen that.
        ensures closed { IfRefused result (λ back same. IsPassOf (set_post self.now) back
            × (pass_view back ≡ none_seen (pass_view pass)) × (same ≡ job)) }
        ensures no_memory { IfWanting result (λ back same. IsPassOf (set_post self.now) back
            × (pass_view back ≡ pass_view pass) × (same ≡ job)) }
    {
        match self.post.take_ref(rt, pass) {
            RefAnswer::Closed(pass) => SendAnswer::Closed { pass, job },
            RefAnswer::Held(held) => match held.put(rt, &self.post, place_use, tag, job) {
                PutAnswer::Put(owing) => {
                    let nth = owing.nth();
                    SendAnswer::Accepted {
                        pass: notify_and_give(&self.post, owing),
                        nth,
                    }
                }
                PutAnswer::NoMemory(held, job) => SendAnswer::NoMemory {
                    pass: held.give(&self.post),
                    job,
                },
            },
        }
    }
}
