//! The queues of one target, as they are made and ended.

ghost use Rattle.std.specs.Prelude.{◌≡◌, ℕ, ◌<◌, ◌≤◌, All, IfErr, IfOk, length, map};
ghost use Rattle.proxy_laws.specs.Fates.{LawfulPost, jobs_of};
ghost use Rattle.proxy_laws.specs.Limits.{places_max, senders_max};
ghost use Rattle.post_core.specs.Ending.{AgreesWithPass, AreAllParts, Ended, FoundTaken, all_joined};
ghost use Rattle.post_core.specs.Kept.{listed};
ghost use Rattle.post_core.specs.Making.{system_uses};
ghost use Rattle.post_core.specs.OwnerViews.{emptied_view};
ghost use Rattle.post_core.specs.Records.{AreSettled, held_record};
ghost use Rattle.post_core.specs.SendParts.{pass_view, post_places, post_senders, post_target};
ghost use Rattle.mailbox.specs.Turns.{jobs_in};
ghost use Rattle.proxy_queue.specs.Sets.{AreSetParts, set_post};

use mailbox::Mailbox;
use post_core::{CloseBack, Emptied, Made, Meant, PlaceUse, Post, SendPass};
use proxy_laws::PostRecord;
use std::alloc::{AllocError, Global};

/// The queues of one target, which its threads share.
pub struct QueueSet<J: Meant> {
    pub(crate) post: Post<J>,
}

/// A target's queues as they are made: its owner's mailbox, and for each sender a pass and a use of the system queue.
pub struct SetParts<J: Meant> {
    pub set: QueueSet<J>,
    pub mailbox: Mailbox<J>,
    pub passes: Vec<SendPass<J>>,
    pub system: Vec<PlaceUse<J>>,
}

/// What `close` was given, where it found no memory.
pub struct SetBack<J: Meant> {
    pub set: QueueSet<J>,
    pub emptied: Emptied<J>,
    pub passes: Vec<SendPass<J>>,
    pub uses: Vec<PlaceUse<J>>,
}

impl<J: Meant> QueueSet<J> {
    /// Makes the queues of a target, of which only the system queue, number 0, is in use.
    pub fn make(
        alloc: Global,
        target: u32,
        senders: u32,
        places: u32,
    ) -> Result<SetParts<J>, AllocError>
        requires senders { (1 ≤ senders) × (senders ≤ senders_max) }
        requires places { (1 ≤ places) × (places ≤ places_max) }
        ensures set { IfOk result (λ parts. (post_target (set_post parts.set) ≡ target)
            × (post_senders (set_post parts.set) ≡ senders)
            × (post_places (set_post parts.set) ≡ places)) }
        ensures parts { IfOk result (λ parts. AreSetParts senders places parts) }
        ensures system { IfOk result (λ parts. parts.system.items ≡ system_uses target senders) }
    {
        let Made {
            post,
            owner,
            passes,
            system,
        } = post_core::make(alloc, target, senders, places)?;
        Ok(SetParts {
            set: QueueSet { post },
            mailbox: Mailbox::new(owner),
            passes,
            system,
        })
    }

    /// Ends queues that are as `make` answered them. It takes no memory.
    pub fn unmake(parts: SetParts<J>)
        requires { AreSetParts
            (post_senders (set_post parts.set)) (post_places (set_post parts.set)) parts }
    {
        let SetParts {
            set,
            mailbox,
            passes,
            system,
        } = parts;
        let QueueSet { post } = set;
        post_core::unmake(Made {
            post,
            owner: mailbox.into_owner(),
            passes,
            system,
        });
    }

    /// Ends the queues of a target that was shut down, and makes its record. Where memory is wanting, everything is handed
    /// back.
    pub fn close(
        self,
        alloc: Global,
        emptied: Emptied<J>,
        passes: Vec<SendPass<J>>,
        uses: Vec<PlaceUse<J>>,
    ) -> Result<PostRecord, SetBack<J>>
        requires parts { AreAllParts (set_post self) emptied passes.items }
        requires settled { (p : ℕ) → p < post_places (set_post self)
            → AreSettled (listed (jobs_in (emptied_view emptied)) p) }
        ensures lawful { IfOk result (λ r. LawfulPost r) }
        ensures sized { IfOk result (λ r. (r.target ≡ post_target (set_post self))
            × (length r.places.items ≡ post_places (set_post self))) }
        ensures owner { IfOk result (λ r. (p : ℕ) → p < post_places (set_post self)
            → jobs_of r p ≡ map held_record (listed (jobs_in (emptied_view emptied)) p)) }
        ensures passes { IfOk result
            (λ r. All (λ pass. AgreesWithPass r (pass_view pass)) passes.items) }
        ensures found { IfOk result (λ r. All (λ pass. FoundTaken
            (map (λ other. pass_view other) passes.items) (pass_view pass)) passes.items) }
        ensures err { IfErr result (λ back. (back.set ≡ self) × (back.emptied ≡ emptied)
            × (back.passes ≡ passes) × (back.uses ≡ uses)) }
    {
        let QueueSet { post } = self;
        match post_core::close(alloc, post, emptied, passes, uses) {
            Ok(record) => Ok(record),
            Err(
                CloseBack {
                    post,
                    emptied,
                    passes,
                    uses,
                },
            ) => Err(SetBack {
                set: QueueSet { post },
                emptied,
                passes,
                uses,
            }),
        }
    }

    /// Ends the queues of a target that was shut down, without a record. It takes no memory.
    pub fn discard(self, emptied: Emptied<J>, passes: Vec<SendPass<J>>, uses: Vec<PlaceUse<J>>)
        requires { AreAllParts (set_post self) emptied passes.items }
        ensures { Ended (post_senders (set_post self)) (post_places (set_post self))
            (all_joined (emptied_view emptied) (map (λ pass. pass_view pass) passes.items)) }
    {
        let QueueSet { post } = self;
        post_core::discard(post, emptied, passes, uses);
    }
}
