//! The queues of one target: senders send jobs to them, and the target's owner serves them by its mailbox.
#![tactic(auto)]

mod answers;
mod places;
mod queue_set;
mod sending;
mod serving;
mod trying;

pub use answers::{SendAnswer, TryAnswer};
pub use post_core::PlaceUse as QueueUse;
pub use queue_set::{QueueSet, SetBack, SetParts};
