//! The owner's side of a target: it serves its mailbox by a runner of jobs, and closes.
#![tactic(auto)]

mod calls;
mod checking;
mod closing;
mod executing;
mod finishing;
mod mailbox;
mod owner_at;
mod runner;
mod running;

pub use calls::{Deed, RunCall, RunJob};
pub use closing::Cancelled;
pub use owner_at::Mailbox;
pub use runner::{HeldTail, Ran, Runner};
