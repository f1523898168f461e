//! The mailbox of a target: its owner, at rest or with a place in execution.

ghost use Rattle.std.specs.Prelude.{IsSome};

use post_core::{Exec, Meant, Owner};

/// Where the owner is.
pub enum At<J: Meant> {
    Rest(Owner<J>),
    /// It executes a place, and memory was wanting.
    Work(Exec<J>),
}

/// The owner of an open target, between two calls. It is at rest, or an execution was left unfinished.
pub struct Mailbox<J: Meant> {
    pub(crate) at: Option<At<J>>,
    ghost there: { IsSome at },
}
