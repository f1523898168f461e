//! The world of one proxying target: its state, its step and its invariant. The definitions of worlds
//! and events, and their laws, are `proxy_laws`'s, whose types are offered here again.
#![tactic(auto)]

mod actors;
mod events;
mod laws;
mod order;
mod refusals;
mod runs;
mod sound;
mod steps;
mod worlds;

pub use laws::{steps_lead, world_is_well_formed};
pub use proxy_laws::{
    Actor, Event, FateMark, Job, JobRecord, Look, Mark, Note, OwnerState, Phase, PlaceRecord,
    PostRecord, Serving, Started,
};
pub use refusals::{StepRefusal, Why};
pub use runs::run;
pub use worlds::World;
