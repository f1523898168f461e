//! How a file call walks its paths: the steps that it takes one after another on the cells of a store.
#![tactic(auto)]

pub use act::{Act, PathAt};
pub use backends::{Backends, perform};
pub use call::{Base, Call, Need, Reply};
pub use descriptor_call::DataCall;
pub use goal::{Change, LastFaults};
pub use laws::{calls_end, calls_stay_among, steps_are_the_call};
pub use machine::CallMachine;
pub use open_request::{OpenFlags, OpenRequest, OpenRoute};
pub use part::{LastName, Part, Parts};
pub use route::{End, Manner, Route, Spot, Station};
pub use step::{CellId, StepAnswer, StoreAnswer, StoreOp};

mod act;
mod backends;
mod call;
mod descriptor_call;
mod goal;
mod laws;
mod machine;
mod open_request;
mod open_stage;
mod part;
mod reply;
mod route;
mod step;
mod trail;
