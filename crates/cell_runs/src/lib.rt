//! The scripts of threads, made by steps on cells that all threads change, and one history of what was done to the cells.
#![tactic(auto)]

mod history;
mod run;
mod script;

pub use history::history_of;
pub use run::ThreadRun;
pub use script::{Script, ends_of, ready_scripts};
