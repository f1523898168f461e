//! The calls of several threads, each thread's in a thread of its own, over the cells of one store: one lawful run.
#![tactic(auto)]

mod call;
mod run;
mod script;

pub use run::{StoreRun, run_threads};
