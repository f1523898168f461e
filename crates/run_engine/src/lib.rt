//! The top calls: each reads its input, runs it and writes its text.
#![tactic(auto)]

pub use commands::{generate, solo};
pub use laws::{counts_sum_up, errors_stand_in_order, first_draws, summaries_count_the_solo_text};
pub use trace_maker::generated_trace;

mod commands;
mod draws;
mod laws;
mod reply_numbers;
mod run;
mod run_store;
mod solo_run;
mod summary;
mod trace_maker;
mod whole_tree;
