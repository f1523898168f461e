//! What a user may conclude from the definitions of a trace and of its text.
#![tactic(auto)]

pub use laws::{equal_texts_are_one_trace, printed_traces_are_read};

mod laws;
