//! The texts of a run: the trace that is read and printed, and the replies and the tree that are printed.
#![tactic(auto)]

pub use field::{
    cut, first_line, is_name, is_skipped, one_of, read_number, read_signed, three_of, two_of,
};
pub use laws::{faults_come_first, fields_are_texts, reads_or_refuses};
pub use print::{
    append_field, append_number, append_signed, append_sized, print_text, push_end_line,
    refusal_line,
};
pub use read::read_trace;
pub use refusal::{Fault, Refusal, TraceRefusal};
pub use reply_line::{append_names, push_reply_line};
pub use text_field::{FieldRefusal, read_text};
pub use trace::{BackendLine, CallLine, Mode, Trace};
pub use trace_call::{AtCall, Descriptor, NO_NUMBER, TraceBase, TraceCall, number_in_reply};
pub use trace_lines::{access_word, print_trace, thread_name, whence_word};
pub use tree_line::{append_named, push_tree_line};
pub use version::Version;

mod call;
mod call_field;
mod descriptor_call;
mod field;
mod laws;
mod open_flags;
mod openings;
mod path_call;
mod print;
mod read;
mod reader;
mod refusal;
mod relative_call;
mod reply_line;
mod text_field;
mod trace;
mod trace_call;
mod trace_lines;
mod tree_line;
mod version;
