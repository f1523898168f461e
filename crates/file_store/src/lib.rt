//! The open files of the file system: the descriptors that name them, and the files of one group of a backend.
#![tactic(auto)]

pub use descriptor_operation::{CurrentDir, FdAnswer, FdOp, Slot};
pub use descriptors::Descriptors;
pub use file_operation::{Access, FileAnswer, FileOp, Mode, Whence};
pub use files::Files;
pub use laws::{
    copies_share, current_is_set_last, cuts_keep_the_rest, descriptions_have_files, ids_are_new,
    names_are_given, offsets_are_apart, openings_are_sound, refusals_change_nothing,
    steps_stay_sound, writes_are_read,
};

mod answer_copy;
mod contents;
mod description_table;
mod descriptor_operation;
mod descriptors;
mod file;
mod file_group;
mod file_operation;
mod file_table;
mod files;
mod laws;
mod number_set;
mod page;
mod pages;
