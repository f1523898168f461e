//! The names of one backend of the file system: its directories and their entries.
#![tactic(auto)]

pub use laws::{
    addfile_enters, addlink_makes, ids_are_new, ids_rise, inside_is_climbing, lines_name_each_once,
    lists_are_in_order, makedir_makes, mounts_stay, move_moves, openings_are_sound,
    openings_have_their_mounts, refusals_change_nothing, remdir_removes, remfile_removes,
    same_is_one_entry, steps_stay_sound,
};
pub use name_list::NameList;
pub use name_tree::NameTree;
pub use operation::{NameAnswer, NameOp, Node};
pub use tree_line::TreeLine;

mod answer_copy;
mod directories;
mod directory;
mod laws;
mod lines;
mod making;
mod moving;
mod name_list;
mod name_tree;
mod operation;
mod removing;
mod steps;
mod tree_line;
