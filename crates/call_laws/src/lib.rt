//! What a user may conclude from the definitions of the calls.
#![tactic(auto)]

pub use current_laws::{
    chdir_enters, current_directory_stays, fchdir_enters, fchdir_is_chdir,
    other_calls_keep_the_current_directory,
};
pub use debt_laws::{debts_are_paid, debts_are_small};
pub use entry_laws::{
    mkdir_makes, mkdir_then_stat, rmdir_removes, rmdir_then_lstat, symlink_makes,
    symlink_then_readlink, unlink_removes, unlink_then_lstat,
};
pub use error_laws::errors_change_nothing;
pub use exclusive_laws::{entries_are_taken, exclusives_make, exclusives_refuse};
pub use file_laws::{copies_share, cuts_keep_the_rest, reads_move_offsets, writes_are_read};
pub use last_laws::{removed_files_go, removed_files_stay};
pub use open_laws::{numbers_are_lowest, opens_find, opens_find_directories, opens_make_files};
pub use path_laws::{
    components_lead_on, links_lead, list_names_each_once, rename_moves, slashes_ask_for_directories,
};
pub use removed_laws::{removed_directories_stay_current, removed_directories_take_nothing};
pub use run_laws::{files_are_used, runs_are_sound, runs_are_tidy};
pub use start_laws::{
    absolute_paths_start_in_the_root, bases_are_directories, bases_are_starts,
    calls_start_at_descriptors, cwd_is_the_default_base,
};

mod current_laws;
mod debt_laws;
mod entry_laws;
mod error_laws;
mod exclusive_laws;
mod file_laws;
mod last_laws;
mod open_laws;
mod path_laws;
mod removed_laws;
mod run_laws;
mod start_laws;
