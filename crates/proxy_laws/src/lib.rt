//! The laws of one proxying target: its events, its invariant, and what they promise.
#![tactic(auto)]

mod actors;
mod events;
mod laws;
mod records;

pub use actors::{Actor, Look, Note, OwnerState, Phase, Serving};
pub use events::Event;
pub use laws::{
    closing_keeps, jobs_are_kept, lives_keep, mail_has_lowest, no_sender_after_close,
    nothing_is_lost, nothing_waits_once_emptied, notices_find_room, notifying_keeps,
    opening_is_sound, own_marks_are_listed, places_come_free, records_are_lawful, references_keep,
    runs_keep_sound, serving_keeps, unsound_worlds, worlds_are_read_in_range,
    worlds_are_well_formed,
};
pub use records::{FateMark, Job, JobRecord, Mark, OwnMark, PlaceRecord, PostRecord, Started};
