//! The world of one target.

ghost use Rattle.proxy_model.specs.Shapes.{HasPlaces, HasSenders, PhasesInRange, LooksInRange, TurnsInRange, MarksInRange};

mod changes;
mod counts;
mod opening;
mod reads;
mod rows;

use proxy_laws::{Actor, Job, Look, Mark, Note, OwnerState, Phase, Serving};
pub(crate) use rows::Row;

/// The world of one target, as lists by place and by sender. It is well formed, sound or not.
#[derive(Drop)]
pub struct World {
    pub(crate) senders: u32,
    pub(crate) places: u32,
    pub(crate) refs: u64,
    pub(crate) owner: OwnerState,
    pub(crate) sent: Vec<Row<Mark>>,
    pub(crate) jobs: Vec<Row<Job>>,
    pub(crate) notes: Vec<Note>,
    pub(crate) lives: Vec<u64>,
    pub(crate) turns: Vec<Option<Actor>>,
    pub(crate) serving: Vec<Serving>,
    pub(crate) mail: Vec<bool>,
    pub(crate) mail_note: Note,
    pub(crate) got: u64,
    pub(crate) phases: Vec<Phase>,
    pub(crate) uses: Vec<Row<u64>>,
    pub(crate) looks: Vec<Look>,
    pub ghost has_places: { HasPlaces places sent.items jobs.items notes.items lives.items
        turns.items serving.items mail.items },
    pub ghost has_senders: { HasSenders senders places phases.items uses.items looks.items },
    pub ghost phases_in_range: { PhasesInRange places phases.items },
    pub ghost looks_in_range: { LooksInRange places looks.items },
    pub ghost turns_in_range: { TurnsInRange senders turns.items },
    pub ghost marks_in_range: { MarksInRange senders sent.items },
}
