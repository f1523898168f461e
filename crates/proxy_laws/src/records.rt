//! What is put, started and settled at a place, and the record of a closed target.

/// The mark of a job that was put at a place.
#[derive(Clone, Copy, Debug, PartialEq, Eq)]
pub struct Mark {
    /// The sender that put it.
    pub sender: u32,
    /// The number of that sender's earlier puts at this place.
    pub seq: u64,
    /// The caller's own number.
    pub tag: u64,
}

/// A mark of one sender, with the number of its job at the place.
#[derive(Clone, Copy, Debug, PartialEq, Eq)]
pub struct OwnMark {
    /// The number of its job at the place, counted from 0.
    pub nth: u64,
    pub mark: Mark,
}

/// How a job was settled.
#[derive(Clone, Copy, Debug, PartialEq, Eq)]
pub enum FateMark {
    Finished,
    Cancelled,
}

/// What started a job.
#[derive(Clone, Copy, Debug, PartialEq, Eq)]
pub enum Started {
    /// The notice of this number, counted from 1.
    Notice(u64),
    /// An execution that no notice asked for.
    Direct,
    /// A closed owner, which takes a job only to cancel it.
    Closing,
}

/// A job that was taken: what started it and, once it is settled, its fate.
#[derive(Clone, Copy, Debug, PartialEq, Eq)]
pub struct Job {
    pub started: Started,
    /// `None` while the job is active.
    pub fate: Option<FateMark>,
}

/// A settled job in the record of a closed target.
#[derive(Clone, Copy, Debug, PartialEq, Eq)]
pub struct JobRecord {
    pub mark: Mark,
    pub started: Started,
    pub fate: FateMark,
}

/// The jobs of one place, in the order in which they started.
#[derive(Debug, Drop)]
pub struct PlaceRecord {
    pub jobs: Vec<JobRecord>,
}

/// The jobs of a closed target, place by place.
#[derive(Debug, Drop)]
pub struct PostRecord {
    pub target: u32,
    pub places: Vec<PlaceRecord>,
}
