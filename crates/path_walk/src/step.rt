ghost use Rattle.std.specs.Prelude.{◌≡◌};
ghost use Rattle.path_walk.specs.Plans.{cell_of_id};

use file_store::{FdAnswer, FdOp, FileAnswer, FileOp};
use name_store::{NameAnswer, NameOp};
use wf_core::{BackendId, GROUP_COUNT};

/// A cell of the store: what changes under one step.
#[derive(Clone, Copy, Debug, PartialEq, Eq)]
pub enum CellId {
    /// The names of that backend.
    Names(BackendId),
    /// The files of that backend in that group, of `GROUP_COUNT`.
    Files(BackendId, u32),
    /// What each descriptor names.
    Descriptors,
}

impl CellId {
    /// The cell of a file or a description of a backend.
    pub(crate) fn of_id(backend: u32, id: u64) -> CellId
        ensures { result ≡ cell_of_id backend id }
    {
        CellId::Files(BackendId::new(backend), (id % GROUP_COUNT) as u32)
    }
}

/// An operation on a cell.
#[derive(Debug, Drop)]
pub enum StoreOp {
    Names(NameOp),
    Files(FileOp),
    Descriptors(FdOp),
}

/// What an operation on a cell answers.
#[derive(Debug, Drop)]
pub enum StoreAnswer {
    Names(NameAnswer),
    Files(FileAnswer),
    Descriptors(FdAnswer),
}

/// What a call is told of a step.
#[derive(Debug, Drop)]
pub enum StepAnswer {
    /// The step was taken, and answered so.
    Answered(StoreAnswer),
    /// The worker of the cell's backend exited before it took the step.
    Cancelled,
    /// The worker of the cell's backend was closed.
    Closed,
}
