ghost use Rattle.std.specs.Prelude.{◌≡◌, IfOk, OnErr};
ghost use Rattle.name_store.specs.Laws.{LeavesTree};

use crate::operation::NameAnswer;
use std::alloc::AllocError;

impl NameAnswer {
    /// A copy. Only that of an answer which left the tree as it was takes memory.
    pub(crate) fn copy(&self) -> Result<NameAnswer, AllocError>
        ensures ok { IfOk result (λ answer. answer ≡ self.now) }
        ensures err { OnErr result (LeavesTree self.now) }
    {
        Ok(match self {
            NameAnswer::Gone => NameAnswer::Gone,
            NameAnswer::Absent => NameAnswer::Absent,
            NameAnswer::Found(node) => NameAnswer::Found(node.copy()?),
            NameAnswer::MadeDir(id) => NameAnswer::MadeDir(*id),
            NameAnswer::MadeLink(id) => NameAnswer::MadeLink(*id),
            NameAnswer::Taken(node) => NameAnswer::Taken(node.copy()?),
            NameAnswer::Done => NameAnswer::Done,
            NameAnswer::RemovedFile(file) => NameAnswer::RemovedFile(*file),
            NameAnswer::RemovedLink => NameAnswer::RemovedLink,
            NameAnswer::Same => NameAnswer::Same,
            NameAnswer::Over(file) => NameAnswer::Over(*file),
            NameAnswer::Moved => NameAnswer::Moved,
            NameAnswer::Names(names) => NameAnswer::Names(names.copy()?),
            NameAnswer::Fault(errno) => NameAnswer::Fault(*errno),
        })
    }
}
