ghost use Rattle.std.specs.Prelude.{◌≡◌, ◌≤◌, ◌<◌};
ghost use Rattle.memory_backend.specs.CellNumbers.{IsCellIn, cell_backends_max, cell_of, cells_of};

use path_walk::CellId;
use wf_core::GROUP_COUNT;

/// The number of a cell in a store of so many backends, the root's among them: 0 for the descriptors, then the names of each
/// backend, then the groups of files of each. There are 64 backends at most.
pub fn cell_of(backends: u32, cell: CellId) -> u32
    requires few { backends ≤ cell_backends_max }
    requires cell { IsCellIn backends cell }
    ensures number { result ≡ cell_of backends cell }
    ensures below { result < cells_of backends }
{
    match cell {
        CellId::Descriptors => 0,
        CellId::Names(backend) => 1 + backend.number(),
        CellId::Files(backend, group) => 1
            + backends
            + GROUP_COUNT as u32 * backend.number()
            + group,
    }
}
