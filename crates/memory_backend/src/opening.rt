ghost use Rattle.std.specs.Prelude.{◌≡◌, ◌≤◌, ◌<◌, ◌+◌, ◌++◌, ◌^◌, IfOk, OnOk, length};
ghost use Rattle.wf_core.specs.Limits.{group_count};
ghost use Rattle.file_store.specs.FileGroups.{opening as group_opening};
ghost use Rattle.memory_backend.specs.CellNumbers.{AreCellsOf, cell_backends_max};
ghost use Rattle.memory_backend.specs.Openings.{mounts_from, opening_cells, opening_groups, opening_names, with_contents};

use crate::cell::{CellContents, StoreCell};
use file_store::{Descriptors, Files};
use name_store::NameTree;
use std::alloc::{AllocError, Global};
use wf_core::{BackendId, Name, NameRefusal};

/// The cells of an empty file system, by their numbers: the backends with these names are mounted in the root directory. Of
/// each it is told whether it is proxied, which changes nothing here. There are 64 backends at most, the root's among them.
pub fn opening_cells(alloc: Global, backends: &[(Name, bool)]) -> Result<Vec<StoreCell>, AllocError>
    requires { 1 + length backends.now ≤ cell_backends_max }
    ensures cells { IfOk result (λ cells. cells.items ≡ opening_cells backends.now) }
    ensures kinds { IfOk result (λ cells. AreCellsOf (1 + length backends.now) cells.items) }
{
    let count = backends.len() as u32 + 1;
    let mut cells = Vec::new(alloc);
    let descriptors = Descriptors::new(alloc)?;
    cells.push(StoreCell::new(count, CellContents::Descriptors(descriptors)))?;
    push_names(alloc, backends, &mut cells)?;
    for _ in 0..count {
        push_groups(alloc, count, &mut cells)?;
    }
    Ok(cells)
}

/// Appends the names of each backend.
fn push_names(
    alloc: Global,
    backends: &[(Name, bool)],
    cells: &mut Vec<StoreCell>,
) -> Result<(), AllocError>
    requires { 1 + length backends.now ≤ cell_backends_max }
    ensures { OnOk result (cells.new.items ≡ cells.old.items
        ++ with_contents (1 + length backends.now) (opening_names backends.now)) }
{
    let count = backends.len() as u32 + 1;
    let root = NameTree::new(alloc, mounts_of(alloc, backends)?)?;
    cells.push(StoreCell::new(count, CellContents::Names(root)))?;
    for _ in backends {
        let names = NameTree::new(alloc, Vec::new(alloc))?;
        cells.push(StoreCell::new(count, CellContents::Names(names)))?;
    }
    Ok(())
}

/// Appends the groups of one backend.
fn push_groups(alloc: Global, backends: u32, cells: &mut Vec<StoreCell>) -> Result<(), AllocError>
    ensures { OnOk result
        (cells.new.items ≡ cells.old.items ++ with_contents backends opening_groups) }
{
    cells.push(group_cell(alloc, backends, 0))?;
    cells.push(group_cell(alloc, backends, 1))?;
    cells.push(group_cell(alloc, backends, 2))?;
    cells.push(group_cell(alloc, backends, 3))?;
    Ok(())
}

fn group_cell(alloc: Global, backends: u32, group: u32) -> StoreCell
    requires { group < group_count }
    ensures { result
        ≡ record { backends = backends; contents = CellContents.Files (group_opening group) } }
{
    StoreCell::new(backends, CellContents::Files(Files::new(alloc, group)))
}

/// The mounts of backends, which are numbered from 1.
fn mounts_of(alloc: Global, backends: &[(Name, bool)]) -> Result<Vec<(Name, BackendId)>, AllocError>
    requires { length backends.now < 2 ^ 31 }
    ensures { IfOk result (λ mounts. mounts.items ≡ mounts_from 1 backends.now) }
{
    let mut mounts = Vec::with_capacity(alloc, backends.len())?;
    let mut number = 1;
    for (name, _) in backends {
        mounts.push((copy_of(alloc, name)?, BackendId::new(number)))?;
        number += 1;
    }
    Ok(mounts)
}

fn copy_of(alloc: Global, name: &Name) -> Result<Name, AllocError>
    ensures { IfOk result (λ copy. copy ≡ name.now) }
{
    match Name::read(alloc, name.as_bytes()) {
        Ok(copy) => Ok(copy),
        Err(NameRefusal::NoMemory) => Err(AllocError),
        Err(NameRefusal::TooLong | NameRefusal::NotAName) => unreachable!(),
    }
}
