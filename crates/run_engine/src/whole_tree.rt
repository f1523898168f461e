ghost use Rattle.std.specs.Prelude.{◌≡◌, ◌++◌, IfOk, OnOk, Some};
ghost use Rattle.run_engine.specs.WholeTree.{lines_from, mount_of, mounted_lines, whole_tree};

use crate::run_store::RunStore;
use name_store::TreeLine;
use std::alloc::{AllocError, Global};
use wf_core::BackendId;

/// A line of the whole tree.
#[derive(Drop)]
pub(crate) struct PlacedLine {
    /// The backend that has the line's entry.
    pub backend: BackendId,
    /// The depth of the mount in which that backend stands, and 0 for the root's.
    pub deeper: u32,
    pub line: TreeLine,
}

/// The lines of the whole tree: the root's, and behind each mount those of its backend.
pub(crate) fn whole_tree(alloc: Global, store: &RunStore) -> Result<Vec<PlacedLine>, AllocError>
    ensures { IfOk result (λ lines. lines.items ≡ whole_tree store.now) }
{
    let mut lines = Vec::new(alloc);
    for line in store.root().names().lines(alloc)? {
        push_lines(alloc, store, line, &mut lines)?;
    }
    Ok(lines)
}

/// Adds a line of the root's tree, and what stands in it.
fn push_lines(
    alloc: Global,
    store: &RunStore,
    line: TreeLine,
    lines: &mut Vec<PlacedLine>,
) -> Result<(), AllocError>
    ensures { OnOk result (lines.new.items ≡ lines.old.items ++ lines_from store.now line) }
{
    let mount = mount_of(&line);
    lines.push(PlacedLine {
        backend: BackendId::new(0),
        deeper: 0,
        line,
    })?;
    match mount {
        Some((depth, backend)) => push_mounted(alloc, store, depth, backend, lines),
        None => Ok(()),
    }
}

/// The depth of a line that is a mount, and what is mounted there.
fn mount_of(line: &TreeLine) -> Option<(u32, BackendId)>
    ensures { result ≡ mount_of line.now }
{
    match line {
        TreeLine::Mount { depth, backend, .. } => Some((*depth, *backend)),
        _ => None,
    }
}

/// Adds the lines of a backend but for the root's, which is that of the mount.
fn push_mounted(
    alloc: Global,
    store: &RunStore,
    deeper: u32,
    backend: BackendId,
    lines: &mut Vec<PlacedLine>,
) -> Result<(), AllocError>
    ensures { OnOk result (lines.new.items
        ≡ lines.old.items ++ mounted_lines store.now (Some (deeper, backend))) }
{
    let Some(mounted) = store.backend(backend) else {
        return Ok(());
    };
    let mut below = mounted.names().lines(alloc)?.into_iter();
    let _ = below.next();
    for line in below {
        lines.push(PlacedLine {
            backend,
            deeper,
            line,
        })?;
    }
    Ok(())
}
