ghost use Rattle.std.specs.Prelude.{◌≡◌, IfOk};
ghost use Rattle.name_store.specs.TreeLines.{line_of};

use crate::operation::Node;
use std::alloc::{AllocError, Global};
use wf_core::{BackendId, FileId, Name, Text};

/// A line of a printed tree, of one entry. The root has depth 0 and the name `/`.
#[derive(Debug, Drop)]
pub enum TreeLine {
    Dir {
        depth: u32,
        name: Text,
    },
    Link {
        depth: u32,
        name: Text,
        text: Text,
    },
    File {
        depth: u32,
        name: Text,
        file: FileId,
    },
    Mount {
        depth: u32,
        name: Text,
        backend: BackendId,
    },
}

/// The line of an entry at a depth.
pub(crate) fn line_of(
    alloc: Global,
    depth: u32,
    name: &Name,
    node: &Node,
) -> Result<TreeLine, AllocError>
    ensures { IfOk result (λ line. line ≡ line_of depth name.now node.now) }
{
    let name = Text::read(alloc, name.as_bytes())?;
    match node {
        Node::Dir(_) => Ok(TreeLine::Dir { depth, name }),
        Node::Link(_, text) => {
            let text = Text::read(alloc, text.as_bytes())?;
            Ok(TreeLine::Link { depth, name, text })
        }
        Node::File(file) => Ok(TreeLine::File {
            depth,
            name,
            file: *file,
        }),
        Node::Mount(backend) => Ok(TreeLine::Mount {
            depth,
            name,
            backend: *backend,
        }),
    }
}
