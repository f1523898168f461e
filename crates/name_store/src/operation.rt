ghost use Rattle.std.specs.Prelude.{◌≡◌, IfOk, IsOk};
ghost use Rattle.name_store.specs.Forms.{IsPlain};
ghost use Rattle.name_store.specs.NameTrees.{dir_of};

use crate::name_list::NameList;
use std::alloc::AllocError;
use wf_core::{BackendId, DirId, Errno, FileId, LinkId, Name, PathText};

/// What an entry of a directory is.
#[derive(Debug, PartialEq, Eq, Drop)]
pub enum Node {
    Dir(DirId),
    /// A link, and the path that it leads to.
    Link(LinkId, PathText),
    File(FileId),
    /// The root of a backend.
    Mount(BackendId),
}

impl Node {
    /// A copy. It takes memory for a link's text alone.
    pub(crate) fn copy(&self) -> Result<Node, AllocError>
        ensures ok { IfOk result (λ node. node ≡ self.now) }
        ensures succeeds { IsPlain self.now → IsOk result }
    {
        match self {
            Node::Dir(id) => Ok(Node::Dir(*id)),
            Node::Link(id, text) => Ok(Node::Link(*id, text.clone()?)),
            Node::File(file) => Ok(Node::File(*file)),
            Node::Mount(backend) => Ok(Node::Mount(*backend)),
        }
    }

    /// The directory that it is.
    pub(crate) fn directory(&self) -> Option<DirId>
        ensures { result ≡ dir_of self.now }
    {
        match self {
            Node::Dir(id) => Some(*id),
            _ => None,
        }
    }
}

/// An operation on the names of one backend.
#[derive(Debug, Drop)]
pub enum NameOp {
    /// What is that name in that directory?
    Look(DirId, Name),
    /// Which directory has that directory in it?
    Parent(DirId),
    /// Makes an empty directory under that name in that directory.
    Makedir(DirId, Name),
    /// Makes a link to a path under that name in that directory.
    Addlink {
        directory: DirId,
        name: Name,
        text: PathText,
    },
    /// Enters a file under that name in that directory.
    Addfile {
        directory: DirId,
        name: Name,
        file: FileId,
    },
    /// Removes a file or a link. `slash` says that a slash follows the name, which a directory's alone may have.
    Remfile {
        directory: DirId,
        name: Name,
        slash: bool,
    },
    /// Removes an empty directory.
    Remdir(DirId, Name),
    /// Moves an entry to directory `to` and a new name, in the place of what it replaces. `slash` says that a slash
    /// follows either name.
    Move {
        from: DirId,
        name: Name,
        to: DirId,
        new_name: Name,
        slash: bool,
    },
    /// At most `LIST_MAX` names of a directory, from a position on, in the order of their bytes.
    List {
        directory: DirId,
        start: u32,
    },
}

/// What an operation answers.
#[derive(Debug, PartialEq, Eq, Drop)]
pub enum NameAnswer {
    /// A directory that the operation names is not there.
    Gone,
    /// The directory has no such name.
    Absent,
    /// What has that name, or the parent.
    Found(Node),
    /// The new directory.
    MadeDir(DirId),
    /// The new link.
    MadeLink(LinkId),
    /// The name is there already, so no file was entered.
    Taken(Node),
    /// The file was entered, or the directory removed.
    Done,
    /// That file was removed from the directory.
    RemovedFile(FileId),
    /// A link was removed from the directory.
    RemovedLink,
    /// Both names are one entry, which stays.
    Same,
    /// The entry was moved, and that file replaced.
    Over(FileId),
    /// The entry was moved, and no file replaced.
    Moved,
    /// At most `LIST_MAX` names, in the order of their bytes.
    Names(NameList),
    /// The error that refuses the operation.
    Fault(Errno),
}
