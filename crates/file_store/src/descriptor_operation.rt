ghost use Rattle.std.specs.Prelude.{◌≡◌, true, false};
ghost use Rattle.file_store.specs.DescriptorMap.{is_free, is_reserved, is_named, is_number_of};

use wf_core::{BackendId, DescriptionId, DirId, Errno};

/// What a descriptor number is.
#[derive(Clone, Copy, Debug, PartialEq, Eq)]
pub enum Slot {
    /// It names nothing.
    Free,
    /// Kept for an `open` that is not finished.
    Reserved,
    /// It names that description of that backend.
    File {
        backend: BackendId,
        description: DescriptionId,
    },
    /// It names that directory of that backend.
    Dir {
        backend: BackendId,
        dir: DirId,
    },
}

impl Slot {
    pub(crate) fn is_free(&self) -> bool
        ensures { result ≡ is_free self.now }
    {
        match self {
            Slot::Free => true,
            Slot::Reserved | Slot::File { .. } | Slot::Dir { .. } => false,
        }
    }

    pub(crate) fn is_reserved(&self) -> bool
        ensures value { result ≡ is_reserved self.now }
        ensures taken { result ≡ true → is_free self.now ≡ false }
    {
        match self {
            Slot::Reserved => true,
            Slot::Free | Slot::File { .. } | Slot::Dir { .. } => false,
        }
    }

    pub(crate) fn is_named(&self) -> bool
        ensures { result ≡ is_named self.now }
    {
        match self {
            Slot::File { .. } | Slot::Dir { .. } => true,
            Slot::Free | Slot::Reserved => false,
        }
    }

    pub(crate) fn is_number_of(&self, backend: BackendId, description: DescriptionId) -> bool
        ensures { result ≡ is_number_of backend description self.now }
    {
        match self {
            Slot::File {
                backend: other_backend,
                description: other,
            } => *other_backend == backend && *other == description,
            Slot::Free | Slot::Reserved | Slot::Dir { .. } => false,
        }
    }
}

/// The current directory: a directory of a backend, also one that was removed.
#[derive(Clone, Copy, Debug, PartialEq, Eq)]
pub struct CurrentDir {
    pub backend: BackendId,
    pub dir: DirId,
}

/// An operation on the descriptors.
#[derive(Clone, Copy, Debug, PartialEq, Eq)]
pub enum FdOp {
    /// Reserves the lowest free number.
    Reserve,
    /// Has a reserved number name that description of that backend. Another number stays as it is.
    FillFile {
        number: u32,
        backend: BackendId,
        description: DescriptionId,
    },
    /// Has a reserved number name that directory of that backend. Another number stays as it is.
    FillDir {
        number: u32,
        backend: BackendId,
        dir: DirId,
    },
    /// Frees a reserved number. Another number stays as it is.
    Drop(u32),
    /// What does that number name?
    Look(u32),
    /// Has the lowest free number name what that number names.
    Copy(u32),
    /// Has `target` name what `number` names.
    Copyto {
        number: u32,
        target: u32,
    },
    /// Frees a number that names something.
    Take(u32),
    /// Which is the current directory?
    Cwd,
    /// Has the current directory be that one of that backend.
    Setcwd {
        backend: BackendId,
        dir: DirId,
    },
}

/// What an operation answers.
#[derive(Clone, Copy, Debug, PartialEq, Eq)]
pub enum FdAnswer {
    /// That number was reserved, or names now what was asked.
    Fd(u32),
    /// The same, and it was the last number of that description of that backend.
    FdLast {
        number: u32,
        backend: BackendId,
        description: DescriptionId,
    },
    /// It was done, and no description lost its last number; or the number was not reserved, and stays as it was.
    Done,
    /// It was the last number of that description of that backend.
    Last {
        backend: BackendId,
        description: DescriptionId,
    },
    /// That description of that backend.
    File {
        backend: BackendId,
        description: DescriptionId,
    },
    /// That directory of that backend.
    Dir {
        backend: BackendId,
        dir: DirId,
    },
    /// `EBADF` where the number that is asked for names nothing, or a target is not below `OPEN_MAX`; `EMFILE` where no
    /// number is free; `EBUSY` where a target is reserved.
    Fault(Errno),
}
