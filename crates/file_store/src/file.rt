use crate::contents::Contents;
use crate::file_operation::Mode;
use wf_core::FileId;

/// A file: its bytes, and whether a directory has an entry of it.
#[derive(Drop)]
pub(crate) struct File {
    pub(crate) bytes: Contents,
    pub(crate) linked: bool,
}

/// An open file description: its file, how that is open, and the offset in bytes.
#[derive(Clone, Copy, Drop)]
pub(crate) struct Description {
    pub(crate) file: FileId,
    pub(crate) mode: Mode,
    pub(crate) offset: u64,
}
