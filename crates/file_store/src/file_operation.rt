ghost use Rattle.std.specs.Prelude.{◌≡◌};
ghost use Rattle.file_store.specs.FileGroups.{can_read, can_write};

use wf_core::{DescriptionId, Errno, FileId, Text};

/// What a description may do with its file, as `O_RDONLY`, `O_WRONLY` and `O_RDWR` say.
#[derive(Clone, Copy, Debug, PartialEq, Eq)]
pub enum Access {
    Read,
    Write,
    ReadWrite,
}

impl Access {
    pub(crate) fn can_read(self) -> bool
        ensures { result ≡ can_read self }
    {
        match self {
            Access::Read | Access::ReadWrite => true,
            Access::Write => false,
        }
    }

    pub(crate) fn can_write(self) -> bool
        ensures { result ≡ can_write self }
    {
        match self {
            Access::Write | Access::ReadWrite => true,
            Access::Read => false,
        }
    }
}

/// How a file is open. With `append`, as `O_APPEND` says, `Write` writes at the file's end.
#[derive(Clone, Copy, Debug, PartialEq, Eq)]
pub struct Mode {
    pub access: Access,
    pub append: bool,
}

/// What the offset of a seek counts from: the start, the description's offset, or the file's end.
#[derive(Clone, Copy, Debug, PartialEq, Eq)]
pub enum Whence {
    Set,
    Cur,
    End,
}

/// An operation on the files of one group. Offsets and sizes are in bytes.
#[derive(Debug, Drop)]
pub enum FileOp {
    /// Makes an empty linked file, and a description of it at offset 0.
    Make(Mode),
    /// Makes a description of a linked file, which is first emptied where `truncate` is set.
    Attach {
        file: FileId,
        mode: Mode,
        truncate: bool,
    },
    /// How many bytes does that linked file have?
    Sizeof(FileId),
    /// That file was removed from its directory. Without a description it is freed.
    Unlinked(FileId),
    /// Ends that description, and its file where that is not linked and has no other.
    Release(DescriptionId),
    /// Reads at most `count` bytes, and `READ_MAX`, from the description's offset, which moves on.
    Read {
        description: DescriptionId,
        count: u32,
    },
    /// Reads at most `count` bytes, and `READ_MAX`, from that offset.
    Readat {
        description: DescriptionId,
        count: u32,
        offset: i64,
    },
    /// Writes bytes at the description's offset, or at the file's end under `append`.
    Write {
        description: DescriptionId,
        bytes: Text,
    },
    /// Writes bytes at that offset.
    Writeat {
        description: DescriptionId,
        bytes: Text,
        offset: i64,
    },
    /// Moves the description's offset, to at most `OFFSET_MAX`.
    Seek {
        description: DescriptionId,
        offset: i64,
        whence: Whence,
    },
    /// Has the description's file be of that size.
    Cut {
        description: DescriptionId,
        size: i64,
    },
    /// How many bytes does the description's file have?
    Size(DescriptionId),
}

/// What an operation answers.
#[derive(Debug, Drop)]
pub enum FileAnswer {
    /// The new file and its description.
    File {
        file: FileId,
        description: DescriptionId,
    },
    /// The file is not linked, or there is no such file.
    Gone,
    /// The new description.
    Desc(DescriptionId),
    /// The file's size in bytes.
    Size(u64),
    /// It was done, and there is nothing to tell.
    Done,
    /// The bytes that were read.
    Bytes(Text),
    /// How many bytes were written, which is all.
    Count(u64),
    /// The new offset.
    At(u64),
    /// `EBADF` where there is no such description or its access does not allow the operation, `EINVAL`
    /// for a negative offset or size and for a cut without write access, `EFBIG` where a file would end
    /// behind `FILE_MAX` bytes, `ENOSPC` where the group would have more than `GROUP_MAX`, `EOVERFLOW`
    /// where an offset would be too large.
    Fault(Errno),
}
