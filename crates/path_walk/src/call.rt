use crate::open_request::OpenFlags;
use crate::step::{CellId, StoreOp};
use file_store::Whence;
use name_store::NameList;
use wf_core::{Errno, PathText, Text};

/// Where a path of a call starts, unless it begins with a slash: the `fd` of POSIX's `mkdirat` and its like.
#[derive(Clone, Copy, Debug, PartialEq, Eq)]
pub enum Base {
    /// In the current directory, as `AT_FDCWD` says.
    Cwd,
    /// In the directory that the number names.
    Fd(u32),
}

/// A file call, after POSIX.1-2017, XSH; `List` is after readdir(), and `Rmdirat` is `unlinkat` with `AT_REMOVEDIR`.
#[derive(Debug, Drop)]
pub enum Call {
    /// Makes a directory.
    Mkdir(PathText),
    /// Removes an empty directory.
    Rmdir(PathText),
    /// Removes a file or a link.
    Unlink(PathText),
    /// Makes a link to the first path under the second.
    Symlink(PathText, PathText),
    /// Has what the first path names be named by the second alone.
    Rename(PathText, PathText),
    /// Asks for a link's text.
    Readlink(PathText),
    /// Asks what a path names.
    Stat(PathText),
    /// The same, of a link itself.
    Lstat(PathText),
    /// Asks for at most `LIST_MAX` names of a directory, from that position on, in the order of their bytes.
    List(PathText, u32),
    /// Opens a path under the lowest number that is free.
    Open(PathText, OpenFlags),
    /// Frees a number.
    Close(u32),
    /// Has the lowest number that is free name what that number names.
    Dup(u32),
    /// Has `target` name what `number` names.
    Dup2 {
        number: u32,
        target: u32,
    },
    /// Reads at most `count` bytes, and `READ_MAX`, from the offset of the number's description on.
    Read {
        number: u32,
        count: u32,
    },
    /// Reads at most `count` bytes, and `READ_MAX`, from that offset on.
    Pread {
        number: u32,
        count: u32,
        offset: i64,
    },
    /// Writes bytes at the offset of the number's description, or at the file's end where it is open to append.
    Write {
        number: u32,
        bytes: Text,
    },
    /// Writes bytes at that offset.
    Pwrite {
        number: u32,
        bytes: Text,
        offset: i64,
    },
    /// Moves the offset of the number's description.
    Seek {
        number: u32,
        offset: i64,
        whence: Whence,
    },
    /// Has the number's file be of that size.
    Ftruncate {
        number: u32,
        size: i64,
    },
    /// Asks what a number names.
    Fstat(u32),
    /// Has the current directory be the one that the path names.
    Chdir(PathText),
    /// Has the current directory be the one that the number names.
    Fchdir(u32),
    /// As `Open`, from a base.
    Openat(Base, PathText, OpenFlags),
    /// As `Mkdir`, from a base.
    Mkdirat(Base, PathText),
    /// As `Rmdir`, from a base.
    Rmdirat(Base, PathText),
    /// As `Unlink`, from a base.
    Unlinkat(Base, PathText),
    /// As `Stat`, from a base.
    Fstatat(Base, PathText),
    /// As `Rename`, each path from its base.
    Renameat(Base, PathText, Base, PathText),
}

/// What a file call replies.
#[derive(Debug, Drop)]
pub enum Reply {
    /// It was done.
    Done,
    /// The path names a directory.
    Dir,
    /// The path names a file of so many bytes.
    File(u64),
    /// The path names a link whose text has so many bytes.
    Link(u64),
    /// The link's text.
    Text(PathText),
    /// The names.
    Names(NameList),
    /// The descriptor's number.
    Fd(u32),
    /// The bytes that were read.
    Bytes(Text),
    /// How many bytes were written.
    Count(u64),
    /// The new offset.
    At(u64),
    /// The error of the call, which has changed nothing.
    Fault(Errno),
}

/// What a call needs next.
#[derive(Debug, Drop)]
pub enum Need {
    /// The answer to a step.
    Step(CellId, StoreOp),
    /// Nothing: it is over with this reply.
    Done(Reply),
}
