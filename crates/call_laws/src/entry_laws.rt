//! What a user may conclude of entries that calls make, remove and find. The functions do nothing: each clause is a law.

ghost use Rattle.call_laws.specs.EntryLaws.{MkdirMakes, MkdirThenStat, RmdirRemoves, RmdirThenLstat, SymlinkMakes, SymlinkThenReadlink, UnlinkRemoves, UnlinkThenLstat};

/// `mkdir` makes an empty directory where its path says, and nothing else.
pub fn mkdir_makes()
    ensures { MkdirMakes }
{}

/// What `mkdir` made is a directory to `stat`, and is made once.
pub fn mkdir_then_stat()
    ensures { MkdirThenStat }
{}

/// `symlink` makes a link with its text where its path says, and nothing else.
pub fn symlink_makes()
    ensures { SymlinkMakes }
{}

/// What `symlink` made has its text to `readlink`, and that text's length to `lstat`.
pub fn symlink_then_readlink()
    ensures { SymlinkThenReadlink }
{}

/// `rmdir` takes away the empty directory that its path names, and nothing else.
pub fn rmdir_removes()
    ensures { RmdirRemoves }
{}

/// What `rmdir` took away is not there.
pub fn rmdir_then_lstat()
    ensures { RmdirThenLstat }
{}

/// `unlink` takes away the file or the link that its path names, and nothing else.
pub fn unlink_removes()
    ensures { UnlinkRemoves }
{}

/// What `unlink` took away is not there.
pub fn unlink_then_lstat()
    ensures { UnlinkThenLstat }
{}
