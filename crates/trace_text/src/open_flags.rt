ghost use Rattle.std.specs.Prelude.{◌≡◌};
ghost use Rattle.trace_text.specs.Words.{access_in, flags_in, only_access, unless_there, with_flag};

use crate::field::cut;
use file_store::Access;
use path_walk::OpenFlags;

fn access_in(word: &[u8]) -> Option<Access>
    ensures { result ≡ access_in word.now }
{
    if word == b"r".as_slice() {
        return Some(Access::Read);
    }
    if word == b"w".as_slice() {
        return Some(Access::Write);
    }
    if word == b"rw".as_slice() {
        return Some(Access::ReadWrite);
    }
    None
}

fn only_access(access: Access) -> OpenFlags
    ensures { result ≡ only_access access }
{
    OpenFlags {
        access,
        creat: false,
        excl: false,
        trunc: false,
        append: false,
        directory: false,
        nofollow: false,
    }
}

/// The flags, where the one that was added was not there before.
fn unless_there(there: bool, flags: OpenFlags) -> Option<OpenFlags>
    ensures { result ≡ unless_there there flags }
{
    if there { None } else { Some(flags) }
}

fn with_flag(flags: OpenFlags, word: &[u8]) -> Option<OpenFlags>
    ensures { result ≡ with_flag flags word.now }
{
    let mut more = flags;
    if word == b"creat".as_slice() {
        more.creat = true;
        return unless_there(flags.creat, more);
    }
    if word == b"excl".as_slice() {
        more.excl = true;
        return unless_there(flags.excl, more);
    }
    if word == b"trunc".as_slice() {
        more.trunc = true;
        return unless_there(flags.trunc, more);
    }
    if word == b"append".as_slice() {
        more.append = true;
        return unless_there(flags.append, more);
    }
    if word == b"directory".as_slice() {
        more.directory = true;
        return unless_there(flags.directory, more);
    }
    if word == b"nofollow".as_slice() {
        more.nofollow = true;
        return unless_there(flags.nofollow, more);
    }
    None
}

/// The flags that a field is: an access, and behind commas the others, each once at most.
pub(crate) fn flags_in(field: &[u8]) -> Option<OpenFlags>
    ensures { result ≡ flags_in field.now }
{
    let (access, words) = cut(field, b',');
    let mut flags = only_access(access_in(access)?);
    let mut rest = words;
    while let Some(words) = rest {
        let (word, left) = cut(words, b',');
        flags = with_flag(flags, word)?;
        rest = left;
    }
    Some(flags)
}
