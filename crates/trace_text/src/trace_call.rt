ghost use Rattle.std.specs.Prelude.{◌≡◌};
ghost use Rattle.trace_text.specs.TraceCalls.{base_of, call_at, data_call_on, file_call, number_in_reply, number_of, number_of_call};

use path_walk::{Base, Call, DataCall, OpenFlags, Reply};
use wf_core::PathText;

/// The number for a reply that has none. No descriptor has it, so a call on it replies `EBADF`.
pub const NO_NUMBER: u32 = 4_294_967_295;

/// How a call of a trace names a descriptor.
#[derive(Clone, Copy, Debug, PartialEq, Eq)]
pub enum Descriptor {
    /// By its number.
    Number(u32),
    /// By the reply to that call of the same thread, counted from 1.
    ReplyOf(u32),
}

/// Where a path of a call of a trace starts, unless it begins with a slash.
#[derive(Clone, Copy, Debug, PartialEq, Eq)]
pub enum TraceBase {
    /// In the current directory.
    Cwd,
    /// In the directory that the descriptor names.
    Fd(Descriptor),
}

/// A call of a trace whose paths have bases.
#[derive(Debug, Drop)]
pub enum AtCall {
    Openat(TraceBase, PathText, OpenFlags),
    Mkdirat(TraceBase, PathText),
    Rmdirat(TraceBase, PathText),
    Unlinkat(TraceBase, PathText),
    Fstatat(TraceBase, PathText),
    /// The path, and the new one, each with its base.
    Renameat(TraceBase, PathText, TraceBase, PathText),
}

/// A call of a trace: a file call that may name descriptors by the replies to earlier calls.
#[derive(Debug, Drop)]
pub enum TraceCall {
    Mkdir(PathText),
    Rmdir(PathText),
    Unlink(PathText),
    /// The link's text, and its path.
    Symlink(PathText, PathText),
    /// The path, and the new one.
    Rename(PathText, PathText),
    Readlink(PathText),
    Stat(PathText),
    Lstat(PathText),
    /// The path, and the position of the first name.
    List(PathText, u32),
    Open(PathText, OpenFlags),
    Close(Descriptor),
    Dup(Descriptor),
    /// The descriptor, and the target.
    Dup2(Descriptor, Descriptor),
    Data(Descriptor, DataCall),
    Chdir(PathText),
    Fchdir(Descriptor),
    At(AtCall),
}

/// The descriptor's number in a reply, or `NO_NUMBER`.
pub fn number_in_reply(reply: &Reply) -> u32
    ensures { result ≡ number_in_reply reply.now }
{
    match reply {
        Reply::Fd(number) => *number,
        _ => NO_NUMBER,
    }
}

/// The number in the reply to a thread's call of that number.
fn number_of_call(numbers: &[u32], call: u32) -> u32
    ensures { result ≡ number_of_call numbers.now call }
{
    let Some(before) = call.checked_sub(1) else {
        return NO_NUMBER;
    };
    match numbers.get(before as usize) {
        Some(number) => *number,
        None => NO_NUMBER,
    }
}

impl Descriptor {
    fn number(self, numbers: &[u32]) -> u32
        ensures { result ≡ number_of numbers.now self }
    {
        match self {
            Descriptor::Number(number) => number,
            Descriptor::ReplyOf(call) => number_of_call(numbers, call),
        }
    }
}

impl TraceBase {
    fn base(self, numbers: &[u32]) -> Base
        ensures { result ≡ base_of numbers.now self }
    {
        match self {
            TraceBase::Cwd => Base::Cwd,
            TraceBase::Fd(descriptor) => Base::Fd(descriptor.number(numbers)),
        }
    }
}

/// The call on the descriptor of that number.
fn data_call_on(number: u32, call: DataCall) -> Call
    ensures { result ≡ data_call_on number call }
{
    match call {
        DataCall::Read(count) => Call::Read { number, count },
        DataCall::Pread(count, offset) => Call::Pread {
            number,
            count,
            offset,
        },
        DataCall::Write(bytes) => Call::Write { number, bytes },
        DataCall::Pwrite(bytes, offset) => Call::Pwrite {
            number,
            bytes,
            offset,
        },
        DataCall::Seek(offset, whence) => Call::Seek {
            number,
            offset,
            whence,
        },
        DataCall::Ftruncate(size) => Call::Ftruncate { number, size },
        DataCall::Fstat => Call::Fstat(number),
    }
}

impl AtCall {
    fn into_call(self, numbers: &[u32]) -> Call
        ensures { result ≡ call_at numbers.now self }
    {
        match self {
            AtCall::Openat(base, path, flags) => Call::Openat(base.base(numbers), path, flags),
            AtCall::Mkdirat(base, path) => Call::Mkdirat(base.base(numbers), path),
            AtCall::Rmdirat(base, path) => Call::Rmdirat(base.base(numbers), path),
            AtCall::Unlinkat(base, path) => Call::Unlinkat(base.base(numbers), path),
            AtCall::Fstatat(base, path) => Call::Fstatat(base.base(numbers), path),
            AtCall::Renameat(base, path, new_base, new) => {
                Call::Renameat(base.base(numbers), path, new_base.base(numbers), new)
            }
        }
    }
}

impl TraceCall {
    /// The file call, by the numbers in the replies to the thread's calls before it, as `number_in_reply` tells them.
    pub fn into_call(self, numbers: &[u32]) -> Call
        ensures { result ≡ file_call numbers.now self }
    {
        match self {
            TraceCall::Mkdir(path) => Call::Mkdir(path),
            TraceCall::Rmdir(path) => Call::Rmdir(path),
            TraceCall::Unlink(path) => Call::Unlink(path),
            TraceCall::Symlink(text, path) => Call::Symlink(text, path),
            TraceCall::Rename(from, to) => Call::Rename(from, to),
            TraceCall::Readlink(path) => Call::Readlink(path),
            TraceCall::Stat(path) => Call::Stat(path),
            TraceCall::Lstat(path) => Call::Lstat(path),
            TraceCall::List(path, start) => Call::List(path, start),
            TraceCall::Open(path, flags) => Call::Open(path, flags),
            TraceCall::Close(descriptor) => Call::Close(descriptor.number(numbers)),
            TraceCall::Dup(descriptor) => Call::Dup(descriptor.number(numbers)),
            TraceCall::Dup2(descriptor, target) => Call::Dup2 {
                number: descriptor.number(numbers),
                target: target.number(numbers),
            },
            TraceCall::Data(descriptor, call) => data_call_on(descriptor.number(numbers), call),
            TraceCall::Chdir(path) => Call::Chdir(path),
            TraceCall::Fchdir(descriptor) => Call::Fchdir(descriptor.number(numbers)),
            TraceCall::At(call) => call.into_call(numbers),
        }
    }
}
