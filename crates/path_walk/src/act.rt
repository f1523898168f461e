ghost use Rattle.std.specs.Prelude.{◌≡◌, ℕ, IfOk};
ghost use Rattle.path_walk.specs.Calls.{act_of, path_at};
ghost use Rattle.path_walk.specs.Machine.{IsOnNumber, base_of, fault_of, goal_of, new_route_of, open_route_of, route_of};

use crate::call::{Base, Call};
use crate::descriptor_call::DataCall;
use crate::goal::{Change, Goal};
use crate::open_request::{OpenFlags, OpenRoute};
use crate::part::Part;
use crate::route::{Manner, Route, is_absolute};
use file_store::FdOp;
use std::alloc::{AllocError, Global};
use wf_core::{Errno, PathText};

/// A path that a call is given, with where its walk starts.
#[derive(Drop)]
pub struct PathAt {
    /// The directory in which it starts. None is the root.
    pub base: Option<Base>,
    pub path: PathText,
}

impl Base {
    /// A path of a call from here. In version 1 each path starts in the root.
    fn path(self, version: u32, path: PathText) -> PathAt
        ensures { result ≡ path_at version self path }
    {
        let base = if version == 1 || is_absolute(&path) {
            None
        } else {
            Some(self)
        };
        PathAt { base, path }
    }
}

/// What a call does, whatever its paths start from.
#[derive(Drop)]
pub enum Act {
    /// It changes an entry.
    Entry(Change, PathAt),
    /// It moves an entry.
    Move(PathAt, PathAt),
    /// It asks what a path names.
    Status(Manner, PathAt),
    /// It asks for a link's text.
    Text(PathAt),
    /// It asks for names of a directory, from that position on.
    Names(PathAt, u32),
    /// It has the current directory be the one that a path names.
    Enter(PathAt),
    Open(PathAt, OpenFlags),
    /// It has the current directory be the one that a number names.
    EnterNumber(u32),
    /// It frees or copies a number.
    Numbers(FdOp),
    /// It is on the file of a number.
    Data(u32, DataCall),
}

impl Call {
    /// What it does. In version 1 each path starts in the root.
    pub(crate) fn act(self, version: u32) -> Act
        ensures { result ≡ act_of version self }
    {
        let here = Base::Cwd;
        match self {
            Call::Mkdir(path) => Act::Entry(Change::Makedir, here.path(version, path)),
            Call::Mkdirat(base, path) => Act::Entry(Change::Makedir, base.path(version, path)),
            Call::Rmdir(path) => Act::Entry(Change::Remdir, here.path(version, path)),
            Call::Rmdirat(base, path) => Act::Entry(Change::Remdir, base.path(version, path)),
            Call::Unlink(path) => Act::Entry(Change::Remfile, here.path(version, path)),
            Call::Unlinkat(base, path) => Act::Entry(Change::Remfile, base.path(version, path)),
            Call::Symlink(text, path) => {
                Act::Entry(Change::Addlink(text), here.path(version, path))
            }
            Call::Rename(path, new) => {
                Act::Move(here.path(version, path), here.path(version, new))
            }
            Call::Renameat(base, path, new_base, new) => {
                Act::Move(base.path(version, path), new_base.path(version, new))
            }
            Call::Readlink(path) => Act::Text(here.path(version, path)),
            Call::Stat(path) => Act::Status(Manner::Follows, here.path(version, path)),
            Call::Fstatat(base, path) => Act::Status(Manner::Follows, base.path(version, path)),
            Call::Lstat(path) => Act::Status(Manner::Stays, here.path(version, path)),
            Call::List(path, start) => Act::Names(here.path(version, path), start),
            Call::Chdir(path) => Act::Enter(here.path(version, path)),
            Call::Open(path, flags) => Act::Open(here.path(version, path), flags),
            Call::Openat(base, path, flags) => Act::Open(base.path(version, path), flags),
            call => call.on_number(),
        }
    }

    /// What a call that is given a number in place of a path does.
    fn on_number(self) -> Act
        requires { IsOnNumber self }
        ensures { (version : ℕ) → result ≡ act_of version self }
    {
        match self {
            Call::Fchdir(number) => Act::EnterNumber(number),
            Call::Close(number) => Act::Numbers(FdOp::Take(number)),
            Call::Dup(number) => Act::Numbers(FdOp::Copy(number)),
            Call::Dup2 { number, target } => Act::Numbers(FdOp::Copyto { number, target }),
            Call::Read { number, count } => Act::Data(number, DataCall::Read(count)),
            Call::Pread {
                number,
                count,
                offset,
            } => Act::Data(number, DataCall::Pread(count, offset)),
            Call::Write { number, bytes } => Act::Data(number, DataCall::Write(bytes)),
            Call::Pwrite {
                number,
                bytes,
                offset,
            } => Act::Data(number, DataCall::Pwrite(bytes, offset)),
            Call::Seek {
                number,
                offset,
                whence,
            } => Act::Data(number, DataCall::Seek(offset, whence)),
            Call::Ftruncate { number, size } => Act::Data(number, DataCall::Ftruncate(size)),
            Call::Fstat(number) => Act::Data(number, DataCall::Fstat),
            _ => unreachable!(),
        }
    }
}

impl Act {
    /// The path that it walks first, unless it begins with a step.
    pub(crate) fn route(&self, alloc: Global) -> Result<Option<Result<Route, Errno>>, AllocError>
        ensures { IfOk result (λ route. route ≡ route_of self.now) }
    {
        match self {
            Act::Entry(_, at) | Act::Move(at, _) => Ok(Some(Route::parent(alloc, &at.path)?)),
            Act::Status(manner, at) => Ok(Some(Route::whole(alloc, *manner, &at.path)?)),
            Act::Text(at) => Ok(Some(Route::whole(alloc, Manner::Stays, &at.path)?)),
            Act::Names(at, _) | Act::Enter(at) => {
                Ok(Some(Route::whole(alloc, Manner::Follows, &at.path)?))
            }
            _ => Ok(None),
        }
    }

    /// Where that path starts.
    pub(crate) fn base(&self) -> Option<Base>
        ensures { result ≡ base_of self.now }
    {
        match self {
            Act::Entry(_, at)
            | Act::Move(at, _)
            | Act::Status(_, at)
            | Act::Text(at)
            | Act::Names(at, _)
            | Act::Enter(at) => at.base,
            _ => None,
        }
    }

    /// The other path of a move.
    pub(crate) fn new_route(
        &self,
        alloc: Global,
    ) -> Result<Option<Result<Route, Errno>>, AllocError>
        ensures { IfOk result (λ route. route ≡ new_route_of self.now) }
    {
        match self {
            Act::Move(_, new) => Ok(Some(Route::parent(alloc, &new.path)?)),
            _ => Ok(None),
        }
    }

    /// The path that it opens.
    pub(crate) fn open_route(
        &self,
        alloc: Global,
    ) -> Result<Option<Result<OpenRoute, Errno>>, AllocError>
        ensures { IfOk result (λ route. route ≡ open_route_of self.now) }
    {
        match self {
            Act::Open(at, _) => Ok(Some(OpenRoute::of(alloc, &at.path)?)),
            _ => Ok(None),
        }
    }

    /// The error before any path of it.
    pub(crate) fn early_fault(&self) -> Option<Errno>
        ensures { result ≡ fault_of self.now }
    {
        match self {
            Act::Entry(change, _) => change.early_fault(),
            _ => None,
        }
    }

    /// What it does at the end of its first path.
    pub(crate) fn goal(
        self,
        last: Option<Part>,
        slash: bool,
        new: Option<Result<Route, Errno>>,
    ) -> Goal
        requires { new ≡ new_route_of self }
        ensures { result ≡ goal_of self last slash }
    {
        match self {
            Act::Entry(change, _) => Goal::Entry(change, last, slash),
            Act::Move(_, to) => match new {
                Some(new) => Goal::MoveFrom(last, slash, to.base, new),
                None => unreachable!(),
            },
            Act::Text(_) => Goal::Text,
            Act::Names(_, start) => Goal::Names(start),
            Act::Enter(_) => Goal::Enter,
            _ => Goal::Status,
        }
    }
}
