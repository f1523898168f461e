ghost use Rattle.std.specs.Prelude.{◌≡◌, IfOk};
ghost use Rattle.path_walk.specs.OpenPlan.{absent_fault, directory_fault, file_fault, flags_fault, is_exclusive, link_fault, mode_of, open_route, reads_only, request_of, route_to};

use crate::part::{LastName, Parts};
use crate::route::{Manner, Route, fault_of, has_slash};
use file_store::{Access, Mode};
use std::alloc::{AllocError, Global};
use wf_core::{Errno, PathText};

/// How a path is to be opened, as the flags of `open` say.
#[derive(Clone, Copy, Debug, PartialEq, Eq)]
pub struct OpenFlags {
    pub access: Access,
    /// A file is made where nothing is.
    pub creat: bool,
    /// With `creat`: nothing may be there.
    pub excl: bool,
    /// The file is emptied.
    pub trunc: bool,
    /// Writes are at the file's end.
    pub append: bool,
    /// Nothing but a directory is opened.
    pub directory: bool,
    /// A link is not followed at the path's last name.
    pub nofollow: bool,
}

/// What a number was reserved for. The last flag says that a slash asks for a directory.
#[derive(Clone, Copy)]
pub struct OpenRequest {
    pub number: u32,
    pub flags: OpenFlags,
    pub slash: bool,
}

/// A path that is to be opened: what is walked before its last name, and that name.
#[derive(Drop)]
pub struct OpenRoute {
    pub route: Route,
    pub name: Option<LastName>,
}

fn reads_only(access: Access) -> bool
    ensures { result ≡ reads_only access }
{
    match access {
        Access::Read => true,
        Access::Write | Access::ReadWrite => false,
    }
}

impl OpenFlags {
    /// Why flags do not go together.
    pub(crate) fn fault(self) -> Option<Errno>
        ensures { result ≡ flags_fault self }
    {
        if (self.excl && !self.creat)
            || (self.trunc && reads_only(self.access))
            || (self.creat && self.directory)
        {
            return Some(Errno::Einval);
        }
        None
    }

    pub(crate) fn mode(self) -> Mode
        ensures { result ≡ mode_of self }
    {
        Mode {
            access: self.access,
            append: self.append,
        }
    }

    fn is_exclusive(self) -> bool
        ensures { result ≡ is_exclusive self }
    {
        self.creat && self.excl
    }
}

impl OpenRequest {
    pub(crate) fn new(number: u32, flags: OpenFlags, slash: bool) -> OpenRequest
        ensures { result ≡ request_of number flags slash }
    {
        OpenRequest {
            number,
            flags,
            slash,
        }
    }

    /// Why nothing is made where nothing is.
    pub(crate) fn absent_fault(self) -> Option<Errno>
        ensures { result ≡ absent_fault self.flags self.slash }
    {
        if self.flags.creat && !self.slash {
            return None;
        }
        Some(Errno::Enoent)
    }

    /// Why a directory is not opened.
    pub(crate) fn directory_fault(self) -> Option<Errno>
        ensures { result ≡ directory_fault self.flags }
    {
        if self.flags.is_exclusive() {
            return Some(Errno::Eexist);
        }
        if self.flags.creat || !reads_only(self.flags.access) {
            return Some(Errno::Eisdir);
        }
        None
    }

    /// Why a link is not followed.
    pub(crate) fn link_fault(self) -> Option<Errno>
        ensures { result ≡ link_fault self.flags self.slash }
    {
        if self.slash {
            return None;
        }
        if self.flags.is_exclusive() {
            return Some(Errno::Eexist);
        }
        if self.flags.nofollow {
            return Some(Errno::Eloop);
        }
        None
    }

    /// Why a file is not opened.
    pub(crate) fn file_fault(self) -> Option<Errno>
        ensures { result ≡ file_fault self.flags self.slash }
    {
        if self.flags.is_exclusive() {
            return Some(Errno::Eexist);
        }
        if self.slash || self.flags.directory {
            return Some(Errno::Enotdir);
        }
        None
    }
}

impl OpenRoute {
    /// Along a link's text, or a path that is walked.
    pub(crate) fn to(alloc: Global, path: &PathText) -> Result<OpenRoute, AllocError>
        ensures { IfOk result (λ route. route ≡ route_to path.now) }
    {
        let mut parts = Parts::read(alloc, path)?;
        let name = parts.take_last_name()?;
        Ok(OpenRoute {
            route: Route {
                parts,
                last: None,
                manner: Manner::OnWay,
                slash: has_slash(path),
            },
            name,
        })
    }

    /// Along a path, if it may be walked.
    pub(crate) fn of(alloc: Global, path: &PathText) -> Result<Result<OpenRoute, Errno>, AllocError>
        ensures { IfOk result (λ route. route ≡ open_route path.now) }
    {
        if let Some(errno) = fault_of(path) {
            return Ok(Err(errno));
        }
        Ok(Ok(OpenRoute::to(alloc, path)?))
    }
}
