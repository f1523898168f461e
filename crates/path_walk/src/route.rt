ghost use Rattle.std.specs.Prelude.{◌≡◌, ◌==◌, length, not, IfOk};
ghost use Rattle.path_walk.specs.Paths.{components, ends_in_slash, is_absolute, path_fault, slash_of};
ghost use Rattle.path_walk.specs.PathMeaning.{root_of, spot_beside, start_of, is_followed, path_start};
ghost use Rattle.path_walk.specs.Plans.{parent_route, whole_route};

use crate::part::{Part, Parts};
use crate::step::CellId;
use std::alloc::{AllocError, Global};
use wf_core::{BackendId, DirId, Errno, PATH_MAX, PATH_NAMES_MAX, PathText, SYMLOOP_MAX};

/// What the last of the parts is to a walk.
#[derive(Clone, Copy, PartialEq, Eq)]
pub enum Manner {
    /// No more than a directory on the way.
    OnWay,
    /// The path's last component, followed where it is a link.
    Follows,
    /// The same, not followed unless a slash ends the path.
    Stays,
}

impl Manner {
    /// Whether a last link is followed.
    pub(crate) fn is_followed(self, slash: bool) -> bool
        ensures { result ≡ is_followed self slash }
    {
        match self {
            Manner::OnWay | Manner::Follows => true,
            Manner::Stays => slash,
        }
    }
}

/// A directory of a backend.
#[derive(Clone, Copy)]
pub struct Spot {
    pub backend: u32,
    pub directory: u64,
}

impl Spot {
    /// The cell of its names.
    pub(crate) fn cell(self) -> CellId
        ensures { result ≡ CellId.Names self.backend }
    {
        CellId::Names(BackendId::new(self.backend))
    }

    pub(crate) fn dir(self) -> DirId
        ensures { result ≡ self.directory }
    {
        DirId::new(self.directory)
    }

    /// The root directory of a backend.
    pub(crate) fn root_of(backend: u32) -> Spot
        ensures { result ≡ root_of backend }
    {
        Spot {
            backend,
            directory: 0,
        }
    }

    /// A directory of the same backend.
    pub(crate) fn beside(self, id: DirId) -> Spot
        ensures { result ≡ spot_beside self id }
    {
        Spot {
            backend: self.backend,
            directory: id.number(),
        }
    }

    /// Where a text starts: at the root where it begins with a slash, else here.
    pub(crate) fn start_of(self, text: &PathText) -> Spot
        ensures { result ≡ start_of text.now self }
    {
        if is_absolute(text) {
            return Spot::root_of(0);
        }
        self
    }
}

/// A directory on a path, with what the path may still take.
#[derive(Clone, Copy)]
pub struct Station {
    /// How many names, and how many links.
    pub names: u32,
    pub links: u32,
    pub spot: Spot,
}

impl Station {
    /// In the root, with what one path may take.
    pub(crate) fn start() -> Station
        ensures { result ≡ path_start }
    {
        Station {
            names: PATH_NAMES_MAX,
            links: SYMLOOP_MAX,
            spot: Spot::root_of(0),
        }
    }
}

/// Where a walk ended.
#[derive(Drop)]
pub enum End {
    Directory(Station),
    /// A file of a backend.
    File(u32, u64),
    /// A link that is not followed, by its text.
    LinkText(PathText),
}

/// What a call walks of a path: its parts, or those before the last, which is then kept apart.
#[derive(Drop)]
pub struct Route {
    pub parts: Parts,
    pub last: Option<Part>,
    pub manner: Manner,
    pub slash: bool,
}

pub(crate) fn fault_of(path: &PathText) -> Option<Errno>
    ensures { result ≡ path_fault path.now }
{
    let length = path.as_bytes().len();
    if length == 0 {
        return Some(Errno::Enoent);
    }
    if length >= PATH_MAX {
        return Some(Errno::Enametoolong);
    }
    None
}

/// Whether the path begins with a slash.
pub(crate) fn is_absolute(path: &PathText) -> bool
    ensures { result ≡ is_absolute path.now }
{
    path.as_bytes().first() == Some(&b'/')
}

fn has_component(path: &[u8]) -> bool
    ensures { result ≡ not (length (components path.now) == 0) }
{
    path.iter().any(|byte| *byte != b'/')
}

fn ends_in_slash(path: &[u8]) -> bool
    ensures { result ≡ ends_in_slash path.now }
{
    match path.last() {
        Some(byte) => *byte == b'/',
        None => false,
    }
}

/// Whether the path has a component and ends in a slash.
pub(crate) fn has_slash(path: &PathText) -> bool
    ensures { result ≡ slash_of path.now }
{
    let bytes = path.as_bytes();
    has_component(bytes) && ends_in_slash(bytes)
}

impl Route {
    /// Along the whole path.
    pub(crate) fn whole(
        alloc: Global,
        manner: Manner,
        path: &PathText,
    ) -> Result<Result<Route, Errno>, AllocError>
        ensures { IfOk result (λ route. route ≡ whole_route manner path.now) }
    {
        if let Some(errno) = fault_of(path) {
            return Ok(Err(errno));
        }
        Ok(Ok(Route {
            parts: Parts::read(alloc, path)?,
            last: None,
            manner,
            slash: has_slash(path),
        }))
    }

    /// Along the path before its last component.
    pub(crate) fn parent(alloc: Global, path: &PathText) -> Result<Result<Route, Errno>, AllocError>
        ensures { IfOk result (λ route. route ≡ parent_route path.now) }
    {
        if let Some(errno) = fault_of(path) {
            return Ok(Err(errno));
        }
        let mut parts = Parts::read(alloc, path)?;
        let last = parts.take_last();
        Ok(Ok(Route {
            parts,
            last,
            manner: Manner::OnWay,
            slash: has_slash(path),
        }))
    }
}
