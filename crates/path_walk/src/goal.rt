ghost use Rattle.std.specs.Prelude.{◌≡◌, ◌==◌, Ok, Err};
ghost use Rattle.path_walk.specs.Plans.{cell_of_id, program_of};
ghost use Rattle.path_walk.specs.Calls.{move_on, change_fault, change_plan, directory_in, faults_of, last_fault, last_faults, last_step, list_plan, move_faults, move_plan, move_step, name_of, op_of, parent_of, slash_fault, status_plan, text_fault, text_plan};
ghost use Rattle.path_walk.specs.declared.call.Need.{Need};
ghost use Rattle.path_walk.specs.declared.trail.Stage.{Stage};
ghost use Rattle.path_walk.specs.Machine.{Shows, Reaches, goal_program};

use crate::call::{Base, Reply};
use crate::descriptor_call::enter;
use crate::open_request::OpenRequest;
use crate::open_stage::end_open;
use crate::part::{LastName, Part};
use crate::route::{End, Route, Spot};
use crate::step::{CellId, StoreOp};
use crate::trail::{Pause, Stage, Trail, fault, over, step};
use file_store::FileOp;
use name_store::NameOp;
use wf_core::{BackendId, DirId, Errno, FileId, Name, PathText, SYMLINK_MAX};

/// A change of one entry.
#[derive(Drop)]
pub enum Change {
    Makedir,
    Remdir,
    Remfile,
    /// A link with that text.
    Addlink(PathText),
}

/// The errors for a last component that is no name.
#[derive(Clone, Copy)]
pub struct LastFaults {
    /// It is `.`.
    pub dot: Errno,
    /// It is `..`.
    pub dot_dot: Errno,
    /// There is none: the path is the root.
    pub root: Errno,
}

/// What a call does where its walk has led to.
#[derive(Drop)]
pub(crate) enum Goal {
    /// It asks what is there.
    Status,
    /// It asks for the text of the link there.
    Text,
    /// It asks for the names there, from that position on.
    Names(u32),
    /// It changes the entry under that last component. The flag says that a slash ends the path.
    Entry(Change, Option<Part>, bool),
    /// It has the current directory be the one there.
    Enter,
    /// It goes on along the second path of a move, from its base.
    MoveFrom(Option<Part>, bool, Option<Base>, Result<Route, Errno>),
    /// It opens what stands there under a name, with so many walks that there may still be.
    Open(u32, OpenRequest, Option<LastName>),
    /// It moves the entry of the first directory and component. The flag says that a slash ends either path.
    MoveTo(Spot, Option<Part>, bool, Option<Part>),
}

impl LastFaults {
    fn new(dot: Errno, dot_dot: Errno, root: Errno) -> LastFaults
        ensures { result ≡ last_faults dot dot_dot root }
    {
        LastFaults { dot, dot_dot, root }
    }

    fn of_move() -> LastFaults
        ensures { result ≡ move_faults }
    {
        LastFaults::new(Errno::Einval, Errno::Einval, Errno::Ebusy)
    }

    /// A last component that is a name, or else its error.
    fn name(self, last: Option<Part>) -> Result<Name, Errno>
        ensures { result ≡ name_of self last }
    {
        match last {
            None => Err(self.root),
            Some(Part::Here) => Err(self.dot),
            Some(Part::Up) => Err(self.dot_dot),
            Some(Part::TooLong) => Err(Errno::Enametoolong),
            Some(Part::Down(name)) => Ok(name),
        }
    }
}

impl Change {
    fn faults(&self) -> LastFaults
        ensures { result ≡ faults_of self.now }
    {
        match self {
            Change::Makedir | Change::Addlink(_) => {
                LastFaults::new(Errno::Eexist, Errno::Eexist, Errno::Eexist)
            }
            Change::Remdir => LastFaults::new(Errno::Einval, Errno::Enotempty, Errno::Ebusy),
            Change::Remfile => LastFaults::new(Errno::Eisdir, Errno::Eisdir, Errno::Eisdir),
        }
    }

    fn slash_fault(&self, slash: bool) -> Option<Errno>
        ensures { result ≡ slash_fault self.now slash }
    {
        match self {
            Change::Addlink(_) if slash => Some(Errno::Enoent),
            _ => None,
        }
    }

    fn op(self, directory: DirId, name: Name, slash: bool) -> NameOp
        ensures { result ≡ op_of self directory name slash }
    {
        match self {
            Change::Makedir => NameOp::Makedir(directory, name),
            Change::Remdir => NameOp::Remdir(directory, name),
            Change::Remfile => NameOp::Remfile {
                directory,
                name,
                slash,
            },
            Change::Addlink(text) => NameOp::Addlink {
                directory,
                name,
                text,
            },
        }
    }

    /// The error before its path.
    pub(crate) fn early_fault(&self) -> Option<Errno>
        ensures { result ≡ change_fault self.now }
    {
        match self {
            Change::Addlink(text) => text_fault(text),
            _ => None,
        }
    }

    fn last_step(self, last: Option<Part>, slash: bool, spot: Spot) -> Pause
        ensures { Shows result.need (program_of (change_plan self last slash spot)) result.stage }
    {
        let name = match self.faults().name(last) {
            Ok(name) => name,
            Err(errno) => return fault(errno),
        };
        if let Some(errno) = self.slash_fault(slash) {
            return fault(errno);
        }
        last_step(spot.backend, self.op(spot.dir(), name, slash))
    }
}

/// The error of a link's text.
fn text_fault(text: &PathText) -> Option<Errno>
    ensures { result ≡ text_fault text.now }
{
    let length = text.as_bytes().len();
    if length == 0 {
        return Some(Errno::Enoent);
    }
    if length > SYMLINK_MAX {
        return Some(Errno::Enametoolong);
    }
    None
}

/// The error of a last component that takes a name too many, or too long a one.
fn last_fault(last: &Option<Part>, names: u32) -> Option<Errno>
    ensures { result ≡ last_fault last.now names }
{
    match last {
        Some(Part::TooLong) => Some(Errno::Enametoolong),
        Some(Part::Down(_)) if names == 0 => Some(Errno::Enametoolong),
        _ => None,
    }
}

fn last_step(backend: u32, op: NameOp) -> Pause
    ensures { Shows result.need (program_of (last_step backend op)) result.stage }
{
    step(
        Stage::LastOnNames(backend),
        CellId::Names(BackendId::new(backend)),
        StoreOp::Names(op),
    )
}

/// The last step of a call on a file.
pub(crate) fn step_on_file(backend: u32, file: u64, op: FileOp) -> Pause
    ensures { (result.stage ≡ Stage.Last)
        × (result.need ≡ Need.Step (cell_of_id backend file) (StoreOp.Files op)) }
{
    step(
        Stage::Last,
        CellId::of_id(backend, file),
        StoreOp::Files(op),
    )
}

fn move_step(from: Spot, name: Name, slash: bool, to: Spot, new_name: Name) -> Pause
    ensures { Shows result.need (program_of (move_step from name slash to new_name)) result.stage }
{
    if from.backend != to.backend {
        return fault(Errno::Exdev);
    }
    last_step(
        from.backend,
        NameOp::Move {
            from: from.dir(),
            name,
            to: to.dir(),
            new_name,
            slash,
        },
    )
}

fn move_to(from: Spot, last: Option<Part>, slash: bool, new_last: Option<Part>, to: Spot) -> Pause
    ensures { Shows result.need (program_of (move_plan from last slash new_last to)) result.stage }
{
    let name = match LastFaults::of_move().name(last) {
        Ok(name) => name,
        Err(errno) => return fault(errno),
    };
    match LastFaults::of_move().name(new_last) {
        Ok(new_name) => move_step(from, name, slash, to, new_name),
        Err(errno) => fault(errno),
    }
}

fn status(end: End) -> Pause
    ensures { Shows result.need (program_of (status_plan (Ok end))) result.stage }
{
    match end {
        End::Directory(_) => over(Reply::Dir),
        End::File(backend, file) => step_on_file(backend, file, FileOp::Sizeof(FileId::new(file))),
        End::LinkText(text) => over(Reply::Link(text.as_bytes().len() as u64)),
    }
}

fn text(end: End) -> Pause
    ensures { Shows result.need (program_of (text_plan (Ok end))) result.stage }
{
    match end {
        End::LinkText(text) => over(Reply::Text(text)),
        End::Directory(_) | End::File(_, _) => fault(Errno::Einval),
    }
}

fn names(start: u32, end: End) -> Pause
    ensures { Shows result.need (program_of (list_plan start (Ok end))) result.stage }
{
    match end {
        End::Directory(station) => last_step(
            station.spot.backend,
            NameOp::List {
                directory: station.spot.dir(),
                start,
            },
        ),
        End::File(_, _) | End::LinkText(_) => fault(Errno::Enotdir),
    }
}

fn directory(end: End) -> Result<Spot, Errno>
    ensures { result ≡ directory_in (Ok end) }
{
    match end {
        End::Directory(station) => Ok(station.spot),
        End::File(_, _) | End::LinkText(_) => Err(Errno::Enotdir),
    }
}

/// The directory at the end of the path before its last component, if that may still be taken.
fn parent(last: &Option<Part>, end: End) -> Result<Spot, Errno>
    ensures { result ≡ parent_of last.now end }
{
    match end {
        End::Directory(station) => match last_fault(last, station.names) {
            Some(errno) => Err(errno),
            None => Ok(station.spot),
        },
        End::File(_, _) | End::LinkText(_) => Err(Errno::Enotdir),
    }
}

/// What follows the walk of a goal: the call's last step or its reply, or another walk.
#[derive(Drop)]
pub(crate) enum Reached {
    Pause(Pause),
    Trail(Trail),
}

impl Goal {
    /// What the call does where its walk has failed.
    fn fail(self, errno: Errno) -> Pause
        ensures { Shows result.need (goal_program self (Err errno)) result.stage }
    {
        match self {
            Goal::Open(walks, request, name) => end_open(walks, request, name, Err(errno)),
            _ => fault(errno),
        }
    }

    /// What the call does at the end of its walk.
    pub(crate) fn reach(self, end: Result<End, Errno>) -> Reached
        ensures { Reaches self (goal_program self end) result }
    {
        let end = match end {
            Ok(end) => end,
            Err(errno) => return Reached::Pause(self.fail(errno)),
        };
        match self {
            Goal::Status => Reached::Pause(status(end)),
            Goal::Text => Reached::Pause(text(end)),
            Goal::Names(start) => Reached::Pause(names(start, end)),
            Goal::Enter => Reached::Pause(enter(directory(end))),
            Goal::Entry(change, last, slash) => Reached::Pause(match parent(&last, end) {
                Ok(spot) => change.last_step(last, slash, spot),
                Err(errno) => fault(errno),
            }),
            Goal::MoveTo(from, last, slash, new_last) => {
                Reached::Pause(match parent(&new_last, end) {
                    Ok(to) => move_to(from, last, slash, new_last, to),
                    Err(errno) => fault(errno),
                })
            }
            Goal::Open(walks, request, name) => {
                Reached::Pause(end_open(walks, request, name, Ok(end)))
            }
            Goal::MoveFrom(last, slash, base, new) => match parent(&last, end) {
                Ok(from) => move_from(last, slash, base, new, from),
                Err(errno) => Reached::Pause(fault(errno)),
            },
        }
    }
}

fn move_from(
    last: Option<Part>,
    slash: bool,
    base: Option<Base>,
    new: Result<Route, Errno>,
    from: Spot,
) -> Reached
    ensures { Reaches (Goal.MoveFrom last slash base new)
        (program_of (move_on last slash base new from)) result }
{
    match new {
        Err(errno) => Reached::Pause(fault(errno)),
        Ok(route) => {
            let goal = Goal::MoveTo(from, last, slash | route.slash, route.last);
            let trail = Trail::from_root(route.parts, route.manner, route.slash, goal);
            match base {
                None => Reached::Trail(trail),
                Some(base) => Reached::Pause(trail.ask_start(base)),
            }
        }
    }
}
