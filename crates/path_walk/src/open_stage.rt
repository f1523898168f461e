ghost use Rattle.std.specs.Prelude.{◌≡◌, ◌==◌, IfOk, Some};
ghost use Rattle.path_walk.specs.declared.step.StepAnswer.{StepAnswer};
ghost use Rattle.path_walk.specs.declared.step.StoreAnswer.{StoreAnswer};
ghost use Rattle.path_walk.specs.Plans.{from_base, fault_in, program_of, replies, steps, unless_fault};
ghost use Rattle.path_walk.specs.OpenPlan.{added_plan, attached_plan, description_in, drops, drops_by, file_in, fills, flags_fault, follows, found_plan, looked_plan, looks, made_plan, makes, meant_plan, open_end, opens_along, opens_by, opens_directory, opens_file, opens_in, reserved_plan, route_to, unlinked_plan, unmakes, unless_drops};
ghost use Rattle.path_walk.specs.OpenStages.{route_at, route_in, stage_plan, text_route};
ghost use Rattle.path_walk.specs.Machine.{Shows};
ghost use Rattle.path_walk.specs.declared.call.Reply.{Reply};
ghost use Rattle.path_walk.specs.declared.step.CellId.{CellId};
ghost use Rattle.path_walk.specs.declared.step.StoreOp.{StoreOp};
ghost use Rattle.file_store.specs.declared.descriptor_operation.FdOp.{FdOp};
ghost use Rattle.path_walk.specs.declared.open_stage.OpenStage.{OpenStage};

use crate::call::{Base, Reply};
use crate::goal::Goal;
use crate::open_request::{OpenFlags, OpenRequest, OpenRoute};
use crate::part::LastName;
use crate::reply::{fault_in, reply_to};
use crate::route::{End, Spot, Station};
use crate::step::{CellId, StepAnswer, StoreAnswer, StoreOp};
use crate::trail::{Pause, Stage, Trail, fault, node_in, over, step};
use file_store::{FdAnswer, FdOp, FileAnswer, FileOp};
use name_store::{NameAnswer, NameOp, Node};
use std::alloc::{AllocError, Global};
use wf_core::{BackendId, DescriptionId, Errno, FileId, Name, PathText, SYMLOOP_MAX};

/// One walk along the path, and one along each link under a last name.
const OPEN_WALKS_MAX: u32 = SYMLOOP_MAX + 1;

/// An `open` at its last name.
#[derive(Clone, Copy)]
pub(crate) struct AtLastName {
    pub(crate) request: OpenRequest,
    /// How many walks there may still be.
    pub(crate) walks: u32,
    /// The directory of the name.
    pub(crate) station: Station,
}

/// The step whose answer an `open` waits for, beside its walks.
#[derive(Drop)]
pub(crate) enum OpenStage {
    /// The reservation of a number, for a path from that base.
    Reserving(OpenFlags, Option<Base>, Result<OpenRoute, Errno>),
    /// The look-up of the last name.
    Looking(AtLastName, Name),
    /// The making of a file for that name.
    Making(AtLastName, Name),
    /// The entry of the new file.
    Adding(AtLastName, FileId, DescriptionId),
    /// The unlinking of a file that was made in vain, and what is there in its place.
    Unlinking(AtLastName, DescriptionId, Result<Node, Errno>),
    /// The release of its description.
    Unmaking(AtLastName, Result<Node, Errno>),
    /// A description of a file that is there, for a number, in a backend.
    Attaching(u32, u32),
    /// That the number names what was opened.
    Filling(u32),
    /// That the number is free again, since the call failed.
    Dropping(Errno),
}

/// A failure, which frees the number.
fn drop_number(number: u32, errno: Errno) -> Pause
    ensures { Shows result.need (program_of (drops number errno)) result.stage }
{
    step(
        Stage::OpeningFile(OpenStage::Dropping(errno)),
        CellId::Descriptors,
        StoreOp::Descriptors(FdOp::Drop(number)),
    )
}

fn drop_by(number: u32, answer: &StepAnswer) -> Pause
    ensures { Shows result.need (program_of (drops_by number answer.now)) result.stage }
{
    drop_number(number, fault_in(answer).unwrap_or(Errno::Enoent))
}

fn fill(number: u32, op: FdOp) -> Pause
    ensures { Shows result.need (program_of (fills number op)) result.stage }
{
    step(
        Stage::OpeningFile(OpenStage::Filling(number)),
        CellId::Descriptors,
        StoreOp::Descriptors(op),
    )
}

fn after_fill(number: u32, answer: StepAnswer) -> Pause
    ensures { Shows result.need
        (program_of (unless_drops number (fault_in answer) (replies (Reply.Fd number))))
        result.stage }
{
    match fault_in(&answer) {
        Some(errno) => drop_number(number, errno),
        None => over(Reply::Fd(number)),
    }
}

fn fill_file(number: u32, backend: u32, description: DescriptionId) -> Pause
    ensures { Shows result.need
        (program_of (fills number (FdOp.FillFile number backend description))) result.stage }
{
    fill(
        number,
        FdOp::FillFile {
            number,
            backend: BackendId::new(backend),
            description,
        },
    )
}

/// The new description of a file that is there.
fn description_in(answer: &StepAnswer) -> Option<DescriptionId>
    ensures { result ≡ description_in answer.now }
{
    match answer {
        StepAnswer::Answered(StoreAnswer::Files(FileAnswer::Desc(description))) => {
            Some(*description)
        }
        _ => None,
    }
}

/// The file that was made, and its description.
fn file_in(answer: &StepAnswer) -> Option<(FileId, DescriptionId)>
    ensures { result ≡ file_in answer.now }
{
    match answer {
        StepAnswer::Answered(StoreAnswer::Files(FileAnswer::File { file, description })) => {
            Some((*file, *description))
        }
        _ => None,
    }
}

fn after_attach(number: u32, backend: u32, answer: StepAnswer) -> Pause
    ensures { Shows result.need (program_of (attached_plan number backend answer)) result.stage }
{
    match description_in(&answer) {
        Some(description) => fill_file(number, backend, description),
        None => drop_by(number, &answer),
    }
}

fn open_directory(request: OpenRequest, there: Spot) -> Pause
    ensures { Shows result.need (program_of (opens_directory request there)) result.stage }
{
    match request.directory_fault() {
        Some(errno) => drop_number(request.number, errno),
        None => fill(
            request.number,
            FdOp::FillDir {
                number: request.number,
                backend: BackendId::new(there.backend),
                dir: there.dir(),
            },
        ),
    }
}

fn open_file(request: OpenRequest, backend: u32, file: FileId) -> Pause
    ensures { Shows result.need (program_of (opens_file request backend file)) result.stage }
{
    match request.file_fault() {
        Some(errno) => drop_number(request.number, errno),
        None => step(
            Stage::OpeningFile(OpenStage::Attaching(request.number, backend)),
            CellId::of_id(backend, file.number()),
            StoreOp::Files(FileOp::Attach {
                file,
                mode: request.flags.mode(),
                truncate: request.flags.trunc,
            }),
        ),
    }
}

/// Walks along a path, or a link's text.
#[tactic(auto, unfolding(crate::specs::OpenPlan::opens_along))]
fn open_along(walks: u32, request: OpenRequest, from: Station, route: OpenRoute) -> Pause
    ensures { Shows result.need (program_of (opens_along walks request from route)) result.stage }
{
    if walks == 0 {
        return drop_number(request.number, Errno::Eloop);
    }
    let OpenRoute { route, name } = route;
    let goal = Goal::Open(walks - 1, request, name);
    Trail::new(from, route.parts, route.manner, route.slash, goal).proceed()
}

/// What an `open` does at the end of a walk before the last name.
pub(crate) fn end_open(
    walks: u32,
    request: OpenRequest,
    name: Option<LastName>,
    end: Result<End, Errno>,
) -> Pause
    ensures { Shows result.need
        (program_of (open_end (opens_along walks) request name end)) result.stage }
{
    let station = match end {
        Ok(End::Directory(station)) => station,
        Ok(End::File(_, _) | End::LinkText(_)) => {
            return drop_number(request.number, Errno::Enotdir);
        }
        Err(errno) => return drop_number(request.number, errno),
    };
    match name {
        Some(name) => look_up(walks, request, station, name),
        None => open_directory(request, station.spot),
    }
}

fn look_up(walks: u32, request: OpenRequest, station: Station, name: LastName) -> Pause
    ensures { Shows result.need
        (program_of (looks (opens_along walks) request station.names station.links station.spot name))
        result.stage }
{
    if station.names == 0 {
        return drop_number(request.number, Errno::Enametoolong);
    }
    let at = AtLastName {
        request,
        walks,
        station: Station {
            names: station.names - 1,
            links: station.links,
            spot: station.spot,
        },
    };
    let (name, copy) = name.split();
    step(
        Stage::OpeningFile(OpenStage::Looking(at, copy)),
        station.spot.cell(),
        StoreOp::Names(NameOp::Look(station.spot.dir(), name)),
    )
}

impl AtLastName {
    fn fail(self, errno: Errno) -> Pause
        ensures { Shows result.need (program_of (drops self.request.number errno)) result.stage }
    {
        drop_number(self.request.number, errno)
    }

    /// Follows a link. Its own slash asks for a directory too.
    fn follow(self, text: PathText, route: Option<OpenRoute>) -> Pause
        requires { route ≡ Some (route_to text) }
        ensures { Shows result.need (program_of (follows (opens_along self.walks) self.station.links
            self.request self.station.names self.station.spot text)) result.stage }
    {
        let Some(route) = route else {
            unreachable!();
        };
        if self.station.links == 0 {
            return self.fail(Errno::Eloop);
        }
        let slash = self.request.slash | route.route.slash;
        let request = OpenRequest::new(self.request.number, self.request.flags, slash);
        let from = Station {
            names: self.station.names,
            links: self.station.links - 1,
            spot: self.station.spot.start_of(&text),
        };
        open_along(self.walks, request, from, route)
    }

    /// What stands under the name.
    fn open_node(self, node: Node, route: Option<OpenRoute>) -> Pause
        requires { route ≡ route_at node }
        ensures { Shows result.need
            (program_of (found_plan (opens_along self.walks) self.request self.station node))
            result.stage }
    {
        let here = self.station.spot;
        match node {
            Node::Dir(id) => open_directory(self.request, here.beside(id)),
            Node::Mount(backend) => {
                open_directory(self.request, Spot::root_of(backend.number()))
            }
            Node::File(file) => open_file(self.request, here.backend, file),
            Node::Link(_, text) => match self.request.link_fault() {
                Some(errno) => self.fail(errno),
                None => self.follow(text, route),
            },
        }
    }

    fn looked_up(
        self,
        name: Name,
        found: Result<Option<Node>, Errno>,
        route: Option<OpenRoute>,
    ) -> Pause
        requires { route ≡ route_in found }
        ensures { Shows result.need
            (program_of (looked_plan (opens_along self.walks) self.request self.station name found))
            result.stage }
    {
        match found {
            Err(errno) => self.fail(errno),
            Ok(Some(node)) => self.open_node(node, route),
            Ok(None) => match self.request.absent_fault() {
                Some(errno) => self.fail(errno),
                None => self.make(name),
            },
        }
    }

    /// Makes a file beside the directory, in the group that is the number modulo `GROUP_COUNT`.
    fn make(self, name: Name) -> Pause
        ensures { Shows result.need
            (program_of (makes (opens_along self.walks) self.request self.station name))
            result.stage }
    {
        step(
            Stage::OpeningFile(OpenStage::Making(self, name)),
            CellId::of_id(self.station.spot.backend, u64::from(self.request.number)),
            StoreOp::Files(FileOp::Make(self.request.flags.mode())),
        )
    }

    fn made(self, name: Name, answer: StepAnswer) -> Pause
        ensures { Shows result.need
            (program_of (made_plan (opens_along self.walks) self.request self.station name answer))
            result.stage }
    {
        match file_in(&answer) {
            Some((file, description)) => step(
                Stage::OpeningFile(OpenStage::Adding(self, file, description)),
                self.station.spot.cell(),
                StoreOp::Names(NameOp::Addfile {
                    directory: self.station.spot.dir(),
                    name,
                    file,
                }),
            ),
            None => drop_by(self.request.number, &answer),
        }
    }

    fn added(self, file: FileId, description: DescriptionId, answer: StepAnswer) -> Pause
        ensures { Shows result.need (program_of
            (added_plan (opens_along self.walks) self.request self.station file description answer))
            result.stage }
    {
        match answer {
            StepAnswer::Answered(StoreAnswer::Names(answer)) => {
                self.entered(file, description, answer)
            }
            answer => drop_by(self.request.number, &answer),
        }
    }

    fn entered(self, file: FileId, description: DescriptionId, answer: NameAnswer) -> Pause
        ensures { Shows result.need (program_of (added_plan (opens_along self.walks) self.request
            self.station file description (StepAnswer.Answered (StoreAnswer.Names answer))))
            result.stage }
    {
        match answer {
            NameAnswer::Done => {
                fill_file(self.request.number, self.station.spot.backend, description)
            }
            NameAnswer::Taken(node) => self.unmake(file, description, Ok(node)),
            NameAnswer::Gone => self.unmake(file, description, Err(Errno::Enoent)),
            NameAnswer::Fault(errno) => self.fail(errno),
            _ => self.fail(Errno::Enoent),
        }
    }

    /// Unlinks a file that was made in vain.
    fn unmake(self, file: FileId, description: DescriptionId, found: Result<Node, Errno>) -> Pause
        ensures { Shows result.need (program_of
            (unmakes (opens_along self.walks) self.request self.station file description found))
            result.stage }
    {
        step(
            Stage::OpeningFile(OpenStage::Unlinking(self, description, found)),
            CellId::of_id(self.station.spot.backend, file.number()),
            StoreOp::Files(FileOp::Unlinked(file)),
        )
    }

    fn unlinked(
        self,
        description: DescriptionId,
        found: Result<Node, Errno>,
        answer: StepAnswer,
    ) -> Pause
        ensures { Shows result.need (program_of
            (unlinked_plan (opens_along self.walks) self.request self.station description found answer))
            result.stage }
    {
        match fault_in(&answer) {
            Some(errno) => self.fail(errno),
            None => step(
                Stage::OpeningFile(OpenStage::Unmaking(self, found)),
                CellId::of_id(self.station.spot.backend, description.number()),
                StoreOp::Files(FileOp::Release(description)),
            ),
        }
    }

    fn unmade(
        self,
        found: Result<Node, Errno>,
        answer: StepAnswer,
        route: Option<OpenRoute>,
    ) -> Pause
        requires { route ≡ text_route (OpenStage.Unmaking self found) answer }
        ensures { Shows result.need (program_of (unless_drops self.request.number (fault_in answer)
            (meant_plan (opens_along self.walks) self.request self.station found))) result.stage }
    {
        if let Some(errno) = fault_in(&answer) {
            return self.fail(errno);
        }
        match found {
            Ok(node) => self.open_node(node, route),
            Err(errno) => self.fail(errno),
        }
    }
}

/// Begins an `open`.
pub(crate) fn open(flags: OpenFlags, base: Option<Base>, route: Result<OpenRoute, Errno>) -> Pause
    ensures { Shows result.need (program_of (unless_fault (flags_fault flags)
        (steps CellId.Descriptors (StoreOp.Descriptors FdOp.Reserve)
        (reserved_plan flags base route)))) result.stage }
{
    if let Some(errno) = flags.fault() {
        return fault(errno);
    }
    step(
        Stage::OpeningFile(OpenStage::Reserving(flags, base, route)),
        CellId::Descriptors,
        StoreOp::Descriptors(FdOp::Reserve),
    )
}

fn reserved(
    flags: OpenFlags,
    base: Option<Base>,
    route: Result<OpenRoute, Errno>,
    answer: StepAnswer,
) -> Pause
    ensures { Shows result.need (program_of (reserved_plan flags base route answer)) result.stage }
{
    match answer {
        StepAnswer::Answered(StoreAnswer::Descriptors(FdAnswer::Fd(number))) => {
            open_by(number, flags, base, route)
        }
        answer => over(reply_to(answer)),
    }
}

fn open_by(
    number: u32,
    flags: OpenFlags,
    base: Option<Base>,
    route: Result<OpenRoute, Errno>,
) -> Pause
    ensures { Shows result.need (program_of (opens_by number flags base route)) result.stage }
{
    match route {
        Err(errno) => drop_number(number, errno),
        Ok(route) => open_from(
            base,
            OpenRequest::new(number, flags, route.route.slash),
            route,
        ),
    }
}

/// Walks along the path of the call.
fn open_from(base: Option<Base>, request: OpenRequest, route: OpenRoute) -> Pause
    ensures { Shows result.need (program_of (from_base base (opens_in request route)))
        result.stage }
{
    let OpenRoute { route, name } = route;
    let goal = Goal::Open(OPEN_WALKS_MAX - 1, request, name);
    Trail::from_root(route.parts, route.manner, route.slash, goal).begin(base)
}

/// The path of a link, which may be followed.
fn route_at(alloc: Global, node: &Node) -> Result<Option<OpenRoute>, AllocError>
    ensures { IfOk result (λ route. route ≡ route_at node.now) }
{
    match node {
        Node::Link(_, text) => Ok(Some(OpenRoute::to(alloc, text)?)),
        _ => Ok(None),
    }
}

impl OpenStage {
    /// The path of the link that an answer leads to.
    pub(crate) fn route(
        &self,
        alloc: Global,
        answer: &StepAnswer,
    ) -> Result<Option<OpenRoute>, AllocError>
        ensures { IfOk result (λ route. route ≡ text_route self.now answer.now) }
    {
        match self {
            OpenStage::Looking(_, _) => match answer {
                StepAnswer::Answered(StoreAnswer::Names(NameAnswer::Found(node))) => {
                    route_at(alloc, node)
                }
                _ => Ok(None),
            },
            OpenStage::Unmaking(_, Ok(node)) => route_at(alloc, node),
            _ => Ok(None),
        }
    }

    /// What follows the answer to the step.
    pub(crate) fn after(self, answer: StepAnswer, route: Option<OpenRoute>) -> Pause
        requires { route ≡ text_route self answer }
        ensures { Shows result.need (program_of (stage_plan self answer)) result.stage }
    {
        match self {
            OpenStage::Reserving(flags, base, path) => reserved(flags, base, path, answer),
            OpenStage::Looking(at, name) => { at.looked_up(name, node_in(answer), route) }
            OpenStage::Making(at, name) => at.made(name, answer),
            OpenStage::Adding(at, file, description) => { at.added(file, description, answer) }
            OpenStage::Unlinking(at, description, found) => {
                at.unlinked(description, found, answer)
            }
            OpenStage::Unmaking(at, found) => at.unmade(found, answer, route),
            OpenStage::Attaching(number, backend) => after_attach(number, backend, answer),
            OpenStage::Filling(number) => after_fill(number, answer),
            OpenStage::Dropping(errno) => fault(errno),
        }
    }
}
