ghost use Rattle.std.specs.Prelude.{◌≡◌, ◌==◌, ◌<◌, false, Ok, Some, IfOk, OnErr};
ghost use Rattle.path_walk.specs.PathMeaning.{Course, path_start, station};
ghost use Rattle.path_walk.specs.Plans.{spot_in};
ghost use Rattle.path_walk.specs.Programs.{finished};
ghost use Rattle.path_walk.specs.Walk.{node_in};
ghost use Rattle.path_walk.specs.Machine.{Advances, Meets, Shows, begun, started, trail_at, course_along, course_of, goal_program, trail_from, walk_of, way_of, way_up, with_one_name_less};

use crate::act::Act;
use crate::call::{Base, Need, Reply};
use crate::descriptor_call::DataCall;
use crate::goal::{Goal, Reached};
use crate::open_stage::OpenStage;
use crate::part::{Part, Parts};
use crate::reply::spot_in;
use crate::route::{End, Manner, Spot, Station, has_slash};
use crate::step::{CellId, StepAnswer, StoreAnswer, StoreOp};
use file_store::FdOp;
use name_store::{NameAnswer, NameOp, Node};
use std::alloc::{AllocError, Global};
use wf_core::{Errno, PathText};

/// A walk that is under way: what is left of its path, from where, and its goal.
#[derive(Drop)]
pub(crate) struct Trail {
    pub(crate) rest: Parts,
    pub(crate) manner: Manner,
    pub(crate) slash: bool,
    /// How many names and how many links the path may still take.
    pub(crate) names: u32,
    pub(crate) links: u32,
    pub(crate) spot: Spot,
    pub(crate) goal: Goal,
}

/// How far a call is.
#[derive(Drop)]
pub(crate) enum Stage {
    Start(Act),
    /// It waits for the directory in which its walk starts.
    Starting(Trail),
    /// It waits for the answer that leads its walk on.
    Walking(Trail),
    /// It waits for the answer to its last step on the names of that backend.
    LastOnNames(u32),
    /// It waits for the answer to its last step, which it replies.
    Last,
    /// It waits for what the number names whose file it is to use.
    Looking(DataCall),
    /// It waits for the answer to a step that frees or copies a number.
    LastOnDescriptors,
    /// It waits for the release of a description, and has that reply.
    Releasing(Reply),
    /// It waits for the directory that a number names, which is to be the current one.
    Entering,
    /// It opens a path.
    OpeningFile(OpenStage),
    Over,
}

/// Where a call stands between two steps: its stage, and what it needs.
#[derive(Drop)]
pub(crate) struct Pause {
    pub(crate) stage: Stage,
    pub(crate) need: Need,
}

/// What a trail comes to without an answer.
#[derive(Drop)]
pub(crate) enum Advance {
    /// It asks for a step, and waits for its answer.
    Asks(Need),
    Ends(Result<End, Errno>),
}

/// What stands under a name ends the walk, or has it go on.
#[derive(Drop)]
pub(crate) enum Onward {
    Ends(Result<End, Errno>),
    Goes,
}

/// The end of a call.
pub(crate) fn over(reply: Reply) -> Pause
    ensures { Shows result.need (finished reply) result.stage }
{
    Pause {
        stage: Stage::Over,
        need: Need::Done(reply),
    }
}

pub(crate) fn fault(errno: Errno) -> Pause
    ensures { Shows result.need (finished (Reply.Fault errno)) result.stage }
{
    over(Reply::Fault(errno))
}

fn pause_of(stage: Stage, need: Need) -> Pause
    ensures { (result.stage ≡ stage) × (result.need ≡ need) }
{
    Pause { stage, need }
}

pub(crate) fn step(stage: Stage, cell: CellId, op: StoreOp) -> Pause
    ensures { (result.stage ≡ stage) × (result.need ≡ Need.Step cell op) }
{
    pause_of(stage, Need::Step(cell, op))
}

/// What stands under a name, by the answer to a look-up or to a question for the parent.
pub(crate) fn node_in(answer: StepAnswer) -> Result<Option<Node>, Errno>
    ensures { result ≡ node_in answer }
{
    match answer {
        StepAnswer::Answered(StoreAnswer::Names(NameAnswer::Found(node))) => Ok(Some(node)),
        StepAnswer::Answered(StoreAnswer::Names(NameAnswer::Absent)) => Ok(None),
        StepAnswer::Answered(_) => Err(Errno::Enoent),
        StepAnswer::Cancelled => Err(Errno::Ecanceled),
        StepAnswer::Closed => Err(Errno::Enxio),
    }
}

impl Trail {
    /// The start of a walk.
    pub(crate) fn new(from: Station, rest: Parts, manner: Manner, slash: bool, goal: Goal) -> Trail
        ensures { result ≡ trail_from from rest manner slash goal }
    {
        Trail {
            rest,
            manner,
            slash,
            names: from.names,
            links: from.links,
            spot: from.spot,
            goal,
        }
    }

    /// The start of a walk in the root, or in the directory that is told later.
    pub(crate) fn from_root(rest: Parts, manner: Manner, slash: bool, goal: Goal) -> Trail
        ensures { result ≡ trail_from path_start rest manner slash goal }
    {
        Trail::new(Station::start(), rest, manner, slash, goal)
    }

    /// Begins the walk, in the root or with the step that tells where.
    pub(crate) fn begin(self, base: Option<Base>) -> Pause
        ensures { Shows result.need (begun base self) result.stage }
    {
        match base {
            None => self.at(Spot::root_of(0)).proceed(),
            Some(base) => self.ask_start(base),
        }
    }

    /// Asks for the directory in which the walk starts.
    pub(crate) fn ask_start(self, base: Base) -> Pause
        ensures { Shows result.need (begun (Some base) self) result.stage }
    {
        let op = match base {
            Base::Cwd => FdOp::Cwd,
            Base::Fd(number) => FdOp::Look(number),
        };
        step(
            Stage::Starting(self),
            CellId::Descriptors,
            StoreOp::Descriptors(op),
        )
    }

    /// Goes on from the directory in which the walk starts.
    pub(crate) fn start(self, answer: StepAnswer) -> Pause
        ensures { Shows result.need (started self (spot_in answer)) result.stage }
    {
        match spot_in(&answer) {
            Ok(spot) => self.at(spot).proceed(),
            Err(errno) => self.finish(Err(errno)),
        }
    }

    fn at(self, spot: Spot) -> Trail
        ensures { result ≡ trail_at spot self }
    {
        let mut trail = self;
        trail.spot = spot;
        trail
    }

    /// Follows the trail to the next step of the call.
    pub(crate) fn proceed(self) -> Pause
        ensures { Shows result.need (walk_of self (way_of self)) result.stage }
    {
        let mut trail = self;
        loop {
            let end = match trail.advance() {
                Advance::Asks(need) => return pause_of(Stage::Walking(trail), need),
                Advance::Ends(end) => end,
            };
            match trail.goal.reach(end) {
                Reached::Pause(pause) => return pause,
                Reached::Trail(next) => trail = next,
            }
        }
    }

    /// The end of the walk.
    pub(crate) fn finish(self, end: Result<End, Errno>) -> Pause
        ensures { Shows result.need (goal_program self.goal end) result.stage }
    {
        match self.goal.reach(end) {
            Reached::Pause(pause) => pause,
            Reached::Trail(next) => next.proceed(),
        }
    }

    /// Follows the trail until it asks for a step, or to its end.
    pub(crate) fn advance(&mut self) -> Advance
        ensures { Advances self.old result self.new }
    {
        while let Some(part) = self.rest.next() {
            match part {
                Part::Here => {}
                Part::TooLong => return Advance::Ends(Err(Errno::Enametoolong)),
                _ if self.names == 0 => return Advance::Ends(Err(Errno::Enametoolong)),
                Part::Up if self.spot.directory == 0 => {
                    self.names -= 1;
                    self.spot = Spot::root_of(0);
                }
                Part::Up => return Advance::Asks(self.ask_parent()),
                Part::Down(name) => {
                    let look = NameOp::Look(self.spot.dir(), name);
                    return Advance::Asks(self.ask(look));
                }
            }
        }
        Advance::Ends(Ok(End::Directory(self.station())))
    }

    fn station(&self) -> Station
        ensures { result ≡ station self.now.names self.now.links self.now.spot }
    {
        Station {
            names: self.names,
            links: self.links,
            spot: self.spot,
        }
    }

    /// Asks for the parent of its directory, which is no root.
    fn ask_parent(&mut self) -> Need
        requires some { (self.old.names == 0) ≡ false }
        requires above { (self.old.spot.directory == 0) ≡ false }
        ensures { Shows result (walk_of self.old (way_up self.old)) (Stage.Walking self.new) }
    {
        let parent = NameOp::Parent(self.spot.dir());
        self.ask(parent)
    }

    /// Asks for a step on the names of its backend, which takes one name.
    fn ask(&mut self, op: NameOp) -> Need
        requires { 0 < self.old.names }
        ensures { (self.new ≡ with_one_name_less self.old)
            × (result ≡ Need.Step (CellId.Names self.old.spot.backend) (StoreOp.Names op)) }
    {
        self.names -= 1;
        Need::Step(self.spot.cell(), StoreOp::Names(op))
    }

    /// Meets what an answer found. Want of memory changes nothing.
    pub(crate) fn meet(
        &mut self,
        alloc: Global,
        found: Result<Option<Node>, Errno>,
    ) -> Result<Onward, AllocError>
        ensures ok { IfOk result
            (λ onward. Meets self.old (course_of self.old found) onward self.new) }
        ensures err { OnErr result (self.new ≡ self.old) }
    {
        let node = match found {
            Ok(Some(node)) => node,
            Ok(None) => return Ok(Onward::Ends(Err(Errno::Enoent))),
            Err(errno) => return Ok(Onward::Ends(Err(errno))),
        };
        match node {
            Node::Dir(id) => self.spot.directory = id.number(),
            Node::Mount(backend) => self.spot = Spot::root_of(backend.number()),
            Node::File(file) => return Ok(Onward::Ends(self.end_at_file(file.number()))),
            Node::Link(_, text) => return self.meet_link(alloc, text),
        }
        Ok(Onward::Goes)
    }

    /// A file ends a walk, mostly in an error.
    fn end_at_file(&self, file: u64) -> Result<End, Errno>
        ensures { Course.ends result
            ≡ course_of self.now (Ok (Some (Node.File file))) }
    {
        if !self.rest.is_empty() || self.slash || self.manner == Manner::OnWay {
            return Err(Errno::Enotdir);
        }
        Ok(End::File(self.spot.backend, file))
    }

    fn meet_link(&mut self, alloc: Global, text: PathText) -> Result<Onward, AllocError>
        ensures ok { IfOk result
            (λ onward. Meets self.old (course_along self.old text) onward self.new) }
        ensures err { OnErr result (self.new ≡ self.old) }
    {
        let is_last = self.rest.is_empty();
        if is_last && !self.manner.is_followed(self.slash) {
            return Ok(Onward::Ends(Ok(End::LinkText(text))));
        }
        if self.links == 0 {
            return Ok(Onward::Ends(Err(Errno::Eloop)));
        }
        let front = Parts::read(alloc, &text)?;
        self.rest.put_front(front)?;
        self.links -= 1;
        if is_last {
            self.slash |= has_slash(&text);
        }
        self.spot = self.spot.start_of(&text);
        Ok(Onward::Goes)
    }
}
