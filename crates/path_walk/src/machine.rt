ghost use Rattle.std.specs.Prelude.{◌≡◌, IfOk, OnErr, None, Some};
ghost use Rattle.path_walk.specs.PathMeaning.{path_start};
ghost use Rattle.path_walk.specs.Plans.{program_of};
ghost use Rattle.path_walk.specs.Calls.{IsVersion, act_of, act_plan, plan_after, unlinked_by};
ghost use Rattle.path_walk.specs.Machine.{Expects, IsOpeningFile, IsPlain, IsStart, IsWalking, Shows, base_of, begun, goal_of, left_at, link_route, new_route_of, open_route_of, resumed, route_of, trail_from};
ghost use Rattle.path_walk.specs.declared.trail.Stage.{Stage};
ghost use Rattle.path_walk.specs.declared.trail.Stage.TheVariants.{Start};

use crate::act::Act;
use crate::call::{Call, Need};
use crate::descriptor_call::{
    after_enter, after_numbers, after_release, change_numbers, enter_number,
};
use crate::goal::step_on_file;
use crate::open_request::OpenRoute;
use crate::open_stage::open;
use crate::reply::reply_to;
use crate::route::{End, Route};
use crate::step::{StepAnswer, StoreAnswer};
use crate::trail::{Advance, Onward, Pause, Stage, Trail, fault, node_in, over};
use file_store::FileOp;
use name_store::NameAnswer;
use std::alloc::{AllocError, Global};
use std::marker::Model;
use std::mem;
use wf_core::{Errno, FileId};

/// One call, step by step: it tells which step it needs, and goes on from the answer.
#[derive(Drop)]
pub struct CallMachine {
    alloc: Global,
    stage: Stage,
}

impl Model for CallMachine {
    ghost Value = { Stage };

    ghost view = { λ m. m.stage };
}

impl CallMachine {
    /// The machine of a call that is not begun, in a trace of that version.
    pub fn new(alloc: Global, call: Call, version: u32) -> CallMachine
        requires { IsVersion version }
        ensures { result ≡ Start (act_of version call) }
    {
        CallMachine {
            alloc,
            stage: Stage::Start(call.act(version)),
        }
    }

    /// What the call needs next. The first call of `next` has no answer, and each further one has the answer
    /// to the step that the one before asked for. Want of memory changes nothing.
    pub fn next(&mut self, answer: Option<StepAnswer>) -> Result<Need, AllocError>
        requires { Expects self.old answer }
        ensures ok { IfOk result (λ need. Shows need (resumed self.old answer) self.new) }
        ensures err { OnErr result (self.new ≡ self.old) }
    {
        match answer {
            None => self.begin(),
            Some(answer) => self.resume(answer),
        }
    }

    fn begin(&mut self) -> Result<Need, AllocError>
        requires { Expects self.old None }
        ensures ok { IfOk result (λ need. Shows need (resumed self.old None) self.new) }
        ensures err { OnErr result (self.new ≡ self.old) }
    {
        let Stage::Start(act) = &self.stage else {
            unreachable!();
        };
        let route = act.route(self.alloc)?;
        let new = act.new_route(self.alloc)?;
        let to_open = act.open_route(self.alloc)?;
        let stage = mem::replace(&mut self.stage, Stage::Over);
        Ok(self.take(begin(stage, route, new, to_open)))
    }

    fn take(&mut self, pause: Pause) -> Need
        ensures { (self.new ≡ pause.stage) × (result ≡ pause.need) }
    {
        self.stage = pause.stage;
        pause.need
    }

    fn resume(&mut self, answer: StepAnswer) -> Result<Need, AllocError>
        requires { Expects self.old (Some answer) }
        ensures ok { IfOk result (λ need. Shows need (resumed self.old (Some answer)) self.new) }
        ensures err { OnErr result (self.new ≡ self.old) }
    {
        match &self.stage {
            Stage::Walking(_) => self.walk_on(answer),
            Stage::OpeningFile(_) => self.open_on(answer),
            _ => Ok(self.go_on(answer)),
        }
    }

    /// Goes on without want of memory.
    fn go_on(&mut self, answer: StepAnswer) -> Need
        requires waits { Expects self.old (Some answer) }
        requires plain { IsPlain self.old }
        ensures { Shows result (resumed self.old (Some answer)) self.new }
    {
        let stage = mem::replace(&mut self.stage, Stage::Over);
        self.take(after_step(stage, answer))
    }

    /// Goes on with an `open`. A link's text is read while the stage still stands.
    fn open_on(&mut self, answer: StepAnswer) -> Result<Need, AllocError>
        requires { IsOpeningFile self.old }
        ensures ok { IfOk result (λ need. Shows need (resumed self.old (Some answer)) self.new) }
        ensures err { OnErr result (self.new ≡ self.old) }
    {
        let route = self.link_route(&answer)?;
        let stage = mem::replace(&mut self.stage, Stage::Over);
        Ok(self.take(after_open_step(stage, answer, route)))
    }

    /// The path of the link to which an `open` is led.
    fn link_route(&self, answer: &StepAnswer) -> Result<Option<OpenRoute>, AllocError>
        requires { IsOpeningFile self.now }
        ensures { IfOk result (λ route. route ≡ link_route self.now answer.now) }
    {
        match &self.stage {
            Stage::OpeningFile(stage) => stage.route(self.alloc, answer),
            _ => unreachable!(),
        }
    }

    /// Goes on along the trail, where it stands: it is moved at its end alone.
    fn walk_on(&mut self, answer: StepAnswer) -> Result<Need, AllocError>
        requires { IsWalking self.old }
        ensures ok { IfOk result (λ need. Shows need (resumed self.old (Some answer)) self.new) }
        ensures err { OnErr result (self.new ≡ self.old) }
    {
        let Stage::Walking(trail) = &mut self.stage else {
            unreachable!();
        };
        let end = match trail.meet(self.alloc, node_in(answer))? {
            Onward::Ends(end) => end,
            Onward::Goes => match trail.advance() {
                Advance::Asks(need) => return Ok(need),
                Advance::Ends(end) => end,
            },
        };
        Ok(self.finish(end))
    }

    fn finish(&mut self, end: Result<End, Errno>) -> Need
        requires { IsWalking self.old }
        ensures { Shows result (left_at self.old end) self.new }
    {
        let stage = mem::replace(&mut self.stage, Stage::Over);
        self.take(after_walk(stage, end))
    }
}

/// What follows the answer to a step that is no walk's and no `open`'s.
fn after_step(stage: Stage, answer: StepAnswer) -> Pause
    requires waits { Expects stage (Some answer) }
    requires plain { IsPlain stage }
    ensures { Shows result.need (resumed stage (Some answer)) result.stage }
{
    match stage {
        Stage::LastOnNames(backend) => after_names(backend, answer),
        Stage::Starting(trail) => trail.start(answer),
        Stage::Entering => after_enter(answer),
        Stage::Last => over(reply_to(answer)),
        Stage::Looking(call) => call.after_look(answer),
        Stage::LastOnDescriptors => after_numbers(answer),
        Stage::Releasing(reply) => after_release(reply, answer),
        _ => unreachable!(),
    }
}

/// What follows the answer to a step of an `open`.
fn after_open_step(stage: Stage, answer: StepAnswer, route: Option<OpenRoute>) -> Pause
    requires opening { IsOpeningFile stage }
    requires route { route ≡ link_route stage answer }
    ensures { Shows result.need (resumed stage (Some answer)) result.stage }
{
    match stage {
        Stage::OpeningFile(stage) => stage.after(answer, route),
        _ => unreachable!(),
    }
}

/// What follows the end of a walk.
fn after_walk(stage: Stage, end: Result<End, Errno>) -> Pause
    requires { IsWalking stage }
    ensures { Shows result.need (left_at stage end) result.stage }
{
    match stage {
        Stage::Walking(trail) => trail.finish(end),
        _ => unreachable!(),
    }
}

/// Begins the call of a stage, with the paths of it that are read.
fn begin(
    stage: Stage,
    route: Option<Result<Route, Errno>>,
    new: Option<Result<Route, Errno>>,
    to_open: Option<Result<OpenRoute, Errno>>,
) -> Pause
    requires { IsStart stage route new to_open }
    ensures { Shows result.need (resumed stage None) result.stage }
{
    match stage {
        Stage::Start(act) => match route {
            Some(route) => begin_walk(act, route, new),
            None => begin_step(act, to_open),
        },
        _ => unreachable!(),
    }
}

/// Begins a call with its first step.
fn begin_step(act: Act, to_open: Option<Result<OpenRoute, Errno>>) -> Pause
    requires first { None ≡ route_of act }
    requires open { to_open ≡ open_route_of act }
    ensures { Shows result.need (program_of (act_plan act)) result.stage }
{
    match to_open {
        Some(route) => begin_open(act, route),
        None => begin_on_number(act),
    }
}

fn begin_open(act: Act, route: Result<OpenRoute, Errno>) -> Pause
    requires { Some route ≡ open_route_of act }
    ensures { Shows result.need (program_of (act_plan act)) result.stage }
{
    match act {
        Act::Open(at, flags) => open(flags, at.base, route),
        _ => unreachable!(),
    }
}

/// Begins a call on what a number names.
fn begin_on_number(act: Act) -> Pause
    requires first { None ≡ route_of act }
    requires open { None ≡ open_route_of act }
    ensures { Shows result.need (program_of (act_plan act)) result.stage }
{
    match act {
        Act::EnterNumber(number) => enter_number(number),
        Act::Numbers(op) => change_numbers(op),
        Act::Data(number, data) => data.begin(number),
        _ => unreachable!(),
    }
}

/// Begins a call along its routes.
fn begin_walk(act: Act, route: Result<Route, Errno>, new: Option<Result<Route, Errno>>) -> Pause
    requires first { Some route ≡ route_of act }
    requires other { new ≡ new_route_of act }
    ensures { Shows result.need (program_of (act_plan act)) result.stage }
{
    if let Some(errno) = act.early_fault() {
        return fault(errno);
    }
    match route {
        Err(errno) => fault(errno),
        Ok(route) => begin_along(act, route, new),
    }
}

/// Begins a call along a route that may be walked.
fn begin_along(act: Act, route: Route, new: Option<Result<Route, Errno>>) -> Pause
    requires first { Some (Ok route) ≡ route_of act }
    requires other { new ≡ new_route_of act }
    ensures { Shows result.need (begun (base_of act)
        (trail_from path_start route.parts route.manner route.slash
        (goal_of act route.last route.slash))) result.stage }
{
    let Route {
        parts,
        last,
        manner,
        slash,
    } = route;
    let base = act.base();
    Trail::from_root(parts, manner, slash, act.goal(last, slash, new)).begin(base)
}

/// The file that a step on names has left without an entry.
fn unlinked_by(answer: &StepAnswer) -> Option<FileId>
    ensures { result ≡ unlinked_by answer.now }
{
    match answer {
        StepAnswer::Answered(
            StoreAnswer::Names(NameAnswer::RemovedFile(file) | NameAnswer::Over(file)),
        ) => Some(*file),
        _ => None,
    }
}

/// What follows the last step on the names of a backend.
fn after_names(backend: u32, answer: StepAnswer) -> Pause
    ensures { Shows result.need (program_of (plan_after backend answer (unlinked_by answer)))
        result.stage }
{
    match unlinked_by(&answer) {
        Some(file) => step_on_file(backend, file.number(), FileOp::Unlinked(file)),
        None => over(reply_to(answer)),
    }
}
