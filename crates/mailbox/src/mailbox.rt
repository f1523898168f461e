//! The mailbox is checked, and places are executed.

ghost use Rattle.std.specs.Prelude.{◌≡◌, ℕ, IsSome, IfOk, IfErr, None, Some, false, true};
ghost use Rattle.proxy_laws.specs.declared.records.Started.TheVariants.{Direct};
ghost use Rattle.post_core.specs.OwnerViews.{IsExecOf, IsOwnerOf, exec_place, exec_view, owner_view};
ghost use Rattle.post_core.specs.SendParts.{HasPlace, post_places, post_target, use_place};
ghost use Rattle.post_core.specs.Views.{owner_of};
ghost use Rattle.mailbox.specs.Boxes.{IsAtOf, IsMailboxOf, IsRestOf, at_left, at_view, is_at_work, is_unfinished, mailbox_view};
ghost use Rattle.mailbox.specs.CheckedBoxes.{HasChecked};
ghost use Rattle.mailbox.specs.Holding.{HoldsActive};
ghost use Rattle.mailbox.specs.Turns.{HasFoundNothing, HasRun, WereRun, counted, jobs_in, start_here};

use crate::checking::{Checked, serve_all};
use crate::executing::{Executed, execute_place};
use crate::owner_at::{At, Mailbox};
use crate::runner::Runner;
use post_core::{Exec, Meant, Owner, PlaceUse, Post};
use std::alloc::AllocError;
use std::mem;
use std::sync::Wait;

/// Serves the mailbox until no notice is found.
fn serve_at<W: Wait, J: Meant, R: Runner<J>>(
    rt: &W,
    post: &Post<J>,
    owner: Owner<J>,
    runner: &mut R,
) -> (At<J>, Result<u32, AllocError>)
    requires owner { IsOwnerOf post.now owner }
    requires target { R.target runner.old ≡ post_target post.now }
    ensures target { R.target runner.new ≡ R.target runner.old }
    ensures at { IsAtOf post.now result.0 }
    ensures ran { HasRun R.did R.held (post_target post.now) None
        runner.old runner.new (owner_view owner) (at_view result.0) }
    ensures ok { IfOk result.1 (λ count. HasFoundNothing count (owner_view owner) (at_view result.0)
        × (is_at_work result.0 ≡ false)) }
    ensures err { IfErr result.1 (λ e. is_at_work result.0 ≡ true) }
{
    match serve_all(rt, post, owner, runner) {
        Checked::Nothing(owner, notices) => (At::Rest(owner), Ok(notices)),
        Checked::NoMemory(exec) => (At::Work(exec), Err(AllocError)),
    }
}

/// Goes on with a place, and then serves the mailbox.
fn go_on<W: Wait, J: Meant, R: Runner<J>>(
    rt: &W,
    post: &Post<J>,
    exec: Exec<J>,
    runner: &mut R,
) -> (At<J>, Result<u32, AllocError>)
    requires exec { IsExecOf post.now exec × HasPlace post.now (exec_place exec) }
    requires target { R.target runner.old ≡ post_target post.now }
    ensures target { R.target runner.new ≡ R.target runner.old }
    ensures at { IsAtOf post.now result.0 }
    ensures ran { HasRun R.did R.held (post_target post.now)
        (Some (start_here (exec_place exec) (exec_view exec)))
        runner.old runner.new (exec_view exec) (at_view result.0) }
    ensures ok { IfOk result.1 (λ count. HasFoundNothing count (exec_view exec) (at_view result.0)
        × (is_at_work result.0 ≡ false)) }
    ensures err { IfErr result.1 (λ e. is_at_work result.0 ≡ true) }
{
    match execute_place(rt, post, exec, runner) {
        Executed::Emptied(owner, _jobs) => serve_at(rt, post, owner, runner),
        Executed::NoMemory(same) => (At::Work(same), Err(AllocError)),
    }
}

/// Goes on with what was left unfinished, and serves the mailbox until no notice is found.
fn check_at<W: Wait, J: Meant, R: Runner<J>>(
    rt: &W,
    post: &Post<J>,
    at: At<J>,
    runner: &mut R,
) -> (At<J>, Result<u32, AllocError>)
    requires at { IsAtOf post.now at }
    requires target { R.target runner.old ≡ post_target post.now }
    ensures target { R.target runner.new ≡ R.target runner.old }
    ensures at { IsAtOf post.now result.0 }
    ensures ran { HasRun R.did R.held (post_target post.now) (at_left at)
        runner.old runner.new (at_view at) (at_view result.0) }
    ensures ok { IfOk result.1 (λ count. HasFoundNothing count (at_view at) (at_view result.0)
        × (is_at_work result.0 ≡ false)) }
    ensures err { IfErr result.1 (λ e. is_at_work result.0 ≡ true) }
{
    match at {
        At::Rest(owner) => serve_at(rt, post, owner, runner),
        At::Work(exec) => go_on(rt, post, exec, runner),
    }
}

/// Runs the jobs of a place without a notice.
fn execute_at<W: Wait, J: Meant, R: Runner<J>>(
    rt: &W,
    post: &Post<J>,
    owner: Owner<J>,
    place_use: &PlaceUse<J>,
    runner: &mut R,
) -> (At<J>, Result<u32, AllocError>)
    requires owner { IsOwnerOf post.now owner }
    requires near { HasPlace post.now (use_place place_use.now) }
    requires target { R.target runner.old ≡ post_target post.now }
    ensures target { R.target runner.new ≡ R.target runner.old }
    ensures at { IsAtOf post.now result.0 }
    ensures got { (owner_of (at_view result.0)).got ≡ (owner_of (owner_view owner)).got }
    ensures ran { (n : ℕ) × WereRun R.did R.held (post_target post.now) (λ s. s ≡ Direct) n
        runner.old runner.new (owner_view owner) (at_view result.0)
        × IfOk result.1 (λ count. count ≡ counted n) }
    ensures ok { IfOk result.1 (λ count. is_at_work result.0 ≡ false) }
    ensures err { IfErr result.1 (λ e. is_at_work result.0 ≡ true) }
{
    match execute_place(rt, post, owner.direct(post, place_use), runner) {
        Executed::Emptied(owner, jobs) => (At::Rest(owner), Ok(jobs)),
        Executed::NoMemory(exec) => (At::Work(exec), Err(AllocError)),
    }
}

// Puts back where the owner is.
pub(crate) fn put_back<J: Meant>(slot: &mut Option<At<J>>, at: At<J>)
    requires { slot.old ≡ None }
    ensures { slot.new ≡ Some at }
{
    let before = mem::replace(slot, Some(at));
    let None = before else { unreachable!() };
}

// Takes where the owner is.
pub(crate) fn take_out<J: Meant>(slot: &mut Option<At<J>>) -> At<J>
    requires { IsSome slot.old }
    ensures { (slot.old ≡ Some result) × (slot.new ≡ None) }
{
    let taken = slot.take();
    let Some(at) = taken else { unreachable!() };
    at
}

// An owner that is at rest parks.
fn park_at<W: Wait, J: Meant>(rt: &W, post: &Post<J>, at: At<J>) -> At<J>
    ensures { result ≡ at }
{
    match at {
        At::Rest(owner) => At::Rest(owner.park(rt, post)),
        At::Work(exec) => At::Work(exec),
    }
}

impl<J: Meant> Mailbox<J> {
    /// The mailbox of an owner.
    pub fn new(owner: Owner<J>) -> Mailbox<J>
        ensures { IsRestOf owner result }
    {
        Mailbox {
            at: Some(At::Rest(owner)),
        }
    }

    /// Gives the owner back, where no execution was left unfinished. It takes no memory.
    pub fn into_owner(self) -> Owner<J>
        requires { is_unfinished self ≡ false }
        ensures { IsRestOf result self }
    {
        let Mailbox { at } = self;
        match at {
            Some(At::Rest(owner)) => owner,
            Some(At::Work(_exec)) => unreachable!(),
            None => unreachable!(),
        }
    }

    /// Whether an execution was left unfinished.
    pub fn unfinished(&self) -> bool
        ensures { result ≡ is_unfinished self.now }
    {
        match &self.at {
            Some(At::Work(_)) => true,
            _ => false,
        }
    }

    /// Goes on with an execution that was left unfinished, if there is one, and serves notices until none is found. It
    /// answers how many it got, 4,294,967,295 at most. Each job that it takes is run; unless the runner holds it, it is
    /// settled as finished, and then told. Where memory is wanting, the place stays in execution, and the next check goes
    /// on with it. It waits for the turn of a place.
    pub fn check<W: Wait, R: Runner<J>>(
        &mut self,
        rt: &W,
        post: &Post<J>,
        runner: &mut R,
    ) -> Result<u32, AllocError>
        requires mailbox { IsMailboxOf post.now self.old }
        requires target { R.target runner.old ≡ post_target post.now }
        ensures { HasChecked R.target R.did R.held post.now
            self.old self.new runner.old runner.new result }
    {
        let at = take_out(&mut self.at);
        let (at, result) = check_at(rt, post, at, runner);
        put_back(&mut self.at, at);
        result
    }

    /// Parks until somebody wakes the owner, or for no reason, unless an execution was left unfinished; and then checks.
    pub fn wait_check<W: Wait, R: Runner<J>>(
        &mut self,
        rt: &W,
        post: &Post<J>,
        runner: &mut R,
    ) -> Result<u32, AllocError>
        requires mailbox { IsMailboxOf post.now self.old }
        requires target { R.target runner.old ≡ post_target post.now }
        ensures { HasChecked R.target R.did R.held post.now
            self.old self.new runner.old runner.new result }
    {
        let at = take_out(&mut self.at);
        let at = park_at(rt, post, at);
        put_back(&mut self.at, at);
        self.check(rt, post, runner)
    }

    /// Runs the jobs of a place until none waits, without a notice, and answers how many, 4,294,967,295 at most. Where
    /// memory is wanting, the place stays in execution. It waits for the turn of the place.
    pub fn execute<W: Wait, R: Runner<J>>(
        &mut self,
        rt: &W,
        post: &Post<J>,
        place_use: &PlaceUse<J>,
        runner: &mut R,
    ) -> Result<u32, AllocError>
        requires mailbox { IsMailboxOf post.now self.old × (is_unfinished self.old ≡ false) }
        requires near { HasPlace post.now (use_place place_use.now) }
        requires target { R.target runner.old ≡ post_target post.now }
        ensures target { R.target runner.new ≡ R.target runner.old }
        ensures mailbox { IsMailboxOf post.now self.new }

        // No notice was got.
        ensures got { (owner_of (mailbox_view self.new)).got
            ≡ (owner_of (mailbox_view self.old)).got }

        // Each job that was run started directly; after Ok they are as many as is answered.
        ensures ran { (n : ℕ) × WereRun R.did R.held (post_target post.now) (λ s. s ≡ Direct) n
            runner.old runner.new (mailbox_view self.old) (mailbox_view self.new)
            × IfOk result (λ count. count ≡ counted n) }
        ensures held { HoldsActive (post_target post.now) (post_places post.now)
            (jobs_in (mailbox_view self.old)) (R.held runner.old)
            → HoldsActive (post_target post.now) (post_places post.now)
            (jobs_in (mailbox_view self.new)) (R.held runner.new) }
        ensures ok { IfOk result (λ count. is_unfinished self.new ≡ false) }
        ensures err { IfErr result (λ e. is_unfinished self.new ≡ true) }
    {
        match take_out(&mut self.at) {
            At::Rest(owner) => {
                let (at, result) = execute_at(rt, post, owner, place_use, runner);
                put_back(&mut self.at, at);
                result
            }
            At::Work(_exec) => unreachable!(),
        }
    }
}
