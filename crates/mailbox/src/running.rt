//! One job of a place in execution is taken and run.

ghost use Rattle.std.specs.Prelude.{◌≡◌, ◌<◌, ◌≤◌, ◌++◌, OnOk, Some, None, slice_get};
ghost use Rattle.proxy_laws.specs.declared.records.Started.{Started};
ghost use Rattle.post_core.specs.Kept.{listed};
ghost use Rattle.post_core.specs.OwnerViews.{IsExecOf, IsSameExec, exec_place, exec_room, exec_view};
ghost use Rattle.post_core.specs.SendParts.{HasPlace, post_target};
ghost use Rattle.mailbox.specs.declared.runner.Ran.{Ran};
ghost use Rattle.mailbox.specs.Calls.{held_by, run_job};
ghost use Rattle.mailbox.specs.Deeds.{kept_job};
ghost use Rattle.mailbox.specs.Runs.{run_calls};
ghost use Rattle.mailbox.specs.Turns.{IsTurn, NoneRun, jobs_in, view_after_run};

use crate::runner::{Ran, Runner};
use post_core::{Exec, Meant, Post, SeenEmpty, Taken};
use proxy_laws::{FateMark, Mark};
use std::alloc::AllocError;
use std::sync::Wait;

/// What comes of one turn of an execution.
pub enum Turn<J: Meant> {
    /// A job was taken and run.
    Ran(Exec<J>),
    /// None waits.
    Empty(SeenEmpty<J>),
    /// Memory was wanting, and no job was taken.
    NoMemory(Exec<J>),
}

/// Runs a job that was taken. Unless the runner holds it, it is settled as finished, and then told.
fn run_taken<J: Meant, R: Runner<J>>(
    post: &Post<J>,
    exec: &mut Exec<J>,
    runner: &mut R,
    nth: u64,
    mark: Mark,
    job: J,
)
    requires exec { IsExecOf post.now exec.old × HasPlace post.now (exec_place exec.old) }
    requires target { R.target runner.old ≡ post_target post.now }
    requires room { 0 < R.room runner.old }
    requires suits { J.suits (post_target post.now) (exec_place exec.old) mark (J.meaning job) }
    requires taken { (s : Started)
        × (slice_get (listed (jobs_in (exec_view exec.old)) (exec_place exec.old)) nth
        ≡ Some (kept_job (run_job (post_target post.now) (exec_place exec.old) nth mark
        (J.meaning job)) s None)) }
    ensures exec { IsExecOf post.now exec.new × (exec_place exec.new ≡ exec_place exec.old) }
    ensures target { R.target runner.new ≡ R.target runner.old }
    ensures ran { (ran : Ran R.Tail)
        × R.did runner.old (run_calls (run_job (post_target post.now) (exec_place exec.old)
        nth mark (J.meaning job)) ran) runner.new
        × (R.held runner.new ≡ R.held runner.old ++ held_by
        (run_job (post_target post.now) (exec_place exec.old) nth mark (J.meaning job)) ran)
        × (exec_view exec.new ≡ view_after_run (exec_place exec.old) nth ran (exec_view exec.old)) }
{
    let place = exec.place();
    match runner.run(job, mark, place, nth) {
        Ran::Finished(tail) => {
            let note = exec.settle(post, place, nth, FateMark::Finished);
            runner.tell(tail, place, nth, FateMark::Finished, &note);
        }
        Ran::Held => {}
    }
}

/// Makes room for one job more that is taken, and held.
fn make_ready<J: Meant, R: Runner<J>>(exec: &mut Exec<J>, runner: &mut R) -> Result<(), AllocError>
    ensures target { R.target runner.new ≡ R.target runner.old }
    ensures none { NoneRun R.did R.held (R.target runner.old) runner.old runner.new }
    ensures same { IsSameExec exec.old exec.new }
    ensures room { OnOk result ((0 < R.room runner.new) × (1 ≤ exec_room exec.new)) }
{
    runner.ready()?;
    exec.ready()
}

/// Takes the first job that waits and runs it, or finds that none waits.
fn run_first<W: Wait, J: Meant, R: Runner<J>>(
    rt: &W,
    post: &Post<J>,
    exec: Exec<J>,
    runner: &mut R,
) -> Turn<J>
    requires exec { IsExecOf post.now exec × HasPlace post.now (exec_place exec) }
    requires target { R.target runner.old ≡ post_target post.now }
    requires room { (0 < R.room runner.old) × (1 ≤ exec_room exec) }
    ensures target { R.target runner.new ≡ R.target runner.old }
    ensures turn { IsTurn R.did R.held (post_target post.now) post.now runner.old runner.new
        (exec_place exec) (exec_view exec) result }
{
    match exec.take(rt, post) {
        Taken::Job {
            exec: mut after,
            nth,
            mark,
            job,
        } => {
            run_taken(post, &mut after, runner, nth, mark, job);
            Turn::Ran(after)
        }
        Taken::Empty(seen) => Turn::Empty(seen),
    }
}

/// Takes the first job that waits and runs it, or finds that none waits. Nothing is taken without room for the job.
pub(crate) fn run_next<W: Wait, J: Meant, R: Runner<J>>(
    rt: &W,
    post: &Post<J>,
    mut exec: Exec<J>,
    runner: &mut R,
) -> Turn<J>
    requires exec { IsExecOf post.now exec × HasPlace post.now (exec_place exec) }
    requires target { R.target runner.old ≡ post_target post.now }
    ensures target { R.target runner.new ≡ R.target runner.old }
    ensures turn { IsTurn R.did R.held (post_target post.now) post.now runner.old runner.new
        (exec_place exec) (exec_view exec) result }
{
    if make_ready(&mut exec, runner).is_err() {
        return Turn::NoMemory(exec);
    }
    run_first(rt, post, exec, runner)
}
