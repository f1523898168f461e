//! The jobs of a place are run, until none waits.

ghost use Rattle.std.specs.Prelude.{◌≡◌};
ghost use Rattle.post_core.specs.OwnerViews.{IsExecOf, exec_place, exec_view};
ghost use Rattle.post_core.specs.SendParts.{HasPlace, post_target};
ghost use Rattle.mailbox.specs.Turns.{IsExecuted};

use crate::runner::Runner;
use crate::running::{Turn, run_next};
use post_core::{Exec, Meant, Owner, Post};
use std::sync::Wait;

/// What comes of the execution of a place.
pub enum Executed<J: Meant> {
    /// So many jobs were run, and then none waited. The number stays at its greatest value.
    Emptied(Owner<J>, u32),
    /// Memory was wanting. The place is in execution.
    NoMemory(Exec<J>),
}

/// Runs the jobs of the place that is in execution, until none waits.
pub(crate) fn execute_place<W: Wait, J: Meant, R: Runner<J>>(
    rt: &W,
    post: &Post<J>,
    mut exec: Exec<J>,
    runner: &mut R,
) -> Executed<J>
    requires exec { IsExecOf post.now exec × HasPlace post.now (exec_place exec) }
    requires target { R.target runner.old ≡ post_target post.now }
    ensures target { R.target runner.new ≡ R.target runner.old }
    ensures executed { IsExecuted R.did R.held (post_target post.now) post.now runner.old runner.new
        (exec_place exec) (exec_view exec) result }
{
    let mut count: u32 = 0;
    for _ in rt.forever() {
        match run_next(rt, post, exec, runner) {
            Turn::Ran(after) => {
                exec = after;
                count = count.saturating_add(1);
            }
            Turn::Empty(seen) => return Executed::Emptied(seen.finish(post), count),
            Turn::NoMemory(same) => return Executed::NoMemory(same),
        }
    }
    unreachable!()
}
