//! The notices of a mailbox are served, until none is found.

ghost use Rattle.std.specs.Prelude.{◌≡◌};
ghost use Rattle.post_core.specs.OwnerViews.{IsOwnerOf, owner_view};
ghost use Rattle.post_core.specs.SendParts.{post_target};
ghost use Rattle.mailbox.specs.Checks.{IsChecked, IsServed};

use crate::executing::{Executed, execute_place};
use crate::runner::Runner;
use post_core::{Exec, Meant, Noticed, Owner, Post};
use std::sync::Wait;

/// What comes of one look into the mailbox.
pub enum Served<J: Meant> {
    /// No word had a notice.
    Nothing(Owner<J>),
    /// A notice was got, and the jobs of its place were run until none waited.
    Place(Owner<J>),
    /// A notice was got, and memory was wanting. The place is in execution.
    NoMemory(Exec<J>),
}

/// What comes of serving a mailbox.
pub enum Checked<J: Meant> {
    /// So many notices were got, and then none was found. The number stays at its greatest value.
    Nothing(Owner<J>, u32),
    /// Memory was wanting. The place of the last notice is in execution.
    NoMemory(Exec<J>),
}

/// Takes the next notice, if there is one, and runs the jobs of its place.
fn serve_next<W: Wait, J: Meant, R: Runner<J>>(
    rt: &W,
    post: &Post<J>,
    owner: Owner<J>,
    runner: &mut R,
) -> Served<J>
    requires owner { IsOwnerOf post.now owner }
    requires target { R.target runner.old ≡ post_target post.now }
    ensures target { R.target runner.new ≡ R.target runner.old }
    ensures served { IsServed R.did R.held (post_target post.now) post.now runner.old runner.new
        (owner_view owner) result }
{
    match owner.next_notice(post) {
        Noticed::Nothing(owner) => Served::Nothing(owner),
        Noticed::Got(got) => match execute_place(rt, post, got.receive(post), runner) {
            Executed::Emptied(owner, _jobs) => Served::Place(owner),
            Executed::NoMemory(exec) => Served::NoMemory(exec),
        },
    }
}

/// Serves notices until none is found.
pub(crate) fn serve_all<W: Wait, J: Meant, R: Runner<J>>(
    rt: &W,
    post: &Post<J>,
    mut owner: Owner<J>,
    runner: &mut R,
) -> Checked<J>
    requires owner { IsOwnerOf post.now owner }
    requires target { R.target runner.old ≡ post_target post.now }
    ensures target { R.target runner.new ≡ R.target runner.old }
    ensures checked { IsChecked R.did R.held (post_target post.now) post.now runner.old runner.new
        (owner_view owner) result }
{
    let mut notices: u32 = 0;
    for _ in rt.forever() {
        match serve_next(rt, post, owner, runner) {
            Served::Nothing(same) => return Checked::Nothing(same, notices),
            Served::Place(after) => {
                owner = after;
                notices = notices.saturating_add(1);
            }
            Served::NoMemory(exec) => return Checked::NoMemory(exec),
        }
    }
    unreachable!()
}
