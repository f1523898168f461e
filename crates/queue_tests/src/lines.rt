//! What the threads of senders have, as they begin and as they end.

ghost use Rattle.std.specs.Prelude.{◌≡◌, All, IfSome, length};
ghost use Rattle.post_core.specs.SendParts.{pass_view, post_senders};
ghost use Rattle.proxy_queue.specs.Sets.{set_post};
ghost use Rattle.queue_tests.specs.Beside.{AreLines};
ghost use Rattle.queue_tests.specs.Scenes.{AreAllPasses, HasSentNone, MayAllSend};

use crate::parts::{Did, Line};
use post_core::SendPass;
use proxy_queue::{QueueSet, QueueUse};
use std::process::Abort;

/// All that the threads of senders had and did, by sender.
pub(crate) struct Ends {
    pub(crate) passes: Vec<SendPass<u64>>,
    pub(crate) uses: Vec<QueueUse<u64>>,
    pub(crate) did: Vec<Did>,
}

/// A line for each sender, the last first.
pub(crate) fn lines(
    rt: &(impl Abort + AllocGlobal),
    set: &QueueSet<u64>,
    mut passes: Vec<SendPass<u64>>,
    mut system: Vec<QueueUse<u64>>,
) -> Vec<Line>
    requires senders { MayAllSend (set_post set.now) passes.items system.items }
    requires passes { AreAllPasses (set_post set.now) passes.items }
    requires fresh { All (λ pass. HasSentNone (pass_view pass)) passes.items }
    ensures count { length result.items ≡ post_senders (set_post set.now) }
    ensures lines { AreLines (set_post set.now) (post_senders (set_post set.now)) result.items }
    ensures fresh { All (λ line. IfSome line.pass (λ pass. HasSentNone (pass_view pass)))
        result.items }
{
    let mut lines = Vec::new(rt.alloc());
    while let Some(pass) = passes.pop() {
        let place_use = match system.pop() {
            Some(place_use) => place_use,
            None => panic!(rt; "a sender without a use"),
        };
        let line = Line {
            place_use,
            pass: Some(pass),
            did: Did {
                sent: 0,
                busy: 0,
                closed: 0,
                sends: 0,
            },
        };
        lines.reserve(1).expect(rt, "memory for a line");
        lines.push_reserved(line);
    }
    passes.destroy_empty();
    if let Some(_place_use) = system.pop() {
        panic!(rt; "a use without a sender");
    }
    system.destroy_empty();
    lines
}

/// All that the lines have, by sender.
pub(crate) fn ends_of(
    rt: &(impl Abort + AllocGlobal),
    _set: &QueueSet<u64>,
    mut lines: Vec<Line>,
) -> Ends
    requires count { length lines.items ≡ post_senders (set_post _set.now) }
    requires lines { AreLines (set_post _set.now) (post_senders (set_post _set.now)) lines.items }
    ensures { AreAllPasses (set_post _set.now) result.passes.items }
{
    let mut passes = Vec::new(rt.alloc());
    let mut uses = Vec::new(rt.alloc());
    let mut did = Vec::new(rt.alloc());
    while let Some(line) = lines.pop() {
        let Line {
            place_use,
            pass,
            did: done,
        } = line;
        let pass = match pass {
            Some(pass) => pass,
            None => panic!(rt; "a thread without its pass"),
        };
        passes.reserve(1).expect(rt, "memory for a pass");
        passes.push_reserved(pass);
        uses.reserve(1).expect(rt, "memory for a use");
        uses.push_reserved(place_use);
        did.push(done).expect(rt, "memory for what a thread did");
    }
    lines.destroy_empty();
    Ends { passes, uses, did }
}
