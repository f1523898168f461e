//! A run of a world over a list of events.

ghost use Rattle.std.specs.Prelude.{OnOk, IfErr};
ghost use Rattle.proxy_laws.specs.Runs.{LeadsBy};
ghost use Rattle.proxy_laws.specs.Sound.{Sound};
ghost use Rattle.proxy_model.specs.Refusals.{CanStep};
ghost use Rattle.proxy_model.specs.Runs.{StopsAt};
ghost use Rattle.proxy_model.specs.Shown.{world_of};

use crate::refusals::StepRefusal;
use crate::worlds::World;
use proxy_laws::Event;

/// Steps by the events in turn, and stops at the first refusal, whose index it gives.
pub fn run(world: &mut World, events: &[Event]) -> Result<(), (usize, StepRefusal)>
    ensures ok { OnOk result
        (LeadsBy CanStep (world_of world.old) events.now (world_of world.new)) }
    ensures stops { IfErr result
        (λ at. StopsAt (world_of world.old) events.now at.0 at.1 (world_of world.new)) }
    // Whatever the events, and whether they were accepted.
    ensures sound { Sound (world_of world.old) → Sound (world_of world.new) }
{
    for (index, event) in events.iter().enumerate() {
        if let Err(refusal) = world.step(event) {
            return Err((index, refusal));
        }
    }
    Ok(())
}
