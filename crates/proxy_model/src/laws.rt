//! What a user may conclude of every world. The functions do nothing: each clause is a law.

ghost use Rattle.proxy_laws.specs.Worlds.{IsWellFormed};
ghost use Rattle.proxy_model.specs.Runs.{StepsLead};
ghost use Rattle.proxy_model.specs.Shown.{world_of};

use crate::worlds::World;

/// Every world names only its own senders and places.
pub fn world_is_well_formed(world: &World)
    ensures { IsWellFormed (world_of world.now) }
{}

/// What a world steps through is a run by enabled events, so that the laws of runs hold of it.
pub fn steps_lead()
    ensures { StepsLead }
{}
