ghost use Rattle.std.specs.Prelude.{◌≡◌, ◌≤◌, ◌<◌, ◌∷◌, ◌++◌, [], ℕ, List, length, Option, IfOk, MatchResult};
ghost use Rattle.wf_core.specs.Limits.{call_steps_max};
ghost use Rattle.path_walk.specs.Store.{Store};
ghost use Rattle.path_walk.specs.Backing.{IsCellOf, IsAnswerOf};
ghost use Rattle.path_walk.specs.Programs.{Step, step_of, Begins};
ghost use Rattle.path_walk.specs.Posix.{Walk, program};
ghost use Rattle.path_walk.specs.Alone.{StepsAlone, CallsAlone};
ghost use Rattle.path_walk.specs.Calls.{IsVersion, act_of};
ghost use Rattle.path_walk.specs.declared.call.Call.{Call};
ghost use Rattle.path_walk.specs.declared.trail.Stage.TheVariants.{Start};

use crate::call::{Call, Need, Reply};
use crate::machine::CallMachine;
use crate::step::{CellId, StepAnswer, StoreOp};
use std::alloc::{AllocError, Global};
use wf_core::CALL_STEPS_MAX;

/// The backends of a store, as one call meets them.
pub trait Backends {
    /// How many there are, the root's among them.
    ghost backends: { Self → ℕ };

    /// The store, where nobody else changes it.
    ghost store: { Self → Option Store };

    /// These steps, one after another, lead from the one to the other.
    ghost ran: { Self → List Step → Self → Type 0 };

    /// Takes one step on a cell, or finds no memory.
    fn step(&mut self, cell: CellId, op: StoreOp) -> Result<StepAnswer, AllocError>
        requires { IsCellOf (backends self.old) cell op }
        ensures form { IfOk result (IsAnswerOf (backends self.old) op) }
        ensures same { backends self.new ≡ backends self.old }
        ensures ran { ran self.old (step_of cell op result ∷ []) self.new }
        ensures alone { StepsAlone (store self.old) cell op result (store self.new) };

    ghost root: { (b : Self) → 0 < backends b };

    ghost ran_none: { (b : Self) → ran b [] b };

    ghost ran_on: { (a b c : Self) (s t : List Step) → ran a s b → ran b t c → ran a (s ++ t) c };
}

/// Performs a call of a trace of that version: takes its steps on the backends, at most `CALL_STEPS_MAX`, and gives its
/// reply.
pub fn perform<B: Backends>(
    alloc: Global,
    call: Call,
    backends: &mut B,
    version: u32,
) -> Result<Reply, AllocError>
    requires { IsVersion version }

    // The steps that were taken in this call, in order, are the call's, and the reply is theirs.
    ensures walk { (steps : List Step) × B.ran backends.old steps backends.new
        × (length steps ≤ call_steps_max)
        × MatchResult result (λ reply. Walk version call steps reply)
        (λ _. Begins (program version call) steps) }

    // Where nobody else changes the store, the reply and the store are those of the call at once.
    ensures alone { IfOk result
        (λ reply. CallsAlone version (B.store backends.old) call reply (B.store backends.new)) }

    ensures same { B.backends backends.new ≡ B.backends backends.old }
{
    let mut machine = CallMachine::new(alloc, call, version);
    take_steps(&mut machine, backends)
}

/// Takes the steps of a call that is not begun.
fn take_steps<B: Backends>(machine: &mut CallMachine, backends: &mut B) -> Result<Reply, AllocError>
    requires { (version : ℕ) × (call : Call) × (machine.old ≡ Start (act_of version call)) }
    ensures walk { (version : ℕ) (call : Call) → machine.old ≡ Start (act_of version call)
        → (steps : List Step) × B.ran backends.old steps backends.new
        × (length steps ≤ call_steps_max)
        × MatchResult result (λ reply. Walk version call steps reply)
        (λ _. Begins (program version call) steps) }
    ensures alone { (version : ℕ) (call : Call) → machine.old ≡ Start (act_of version call)
        → IfOk result (λ reply. CallsAlone version (B.store backends.old) call reply
        (B.store backends.new)) }
    ensures same { B.backends backends.new ≡ B.backends backends.old }
{
    let mut answer = None;
    for _ in 0..CALL_STEPS_MAX {
        match machine.next(answer)? {
            Need::Step(cell, op) => answer = Some(backends.step(cell, op)?),
            Need::Done(reply) => return Ok(reply),
        }
    }
    match machine.next(answer)? {
        Need::Done(reply) => Ok(reply),
        Need::Step(..) => unreachable!(),
    }
}
