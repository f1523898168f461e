ghost use Rattle.std.specs.Prelude.{◌≡◌, IfOk, IsOk, OnErr};
ghost use Rattle.name_store.specs.NameTrees.{dir_at, list_answer, look_answer, nstep, outcome_of, parent_answer, unless_gone};
ghost use Rattle.name_store.specs.Sound.{IsSound};
ghost use Rattle.name_store.specs.Forms.{HasNoText, IsForm, IsSpare};

use crate::directories::Directories;
use crate::operation::{NameAnswer, NameOp, Node};
use std::alloc::AllocError;
use wf_core::{DirId, Name};

impl Directories {
    /// Takes one step, which is the definition's. Want of memory changes nothing.
    pub(crate) fn step(&mut self, op: &NameOp) -> Result<NameAnswer, AllocError>
        requires { IsSound self.old }
        ensures ok { IfOk result
            (λ answer. nstep self.old op.now ≡ record { tree = self.new; answer = answer }) }
        ensures form { IfOk result (IsForm op.now) }
        ensures err { OnErr result (self.new ≡ self.old) }
        ensures succeeds { IsSpare op.now → HasNoText (nstep self.old op.now).answer → IsOk result }
    {
        match op {
            NameOp::Look(id, name) => self.look(*id, name),
            NameOp::Parent(id) => Ok(self.parent(*id)),
            NameOp::Makedir(id, name) => self.makedir(*id, name),
            NameOp::Addlink {
                directory,
                name,
                text,
            } => self.addlink(*directory, name, text),
            NameOp::Addfile {
                directory,
                name,
                file,
            } => self.addfile(*directory, name, *file),
            NameOp::Remfile {
                directory,
                name,
                slash,
            } => Ok(self.remfile(*directory, name, *slash)),
            NameOp::Remdir(id, name) => Ok(self.remdir(*id, name)),
            NameOp::Move {
                from,
                name,
                to,
                new_name,
                slash,
            } => self.move_entry(*from, name, *to, new_name, *slash),
            NameOp::List { directory, start } => self.list(*directory, *start),
        }
    }

    fn look(&self, id: DirId, name: &Name) -> Result<NameAnswer, AllocError>
        ensures ok { IfOk result (λ answer. nstep self.now (NameOp.Look id name.now)
            ≡ outcome_of self.now answer) }
        ensures succeeds { HasNoText (nstep self.now (NameOp.Look id name.now)).answer
            → IsOk result }
    {
        let Some(directory) = self.get(id) else {
            return Ok(NameAnswer::Gone);
        };
        match directory.entry(name) {
            Some(node) => Ok(NameAnswer::Found(node.copy()?)),
            None => Ok(NameAnswer::Absent),
        }
    }

    fn parent(&self, id: DirId) -> NameAnswer
        ensures { nstep self.now (NameOp.Parent id) ≡ outcome_of self.now result }
    {
        match self.get(id) {
            Some(directory) => NameAnswer::Found(Node::Dir(directory.parent())),
            None => NameAnswer::Gone,
        }
    }

    fn list(&self, id: DirId, start: u32) -> Result<NameAnswer, AllocError>
        ensures ok { IfOk result (λ answer. nstep self.now (NameOp.List id start)
            ≡ outcome_of self.now answer) }
        ensures succeeds { HasNoText (nstep self.now (NameOp.List id start)).answer
            → IsOk result }
    {
        match self.get(id) {
            Some(directory) => Ok(NameAnswer::Names(directory.names(self.alloc(), start)?)),
            None => Ok(NameAnswer::Gone),
        }
    }
}
