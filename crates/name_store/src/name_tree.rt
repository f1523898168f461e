ghost use Rattle.std.specs.Prelude.{◌≡◌, IfOk, IsOk, OnErr};
ghost use Rattle.name_store.specs.NameTrees.{nstep, opening};
ghost use Rattle.name_store.specs.Forms.{HasNoText, IsForm, IsSpare};
ghost use Rattle.name_store.specs.Sound.{IsSound};
ghost use Rattle.name_store.specs.Laws.{LeavesTree};
ghost use Rattle.name_store.specs.TreeLines.{tree_lines};
ghost use Rattle.name_store.specs.Visits.{LinesAreEntries};

use crate::directories::Directories;
use crate::operation::{NameAnswer, NameOp};
use crate::tree_line::TreeLine;
use std::alloc::{AllocError, Global};
use std::marker::Model;
use wf_core::{BackendId, Name};

/// The names of one backend, seen as a tree, which is sound.
#[derive(Drop)]
pub struct NameTree {
    directories: Directories,
}

impl Model for NameTree {
    ghost use Rattle.name_store.specs.NameTrees.{Tree};
    ghost use Rattle.name_store.specs.Sound.{IsSound};

    ghost Value = { Tree };

    ghost view = { λ t. t.directories };

    ghost invariant = { λ t. IsSound t.directories };
}

impl NameTree {
    /// The tree before the first operation: the root alone, in which each backend is mounted under its name. Of two
    /// with one name the later is.
    pub fn new(alloc: Global, mounts: Vec<(Name, BackendId)>) -> Result<NameTree, AllocError>
        ensures { IfOk result (λ tree. tree ≡ opening mounts.items) }
    {
        Ok(NameTree {
            directories: Directories::new(alloc, mounts)?,
        })
    }

    /// Takes one step, which is the definition's. Want of memory changes nothing.
    pub fn apply(&mut self, op: &NameOp) -> Result<NameAnswer, AllocError>
        ensures ok { IfOk result
            (λ answer. nstep self.old op.now ≡ record { tree = self.new; answer = answer }) }
        ensures form { IfOk result (IsForm op.now) }
        ensures err { OnErr result (self.new ≡ self.old) }

        // After an error, `same`, or what was only asked, the tree is as it was.
        ensures unchanged { IfOk result (λ answer. LeavesTree answer → self.new ≡ self.old) }
        ensures sound { IsSound self.new }
        // What only looks or removes takes no memory but for the text of its answer.
        ensures succeeds { IsSpare op.now → HasNoText (nstep self.old op.now).answer → IsOk result }
    {
        self.directories.step(op)
    }

    /// Takes one step as `apply` does, and gives the answer twice. Want of memory changes nothing.
    pub fn apply_with_copy(&mut self, op: &NameOp) -> Result<(NameAnswer, NameAnswer), AllocError>
        ensures ok { IfOk result (λ answers.
            nstep self.old op.now ≡ record { tree = self.new; answer = answers.0 }) }
        ensures copy { IfOk result (λ answers. answers.1 ≡ answers.0) }
        ensures form { IfOk result (λ answers. IsForm op.now answers.0) }
        ensures err { OnErr result (self.new ≡ self.old) }
        ensures sound { IsSound self.new }
    {
        let answer = self.apply(op)?;
        // Where the step has changed the tree, a copy of its answer takes no memory.
        let copy = answer.copy()?;
        Ok((answer, copy))
    }

    /// The lines of the tree, which name each entry once. A tree of 2^32 ids or more has none: it is want of memory.
    pub fn lines(&self, alloc: Global) -> Result<Vec<TreeLine>, AllocError>
        ensures lines { IfOk result (λ lines. lines.items ≡ tree_lines self.now) }
        ensures entries { LinesAreEntries self.now }
    {
        self.directories.lines(alloc)
    }
}
