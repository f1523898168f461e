ghost use Rattle.std.specs.Prelude.{◌≡◌, IfOk, OnErr, OnOk};
ghost use Rattle.memory_backend.specs.Cells.{HasForm, IsOpOf, IsWithin, KindAllows, KindTakes, cell_after, cell_kind, cell_reply, contents_after, contents_reply, part_of};

use file_store::{Descriptors, FdAnswer, Files};
use name_store::NameTree;
use path_walk::{CellId, StoreAnswer, StoreOp};
use std::alloc::AllocError;
use std::marker::Model;
use turn_cell::{CellState, Pair};

/// What a cell holds.
#[derive(Drop)]
pub enum CellContents {
    Descriptors(Descriptors),
    /// The names of a backend.
    Names(NameTree),
    /// One group of the files of a backend.
    Files(Files),
}

impl CellContents {
    /// Takes one step, and gives the answer twice. Want of memory changes nothing.
    fn step(&mut self, op: &StoreOp) -> Result<Pair<StoreAnswer>, AllocError>
        requires { IsOpOf (part_of self.old) op.now }
        ensures given { IfOk result (λ pair. pair.given ≡ contents_reply self.old op.now) }
        ensures kept { IfOk result (λ pair. pair.kept ≡ pair.given) }
        ensures form { IfOk result (λ pair. HasForm op.now pair.given) }
        ensures ok { OnOk result (self.new ≡ contents_after self.old op.now) }
        ensures err { OnErr result (self.new ≡ self.old) }
    {
        match (self, op) {
            (CellContents::Descriptors(descriptors), StoreOp::Descriptors(op)) => {
                let answer = descriptors.apply(op);
                Ok(given_twice(&answer))
            }
            (CellContents::Names(names), StoreOp::Names(op)) => {
                let (given, kept) = names.apply_with_copy(op)?;
                Ok(Pair {
                    given: StoreAnswer::Names(given),
                    kept: StoreAnswer::Names(kept),
                })
            }
            (CellContents::Files(files), StoreOp::Files(op)) => {
                let (given, kept) = files.apply_with_copy(op)?;
                Ok(Pair {
                    given: StoreAnswer::Files(given),
                    kept: StoreAnswer::Files(kept),
                })
            }
            _ => unreachable!(),
        }
    }
}

/// An answer of the descriptors, twice.
fn given_twice(answer: &FdAnswer) -> Pair<StoreAnswer>
    ensures given { result.given ≡ StoreAnswer.Descriptors answer.now }
    ensures kept { result.kept ≡ StoreAnswer.Descriptors answer.now }
{
    Pair {
        given: StoreAnswer::Descriptors(*answer),
        kept: StoreAnswer::Descriptors(*answer),
    }
}

/// Which part of a store a cell is.
pub enum CellPart {
    OfDescriptors,
    OfNames,
    OfFiles,
}

/// What is said of a cell apart from its contents. No value of it is made.
pub struct CellKind {
    /// How many backends its store has, the root's among them.
    pub backends: u32,
    pub part: CellPart,
}

/// An operation on a cell, with the cell's name.
#[derive(Debug, Drop)]
pub struct CellOp {
    pub cell: CellId,
    pub op: StoreOp,
}

/// A cell of a store, which names no other backends than those of its store.
#[derive(Drop)]
pub struct StoreCell {
    backends: u32,
    contents: CellContents,
}

impl Model for StoreCell {
    ghost use Rattle.memory_backend.specs.Cells.{Cell, IsWithin};

    ghost Value = { Cell };

    ghost view = { λ c. record { backends = c.backends; contents = c.contents } };

    ghost invariant = { λ c. IsWithin c.backends c.contents };
}

impl StoreCell {
    pub(crate) fn new(backends: u32, contents: CellContents) -> StoreCell
        requires { IsWithin backends contents }
        ensures { result ≡ record { backends = backends; contents = contents } }
    {
        StoreCell { backends, contents }
    }

    pub fn contents(&self) -> &CellContents
        ensures { result.now ≡ self.now.contents }
    {
        &self.contents
    }
}

impl CellState for StoreCell {
    type Op = CellOp;

    type Answer = StoreAnswer;

    type Kind = CellKind;

    ghost after = { cell_after };

    ghost reply = { cell_reply };

    ghost kind = { cell_kind };

    ghost takes = { KindTakes };

    ghost allows = { KindAllows };

    fn step(&mut self, op: &CellOp) -> Result<Pair<StoreAnswer>, AllocError> {
        self.contents.step(&op.op)
    }
}
