ghost use Rattle.std.specs.Prelude.{◌≡◌, ◌≢◌, ◌==◌, [], ◌∷◌, ◌++◌, true, List, length, map, IfOk, OnOk, OnErr, MatchOption};
ghost use Rattle.std.specs.List.{list_all};
ghost use Rattle.wf_core.specs.Names.{is_name_byte};
ghost use Rattle.path_walk.specs.declared.part.Part.{Part};
ghost use Rattle.path_walk.specs.Paths.{components, name_in, parts_before, part_of, parts_of, last_of, front_of};

use std::alloc::{AllocError, Global};
use std::collections::VecDeque;
use std::marker::Model;
use wf_core::{Name, NameRefusal, PathText};

/// What a component of a path asks for.
#[derive(Drop)]
pub enum Part {
    /// `.`, to stay.
    Here,
    /// `..`, to go up.
    Up,
    /// A name, to go down.
    Down(Name),
    /// More bytes than a name has.
    TooLong,
}

impl Part {
    fn read(alloc: Global, component: &[u8]) -> Result<Part, AllocError>
        requires some { length component.now ≢ 0 }
        requires bytes { list_all is_name_byte component.now ≡ true }
        ensures { IfOk result (λ part. part ≡ part_of component.now) }
    {
        if component == b".".as_slice() {
            return Ok(Part::Here);
        }
        if component == b"..".as_slice() {
            return Ok(Part::Up);
        }
        match Name::read(alloc, component) {
            Ok(name) => Ok(Part::Down(name)),
            Err(NameRefusal::TooLong) => Ok(Part::TooLong),
            Err(NameRefusal::NotAName) => unreachable!(),
            Err(NameRefusal::NoMemory) => Err(AllocError),
        }
    }
}

/// The parts of a path that are still to come, seen as their list.
#[derive(Drop)]
pub struct Parts {
    parts: VecDeque<Part>,
}

impl Model for Parts {
    ghost Value = { List Part };

    ghost view = { λ p. p.parts.items };
}

/// A last name and a copy, since it is to be looked up and then, where nothing is, to be added. Seen as its bytes.
#[derive(Drop)]
pub struct LastName {
    name: Name,
    copy: Name,
}

impl Model for LastName {
    ghost use Rattle.std.specs.Prelude.{◌≡◌, ℕ, List};

    ghost Value = { List ℕ };

    ghost view = { λ n. n.name };

    ghost invariant = { λ n. n.copy ≡ n.name };
}

impl LastName {
    pub(crate) fn split(self) -> (Name, Name)
        ensures { (result.0 ≡ self) × (result.1 ≡ self) }
    {
        (self.name, self.copy)
    }
}

impl Parts {
    /// The parts of a path.
    pub(crate) fn read(alloc: Global, path: &PathText) -> Result<Parts, AllocError>
        ensures { IfOk result (λ parts. parts ≡ parts_of path.now) }
    {
        let pieces = components_of(alloc, path.as_bytes())?;
        let mut parts = VecDeque::with_capacity(alloc, pieces.len())?;
        for piece in pieces.as_slice() {
            parts.push_back(Part::read(alloc, piece)?)?;
        }
        Ok(Parts { parts })
    }

    pub(crate) fn next(&mut self) -> Option<Part>
        ensures { MatchOption result (self.old ≡ []) (λ part. self.old ≡ part ∷ self.new) }
    {
        self.parts.pop_front()
    }

    pub(crate) fn is_empty(&self) -> bool
        ensures { result ≡ (length self.now == 0) }
    {
        self.parts.is_empty()
    }

    /// Puts parts in front of these. Want of memory changes nothing.
    pub(crate) fn put_front(&mut self, mut front: Parts) -> Result<(), AllocError>
        ensures ok { OnOk result (self.new ≡ front ++ self.old) }
        ensures err { OnErr result (self.new ≡ self.old) }
    {
        front.parts.append(&mut self.parts)?;
        self.parts = front.parts;
        Ok(())
    }

    /// Takes a last part that is a name.
    pub(crate) fn take_last_name(&mut self) -> Result<Option<LastName>, AllocError>
        ensures name { IfOk result (λ name. name ≡ name_in (last_of self.old)) }
        ensures front { OnOk result (self.new ≡ parts_before (last_of self.old) self.old) }
    {
        let Some(Part::Down(name)) = self.parts.back() else {
            return Ok(None);
        };
        let copy = name.clone()?;
        match self.parts.pop_back() {
            Some(Part::Down(name)) => Ok(Some(LastName { name, copy })),
            _ => unreachable!(),
        }
    }

    pub(crate) fn take_last(&mut self) -> Option<Part>
        ensures last { result ≡ last_of self.old }
        ensures front { self.new ≡ front_of self.old }
    {
        self.parts.pop_back()
    }
}

fn components_of(alloc: Global, path: &[u8]) -> Result<Vec<&[u8]>, AllocError>
    ensures { IfOk result (λ pieces. map (λ piece. piece.now) pieces.items ≡ components path.now) }
{
    path.split(|byte| *byte == b'/')
        .filter(|piece| !piece.is_empty())
        .collect(alloc)
}
