ghost use Rattle.std.specs.Prelude.{◌≡◌, ◌<◌, true, length, slice_get, option_copied, option_map, IfOk, OnErr};
ghost use Rattle.path_walk.specs.Store.{Backend, backend_at, opening_backend};
ghost use Rattle.wf_core.specs.Limits.{group_count};
ghost use Rattle.name_store.specs.Forms.{IsForm};
ghost use Rattle.file_store.specs.FileForms.{IsForm as IsFileForm};
ghost use Rattle.file_store.specs.DescriptorMap.{IsForm as IsFdForm};
ghost use Rattle.path_walk.specs.Backing.{DescriptorsAmong, IsFdOpAmong, NamesAmong};
ghost use Rattle.wf_core.specs.Names.{is_name};
ghost use Rattle.trace_text.specs.SoloText.{mounts_from, opening_store};
ghost use Rattle.run_engine.specs.RunStores.{AreMountable, IsDescriptorsStep, IsNamesStep, IsFilesStep, backends_of};

use file_store::{Descriptors, FdAnswer, FdOp, FileAnswer, FileOp, Files};
use name_store::{NameAnswer, NameOp, NameTree};
use path_walk::{Backends, CellId, StepAnswer, StoreAnswer, StoreOp};
use std::alloc::{AllocError, Global};
use std::marker::Model;
use trace_text::BackendLine;
use wf_core::{BackendId, GROUP_COUNT, Name, NameRefusal};

/// A backend in memory: its names, and its files in groups.
#[derive(Drop)]
pub(crate) struct MemoryBackend {
    names: NameTree,
    groups: Vec<Files>,
}

impl Model for MemoryBackend {
    ghost use Rattle.path_walk.specs.Store.{Backend, names_at};

    ghost Value = { Backend };

    ghost view = { λ b. record { names = b.names; groups = b.groups.items } };
}

impl MemoryBackend {
    /// A backend without files, in the root directory of which others are mounted.
    fn new(alloc: Global, mounts: Vec<(Name, BackendId)>) -> Result<MemoryBackend, AllocError>
        ensures { IfOk result (λ backend. backend ≡ opening_backend mounts.items) }
    {
        let names = NameTree::new(alloc, mounts)?;
        let mut groups = Vec::with_capacity(alloc, GROUP_COUNT as usize)?;
        groups.push(Files::new(alloc, 0))?;
        groups.push(Files::new(alloc, 1))?;
        groups.push(Files::new(alloc, 2))?;
        groups.push(Files::new(alloc, 3))?;
        Ok(MemoryBackend { names, groups })
    }

    pub(crate) fn names(&self) -> &NameTree
        ensures { result.now ≡ self.now.names }
    {
        &self.names
    }

    pub(crate) fn groups(&self) -> &[Files]
        ensures { result.now ≡ self.now.groups }
    {
        self.groups.as_slice()
    }
}

/// What one run has for itself: its backends, the root's first, and its descriptors.
#[derive(Drop)]
pub(crate) struct RunStore {
    backends: Vec<MemoryBackend>,
    descriptors: Descriptors,
}

impl Model for RunStore {
    ghost use Rattle.path_walk.specs.Store.{Store};
    ghost use Rattle.run_engine.specs.RunStores.{IsRunStore};

    ghost Value = { Store };

    ghost view = { λ s. record { backends = s.backends.items; descriptors = s.descriptors } };

    ghost invariant = { λ s. IsRunStore
        (record { backends = s.backends.items; descriptors = s.descriptors }) };
}

impl RunStore {
    /// The store before the first call: each backend is mounted in the root directory under its name, all are empty, and no
    /// descriptor is open.
    pub(crate) fn new(alloc: Global, lines: &[BackendLine]) -> Result<RunStore, AllocError>
        requires { AreMountable lines.now }
        ensures { IfOk result (λ store. store ≡ opening_store lines.now) }
    {
        let mut backends = Vec::with_capacity(alloc, lines.len() + 1)?;
        backends.push(MemoryBackend::new(alloc, mounts_of(alloc, lines)?)?)?;
        for _ in lines {
            backends.push(MemoryBackend::new(alloc, Vec::new(alloc))?)?;
        }
        let descriptors = Descriptors::new(alloc)?;
        Ok(RunStore {
            backends,
            descriptors,
        })
    }

    /// The root's backend.
    pub(crate) fn root(&self) -> &MemoryBackend
        ensures { result.now ≡ backend_at self.now 0 }
    {
        match self.backends.first() {
            Some(root) => root,
            None => unreachable!(),
        }
    }

    /// A backend that is there.
    pub(crate) fn backend(&self, backend: BackendId) -> Option<&MemoryBackend>
        ensures { option_copied result ≡ slice_get self.now.backends backend }
    {
        self.backends.get(backend.number() as usize)
    }

    fn names_step(&mut self, backend: BackendId, op: &NameOp) -> Result<NameAnswer, AllocError>
        requires { backend < backends_of self.old }
        ensures form { IfOk result (IsForm op.now) }
        ensures among { IfOk result (NamesAmong (backends_of self.old)) }
        ensures same { length self.new.backends ≡ length self.old.backends }
        ensures ok { IfOk result (IsNamesStep self.old backend op.now self.new) }
        ensures err { OnErr result (self.new ≡ self.old) }
    {
        self.backends[backend.number() as usize].names.apply(op)
    }

    fn files_step(
        &mut self,
        backend: BackendId,
        group: u32,
        op: &FileOp,
    ) -> Result<FileAnswer, AllocError>
        requires backend { backend < backends_of self.old }
        requires group { group < group_count }
        ensures form { IfOk result (IsFileForm op.now) }
        ensures same { length self.new.backends ≡ length self.old.backends }
        ensures ok { IfOk result (IsFilesStep self.old backend group op.now self.new) }
        ensures err { OnErr result (self.new ≡ self.old) }
    {
        self.backends[backend.number() as usize].groups[group as usize].apply(op)
    }

    fn descriptors_step(&mut self, op: &FdOp) -> FdAnswer
        requires { IsFdOpAmong (backends_of self.old) op.now }
        ensures form { IsFdForm op.now result }
        ensures among { DescriptorsAmong (backends_of self.old) result }
        ensures same { length self.new.backends ≡ length self.old.backends }
        ensures ok { IsDescriptorsStep self.old op.now self.new result }
    {
        self.descriptors.apply(op)
    }
}

impl Backends for RunStore {
    ghost use Rattle.std.specs.Prelude.{Some, max, length};
    ghost use Rattle.std.proofs.Common.{rules};
    ghost use Rattle.run_engine.specs.RunStores.{backends_of};

    ghost backends = { backends_of };

    ghost store = { λ s. Some s };

    ghost ran = { λ _ _ _. Unit {0} };

    ghost root = { Prim.search rules };

    ghost ran_none = { λ _. tt };

    ghost ran_on = { λ _ _ _ _ _ _ _. tt };

    fn step(&mut self, cell: CellId, op: StoreOp) -> Result<StepAnswer, AllocError> {
        match (&cell, &op) {
            (CellId::Names(backend), StoreOp::Names(op)) => {
                let answer = self.names_step(*backend, op)?;
                Ok(StepAnswer::Answered(StoreAnswer::Names(answer)))
            }
            (CellId::Files(backend, group), StoreOp::Files(op)) => {
                let answer = self.files_step(*backend, *group, op)?;
                Ok(StepAnswer::Answered(StoreAnswer::Files(answer)))
            }
            (CellId::Descriptors, StoreOp::Descriptors(op)) => {
                let answer = self.descriptors_step(op);
                Ok(StepAnswer::Answered(StoreAnswer::Descriptors(answer)))
            }
            _ => unreachable!(),
        }
    }
}

/// The mounts of backends, which are numbered from 1.
fn mounts_of(alloc: Global, lines: &[BackendLine]) -> Result<Vec<(Name, BackendId)>, AllocError>
    requires { AreMountable lines.now }
    ensures { IfOk result (λ mounts. mounts.items ≡ mounts_from 1 lines.now) }
{
    let mut mounts = Vec::with_capacity(alloc, lines.len())?;
    let mut number = 1;
    for line in lines {
        mounts.push((mount_name(alloc, line)?, BackendId::new(number)))?;
        number += 1;
    }
    Ok(mounts)
}

fn mount_name(alloc: Global, line: &BackendLine) -> Result<Name, AllocError>
    requires { is_name line.now.name ≡ true }
    ensures { IfOk result (λ name. name ≡ line.now.name) }
{
    match Name::read(alloc, line.name.as_bytes()) {
        Ok(name) => Ok(name),
        Err(NameRefusal::NoMemory) => Err(AllocError),
        Err(NameRefusal::TooLong | NameRefusal::NotAName) => unreachable!(),
    }
}
