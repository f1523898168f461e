ghost use Rattle.std.specs.Prelude.{◌≡◌, ◌<◌, ℕ, ◌∷◌, [], length, None, IsSome, IfOk, OnOk, OnErr, option_copied, option_map};
ghost use Rattle.name_store.specs.NameTrees.{Tree, dir_at, with_entry_at, without_directory, with_new_directory, is_empty, is_inside, with_new_link, opening, with_parent_at, without_entry_at, up, with_entry};
ghost use Rattle.name_store.specs.Presence.{IsThere};

use crate::directory::Directory;
use crate::operation::Node;
use std::alloc::{AllocError, Global};
use std::marker::Model;
use wf_core::{BackendId, DirId, LinkId, Name, PathText};

/// The directories of a tree, by their ids. A link's id and a removed directory's have none.
#[derive(Drop)]
pub(crate) struct Directories {
    slots: Vec<Option<Directory>>,
}

impl Model for Directories {
    ghost Value = { Tree };

    ghost view = { λ d. d.slots.items };
}

impl Directories {
    /// The root alone, with the backends that are mounted in it.
    pub(crate) fn new(
        alloc: Global,
        mounts: Vec<(Name, BackendId)>,
    ) -> Result<Directories, AllocError>
        ensures { IfOk result (λ tree. tree ≡ opening mounts.items) }
    {
        let mut root = Directory::new(alloc, DirId::ROOT)?;
        for (name, backend) in mounts {
            root.enter(name, Node::Mount(backend))?;
        }
        let mut slots = Vec::new(alloc);
        slots.push(Some(root))?;
        Ok(Directories { slots })
    }

    pub(crate) fn alloc(&self) -> Global {
        *self.slots.allocator()
    }

    /// How many ids were given, which is the next one.
    pub(crate) fn next_id(&self) -> u64
        ensures { result ≡ length self.now }
    {
        self.slots.len() as u64
    }

    pub(crate) fn get(&self, id: DirId) -> Option<&Directory>
        ensures directory { option_copied result ≡ dir_at self.now id }
        ensures within { IsSome result → id < length self.now }
    {
        match self.slots.get(id.number() as usize) {
            Some(Some(directory)) => Some(directory),
            _ => None,
        }
    }

    pub(crate) fn is_empty(&self, id: DirId) -> bool
        ensures { result ≡ is_empty (dir_at self.now id) }
    {
        match self.get(id) {
            Some(directory) => directory.is_empty(),
            None => true,
        }
    }

    fn up(&self, id: DirId) -> DirId
        ensures { result ≡ up self.now id }
    {
        match self.get(id) {
            Some(directory) => directory.parent(),
            None => DirId::ROOT,
        }
    }

    /// Whether directory `top` is met on the way from `id` up to the root.
    pub(crate) fn is_inside(&self, top: DirId, id: DirId) -> bool
        ensures { result ≡ is_inside (length self.now) self.now top id }
    {
        let mut here = id;
        for _ in 0..self.slots.len() {
            if here == top {
                return true;
            }
            if here == DirId::ROOT {
                return false;
            }
            here = self.up(here);
        }
        false
    }

    /// Enters a node in a directory that is there, under that name, in the place of what is there.
    pub(crate) fn enter(&mut self, id: DirId, name: Name, node: Node) -> Result<(), AllocError>
        requires { IsSome (dir_at self.old id) }
        ensures ok { OnOk result (self.new ≡ with_entry_at self.old id name node) }
        ensures err { OnErr result (self.new ≡ self.old) }
    {
        enter_slot(&mut self.slots[id.number() as usize], name, node)
    }

    /// Takes an entry out of a directory that is there.
    pub(crate) fn unlink(&mut self, id: DirId, name: &Name)
        requires { IsSome (dir_at self.old id) }
        ensures { self.new ≡ without_entry_at self.old id name.now }
    {
        let Some(directory) = &mut self.slots[id.number() as usize] else {
            unreachable!()
        };
        directory.unlink(name);
    }

    /// Gives a directory that is there, where one is given, its new parent.
    pub(crate) fn set_parent(&mut self, child: Option<DirId>, parent: DirId)
        requires { IsThere self.old child }
        ensures { self.new ≡ with_parent_at self.old child parent }
    {
        let Some(id) = child else {
            return;
        };
        let Some(directory) = &mut self.slots[id.number() as usize] else {
            unreachable!()
        };
        directory.set_parent(parent);
    }

    /// Ends a directory that is there, where one is given. Its id is not used again.
    pub(crate) fn free(&mut self, child: Option<DirId>)
        requires { IsThere self.old child }
        ensures { self.new ≡ without_directory self.old child }
    {
        if let Some(id) = child {
            self.slots[id.number() as usize] = None;
        }
    }

    /// Makes an empty directory under that name in a directory.
    pub(crate) fn grow(&mut self, id: DirId, name: Name) -> Result<DirId, AllocError>
        requires { IsSome (dir_at self.old id) }
        ensures made { IfOk result (λ made. made ≡ length self.old) }
        ensures ok { OnOk result (self.new ≡ with_new_directory self.old id name) }
        ensures err { OnErr result (self.new ≡ self.old) }
    {
        let made = DirId::new(self.next_id());
        let directory = Directory::new(self.alloc(), id)?;
        self.slots.reserve(1)?;
        enter_slot(&mut self.slots[id.number() as usize], name, Node::Dir(made))?;
        self.slots.push_reserved(Some(directory));
        Ok(made)
    }

    /// Makes a link under that name in a directory. It takes an id, which has no directory.
    pub(crate) fn link(
        &mut self,
        id: DirId,
        name: Name,
        text: PathText,
    ) -> Result<LinkId, AllocError>
        requires { IsSome (dir_at self.old id) }
        ensures made { IfOk result (λ made. made ≡ length self.old) }
        ensures ok { OnOk result (self.new ≡ with_new_link self.old id name text) }
        ensures err { OnErr result (self.new ≡ self.old) }
    {
        let made = LinkId::new(self.next_id());
        self.slots.reserve(1)?;
        enter_slot(
            &mut self.slots[id.number() as usize],
            name,
            Node::Link(made, text),
        )?;
        self.slots.push_reserved(None);
        Ok(made)
    }
}

/// Enters a node in the directory of a slot that has one.
fn enter_slot(slot: &mut Option<Directory>, name: Name, node: Node) -> Result<(), AllocError>
    requires { IsSome slot.old }
    ensures ok { OnOk result
        (slot.new ≡ option_map (λ directory. with_entry directory name node) slot.old) }
    ensures err { OnErr result (slot.new ≡ slot.old) }
{
    match slot {
        Some(directory) => directory.enter(name, node),
        None => unreachable!(),
    }
}
