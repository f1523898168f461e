ghost use Rattle.std.specs.Prelude.{◌≡◌, ◌==◌, ℕ, [], length, take, drop, IfOk, IsOk, OnOk, OnErr, option_copied};
ghost use Rattle.std.specs.Map.{keys_of};
ghost use Rattle.wf_core.specs.Limits.{list_max};
ghost use Rattle.name_store.specs.NameTrees.{Listing, empty_in, entry_at, names_from, with_entry, with_parent, without_entry};

use crate::name_list::NameList;
use crate::operation::Node;
use std::alloc::{AllocError, Global};
use std::collections::{BTreeMap, btree_map};
use std::marker::Model;
use wf_core::{DirId, LIST_MAX, Name};

/// A directory, seen as its parent's id and its entries in byte order. It stands on the heap, so that the ids that have
/// none take little room.
#[derive(Drop)]
pub(crate) struct Directory {
    held: Box<Held>,
}

#[derive(Drop)]
struct Held {
    parent: DirId,
    entries: BTreeMap<Name, Node>,
}

impl Model for Directory {
    ghost Value = { Listing };

    ghost view = { λ d. record { parent = d.held.value.parent; entries = d.held.value.entries.entries } };
}

impl Directory {
    pub(crate) fn new(alloc: Global, parent: DirId) -> Result<Directory, AllocError>
        ensures { IfOk result (λ directory. directory ≡ empty_in parent) }
    {
        let entries = BTreeMap::new(alloc);
        Ok(Directory {
            held: Box::new(alloc, Held { parent, entries })?,
        })
    }

    pub(crate) fn parent(&self) -> DirId
        ensures { result ≡ self.now.parent }
    {
        self.held.parent
    }

    pub(crate) fn entry(&self, name: &Name) -> Option<&Node>
        ensures { option_copied result ≡ entry_at self.now name.now }
    {
        self.held.entries.get(name)
    }

    pub(crate) fn entries(&self) -> btree_map::Iter<'_, Name, Node>
        ensures { result ≡ self.now.entries }
    {
        self.held.entries.iter()
    }

    pub(crate) fn is_empty(&self) -> bool
        ensures { result ≡ (length self.now.entries == 0) }
    {
        self.held.entries.is_empty()
    }

    /// At most `LIST_MAX` names from a position on, in byte order.
    pub(crate) fn names(&self, alloc: Global, start: u32) -> Result<NameList, AllocError>
        ensures ok { IfOk result (λ names. names ≡ names_from self.now start) }
        ensures succeeds { names_from self.now start ≡ [] → IsOk result }
    {
        names_in(alloc, &self.held.entries, start)
    }

    /// Enters a node under that name, in the place of what is there.
    pub(crate) fn enter(&mut self, name: Name, node: Node) -> Result<(), AllocError>
        ensures ok { OnOk result (self.new ≡ with_entry self.old name node) }
        ensures err { OnErr result (self.new ≡ self.old) }
    {
        self.held.entries.insert(name, node)?;
        Ok(())
    }

    pub(crate) fn unlink(&mut self, name: &Name)
        ensures { self.new ≡ without_entry self.old name.now }
    {
        let _ = self.held.entries.remove(name);
    }

    pub(crate) fn set_parent(&mut self, parent: DirId)
        ensures { self.new ≡ with_parent self.old parent }
    {
        self.held.parent = parent;
    }
}

/// At most `LIST_MAX` names of entries from a position on. It goes over those before, since the map knows no positions.
fn names_in(
    alloc: Global,
    entries: &BTreeMap<Name, Node>,
    start: u32,
) -> Result<NameList, AllocError>
    ensures ok { IfOk result
        (λ names. names ≡ take list_max (drop start (keys_of entries.now.entries))) }
    ensures succeeds { take list_max (drop start (keys_of entries.now.entries)) ≡ []
        → IsOk result }
{
    let mut names = NameList::new(alloc);
    if start as usize >= entries.len() {
        return Ok(names);
    }
    for name in entries.keys().skip(start as usize).take(LIST_MAX) {
        names.push(name.clone()?)?;
    }
    Ok(names)
}
