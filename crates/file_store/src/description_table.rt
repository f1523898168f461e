ghost use Rattle.std.specs.Prelude.{◌≡◌, ℕ, ◌<◌, IsSome, IfSome, IfOk, OnErr};
ghost use Rattle.file_store.specs.FileGroups.{is_open};
ghost use Rattle.file_store.specs.Tables.{Table, IsFresh, IsAdded, empty_from, row_at, with_next_row, with_row, without_row};
ghost use Rattle.file_store.specs.declared.file.Description.{Description};

use crate::file::Description;
use std::alloc::{AllocError, Global};
use std::collections::BTreeMap;
use std::marker::Model;
use wf_core::{DescriptionId, FileId, GROUP_COUNT};

/// The open file descriptions of one group, by their ids.
#[derive(Drop)]
pub(crate) struct DescriptionTable {
    descriptions: BTreeMap<u64, Description>,
    next: u64,
}

impl Model for DescriptionTable {
    ghost use Rattle.file_store.specs.Tables.{Table, IsFresh};
    ghost use Rattle.file_store.specs.declared.file.Description.{Description};

    ghost Value = { Table Description };

    ghost view = { λ t. record { entries = t.descriptions.entries; next = t.next } };

    ghost invariant = { λ t. IsFresh {X = Description}
        (record { entries = t.descriptions.entries; next = t.next }) };
}

impl DescriptionTable {
    pub(crate) fn new(alloc: Global, first: u64) -> DescriptionTable
        ensures { result ≡ empty_from first }
    {
        DescriptionTable {
            descriptions: BTreeMap::new(alloc),
            next: first,
        }
    }

    pub(crate) fn get(&self, id: DescriptionId) -> Option<Description>
        ensures { result ≡ row_at self.now id }
    {
        self.descriptions.get(&id.number()).copied()
    }

    /// Whether some description is of that file.
    pub(crate) fn is_open(&self, file: FileId) -> bool
        ensures { result ≡ is_open self.now file }
    {
        self.descriptions
            .values()
            .any(|description| description.file == file)
    }

    /// Adds a description and tells its id.
    pub(crate) fn add(&mut self, description: Description) -> Result<DescriptionId, AllocError>
        ensures ok { IfOk result
            (λ id. (id ≡ self.old.next) × (self.new ≡ with_next_row self.old description)) }
        ensures err { OnErr result (self.new ≡ self.old) }
        ensures fresh { IsFresh self.old }
    {
        let id = self.next;
        let Some(next) = id.checked_add(GROUP_COUNT) else {
            return Err(AllocError);
        };
        self.descriptions.insert(id, description)?;
        self.next = next;
        Ok(DescriptionId::new(id))
    }

    /// Takes back the description that was added last.
    pub(crate) fn undo_add(&mut self, id: DescriptionId)
        requires { IsAdded self.old id }
        ensures { (before : Table Description) (description : Description) → IsFresh before → id
            ≡ before.next → self.old ≡ with_next_row before description → self.new ≡ before }
    {
        let id = id.number();
        self.descriptions.remove(&id);
        self.next = id;
    }

    /// Moves the offset of a description that is there.
    pub(crate) fn move_to(&mut self, id: DescriptionId, offset: u64)
        requires { IsSome (row_at self.old id) }
        ensures { IfSome (row_at self.old id)
            (λ description. self.new
            ≡ with_row self.old id (record description { offset = offset })) }
    {
        let Some(description) = self.descriptions.get_mut(&id.number()) else {
            unreachable!()
        };
        description.offset = offset;
    }

    /// Takes away a description that is there.
    pub(crate) fn remove(&mut self, id: DescriptionId)
        requires { IsSome (row_at self.old id) }
        ensures { self.new ≡ without_row self.old id }
    {
        self.descriptions.remove(&id.number());
    }
}
