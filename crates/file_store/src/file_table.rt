ghost use Rattle.std.specs.Prelude.{◌≡◌, ℕ, ◌<◌, ◌≤◌, [], false, None, Some, length, IsSome, IfSome, IfOk, OnOk, OnErr};
ghost use Rattle.std.specs.Option.{option_copied};
ghost use Rattle.file_store.specs.FileGroups.{empty_file, refusal, with_bytes, put_refusal, with_size, cut_refusal, total_pages};
ghost use Rattle.file_store.specs.FileTables.{put_unless, cut_unless};
ghost use Rattle.file_store.specs.declared.file.File.{File};
ghost use Rattle.file_store.specs.Tables.{empty_from, row_at, with_next_row, with_row, without_row};

use crate::contents::Contents;
use crate::file::File;
use std::alloc::{AllocError, Global};
use std::collections::BTreeMap;
use std::marker::Model;
use wf_core::{Errno, FILE_MAX, FileId, GROUP_COUNT, GROUP_MAX};

/// The files of one group, by their ids.
#[derive(Drop)]
pub(crate) struct FileTable {
    alloc: Global,
    files: BTreeMap<u64, File>,
    next: u64,
    /// How many bytes all files have together.
    total: u64,
}

impl Model for FileTable {
    ghost use Rattle.file_store.specs.FileTables.{IsSummed};
    ghost use Rattle.file_store.specs.Tables.{Table};
    ghost use Rattle.file_store.specs.declared.file.File.{File};

    ghost Value = { Table File };

    ghost view = { λ t. record { entries = t.files.entries; next = t.next } };

    ghost invariant = { λ t. IsSummed
        (record { entries = t.files.entries; next = t.next }) t.total };
}

impl FileTable {
    pub(crate) fn new(alloc: Global, first: u64) -> FileTable
        ensures { result ≡ empty_from first }
    {
        FileTable {
            alloc,
            files: BTreeMap::new(alloc),
            next: first,
            total: 0,
        }
    }

    pub(crate) fn get(&self, id: FileId) -> Option<&File>
        ensures { option_copied result ≡ row_at self.now id }
    {
        self.files.get(&id.number())
    }

    /// The id of the next file.
    pub(crate) fn next(&self) -> FileId
        ensures { result ≡ self.now.next }
    {
        FileId::new(self.next)
    }

    /// Adds an empty file that is linked.
    pub(crate) fn add(&mut self) -> Result<(), AllocError>
        ensures ok { IfOk result (λ _. self.new ≡ with_next_row self.old empty_file) }
        ensures err { OnErr result (self.new ≡ self.old) }
    {
        let Some(next) = self.next.checked_add(GROUP_COUNT) else {
            return Err(AllocError);
        };
        let file = File {
            bytes: Contents::new(self.alloc),
            linked: true,
        };
        self.files.insert(self.next, file)?;
        self.next = next;
        Ok(())
    }

    /// Writes bytes into a file that is there, unless its end or the sizes of all would be too great.
    pub(crate) fn put(
        &mut self,
        id: FileId,
        at: u64,
        bytes: &[u8],
    ) -> Result<Option<Errno>, AllocError>
        requires { IsSome (row_at self.old id) }
        ensures ok { IfOk result (λ refused. IfSome (row_at self.old id) (λ file.
            (refused ≡ put_refusal self.old id file at bytes.now)
            × (self.new ≡ put_unless self.old id file at bytes.now refused))) }
        ensures err { OnErr result (self.new ≡ self.old) }
    {
        let Some(file) = self.get(id) else {
            unreachable!()
        };
        let Some(end) = at.checked_add(bytes.len() as u64) else {
            return Ok(Some(Errno::Efbig));
        };
        let size = file.bytes.size().max(end);
        if let Some(error) = self.refusal(id, size, end) {
            return Ok(Some(error));
        }
        self.write(id, at, bytes)?;
        Ok(None)
    }

    /// Has a file that is there be of that size, unless that or the sizes of all would be too great.
    pub(crate) fn cut(&mut self, id: FileId, size: u64) -> Option<Errno>
        requires { IsSome (row_at self.old id) }
        ensures { IfSome (row_at self.old id) (λ file.
            (result ≡ cut_refusal self.old id file size)
            × (self.new ≡ cut_unless self.old id file size result)) }
    {
        if let Some(error) = self.refusal(id, size, size) {
            return Some(error);
        }
        self.resize(id, size);
        None
    }

    /// Why a file that is there may not come to have that size and that end.
    fn refusal(&self, id: FileId, size: u64, end: u64) -> Option<Errno>
        requires { IsSome (row_at self.now id) }
        ensures { IfSome (row_at self.now id) (λ file. (new : File) → length new.bytes ≡ size
            → result ≡ refusal end (with_row self.now id new)) }
    {
        let Some(file) = self.files.get(&id.number()) else {
            unreachable!()
        };
        let others = self.total - file.bytes.size();
        if end > FILE_MAX {
            return Some(Errno::Efbig);
        }
        if others.saturating_add(size) > GROUP_MAX {
            return Some(Errno::Enospc);
        }
        None
    }

    /// Writes bytes into a file that is there, which is not refused.
    fn write(&mut self, id: FileId, at: u64, bytes: &[u8]) -> Result<(), AllocError>
        requires there { IsSome (row_at self.old id) }
        requires allowed { (file : File) → row_at self.old id ≡ Some file
            → put_refusal self.old id file at bytes.now ≡ None }
        ensures ok { OnOk result
            (IfSome (row_at self.old id)
            (λ file. self.new ≡ with_bytes self.old id file at bytes.now)) }
        ensures err { OnErr result (self.new ≡ self.old) }
    {
        let Some(file) = self.files.get_mut(&id.number()) else {
            unreachable!()
        };
        let size = file.bytes.size();
        file.bytes.write(self.alloc, at, bytes)?;
        self.total = self.total - size + file.bytes.size();
        Ok(())
    }

    /// Has a file that is there be of a size that is not refused.
    fn resize(&mut self, id: FileId, size: u64)
        requires there { IsSome (row_at self.old id) }
        requires allowed { (file : File) → row_at self.old id ≡ Some file
            → cut_refusal self.old id file size ≡ None }
        ensures { IfSome (row_at self.old id) (λ file. self.new ≡ with_size self.old id file size) }
    {
        let Some(file) = self.files.get_mut(&id.number()) else {
            unreachable!()
        };
        self.total = self.total - file.bytes.size() + size;
        file.bytes.cut(size);
    }

    /// Has a file that is there be empty.
    pub(crate) fn clear(&mut self, id: FileId)
        requires { IsSome (row_at self.old id) }
        ensures { IfSome (row_at self.old id)
            (λ file. self.new ≡ with_row self.old id (record file { bytes = [] })) }
    {
        let Some(file) = self.files.get_mut(&id.number()) else {
            unreachable!()
        };
        self.total -= file.bytes.size();
        file.bytes = Contents::new(self.alloc);
    }

    /// No directory has an entry of that file any more, which is there.
    pub(crate) fn unlink(&mut self, id: FileId)
        requires { IsSome (row_at self.old id) }
        ensures { IfSome (row_at self.old id)
            (λ file. self.new ≡ with_row self.old id (record file { linked = false })) }
    {
        let Some(file) = self.files.get_mut(&id.number()) else {
            unreachable!()
        };
        file.linked = false;
    }

    /// Frees a file that is there, with its pages.
    pub(crate) fn remove(&mut self, id: FileId)
        requires { IsSome (row_at self.old id) }
        ensures { self.new ≡ without_row self.old id }
    {
        let Some(file) = self.files.remove(&id.number()) else {
            unreachable!()
        };
        self.total -= file.bytes.size();
    }

    /// How many pages of all files hold a byte other than 0.
    pub(crate) fn pages(&self) -> usize
        ensures { result ≡ total_pages self.now }
    {
        let mut count = 0;
        for file in self.files.values() {
            count += file.bytes.pages();
        }
        count
    }
}
