ghost use Rattle.std.specs.Prelude.{◌≡◌, ℕ, ◌≤◌, ◌+ℤ◌, pos, Option, None, Some, MatchOption, true, IsOk, IsSome, IfOk, IfSome, OnErr};
ghost use Rattle.std.specs.Option.{option_copied, option_map};
ghost use Rattle.file_store.specs.FileGroups.{opening, open_file_at, on_open, outcome_of, file_at, description_at, make_outcome, attach_outcome, sizeof_answer, files_after_unlink, with_files, is_open, release_outcome, group_after_release, read_outcome, readat_outcome, write_outcome, writeat_outcome, seek_outcome, cut_outcome, size_outcome, natural, write_offset, seek_base, seek_offset, fstep, total_pages};
ghost use Rattle.file_store.specs.FileForms.{IsSpare};
ghost use Rattle.file_store.specs.Sound.{IsSound};

use crate::description_table::DescriptionTable;
use crate::file::{Description, File};
use crate::file_operation::{FileAnswer, FileOp, Mode, Whence};
use crate::file_table::FileTable;
use std::alloc::{AllocError, Global};
use std::marker::Model;
use wf_core::{DescriptionId, Errno, FileId, OFFSET_MAX, READ_MAX, Text};

/// The files of one group and their open descriptions, by their ids.
#[derive(Drop)]
pub(crate) struct FileGroup {
    alloc: Global,
    files: FileTable,
    descriptions: DescriptionTable,
}

impl Model for FileGroup {
    ghost use Rattle.file_store.specs.FileGroups.{Group};

    ghost Value = { Group };

    ghost view = { λ f. record { files = f.files; descriptions = f.descriptions } };
}

impl FileGroup {
    pub(crate) fn new(alloc: Global, first: u64) -> FileGroup
        ensures { result ≡ opening first }
    {
        FileGroup {
            alloc,
            files: FileTable::new(alloc, first),
            descriptions: DescriptionTable::new(alloc, first),
        }
    }

    pub(crate) fn alloc(&self) -> Global {
        self.alloc
    }

    pub(crate) fn pages(&self) -> usize
        ensures { result ≡ total_pages self.now.files }
    {
        self.files.pages()
    }

    pub(crate) fn file(&self, id: FileId) -> Option<&File>
        ensures { option_copied result ≡ file_at self.now id }
    {
        self.files.get(id)
    }

    /// Takes one step, which is the definition's. Want of memory changes nothing.
    pub(crate) fn step(&mut self, op: &FileOp) -> Result<FileAnswer, AllocError>
        requires { IsSound self.old }
        ensures ok { IfOk result
            (λ answer. fstep self.old op.now ≡ record { group = self.new; answer = answer }) }
        ensures err { OnErr result (self.new ≡ self.old) }
        ensures succeeds { IsSpare op.now → IsOk result }
    {
        match op {
            FileOp::Make(mode) => self.make(*mode),
            FileOp::Attach {
                file,
                mode,
                truncate,
            } => self.attach(*file, *mode, *truncate),
            FileOp::Sizeof(file) => Ok(self.size_of_file(*file)),
            FileOp::Unlinked(file) => Ok(self.unlink(*file)),
            FileOp::Release(description) => Ok(self.release(*description)),
            FileOp::Read { description, count } => self.read(*description, *count),
            FileOp::Readat {
                description,
                count,
                offset,
            } => self.read_at(*description, *count, *offset),
            FileOp::Write { description, bytes } => self.write(*description, bytes),
            FileOp::Writeat {
                description,
                bytes,
                offset,
            } => self.write_at(*description, bytes, *offset),
            FileOp::Seek {
                description,
                offset,
                whence,
            } => Ok(self.seek(*description, *offset, *whence)),
            FileOp::Cut { description, size } => Ok(self.cut(*description, *size)),
            FileOp::Size(description) => Ok(self.size(*description)),
        }
    }

    /// A description with its file.
    fn opened(&self, id: DescriptionId) -> Option<(Description, &File)>
        ensures value { option_map (λ o. (o.0, o.1.now)) result ≡ open_file_at self.now id }
        ensures there { IfSome result (λ o. description_at self.now id ≡ Some o.0) }
        ensures file { IfSome result (λ o. file_at self.now o.0.file ≡ Some o.1.now) }
    {
        let description = self.descriptions.get(id)?;
        let file = self.files.get(description.file)?;
        Some((description, file))
    }

    fn make(&mut self, mode: Mode) -> Result<FileAnswer, AllocError>
        ensures ok { IfOk result
            (λ answer. make_outcome self.old mode ≡ record { group = self.new; answer = answer }) }
        ensures err { OnErr result (self.new ≡ self.old) }
    {
        let file = self.files.next();
        let description = Description {
            file,
            mode,
            offset: 0,
        };
        let id = self.descriptions.add(description)?;
        if let Err(error) = self.files.add() {
            self.descriptions.undo_add(id);
            return Err(error);
        }
        Ok(FileAnswer::File {
            file,
            description: id,
        })
    }

    fn attach(&mut self, file: FileId, mode: Mode, truncate: bool) -> Result<FileAnswer, AllocError>
        ensures ok { IfOk result
            (λ answer. attach_outcome self.old file mode truncate (file_at self.old file)
            ≡ record { group = self.new; answer = answer }) }
        ensures err { OnErr result (self.new ≡ self.old) }
    {
        let Some(found) = self.files.get(file) else {
            return Ok(FileAnswer::Gone);
        };
        if !found.linked {
            return Ok(FileAnswer::Gone);
        }
        let description = Description {
            file,
            mode,
            offset: 0,
        };
        let id = self.descriptions.add(description)?;
        if truncate {
            self.files.clear(file);
            return Ok(FileAnswer::Desc(id));
        }
        Ok(FileAnswer::Desc(id))
    }

    fn size_of_file(&self, file: FileId) -> FileAnswer
        ensures { result ≡ sizeof_answer (file_at self.now file) }
    {
        let Some(found) = self.files.get(file) else {
            return FileAnswer::Gone;
        };
        if !found.linked {
            return FileAnswer::Gone;
        }
        FileAnswer::Size(found.bytes.size())
    }

    fn unlink(&mut self, file: FileId) -> FileAnswer
        ensures left { self.new
            ≡ with_files self.old
            (files_after_unlink self.old.files (is_open self.old.descriptions file) file
            (file_at self.old file)) }
        ensures done { result ≡ FileAnswer.Done }
    {
        if self.files.get(file).is_none() {
            return FileAnswer::Done;
        }
        if self.descriptions.is_open(file) {
            self.files.unlink(file);
            return FileAnswer::Done;
        }
        self.files.remove(file);
        FileAnswer::Done
    }

    fn release(&mut self, id: DescriptionId) -> FileAnswer
        requires { IsSound self.old }
        ensures { release_outcome self.old id (description_at self.old id)
            ≡ record { group = self.new; answer = result } }
    {
        let Some(description) = self.descriptions.get(id) else {
            return FileAnswer::Fault(Errno::Ebadf);
        };
        self.descriptions.remove(id);
        self.sweep(description.file);
        FileAnswer::Done
    }

    /// Frees a file that is there where it is neither linked nor open.
    fn sweep(&mut self, file: FileId)
        requires { IsSome (file_at self.old file) }
        ensures { self.new ≡ group_after_release self.old self.old.descriptions file }
    {
        let Some(found) = self.files.get(file) else {
            unreachable!()
        };
        if found.linked || self.descriptions.is_open(file) {
            return;
        }
        self.files.remove(file);
    }

    fn read(&mut self, id: DescriptionId, count: u32) -> Result<FileAnswer, AllocError>
        ensures ok { IfOk result
            (λ answer. on_open self.old (read_outcome self.old id count) (open_file_at self.old id)
            ≡ record { group = self.new; answer = answer }) }
        ensures err { OnErr result (self.new ≡ self.old) }
    {
        let Some((description, file)) = self.opened(id) else {
            return Ok(FileAnswer::Fault(Errno::Ebadf));
        };
        if !description.mode.access.can_read() {
            return Ok(FileAnswer::Fault(Errno::Ebadf));
        }
        let count = count.min(READ_MAX) as usize;
        let bytes = file.bytes.read(self.alloc, description.offset, count)?;
        let offset = description.offset + bytes.as_bytes().len() as u64;
        self.descriptions.move_to(id, offset);
        Ok(FileAnswer::Bytes(bytes))
    }

    fn read_at(&self, id: DescriptionId, count: u32, offset: i64) -> Result<FileAnswer, AllocError>
        ensures { IfOk result
            (λ answer. on_open self.now (readat_outcome self.now count offset) (open_file_at self.now id)
            ≡ outcome_of self.now answer) }
    {
        let Some((description, file)) = self.opened(id) else {
            return Ok(FileAnswer::Fault(Errno::Ebadf));
        };
        if !description.mode.access.can_read() {
            return Ok(FileAnswer::Fault(Errno::Ebadf));
        }
        let Some(offset) = natural(offset) else {
            return Ok(FileAnswer::Fault(Errno::Einval));
        };
        let count = count.min(READ_MAX) as usize;
        Ok(FileAnswer::Bytes(file.bytes.read(self.alloc, offset, count)?))
    }

    fn write(&mut self, id: DescriptionId, text: &Text) -> Result<FileAnswer, AllocError>
        ensures ok { IfOk result
            (λ answer. on_open self.old (write_outcome self.old id text.now) (open_file_at self.old id)
            ≡ record { group = self.new; answer = answer }) }
        ensures err { OnErr result (self.new ≡ self.old) }
    {
        let Some((description, file)) = self.opened(id) else {
            return Ok(FileAnswer::Fault(Errno::Ebadf));
        };
        if !description.mode.access.can_write() {
            return Ok(FileAnswer::Fault(Errno::Ebadf));
        }
        let bytes = text.as_bytes();
        if bytes.is_empty() {
            return Ok(FileAnswer::Count(0));
        }
        let at = write_offset(&description, file);
        if let Some(error) = self.files.put(description.file, at, bytes)? {
            return Ok(FileAnswer::Fault(error));
        }
        let count = bytes.len() as u64;
        self.descriptions.move_to(id, at + count);
        Ok(FileAnswer::Count(count))
    }

    fn write_at(
        &mut self,
        id: DescriptionId,
        text: &Text,
        offset: i64,
    ) -> Result<FileAnswer, AllocError>
        ensures ok { IfOk result
            (λ answer. on_open self.old (writeat_outcome self.old text.now offset) (open_file_at self.old id)
            ≡ record { group = self.new; answer = answer }) }
        ensures err { OnErr result (self.new ≡ self.old) }
    {
        let Some((description, _)) = self.opened(id) else {
            return Ok(FileAnswer::Fault(Errno::Ebadf));
        };
        if !description.mode.access.can_write() {
            return Ok(FileAnswer::Fault(Errno::Ebadf));
        }
        let Some(at) = natural(offset) else {
            return Ok(FileAnswer::Fault(Errno::Einval));
        };
        let bytes = text.as_bytes();
        if bytes.is_empty() {
            return Ok(FileAnswer::Count(0));
        }
        if let Some(error) = self.files.put(description.file, at, bytes)? {
            return Ok(FileAnswer::Fault(error));
        }
        Ok(FileAnswer::Count(bytes.len() as u64))
    }

    fn seek(&mut self, id: DescriptionId, offset: i64, whence: Whence) -> FileAnswer
        ensures { on_open self.old (seek_outcome self.old id offset whence) (open_file_at self.old id)
            ≡ record { group = self.new; answer = result } }
    {
        let Some((description, file)) = self.opened(id) else {
            return FileAnswer::Fault(Errno::Ebadf);
        };
        match sought(seek_base(whence, &description, file), offset) {
            Ok(at) => {
                self.descriptions.move_to(id, at);
                FileAnswer::At(at)
            }
            Err(error) => FileAnswer::Fault(error),
        }
    }

    fn cut(&mut self, id: DescriptionId, size: i64) -> FileAnswer
        ensures { on_open self.old (cut_outcome self.old size) (open_file_at self.old id)
            ≡ record { group = self.new; answer = result } }
    {
        let Some((description, _)) = self.opened(id) else {
            return FileAnswer::Fault(Errno::Ebadf);
        };
        if !description.mode.access.can_write() {
            return FileAnswer::Fault(Errno::Einval);
        }
        let Some(size) = natural(size) else {
            return FileAnswer::Fault(Errno::Einval);
        };
        if let Some(error) = self.files.cut(description.file, size) {
            return FileAnswer::Fault(error);
        }
        FileAnswer::Done
    }

    fn size(&self, id: DescriptionId) -> FileAnswer
        ensures { on_open self.now (size_outcome self.now) (open_file_at self.now id)
            ≡ outcome_of self.now result }
    {
        match self.opened(id) {
            Some((_, file)) => FileAnswer::Size(file.bytes.size()),
            None => FileAnswer::Fault(Errno::Ebadf),
        }
    }
}

/// A number that is not negative.
fn natural(number: i64) -> Option<u64>
    ensures { result ≡ natural number }
{
    u64::try_from(number).ok()
}

/// Where a description writes.
fn write_offset(description: &Description, file: &File) -> u64
    ensures { result ≡ write_offset description.now file.now }
{
    if description.mode.append {
        file.bytes.size()
    } else {
        description.offset
    }
}

/// What a seek counts from.
fn seek_base(whence: Whence, description: &Description, file: &File) -> u64
    ensures { result ≡ seek_base whence description.now file.now }
{
    match whence {
        Whence::Set => 0,
        Whence::Cur => description.offset,
        Whence::End => file.bytes.size(),
    }
}

/// The offset that a seek leads to: `EINVAL` where it is negative, `EOVERFLOW` where it is too large.
fn sought(base: u64, by: i64) -> Result<u64, Errno>
    ensures { result ≡ seek_offset (natural (pos base +ℤ by)) }
{
    let Some(up) = natural(by) else {
        let at = base.checked_sub(by.unsigned_abs()).ok_or(Errno::Einval)?;
        return within_limit(at);
    };
    within_limit(base.saturating_add(up))
}

fn within_limit(at: u64) -> Result<u64, Errno>
    ensures { result ≡ seek_offset (Some at) }
{
    if at > OFFSET_MAX {
        return Err(Errno::Eoverflow);
    }
    Ok(at)
}
