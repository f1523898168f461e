ghost use Rattle.std.specs.Prelude.{◌≡◌, ◌<◌, length, IsOk, IfOk, OnErr};
ghost use Rattle.std.specs.Option.{option_and_then, option_copied, option_map};
ghost use Rattle.file_store.specs.FileBytes.{page_of};
ghost use Rattle.file_store.specs.FileGroups.{file_at, opening, fstep, total_pages};
ghost use Rattle.file_store.specs.FileForms.{IsForm, IsSpare};
ghost use Rattle.file_store.specs.Sound.{IsSound};
ghost use Rattle.file_store.specs.Laws.{LeavesGroup};
ghost use Rattle.wf_core.specs.Limits.{group_count};

use crate::answer_copy::answer_room;
use crate::file_group::FileGroup;
use crate::file_operation::{FileAnswer, FileOp};
use std::alloc::{AllocError, Global};
use std::marker::Model;
use wf_core::FileId;

/// The files of one group of a backend and their open descriptions, seen as both by their ids. The group is sound.
#[derive(Drop)]
pub struct Files {
    group: FileGroup,
}

impl Model for Files {
    ghost use Rattle.file_store.specs.FileGroups.{Group};
    ghost use Rattle.file_store.specs.Sound.{IsSound};

    ghost Value = { Group };

    ghost view = { λ f. f.group };

    ghost invariant = { λ f. IsSound f.group };
}

impl Files {
    /// A group without files. The ids of group 0 to 3 are its number, and from there on each fourth one.
    pub fn new(alloc: Global, group: u32) -> Files
        requires { group < group_count }
        ensures { result ≡ opening group }
    {
        Files {
            group: FileGroup::new(alloc, u64::from(group)),
        }
    }

    /// How many pages of all files hold a byte other than 0. It takes no memory.
    pub fn pages(&self) -> usize
        ensures { result ≡ total_pages self.now.files }
    {
        self.group.pages()
    }

    /// How many bytes a file has, where it is there. It takes no memory.
    pub fn size(&self, file: FileId) -> Option<u64>
        ensures { result ≡ option_map (λ file. length file.bytes) (file_at self.now file) }
    {
        Some(self.group.file(file)?.bytes.size())
    }

    /// The bytes of the file's page of that number up to the file's end, where the file is there and the page has a
    /// byte other than 0. It takes no memory, and the time of finding the page.
    pub fn page(&self, file: FileId, page: u64) -> Option<&[u8]>
        ensures { option_copied result
            ≡ option_and_then (λ file. page_of file.bytes page) (file_at self.now file) }
    {
        self.group.file(file)?.bytes.page(page)
    }

    /// Takes one step, which is the definition's. Want of memory changes nothing.
    pub fn apply(&mut self, op: &FileOp) -> Result<FileAnswer, AllocError>
        ensures ok { IfOk result
            (λ answer. fstep self.old op.now ≡ record { group = self.new; answer = answer }) }
        ensures form { IfOk result (IsForm op.now) }
        ensures err { OnErr result (self.new ≡ self.old) }

        // After an error, what was only asked, or a write of nothing, the group is as it was.
        ensures unchanged { IfOk result (λ answer. LeavesGroup answer → self.new ≡ self.old) }
        ensures succeeds { IsSpare op.now → IsOk result }
        ensures sound { IsSound self.new }
    {
        self.group.step(op)
    }

    /// Takes one step as `apply` does, and gives the answer twice, of which the second takes no more memory than it
    /// needs. Want of memory changes nothing.
    #[tactic(auto, using(crate::proofs::AnswerLemmas::bytes_fit))]
    pub fn apply_with_copy(&mut self, op: &FileOp) -> Result<(FileAnswer, FileAnswer), AllocError>
        ensures ok { IfOk result (λ answers.
            fstep self.old op.now ≡ record { group = self.new; answer = answers.1 }) }
        ensures copy { IfOk result (λ answers. answers.0 ≡ answers.1) }
        ensures form { IfOk result (λ answers. IsForm op.now answers.1) }
        ensures err { OnErr result (self.new ≡ self.old) }
        ensures sound { IsSound self.new }
    {
        // A read moves the offset, so there has to be room for the copy before it.
        let room = answer_room(self.group.alloc(), op)?;
        let answer = self.apply(op)?;
        Ok((answer.copy_in(room), answer))
    }
}
