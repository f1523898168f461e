ghost use Rattle.std.specs.Prelude.{◌≡◌, ◌+◌, ◌^◌, ◌<◌, [], length, IfOk, OnOk, OnErr};
ghost use Rattle.std.specs.Option.{option_copied};
ghost use Rattle.file_store.specs.FileBytes.{page_of, part, with_bytes_at, with_length, page_count};

use crate::pages::{Pages, piece_size};
use std::alloc::{AllocError, Global};
use std::marker::Model;
use wf_core::{PAGE_SIZE, Text};

/// The bytes of a file, seen as their flat list. Of its pages only those are kept that hold
/// a byte other than 0.
#[derive(Drop)]
pub(crate) struct Contents {
    size: u64,
    pages: Pages,
}

impl Model for Contents {
    ghost use Rattle.std.specs.Prelude.{ℕ, List};
    ghost use Rattle.file_store.specs.Pages.{flat, AreTightWithin};

    ghost Value = { List ℕ };

    ghost view = { λ c. flat c.size c.pages };

    ghost invariant = { λ c. AreTightWithin c.size c.pages };
}

impl Contents {
    pub(crate) fn new(alloc: Global) -> Contents
        ensures { result ≡ [] }
    {
        Contents {
            size: 0,
            pages: Pages::new(alloc),
        }
    }

    /// How many bytes there are.
    pub(crate) fn size(&self) -> u64
        ensures { result ≡ length self.now }
    {
        self.size
    }

    /// How many pages hold a byte other than 0.
    pub(crate) fn pages(&self) -> usize
        ensures { result ≡ page_count self.now }
    {
        self.pages.len()
    }

    /// The bytes of a page up to the end, where it has a byte other than 0.
    pub(crate) fn page(&self, page: u64) -> Option<&[u8]>
        ensures { option_copied result ≡ page_of self.now page }
    {
        let kept = self.pages.kept(page)?;
        let start = page.saturating_mul(PAGE_SIZE as u64);
        let size = self.size.saturating_sub(start).min(PAGE_SIZE as u64);
        Some(&kept[..size as usize])
    }

    /// The bytes from an offset on, at most so many. It takes the time of the bytes, and for each page of
    /// them that of finding it.
    pub(crate) fn read(&self, alloc: Global, offset: u64, count: usize) -> Result<Text, AllocError>
        ensures value { IfOk result (λ text. text ≡ part self.now offset count) }
        ensures fits { IfOk result (λ text. offset + length text < 2 ^ 64) }
    {
        let length = (count as u64).min(self.size.saturating_sub(offset)) as usize;
        let mut bytes = Vec::with_capacity(alloc, length)?;
        while bytes.len() < length {
            let at = offset + bytes.len() as u64;
            let start = (at % PAGE_SIZE as u64) as usize;
            let size = piece_size(at, length - bytes.len());
            let page = self.pages.page(at / PAGE_SIZE as u64);
            bytes.extend_from_slice(&page[start..start + size])?;
        }
        Ok(Text::new(bytes))
    }

    /// Writes all the bytes from an offset on, or none where memory is wanting. It takes the time of the
    /// bytes, and for each page of them that of finding it.
    pub(crate) fn write(
        &mut self,
        alloc: Global,
        offset: u64,
        bytes: &[u8],
    ) -> Result<(), AllocError>
        requires { offset + length bytes.now < 2 ^ 63 }
        ensures ok { OnOk result (self.new ≡ with_bytes_at self.old offset bytes.now) }
        ensures err { OnErr result (self.new ≡ self.old) }
    {
        if let Err(error) = self.pages.reserve(alloc, offset, bytes) {
            self.pages.drop_zeros();
            return Err(error);
        }
        self.pages.put(offset, bytes);
        self.size = self.size.max(offset + bytes.len() as u64);
        Ok(())
    }

    /// Has the file be of that size. It takes at most the time of the pages that are kept.
    pub(crate) fn cut(&mut self, size: u64)
        ensures { self.new ≡ with_length size self.old }
    {
        if size < self.size {
            self.pages.truncate(size);
        }
        self.size = size;
    }
}
