ghost use Rattle.std.specs.Prelude.{◌≡◌, ◌≢◌, None, ◌⊎◌, ℕ, ◌+◌, ◌-◌, ◌*◌, ◌/◌, ◌%◌, ◌^◌, ◌<◌, ◌≤◌, ◌++◌, [], true, false, nat_lt, length, take, drop, replicate, IsSome, IfSome, OnOk, OnErr, if◌then◌else◌};
ghost use Rattle.std.specs.Option.{option_copied};
ghost use Rattle.std.specs.List.Sorted.{IsStrictlySortedBy};
ghost use Rattle.std.specs.Map.{keys_of};
ghost use Rattle.std.specs.Ordering.{nat_cmp};
ghost use Rattle.wf_core.specs.Limits.{page_size};
ghost use Rattle.file_store.specs.FileBytes.{all_zero};
ghost use Rattle.file_store.specs.Pages.{kept_page, page_at, byte_at, overlay_byte, AreWhole, AreTight, AreReadyFor};

use crate::page::{Page, ZEROS, is_zero};
use std::alloc::{AllocError, Global};
use std::collections::BTreeMap;
use std::marker::Model;
use wf_core::PAGE_SIZE;

/// The pages of a file that are kept, by their numbers. A page that is not kept is zeros.
#[derive(Drop)]
pub(crate) struct Pages {
    pages: BTreeMap<u64, Page>,
}

impl Model for Pages {
    ghost use Rattle.file_store.specs.Pages.{PageEntries, AreWhole};

    ghost Value = { PageEntries };

    ghost view = { λ p. p.pages.entries };

    ghost invariant = { λ p. AreWhole p.pages.entries };
}

impl Pages {
    pub(crate) fn new(alloc: Global) -> Pages
        ensures { result ≡ [] }
    {
        Pages {
            pages: BTreeMap::new(alloc),
        }
    }

    /// How many pages are kept.
    pub(crate) fn len(&self) -> usize
        ensures value { result ≡ length self.now }
        ensures whole { AreWhole self.now }
        ensures ordered { IsStrictlySortedBy nat_cmp (keys_of self.now) }
    {
        self.pages.len()
    }

    /// The bytes of a page.
    pub(crate) fn page(&self, page: u64) -> &[u8]
        ensures value { result.now ≡ page_at self.now page }
        ensures size { length result.now ≡ page_size }
    {
        match self.pages.get(&page) {
            Some(kept) => kept.as_bytes(),
            None => &ZEROS,
        }
    }

    /// The bytes of a page that is kept.
    pub(crate) fn kept(&self, page: u64) -> Option<&[u8]>
        ensures value { option_copied result ≡ kept_page self.now page }
        ensures whole { AreWhole self.now }
        ensures size { IfSome result (λ bytes. length bytes.now ≡ page_size) }
    {
        match self.pages.get(&page) {
            Some(kept) => Some(kept.as_bytes()),
            None => None,
        }
    }

    /// Keeps a page into which bytes other than 0 are to be written.
    fn reserve_page(&mut self, alloc: Global, page: u64, piece: &[u8]) -> Result<(), AllocError>
        ensures same { (k : ℕ) → page_at self.new k ≡ page_at self.old k }
        ensures stays { (k : ℕ) → IsSome (kept_page self.old k) → IsSome (kept_page self.new k) }
        ensures added { (k : ℕ) → IsSome (kept_page self.new k) → IsSome (kept_page self.old k)
            ⊎ ((k ≡ page) × (all_zero piece.now ≡ false)) }
        ensures room { OnOk result (all_zero piece.now ≡ false → IsSome (kept_page self.new page)) }
    {
        if is_zero(piece) || self.pages.contains_key(&page) {
            return Ok(());
        }
        self.pages.insert(page, Page::zeros(alloc)?)?;
        Ok(())
    }

    /// Writes bytes into a page, which is kept unless they are zeros.
    fn put_piece(&mut self, page: u64, start: usize, piece: &[u8])
        requires fits { start + length piece.now ≤ page_size }
        requires room { all_zero piece.now ≡ false → IsSome (kept_page self.old page) }
        ensures whole { AreWhole self.old }
        ensures others { (k : ℕ) → k ≢ page → kept_page self.new k ≡ kept_page self.old k }
        ensures written { page_at self.new page ≡ take start (page_at self.old page)
            ++ (piece.now ++ drop (start + length piece.now) (page_at self.old page)) }
        ensures tight { IsSome (kept_page self.new page) → all_zero (page_at self.new page)
            ≡ false }
    {
        let Some(kept) = self.pages.get_mut(&page) else {
            return;
        };
        kept.write(start, piece);
        if is_zero(piece) && kept.is_zero() {
            self.pages.remove(&page);
        }
    }

    /// Writes zeros into a page from `start` on.
    fn clear_tail(&mut self, page: u64, start: usize)
        requires { start ≤ page_size }
        ensures whole { AreWhole self.old }
        ensures others { (k : ℕ) → k ≢ page → kept_page self.new k ≡ kept_page self.old k }
        ensures written { page_at self.new page ≡ take start (page_at self.old page)
            ++ replicate (page_size - start) 0 }
        ensures tight { IsSome (kept_page self.new page) → all_zero (page_at self.new page)
            ≡ false }
    {
        let Some(kept) = self.pages.get_mut(&page) else {
            return;
        };
        kept.clear_from(start);
        if kept.is_zero() {
            self.pages.remove(&page);
        }
    }

    /// Gives up the pages that are zeros.
    pub(crate) fn drop_zeros(&mut self)
        ensures same { (i : ℕ) → byte_at self.new i ≡ byte_at self.old i }
        ensures tight { AreTight self.new }
    {
        self.pages.retain(|_, page| !page.is_zero());
    }

    /// Keeps a page for each byte other than 0 that is to be written, so that `put` needs no memory.
    pub(crate) fn reserve(
        &mut self,
        alloc: Global,
        offset: u64,
        bytes: &[u8],
    ) -> Result<(), AllocError>
        requires { offset + length bytes.now < 2 ^ 63 }
        ensures same { (i : ℕ) → byte_at self.new i ≡ byte_at self.old i }
        ensures ready { AreTight self.old → OnOk result (AreReadyFor self.new offset bytes.now) }
    {
        let mut at = offset;
        let mut rest = bytes;
        while !rest.is_empty() {
            let (piece, others) = rest.split_at(piece_size(at, rest.len()));
            self.reserve_page(alloc, at / PAGE_SIZE as u64, piece)?;
            at += piece.len() as u64;
            rest = others;
        }
        Ok(())
    }

    /// Writes bytes for which the pages are ready.
    pub(crate) fn put(&mut self, offset: u64, bytes: &[u8])
        requires fits { offset + length bytes.now < 2 ^ 63 }
        requires ready { AreReadyFor self.old offset bytes.now }
        ensures written { (i : ℕ) → byte_at self.new i
            ≡ overlay_byte (byte_at self.old) offset bytes.now i }
        ensures tight { AreTight self.new }
    {
        let mut at = offset;
        let mut rest = bytes;
        while !rest.is_empty() {
            let (piece, others) = rest.split_at(piece_size(at, rest.len()));
            let start = (at % PAGE_SIZE as u64) as usize;
            self.put_piece(at / PAGE_SIZE as u64, start, piece);
            at += piece.len() as u64;
            rest = others;
        }
    }

    /// Has the bytes from `size` on be zeros.
    pub(crate) fn truncate(&mut self, size: u64)
        ensures cut { (i : ℕ) → byte_at self.new i
            ≡ (if nat_lt i size then byte_at self.old i else 0) }
        ensures tight { AreTight self.old → AreTight self.new }
    {
        let pages = size.div_ceil(PAGE_SIZE as u64);
        self.drop_from(pages);
        let start = (size % PAGE_SIZE as u64) as usize;
        if start > 0 {
            self.clear_tail(size / PAGE_SIZE as u64, start);
        }
    }

    /// Gives up the pages from that number on.
    fn drop_from(&mut self, first: u64)
        ensures { (k : ℕ) → kept_page self.new k
            ≡ (if nat_lt k first then kept_page self.old k else None) }
    {
        while let Some((page, _)) = self.pages.last_key_value() {
            if *page < first {
                return;
            }
            self.pages.pop_last();
        }
    }
}

/// How many of the bytes from an offset on stand in one page.
pub(crate) fn piece_size(offset: u64, count: usize) -> usize
    ensures within { result ≤ count }
    ensures one_page { offset % page_size + result ≤ page_size }
    ensures goes_on { 0 < count → 0 < result }
    ensures next { result < count → offset % page_size + result ≡ page_size }
{
    count.min(PAGE_SIZE - (offset % PAGE_SIZE as u64) as usize)
}
