ghost use Rattle.std.specs.Prelude.{◌≡◌, ◌+◌, ◌-◌, ◌≤◌, ◌++◌, IfOk, length, take, drop, replicate};
ghost use Rattle.wf_core.specs.Limits.{page_size};
ghost use Rattle.file_store.specs.FileBytes.{all_zero};
ghost use Rattle.file_store.specs.Pages.{zero_page};

use std::alloc::{AllocError, Global};
use std::marker::Model;
use wf_core::PAGE_SIZE;

/// A page that holds zeros.
pub(crate) static ZEROS: [u8; PAGE_SIZE] = [0; PAGE_SIZE];

/// A page of `PAGE_SIZE` bytes, seen as their list.
#[derive(Drop)]
pub(crate) struct Page {
    bytes: Vec<u8>,
}

impl Model for Page {
    ghost use Rattle.std.specs.Prelude.{◌≡◌, ℕ, List, length};
    ghost use Rattle.wf_core.specs.Limits.{page_size};

    ghost Value = { List ℕ };

    ghost view = { λ p. p.bytes.items };

    ghost invariant = { λ p. length p.bytes.items ≡ page_size };
}

impl Page {
    pub(crate) fn zeros(alloc: Global) -> Result<Page, AllocError>
        ensures { IfOk result (λ page. page ≡ zero_page) }
    {
        Ok(Page {
            bytes: vec![in alloc; 0; PAGE_SIZE]?,
        })
    }

    pub(crate) fn as_bytes(&self) -> &[u8]
        ensures value { result.now ≡ self.now }
        ensures size { length result.now ≡ page_size }
    {
        self.bytes.as_slice()
    }

    pub(crate) fn is_zero(&self) -> bool
        ensures { result ≡ all_zero self.now }
    {
        is_zero(self.bytes.as_slice())
    }

    /// Writes bytes that fit from `start` on.
    pub(crate) fn write(&mut self, start: usize, bytes: &[u8])
        requires { start + length bytes.now ≤ page_size }
        ensures value { self.new ≡ take start self.old
            ++ (bytes.now ++ drop (start + length bytes.now) self.old) }
        ensures size { length self.new ≡ page_size }
    {
        self.bytes[start..start + bytes.len()].copy_from_slice(bytes);
    }

    /// Writes zeros from `start` to the end.
    pub(crate) fn clear_from(&mut self, start: usize)
        requires { start ≤ page_size }
        ensures value { self.new ≡ take start self.old ++ replicate (page_size - start) 0 }
        ensures size { length self.new ≡ page_size }
    {
        self.bytes[start..].fill(0);
    }
}

/// Whether the bytes are all 0.
pub(crate) fn is_zero(bytes: &[u8]) -> bool
    ensures { result ≡ all_zero bytes.now }
{
    bytes.iter().all(|byte| *byte == 0)
}
