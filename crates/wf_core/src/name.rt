ghost use Rattle.std.specs.Prelude.{◌≡◌, ℕ, ◌<◌, ◌≤◌, ◌↔◌, ◌==◌, true, false, refl, List, length, Option, Some, IfOk, IsErrOf, nat_eq};
ghost use Rattle.std.specs.Ordering.{nat_cmp};
ghost use Rattle.std.specs.Cmp.{partial_equiv_from_equiv};
ghost use Rattle.std.specs.Cmp.Lexicographic.{pointwise, slice_cmp, nat_list_cmp_total, nat_list_eq_equiv, texts_ties, texts_po};
ghost use Rattle.std.specs.List.{list_all};
ghost use Rattle.wf_core.specs.Limits.{name_max};
ghost use Rattle.wf_core.specs.Names.{is_name, is_filename, is_name_byte};

use crate::limits::NAME_MAX;
use std::alloc::{AllocError, Global};
use std::cmp::Ordering;
use std::marker::Model;

/// The name of a directory entry: 1 to `NAME_MAX` bytes without `/` and byte 0, neither `.` nor `..`
/// (POSIX.1-2017, XBD 3.170). Names are ordered by their bytes.
#[derive(Debug, Drop)]
pub struct Name {
    bytes: Vec<u8>,
}

impl Model for Name {
    ghost Value = { List ℕ };

    ghost view = { λ n. n.bytes.items };

    ghost invariant = { λ n. is_name n.bytes.items ≡ true };
}

/// Why bytes are no name.
#[derive(Debug, Drop, thiserror::Error)]
pub enum NameRefusal {
    /// More than `NAME_MAX` bytes.
    #[error("a name has more than 255 bytes")]
    TooLong,
    /// Empty, `.`, `..`, or with a slash or byte 0.
    #[error("no name of a directory entry")]
    NotAName,
    #[error("out of memory")]
    NoMemory,
}

fn has_name_bytes(bytes: &[u8]) -> bool
    ensures { result ≡ list_all is_name_byte bytes.now }
{
    bytes.iter().all(|byte| *byte != b'/' && *byte != 0)
}

fn is_plain(bytes: &[u8]) -> bool
    ensures { result ≡ is_filename bytes.now }
{
    if bytes.is_empty() || bytes == b".".as_slice() || bytes == b"..".as_slice() {
        return false;
    }
    has_name_bytes(bytes)
}

impl Name {
    /// Reads a name.
    pub fn read(alloc: Global, bytes: &[u8]) -> Result<Name, NameRefusal>
        ensures ok { IfOk result (λ name. name ≡ bytes.now) }
        ensures is_name { IfOk result (λ name. is_name name ≡ true) }
        ensures too_long { IsErrOf result NameRefusal.TooLong ↔ (name_max < length bytes.now) }
        ensures not_a_name { IsErrOf result NameRefusal.NotAName
            ↔ ((length bytes.now ≤ name_max) × (is_filename bytes.now ≡ false)) }
    {
        if bytes.len() > NAME_MAX {
            return Err(NameRefusal::TooLong);
        }
        if !is_plain(bytes) {
            return Err(NameRefusal::NotAName);
        }
        match Vec::from_slice(alloc, bytes) {
            Ok(bytes) => Ok(Name { bytes }),
            Err(_) => Err(NameRefusal::NoMemory),
        }
    }

    /// The bytes of the name.
    pub fn as_bytes(&self) -> &[u8]
        ensures value { result.now ≡ self.now }
        ensures is_name { is_name self.now ≡ true }
    {
        self.bytes.as_slice()
    }
}

impl Clone for Name {
    ghost is_clone = { λ name copy. copy ≡ name };

    fn clone(&self) -> Result<Name, AllocError> {
        Ok(Name {
            bytes: Vec::from_slice(*self.bytes.allocator(), self.bytes.as_slice())?,
        })
    }
}

impl PartialEq for Name {
    ghost eq = { λ a b. pointwise nat_eq a b };

    ghost laws = { partial_equiv_from_equiv nat_list_eq_equiv };

    fn eq(&self, other: &Name) -> bool {
        self.bytes.as_slice() == other.bytes.as_slice()
    }
}

impl Eq for Name {
    ghost laws = { nat_list_eq_equiv };
}

impl PartialOrd for Name {
    ghost partial_cmp = { λ a b. Some (slice_cmp nat_cmp a b) };

    ghost laws = { texts_po };

    fn partial_cmp(&self, other: &Name) -> Option<Ordering> {
        Some(self.cmp(other))
    }
}

impl Ord for Name {
    ghost cmp = { slice_cmp nat_cmp };

    ghost total = { nat_list_cmp_total };

    ghost matches_partial_cmp = { λ a b. refl };

    ghost matches_eq = { texts_ties };

    fn cmp(&self, other: &Name) -> Ordering {
        self.bytes.as_slice().cmp(other.bytes.as_slice())
    }
}
