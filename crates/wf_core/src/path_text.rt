ghost use Rattle.std.specs.Prelude.{◌≡◌, ℕ, ◌↔◌, true, false, List, IfOk, IsErrOf, nat_eq};
ghost use Rattle.std.specs.Cmp.{partial_equiv_from_equiv};
ghost use Rattle.std.specs.Cmp.Lexicographic.{pointwise, nat_list_eq_equiv};
ghost use Rattle.wf_core.specs.Names.{has_no_nul};

use std::alloc::{AllocError, Global};
use std::marker::Model;

/// The text of a path or of a link: bytes without byte 0.
#[derive(Debug, Drop)]
pub struct PathText {
    bytes: Vec<u8>,
}

impl Model for PathText {
    ghost Value = { List ℕ };

    ghost view = { λ p. p.bytes.items };

    ghost invariant = { λ p. has_no_nul p.bytes.items ≡ true };
}

/// Why bytes are no text of a path.
#[derive(Debug, Drop, thiserror::Error)]
pub enum PathRefusal {
    /// A byte is 0.
    #[error("a path holds byte 0")]
    HasNul,
    #[error("out of memory")]
    NoMemory,
}

fn is_without_nul(bytes: &[u8]) -> bool
    ensures { result ≡ has_no_nul bytes.now }
{
    bytes.iter().all(|byte| *byte != 0)
}

impl PathText {
    /// Reads the text of a path, of any length.
    pub fn read(alloc: Global, bytes: &[u8]) -> Result<PathText, PathRefusal>
        ensures ok { IfOk result (λ path. path ≡ bytes.now) }
        ensures nul { IsErrOf result PathRefusal.HasNul ↔ (has_no_nul bytes.now ≡ false) }
    {
        if !is_without_nul(bytes) {
            return Err(PathRefusal::HasNul);
        }
        match Vec::from_slice(alloc, bytes) {
            Ok(bytes) => Ok(PathText { bytes }),
            Err(_) => Err(PathRefusal::NoMemory),
        }
    }

    /// The bytes of the text.
    pub fn as_bytes(&self) -> &[u8]
        ensures value { result.now ≡ self.now }
        ensures no_nul { has_no_nul self.now ≡ true }
    {
        self.bytes.as_slice()
    }
}

impl Clone for PathText {
    ghost is_clone = { λ path copy. copy ≡ path };

    fn clone(&self) -> Result<PathText, AllocError> {
        Ok(PathText {
            bytes: Vec::from_slice(*self.bytes.allocator(), self.bytes.as_slice())?,
        })
    }
}

impl PartialEq for PathText {
    ghost eq = { λ a b. pointwise nat_eq a b };

    ghost laws = { partial_equiv_from_equiv nat_list_eq_equiv };

    fn eq(&self, other: &PathText) -> bool {
        self.bytes.as_slice() == other.bytes.as_slice()
    }
}

impl Eq for PathText {
    ghost laws = { nat_list_eq_equiv };
}
