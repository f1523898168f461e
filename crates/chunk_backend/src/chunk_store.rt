ghost use Rattle.std.specs.Prelude.{◌≡◌, ℕ, ◌≤◌, true, List, length, Option, IfSome, IsErr, is_err, OnErr, OnOk};
ghost use Rattle.wf_core.specs.Faults.{Rose};
ghost use Rattle.chunk_backend.specs.declared.chunk.Fetch.{Fetch};
ghost use Rattle.chunk_backend.specs.Chunks.{fetch_at};
ghost use Rattle.chunk_backend.specs.Stores.{AreFetched, MayFetch, asked_after, fails, is_full};

use wf_core::Failed;

/// Where the bytes of read-only files are fetched from.
pub trait ChunkStore {
    /// The bytes of each file, by its number from 0, where the store tells them.
    ghost contents: { Self → Option (List (List ℕ)) };

    /// What was asked for so far. The number of a fetch is how many there were before it.
    ghost asked: { Self → List Fetch };

    /// The greatest length of `asked`, where the store has such a bound.
    ghost room: { Self → Option ℕ };

    /// The numbers of the fetches that fail, where the store tells them.
    ghost failing: { Self → Option (List ℕ) };

    /// How many fetches have failed; the count stays at 2^64 - 1.
    ghost faults: { Self → ℕ };

    /// Fills `into` with the file's bytes from `offset` on.
    fn fetch(&mut self, file: u32, offset: u64, into: &mut [u8]) -> Result<(), Failed>
        requires { MayFetch (contents self.old) file offset (length into.old) }
        ensures contents { contents self.new ≡ contents self.old }
        ensures room { room self.new ≡ room self.old }
        ensures failing { failing self.new ≡ failing self.old }
        ensures asked { asked self.new
            ≡ asked_after (room self.old) (asked self.old) (fetch_at file offset) }
        ensures filled { OnOk result (AreFetched (contents self.old) file offset into.new) }
        ensures later { faults self.old ≤ faults self.new }
        ensures failed { OnErr result (Rose (faults self.old) (faults self.new)) }
        ensures full { is_full (room self.old) (asked self.old) ≡ true → IsErr result }
        ensures exact { IfSome (failing self.old)
            (λ failing. is_err result ≡ fails failing (room self.old) (asked self.old)) };
}
