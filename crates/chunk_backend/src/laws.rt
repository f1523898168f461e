//! What a user may conclude from the definitions. The functions do nothing: each clause is a law.

ghost use Rattle.chunk_backend.specs.Laws.{FoldsAreWhole, NeedsHoldBytes, ReadsAreFolded};

/// Any list of reads, each answered as `read_at` promises, has the answers, the fetches and the cache of the fold.
pub fn reads_are_folded()
    ensures { ReadsAreFolded }
{}

/// In the fold an answer that is no fault is that without a cache.
pub fn folds_are_whole()
    ensures { FoldsAreWhole }
{}

/// A read needs a chunk exactly where the chunk holds one of its bytes.
pub fn needs_hold_bytes()
    ensures { NeedsHoldBytes }
{}
