ghost use Rattle.std.specs.Prelude.{◌≡◌, ◌≤◌, None, false, Err, IfOk, IfSome, OnErr, OnOk};
ghost use Rattle.std.specs.Map.{lookup};
ghost use Rattle.wf_core.specs.Faults.{Rose};
ghost use Rattle.chunk_backend.specs.Chunks.{fetch_at};
ghost use Rattle.chunk_backend.specs.Stores.{MayFetch, is_full};
ghost use Rattle.chunk_backend.specs.CacheFold.{is_same};
ghost use Rattle.chunk_backend.specs.Steps.{AppendsFetched, IsAsked, IsAskedOnMiss, IsFetched, IsKept, IsPart, PartTaken, cache_and_bytes};

use crate::chunk::ChunkId;
use crate::chunk_answer::ReadFault;
use crate::chunk_store::ChunkStore;
use lru::LruCache;
use std::alloc::{AllocError, Global};
use wf_core::{Failed, Text};

/// The chunks that were used last, the most recent first.
pub(crate) type ChunkCache = LruCache<ChunkId, Text>;

/// A part of a chunk: the bytes `from` to before `to` of the `size` bytes that stand in its file from `start` on.
#[derive(Clone, Copy)]
pub(crate) struct Part {
    pub(crate) id: ChunkId,
    pub(crate) start: u64,
    pub(crate) size: usize,
    pub(crate) from: usize,
    pub(crate) to: usize,
}

/// Appends a part of a chunk, which then comes first in the cache. True where it was in it before. A chunk that is not
/// is fetched.
pub(crate) fn append_part<T: ChunkStore>(
    alloc: Global,
    store: &mut T,
    cache: &mut ChunkCache,
    part: Part,
    bytes: &mut Vec<u8>,
) -> Result<bool, ReadFault>
    requires part { IsPart part cache.old }
    requires store { MayFetch (T.contents store.old) part.id.file part.start part.size }
    ensures contents { T.contents store.new ≡ T.contents store.old }
    ensures room { T.room store.new ≡ T.room store.old }
    ensures failing { T.failing store.new ≡ T.failing store.old }
    ensures later { T.faults store.old ≤ T.faults store.new }
    ensures fault { result ≡ Err ReadFault.Failed
        → Rose (T.faults store.old) (T.faults store.new) }
    ensures taken { PartTaken (T.contents store.old) part
        (cache_and_bytes cache.old bytes.old.items) result
        (cache_and_bytes cache.new bytes.new.items) }
    ensures asked { IfSome (T.failing store.old) (λ failing.
        is_full (T.room store.old) (T.asked store.old) ≡ false
        → IsAskedOnMiss failing (fetch_at part.id.file part.start) (T.asked store.old) result
        (T.asked store.new)) }
{
    if append_kept(cache, part, bytes)? {
        return Ok(true);
    }
    append_fetched(alloc, store, cache, part, bytes)?;
    Ok(false)
}

/// Appends a part of a chunk that is in the cache, where it then comes first. False where it is not in it.
fn append_kept(cache: &mut ChunkCache, part: Part, bytes: &mut Vec<u8>) -> Result<bool, AllocError>
    requires { IsPart part cache.old }
    ensures kept { IfOk result (λ kept. IsKept part
        (cache_and_bytes cache.old bytes.old.items) kept
        (cache_and_bytes cache.new bytes.new.items)) }
    ensures err { OnErr result (cache.new ≡ cache.old) }
{
    let Some(chunk) = cache.peek(&part.id) else {
        return Ok(false);
    };
    bytes.extend_from_slice(&chunk.as_bytes()[part.from..part.to])?;
    cache.promote(&part.id);
    Ok(true)
}

/// Appends a part of a chunk that is not in the cache.
fn append_fetched<T: ChunkStore>(
    alloc: Global,
    store: &mut T,
    cache: &mut ChunkCache,
    part: Part,
    bytes: &mut Vec<u8>,
) -> Result<(), ReadFault>
    requires part { IsPart part cache.old }
    requires missed { lookup (is_same part.id) cache.old.entries ≡ None }
    requires store { MayFetch (T.contents store.old) part.id.file part.start part.size }
    ensures contents { T.contents store.new ≡ T.contents store.old }
    ensures room { T.room store.new ≡ T.room store.old }
    ensures failing { T.failing store.new ≡ T.failing store.old }
    ensures later { T.faults store.old ≤ T.faults store.new }
    ensures fault { result ≡ Err ReadFault.Failed
        → Rose (T.faults store.old) (T.faults store.new) }
    ensures ok { OnOk result (AppendsFetched (T.contents store.old) part
        (cache_and_bytes cache.old bytes.old.items)
        (cache_and_bytes cache.new bytes.new.items)) }
    ensures err { OnErr result (cache.new ≡ cache.old) }
    ensures asked { IfSome (T.failing store.old) (λ failing.
        is_full (T.room store.old) (T.asked store.old) ≡ false
        → IsAsked failing (fetch_at part.id.file part.start) (T.asked store.old) result
        (T.asked store.new)) }
{
    let chunk = fetch_chunk(alloc, store, part)?;
    bytes.extend_from_slice(&chunk.as_slice()[part.from..part.to])?;
    match cache.put(part.id, Text::new(chunk)) {
        Ok(_) => Ok(()),
        Err(_) => Err(ReadFault::NoMemory),
    }
}

/// The bytes of a chunk, asked of the store.
fn fetch_chunk<T: ChunkStore>(
    alloc: Global,
    store: &mut T,
    part: Part,
) -> Result<Vec<u8>, ReadFault>
    requires { MayFetch (T.contents store.old) part.id.file part.start part.size }
    ensures contents { T.contents store.new ≡ T.contents store.old }
    ensures room { T.room store.new ≡ T.room store.old }
    ensures failing { T.failing store.new ≡ T.failing store.old }
    ensures fetched { IfOk result (λ chunk. IsFetched (T.contents store.old) part chunk.items) }
    ensures later { T.faults store.old ≤ T.faults store.new }
    ensures fault { result ≡ Err ReadFault.Failed
        → Rose (T.faults store.old) (T.faults store.new) }
    ensures asked { IfSome (T.failing store.old) (λ failing.
        is_full (T.room store.old) (T.asked store.old) ≡ false
        → IsAsked failing (fetch_at part.id.file part.start) (T.asked store.old) result
        (T.asked store.new)) }
{
    let mut chunk = vec![in alloc; 0; part.size]?;
    match store.fetch(part.id.file, part.start, chunk.as_mut_slice()) {
        Ok(()) => Ok(chunk),
        Err(Failed) => Err(ReadFault::Failed),
    }
}
