ghost use Rattle.std.specs.Prelude.{◌≡◌, [], ◌∷◌, ◌++◌, List, ◌+◌, ◌<◌, ◌≤◌, ◌^◌, length, map, IfOk, IfSome, OnOk};
ghost use Rattle.wf_core.specs.Limits.{read_max};
ghost use Rattle.file_store.specs.FileGroups.{natural};
ghost use Rattle.chunk_backend.specs.declared.chunk.ChunkRead.{ChunkRead};
ghost use Rattle.chunk_backend.specs.declared.chunk_answer.ChunkAnswer.{ChunkAnswer};
ghost use Rattle.chunk_backend.specs.Chunks.{chunk_max, chunk_read, chunk_size, entries_max, size_of};
ghost use Rattle.chunk_backend.specs.Reads.{AreFolded, IsReadAt, Ran, Seen, seen};
ghost use Rattle.chunk_backend.specs.Steps.{AppendsPart, Collects, CountsHits, IsWithin, ServesBetween, Takes};

use crate::chunk::ChunkId;
use crate::chunk_answer::{ChunkAnswer, ReadFault, Served};
use crate::chunk_cache::{ChunkCache, Part, append_part};
use crate::chunk_store::ChunkStore;
use lru::LruCache;
use std::alloc::{AllocError, Global};
use std::marker::Model;
use std::num::NonZeroUsize;
use wf_core::{READ_MAX, Text};

/// Read-only files of a store by chunks, and a cache of the chunks that were used last.
#[derive(Drop)]
pub struct ChunkFiles<T: ChunkStore> {
    alloc: Global,
    store: T,
    sizes: Vec<u64>,
    chunk: u64,
    cache: ChunkCache,
}

impl<T: ChunkStore> Model for ChunkFiles<T> {
    ghost use Rattle.chunk_backend.specs.Reads.{Cached, IsCache, IsSetup, seen};

    ghost Value = { Cached T };

    ghost view = { λ f. record {
      store = f.store;
      sizes = f.sizes.items;
      chunk = f.chunk;
      limit = f.cache.cap;
      cache = f.cache.entries;
    } };

    ghost invariant = { λ f.
        let all = seen T.contents T.room T.failing T.asked T.faults (record {
          store = f.store;
          sizes = f.sizes.items;
          chunk = f.chunk;
          limit = f.cache.cap;
          cache = f.cache.entries;
        }) in IsSetup all.setup × IsCache all.setup all.cache };
}

impl<T: ChunkStore + Drop> ChunkFiles<T> {
    /// The files of a store, of which `sizes` has the lengths, in chunks of `chunk` bytes, of which a cache has at most
    /// `entries`. Nothing is fetched yet.
    pub fn make(
        alloc: Global,
        store: T,
        sizes: Vec<u64>,
        chunk: usize,
        entries: usize,
    ) -> Result<ChunkFiles<T>, AllocError>
        requires chunk { (0 < chunk) × (chunk ≤ chunk_max) }
        requires entries { (0 < entries) × (entries ≤ entries_max) }
        requires sizes { IfSome (T.contents store) (λ files. sizes.items ≡ map length files) }
        ensures { IfOk result (λ files. files ≡ record {
          store = store;
          sizes = sizes.items;
          chunk = chunk;
          limit = entries;
          cache = [];
        }) }
    {
        let cache = LruCache::new(alloc, NonZeroUsize::new(entries).unwrap())?;
        Ok(ChunkFiles {
            alloc,
            store,
            sizes,
            chunk: chunk as u64,
            cache,
        })
    }

    /// The store, with what was asked of it.
    pub fn store(&self) -> &T
        ensures { result.now ≡ self.now.store }
    {
        &self.store
    }

    /// At most `count` bytes of a file from `offset` on, and at most `READ_MAX`. It fetches those chunks that hold them
    /// and are not in the cache, and no others.
    pub fn read_at(&mut self, file: u32, offset: i64, count: u32) -> ChunkAnswer
        ensures read { IsReadAt (seen T.contents T.room T.failing T.asked T.faults self.old)
            (chunk_read file offset count) result
            (seen T.contents T.room T.failing T.asked T.faults self.new) }

        // With the reads before it: the answers, what was fetched, and the cache are those of the fold.
        ensures runs { (start : Seen) (reads : List ChunkRead) (answers : List ChunkAnswer)
            → Ran start reads answers (seen T.contents T.room T.failing T.asked T.faults self.old)
            → AreFolded start (reads ++ chunk_read file offset count ∷ []) (answers ++ result ∷ [])
            (seen T.contents T.room T.failing T.asked T.faults self.new) }
    {
        self.serve(file, offset, count).answer
    }

    /// The same, with how many chunks were in the cache.
    pub(crate) fn serve(&mut self, file: u32, offset: i64, count: u32) -> Served
        ensures read { IsReadAt (seen T.contents T.room T.failing T.asked T.faults self.old)
            (chunk_read file offset count) result.answer
            (seen T.contents T.room T.failing T.asked T.faults self.new) }
        ensures hits { CountsHits (seen T.contents T.room T.failing T.asked T.faults self.old)
            (chunk_read file offset count) result.answer result.hits }
    {
        let Some(size) = self.sizes.get(file as usize) else {
            return Served::without_chunks(ChunkAnswer::NoFile);
        };
        let Some(from) = natural(offset) else {
            return Served::without_chunks(ChunkAnswer::Negative);
        };
        let end = (*size).min(from + u64::from(count.min(READ_MAX)));
        self.serve_between(file, from, end)
    }

    /// The bytes of a file from `from` to before `end`.
    fn serve_between(&mut self, file: u32, from: u64, end: u64) -> Served
        requires there { file < length self.old.sizes }
        requires within { end ≤ size_of self.old.sizes file }
        requires few { end ≤ from + read_max }
        requires small { from < 2 ^ 63 }
        ensures { ServesBetween (seen T.contents T.room T.failing T.asked T.faults self.old)
            file from end result
            (seen T.contents T.room T.failing T.asked T.faults self.new) }
    {
        let room = end.saturating_sub(from) as usize;
        let Ok(mut bytes) = Vec::with_capacity(self.alloc, room) else {
            return Served::without_chunks(ChunkAnswer::NoMemory);
        };
        let mut hits = 0;
        let answer = match self.collect(file, from, end, &mut bytes, &mut hits) {
            Ok(()) => ChunkAnswer::Bytes(Text::new(bytes)),
            Err(ReadFault::Failed) => ChunkAnswer::Fault,
            Err(ReadFault::NoMemory) => ChunkAnswer::NoMemory,
        };
        Served { answer, hits }
    }

    /// Appends the bytes of a file from `from` to before `end`, chunk by chunk, and counts the chunks that were in the
    /// cache.
    fn collect(
        &mut self,
        file: u32,
        from: u64,
        end: u64,
        bytes: &mut Vec<u8>,
        hits: &mut u32,
    ) -> Result<(), ReadFault>
        requires there { file < length self.old.sizes }
        requires within { end ≤ size_of self.old.sizes file }
        requires few { end ≤ from + read_max }
        requires small { from < 2 ^ 63 }
        requires none { (bytes.old.items ≡ []) × (hits.old ≡ 0) }
        ensures { Collects (seen T.contents T.room T.failing T.asked T.faults self.old)
            file from end result bytes.new.items hits.new
            (seen T.contents T.room T.failing T.asked T.faults self.new) }
    {
        let chunk = self.chunk;
        let mut at = from;
        while at < end {
            let number = at / chunk;
            let start = number * chunk;
            let stop = end.min(start + chunk);
            let id = ChunkId { file, number };
            let listed = self.append_part(
                id,
                (at - start) as usize,
                (stop - start) as usize,
                bytes,
            )?;
            *hits += u32::from(listed);
            at = stop;
        }
        Ok(())
    }

    /// Appends a part of a chunk, which then comes first in the cache. True where it was in it before.
    fn append_part(
        &mut self,
        id: ChunkId,
        from: usize,
        to: usize,
        bytes: &mut Vec<u8>,
    ) -> Result<bool, ReadFault>
        requires within { IsWithin (seen T.contents T.room T.failing T.asked T.faults self.old).setup id }
        requires part { (from ≤ to) × (to ≤ chunk_size self.old.chunk self.old.sizes id) }
        ensures taken { Takes (seen T.contents T.room T.failing T.asked T.faults self.old) id result
            (seen T.contents T.room T.failing T.asked T.faults self.new) }
        ensures bytes { OnOk result (AppendsPart (seen T.contents T.room T.failing T.asked T.faults self.old).setup
            id from to bytes.old.items bytes.new.items) }
    {
        let size = self.sizes[id.file as usize];
        let start = id.number * self.chunk;
        let part = Part {
            id,
            start,
            size: self.chunk.min(size - start) as usize,
            from,
            to,
        };
        append_part(self.alloc, &mut self.store, &mut self.cache, part, bytes)
    }
}

/// A number that is not negative.
pub(crate) fn natural(number: i64) -> Option<u64>
    ensures { result ≡ natural number }
{
    u64::try_from(number).ok()
}
