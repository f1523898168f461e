ghost use Rattle.std.specs.Prelude.{◌≡◌, [], length, map, IfOk};

use crate::chunk::Fetch;
use crate::chunk_store::ChunkStore;
use crate::fetch_numbers::FetchNumbers;
use std::alloc::{AllocError, Global};
use std::marker::Model;
use wf_core::{Failed, Text};

/// Files in memory as a store of chunks, which fails where it is told to or where its room ends.
#[derive(Drop)]
pub struct MemStore {
    files: Vec<Text>,
    failing: FetchNumbers,
    room: usize,
    asked: Vec<Fetch>,
    faults: u64,
}

impl Model for MemStore {
    ghost use Rattle.std.specs.Prelude.{◌≤◌, vec_capacity, vec_len};
    ghost use Rattle.chunk_backend.specs.Stores.{Fetching};

    ghost Value = { Fetching };

    ghost view = { λ s. record {
      contents = s.files.items;
      failing = s.failing;
      room = s.room;
      asked = s.asked.items;
      faults = s.faults;
    } };

    ghost invariant = { λ s. (vec_len s.asked ≤ s.room) × (s.room ≤ vec_capacity s.asked) };
}

impl MemStore {
    /// Fails the fetches whose numbers, counted from 0, are in `failing` or are at least `room`.
    pub fn new(
        alloc: Global,
        files: Vec<Text>,
        failing: Vec<u64>,
        room: usize,
    ) -> Result<MemStore, AllocError>
        ensures { IfOk result (λ store. store ≡ record {
          contents = files.items;
          failing = failing.items;
          room = room;
          asked = [];
          faults = 0;
        }) }
    {
        Ok(MemStore {
            files,
            failing: FetchNumbers::new(failing),
            room,
            asked: Vec::with_capacity(alloc, room)?,
            faults: 0,
        })
    }

    /// How many bytes each file has.
    pub fn sizes(&self, alloc: Global) -> Result<Vec<u64>, AllocError>
        ensures { IfOk result (λ sizes. sizes.items ≡ map length self.now.contents) }
    {
        sizes_of(alloc, self.files.as_slice())
    }

    /// What was asked for so far.
    pub fn asked(&self) -> &[Fetch]
        ensures { result.now ≡ self.now.asked }
    {
        self.asked.as_slice()
    }
}

impl ChunkStore for MemStore {
    ghost use Rattle.std.specs.Prelude.{Some};

    ghost contents = { λ s. Some s.contents };

    ghost asked = { λ s. s.asked };

    ghost room = { λ s. Some s.room };

    ghost failing = { λ s. Some s.failing };

    ghost faults = { λ s. s.faults };

    fn fetch(&mut self, file: u32, offset: u64, into: &mut [u8]) -> Result<(), Failed> {
        let number = self.asked.len();
        if number >= self.room {
            self.faults = self.faults.saturating_add(1);
            return Err(Failed);
        }
        self.asked.push(Fetch { file, offset }).unwrap();
        if self.failing.has(number as u64) {
            self.faults = self.faults.saturating_add(1);
            return Err(Failed);
        }
        let bytes = self.files[file as usize].as_bytes();
        let start = offset as usize;
        into.copy_from_slice(&bytes[start..start + into.len()]);
        Ok(())
    }
}

/// How many bytes each file has.
pub(crate) fn sizes_of(alloc: Global, files: &[Text]) -> Result<Vec<u64>, AllocError>
    ensures { IfOk result (λ sizes. sizes.items ≡ map length files.now) }
{
    files
        .iter()
        .map(|file| file.as_bytes().len() as u64)
        .collect(alloc)
}
