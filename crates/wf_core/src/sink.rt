ghost use Rattle.std.specs.Prelude.{◌≡◌, ℕ, ◌+◌, ◌-◌, ◌<◌, ◌≤◌, ◌↔◌, ◌^◌, ◌⊎◌, [], List, length, min, Option, None, Some, Contains, IsErr, IsOk, IfOk, OnErr, OnOk, vec_len, vec_capacity};
ghost use Rattle.std.specs.Io.KnownBytes.{Appends, WriteAppends};
ghost use Rattle.wf_core.specs.Bytes.{AppendsFront};
ghost use Rattle.wf_core.specs.Faults.{Rose};
ghost use Rattle.wf_core.specs.Memory.{Writing};

use crate::source::Failed;
use std::alloc::{AllocError, Global};
use std::io::{Stdout, Write};
use std::marker::Model;

/// Where a run writes its text.
pub trait Sink {
    /// The bytes written so far, where the sink tells them.
    ghost written: { Self → Option (List ℕ) };

    /// How many writes have failed; the count stays at 2^64 - 1.
    ghost faults: { Self → ℕ };

    /// Appends a front of `bytes` and answers its length, at least 1 where `bytes` is not empty. A write
    /// that fails appends nothing.
    fn write(&mut self, bytes: &[u8]) -> Result<usize, Failed>
        ensures within { IfOk result (λ count. count ≤ length bytes.now) }
        ensures some { IfOk result (λ count. 0 < length bytes.now → 0 < count) }
        ensures appends { WriteAppends (written self.old) (written self.new) result bytes.now }
        ensures later { faults self.old ≤ faults self.new }
        ensures failed { OnErr result (Rose (faults self.old) (faults self.new)) };
}

/// Memory as a sink, which takes bytes in pieces and fails where it is told to or where its room ends.
#[derive(Debug, Drop)]
pub struct MemSink {
    bytes: Vec<u8>,
    room: usize,
    piece: usize,
    failing: Vec<u64>,
    writes: u64,
    faults: u64,
}

impl Model for MemSink {
    ghost Value = { Writing };

    ghost view = { λ s. record {
      written = s.bytes.items;
      room = s.room;
      piece = s.piece;
      failing = s.failing.items;
      writes = s.writes;
      faults = s.faults;
    } };

    ghost invariant = { λ s. (vec_len s.bytes ≤ s.room) × (s.room ≤ vec_capacity s.bytes)
        × (0 < s.piece) };
}

impl MemSink {
    /// Takes at most `room` bytes in all and `piece` bytes per write, and fails the writes whose numbers,
    /// counted from 0, are in `failing`.
    pub fn new(
        alloc: Global,
        room: usize,
        piece: usize,
        failing: Vec<u64>,
    ) -> Result<MemSink, AllocError>
        requires { 0 < piece }
        ensures { IfOk result (λ sink. sink ≡ record {
          written = [];
          room = room;
          piece = piece;
          failing = failing.items;
          writes = 0;
          faults = 0;
        }) }
    {
        Ok(MemSink {
            bytes: Vec::with_capacity(alloc, room)?,
            room,
            piece,
            failing,
            writes: 0,
            faults: 0,
        })
    }

    /// What was written.
    pub fn as_bytes(&self) -> &[u8]
        ensures { result.now ≡ self.now.written }
    {
        self.bytes.as_slice()
    }
}

impl Sink for MemSink {
    ghost written = { λ s. Some s.written };

    ghost faults = { λ s. s.faults };

    fn write(&mut self, bytes: &[u8]) -> Result<usize, Failed>
        ensures within { IfOk result (λ count. count ≤ length bytes.now) }
        ensures some { IfOk result (λ count. 0 < length bytes.now → 0 < count) }
        ensures appends { WriteAppends (Some self.old.written)
            (Some self.new.written) result bytes.now }
        ensures later { self.old.faults ≤ self.new.faults }
        ensures failed { OnErr result (Rose self.old.faults self.new.faults) }

        // Which writes fail, and how much the others take.
        ensures exact { IsErr result ↔ (Contains self.old.failing self.old.writes
            ⊎ ((0 < length bytes.now) × (self.old.room ≤ length self.old.written))) }
        ensures count { IfOk result (λ count. count ≡ min (length bytes.now)
            (min self.old.piece (self.old.room - length self.old.written))) }
        ensures number { self.new.writes ≡ min (self.old.writes + 1) (2 ^ 64 - 1) }
        ensures same { (self.new.room ≡ self.old.room) × (self.new.piece ≡ self.old.piece)
            × (self.new.failing ≡ self.old.failing) }
    {
        let number = self.writes;
        self.writes = number.saturating_add(1);
        let room = self.room - self.bytes.len();
        if self.failing.contains(&number) || (!bytes.is_empty() && room == 0) {
            self.faults = self.faults.saturating_add(1);
            return Err(Failed);
        }
        let count = bytes.len().min(self.piece).min(room);
        self.bytes.extend_from_slice(&bytes[..count]).unwrap();
        Ok(count)
    }
}

/// Standard output as a sink. It tells no bytes.
#[derive(Drop)]
pub struct StdSink {
    output: Stdout,
    faults: u64,
}

impl StdSink {
    /// The sink of standard output, of which no write has failed yet.
    pub fn new(output: Stdout) -> StdSink {
        StdSink { output, faults: 0 }
    }
}

impl Sink for StdSink {
    ghost written = { λ _. None };

    ghost faults = { λ s. s.faults };

    fn write(&mut self, bytes: &[u8]) -> Result<usize, Failed> {
        let answer = self.output.write(bytes);
        match answer {
            Ok(count) if count > 0 || bytes.is_empty() => Ok(count),
            _ => {
                self.faults = self.faults.saturating_add(1);
                Err(Failed)
            }
        }
    }
}

/// Writes the whole text, in pieces as large as the sink takes. It takes no memory.
pub fn write_text<K: Sink>(out: &mut K, text: &[u8]) -> Result<(), Failed>
    ensures whole { OnOk result (Appends (K.written out.old) (K.written out.new) text.now) }
    ensures front { AppendsFront (K.written out.old) (K.written out.new) text.now }
    ensures later { K.faults out.old ≤ K.faults out.new }
    ensures fault { OnErr result (Rose (K.faults out.old) (K.faults out.new)) }
{
    let mut at = 0;
    while at < text.len() {
        at += out.write(&text[at..])?;
    }
    Ok(())
}
