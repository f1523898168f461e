ghost use Rattle.std.specs.Prelude.{◌≡◌, ℕ, ◌+◌, ◌-◌, ◌<◌, ◌≤◌, ◌↔◌, ◌^◌, List, length, min, Option, None, Some, drop, Contains, IsErr, IsErrOf, IfOk, OnErr, vec_len};
ghost use Rattle.std.specs.Io.KnownBytes.{Consumes, IsAtEnd, ReadConsumes};
ghost use Rattle.wf_core.specs.Faults.{Rose};
ghost use Rattle.wf_core.specs.Memory.{Reading};
ghost use Rattle.wf_core.specs.declared.source.InputFault.TheVariants.{NoMemory};

use std::alloc::{AllocError, Global};
use std::io::{Read, Stdin};
use std::marker::Model;

/// The fault of a source or sink.
#[derive(Clone, Copy, Debug, PartialEq, Eq)]
pub struct Failed;

/// Where a run reads its input.
pub trait Source {
    /// The bytes still to come, where the source tells them.
    ghost left: { Self → Option (List ℕ) };

    /// How many bytes it has given so far, also where it tells none of them.
    ghost given: { Self → ℕ };

    /// How many reads have failed; the count stays at 2^64 - 1.
    ghost faults: { Self → ℕ };

    /// Puts the next bytes into the front of `buf` and answers how many. 0 for a non-empty `buf` is the
    /// end of the input. A read that fails has given nothing.
    fn read(&mut self, buf: &mut [u8]) -> Result<usize, Failed>
        ensures within { IfOk result (λ count. count ≤ length buf.new) }
        ensures bytes { ReadConsumes (left self.old) (left self.new) result buf.new }
        ensures given { IfOk result (λ count. given self.new ≡ given self.old + count) }
        ensures kept { OnErr result (given self.new ≡ given self.old) }
        ensures later { faults self.old ≤ faults self.new }
        ensures failed { OnErr result (Rose (faults self.old) (faults self.new)) };
}

/// Bytes in memory as a source, which gives them in pieces and fails where it is told to.
#[derive(Debug, Drop)]
pub struct MemSource {
    bytes: Vec<u8>,
    at: usize,
    piece: usize,
    failing: Vec<u64>,
    reads: u64,
    faults: u64,
}

impl Model for MemSource {
    ghost Value = { Reading };

    ghost view = { λ s. record {
      left = drop s.at s.bytes.items;
      given = s.at;
      piece = s.piece;
      failing = s.failing.items;
      reads = s.reads;
      faults = s.faults;
    } };

    ghost invariant = { λ s. (s.at ≤ vec_len s.bytes) × (0 < s.piece) };
}

impl MemSource {
    /// Gives `bytes` in pieces of at most `piece` bytes, and fails the reads whose numbers, counted from 0,
    /// are in `failing`.
    pub fn new(bytes: Vec<u8>, piece: usize, failing: Vec<u64>) -> MemSource
        requires { 0 < piece }
        ensures { result ≡ record {
          left = bytes.items;
          given = 0;
          piece = piece;
          failing = failing.items;
          reads = 0;
          faults = 0;
        } }
    {
        MemSource {
            bytes,
            at: 0,
            piece,
            failing,
            reads: 0,
            faults: 0,
        }
    }
}

impl Source for MemSource {
    ghost left = { λ s. Some s.left };

    ghost given = { λ s. s.given };

    ghost faults = { λ s. s.faults };

    fn read(&mut self, buf: &mut [u8]) -> Result<usize, Failed>
        ensures within { IfOk result (λ count. count ≤ length buf.new) }
        ensures bytes { ReadConsumes (Some self.old.left) (Some self.new.left) result buf.new }
        ensures given { IfOk result (λ count. self.new.given ≡ self.old.given + count) }
        ensures kept { OnErr result (self.new.given ≡ self.old.given) }
        ensures later { self.old.faults ≤ self.new.faults }
        ensures failed { OnErr result (Rose self.old.faults self.new.faults) }

        // Which reads fail, and how much the others give.
        ensures exact { IsErr result ↔ Contains self.old.failing self.old.reads }
        ensures count { IfOk result
            (λ count. count ≡ min (length buf.new) (min self.old.piece (length self.old.left))) }
        ensures number { self.new.reads ≡ min (self.old.reads + 1) (2 ^ 64 - 1) }
        ensures same { (self.new.piece ≡ self.old.piece) × (self.new.failing ≡ self.old.failing) }
    {
        let number = self.reads;
        self.reads = number.saturating_add(1);
        if self.failing.contains(&number) {
            self.faults = self.faults.saturating_add(1);
            return Err(Failed);
        }
        let rest = self.bytes.len() - self.at;
        let count = buf.len().min(self.piece).min(rest);
        let end = self.at + count;
        buf[..count].copy_from_slice(&self.bytes[self.at..end]);
        self.at = end;
        Ok(count)
    }
}

/// Standard input as a source. It tells no bytes, and gives fewer than 2^64 of them.
#[derive(Drop)]
pub struct StdSource {
    input: Stdin,
    given: u64,
    faults: u64,
}

impl StdSource {
    /// The source of standard input, which has given nothing yet.
    pub fn new(input: Stdin) -> StdSource {
        StdSource {
            input,
            given: 0,
            faults: 0,
        }
    }
}

impl Source for StdSource {
    ghost left = { λ _. None };

    ghost given = { λ s. s.given };

    ghost faults = { λ s. s.faults };

    fn read(&mut self, buf: &mut [u8]) -> Result<usize, Failed> {
        let answer = self.input.read(buf).ok();
        let counted = answer.and_then(|count| self.given.checked_add(count as u64));
        if let (Some(count), Some(given)) = (answer, counted) {
            self.given = given;
            return Ok(count);
        }
        self.faults = self.faults.saturating_add(1);
        Err(Failed)
    }
}

/// How many bytes one turn of `read_input` asks for at most.
const PIECE: usize = 65536;

/// Why an input was not read.
#[derive(Clone, Copy, Debug, PartialEq, Eq, thiserror::Error)]
pub enum InputFault {
    #[error("a read failed")]
    ReadFault,
    /// The input has more bytes than the limit.
    #[error("the input is too long")]
    TooLong,
    #[error("out of memory")]
    NoMemory,
}

impl From<AllocError> for InputFault {
    ghost from_gives = { λ _ fault. fault ≡ NoMemory };

    fn from(_: AllocError) -> InputFault {
        InputFault::NoMemory
    }
}

/// Reads all bytes up to the end, at most `limit`. It stops after one byte more.
pub fn read_input<S: Source>(alloc: Global, src: &mut S, limit: u64) -> Result<Vec<u8>, InputFault>
    requires { limit < 2 ^ 63 }
    ensures whole { IfOk result
        (λ input. Consumes (S.left src.old) (S.left src.new) input.items
        × IsAtEnd (S.left src.new)) }
    ensures given { IfOk result (λ input. S.given src.new ≡ S.given src.old + vec_len input) }
    ensures short { IfOk result (λ input. vec_len input ≤ limit) }
    ensures later { S.faults src.old ≤ S.faults src.new }
    ensures fault { IsErrOf result InputFault.ReadFault
        → Rose (S.faults src.old) (S.faults src.new) }
    ensures too_long { IsErrOf result InputFault.TooLong
        ↔ (S.given src.old + limit < S.given src.new) }
{
    let mut input = Vec::new(alloc);
    let mut piece = [0; PIECE];
    loop {
        let room = limit - input.len() as u64;
        let ask = (room + 1).min(PIECE as u64) as usize;
        let Ok(count) = src.read(&mut piece[..ask]) else {
            return Err(InputFault::ReadFault);
        };
        if count == 0 {
            return Ok(input);
        }
        if count as u64 > room {
            return Err(InputFault::TooLong);
        }
        input.extend_from_slice(&piece[..count])?;
    }
}
