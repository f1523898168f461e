ghost use Rattle.std.specs.Prelude.{◌≡◌, ◌↔◌, ◌+◌, ◌++◌, ◌<◌, ◌≤◌, true, length, IfOk, OnOk};
ghost use Rattle.wf_core.specs.Limits.{calls_max};
ghost use Rattle.file_store.specs.FileGroups.{natural};
ghost use Rattle.chunk_backend.specs.Chunks.{chunk_count, count_needs, needs};
ghost use Rattle.chunk_backend.specs.ChunksText.{RunsReads, chunks_text, shown, count_lines, read_line, reply_text};
ghost use Rattle.chunk_backend.specs.Reads.{IsReadAt, total_needs};
ghost use Rattle.chunk_backend.specs.Steps.{CountsHits};

use crate::chunk::ChunkRead;
use crate::chunk_answer::{ChunkAnswer, Served};
use crate::chunk_files::{ChunkFiles, natural};
use crate::input::Input;
use crate::mem_store::{MemStore, sizes_of};
use std::alloc::{AllocError, Global};
use trace_text::{print_text, push_end_line};
use wf_core::{Errno, READ_MAX, Text};

fn push_reply(text: &mut Vec<u8>, alloc: Global, answer: &ChunkAnswer) -> Result<(), AllocError>
    ensures { OnOk result (text.new.items ≡ text.old.items ++ reply_text answer.now) }
{
    match answer {
        ChunkAnswer::Bytes(bytes) => {
            text.extend_from_slice(b"ok ")?;
            text.extend_from_slice(print_text(alloc, bytes.as_bytes())?.as_slice())
        }
        ChunkAnswer::Negative => text.extend_from_slice(Errno::Einval.word().as_bytes()),
        ChunkAnswer::Fault => text.extend_from_slice(b"EIO"),
        ChunkAnswer::NoFile | ChunkAnswer::NoMemory => Ok(()),
    }
}

/// Appends `read K REPLY` with its byte 10.
fn push_read_line(
    text: &mut Vec<u8>,
    alloc: Global,
    number: u64,
    answer: &ChunkAnswer,
) -> Result<(), AllocError>
    ensures { OnOk result (text.new.items ≡ text.old.items ++ read_line number answer.now) }
{
    let front = format!(in alloc; "read {number} ")?;
    text.extend_from_slice(front.as_bytes())?;
    push_reply(text, alloc, answer)?;
    text.extend_from_slice(b"\n")
}

/// Appends how many chunks were fetched, and how many were found in the cache.
fn push_counts(text: &mut Vec<u8>, alloc: Global, fetches: u64, hits: u64) -> Result<(), AllocError>
    ensures { OnOk result (text.new.items ≡ text.old.items ++ count_lines fetches hits) }
{
    let lines = format!(in alloc; "fetches {fetches}\nhits {hits}\n")?;
    text.extend_from_slice(lines.as_bytes())
}

/// How many chunks hold the bytes of a file from `from` to before `end`.
fn chunk_count(chunk: u64, from: u64, end: u64) -> u64
    requires { 0 < chunk }
    ensures { result ≡ chunk_count chunk from end }
{
    if from < end {
        (end - 1) / chunk + 1 - from / chunk
    } else {
        0
    }
}

/// How many chunks a read of a file of that size needs.
fn count_needs(chunk: u64, size: u64, offset: i64, count: u32) -> u64
    requires { 0 < chunk }
    ensures { result ≡ count_needs chunk size count (natural offset) }
{
    match natural(offset) {
        Some(from) => chunk_count(chunk, from, size.min(from + u64::from(count.min(READ_MAX)))),
        None => 0,
    }
}

/// How many chunks a read needs.
fn needs_of(chunk: u64, sizes: &[u64], read: &ChunkRead) -> u64
    requires { 0 < chunk }
    ensures { result ≡ length (needs chunk sizes.now read.now) }
{
    let offset = read.offset;
    match sizes.get(read.file as usize) {
        Some(size) => count_needs(chunk, *size, offset, read.count),
        None => 0,
    }
}

/// A number of fetches that is enough for all reads.
fn room_for(chunk: u64, sizes: &[u64], reads: &[ChunkRead]) -> Result<usize, AllocError>
    requires { 0 < chunk }
    ensures { IfOk result (λ room. room ≡ total_needs chunk sizes.now reads.now) }
{
    let mut room: usize = 0;
    for read in reads {
        room = room
            .checked_add(needs_of(chunk, sizes, read) as usize)
            .ok_or(AllocError)?;
    }
    Ok(room)
}

/// Takes one read.
fn serve(files: &mut ChunkFiles<MemStore>, read: &ChunkRead) -> Served
    ensures read { IsReadAt (shown files.old) read.now result.answer (shown files.new) }
    ensures hits { CountsHits (shown files.old) read.now result.answer result.hits }
{
    let offset = read.offset;
    files.serve(read.file, offset, read.count)
}

fn is_out_of_memory(answer: &ChunkAnswer) -> bool
    ensures { (result ≡ true) ↔ (answer.now ≡ ChunkAnswer.NoMemory) }
{
    matches!(answer, ChunkAnswer::NoMemory)
}

/// Takes the reads, appends their lines, and gives how many chunks were found in the cache.
fn run_reads(
    alloc: Global,
    files: &mut ChunkFiles<MemStore>,
    reads: &[ChunkRead],
    text: &mut Vec<u8>,
) -> Result<u64, AllocError>
    requires few { length reads.now ≤ calls_max }
    requires room { length files.old.store.asked
        + total_needs files.old.chunk files.old.sizes reads.now ≤ files.old.store.room }
    ensures { IfOk result (λ hits. RunsReads files.old reads.now text.old.items hits
        text.new.items files.new) }
{
    let mut hits: u64 = 0;
    let mut number: u64 = 1;
    for read in reads {
        let served = serve(files, read);
        if is_out_of_memory(&served.answer) {
            return Err(AllocError);
        }
        push_read_line(text, alloc, number, &served.answer)?;
        hits += u64::from(served.hits);
        number += 1;
    }
    Ok(hits)
}

/// The text of an input.
pub(crate) fn run_input(alloc: Global, input: Input) -> Result<Vec<u8>, AllocError>
    ensures { IfOk result (λ text. text.items ≡ chunks_text input) }
{
    let Input {
        chunk,
        entries,
        names: _,
        files,
        failing,
        reads,
    } = input;
    let sizes = sizes_of(alloc, files.as_slice())?;
    let room = room_for(chunk as u64, sizes.as_slice(), reads.as_slice())?;
    let store = MemStore::new(alloc, files, failing, room)?;
    let mut files = ChunkFiles::make(alloc, store, sizes, chunk, entries)?;
    let mut text = Vec::new(alloc);
    let hits = run_reads(alloc, &mut files, reads.as_slice(), &mut text)?;
    push_counts(&mut text, alloc, files.store().asked().len() as u64, hits)?;
    push_end_line(&mut text)?;
    Ok(text)
}
