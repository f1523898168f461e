//! Files by chunks and reads of them as lines of words.
//!
//! `file BYTES` is a file, by its number from 0, `fail N` a fetch that fails, and `room N` how many fetches there may be,
//! else 100. `chunks CHUNK ENTRIES` opens the files. Then `read FILE OFFSET COUNT = ANSWER` is a read, and behind its
//! answer stand the fetches that it made, as `FILE:OFFSET`. Bytes stand for themselves, and `%_` for none.

use chunk_backend::{ChunkAnswer, ChunkFiles, Fetch, MemStore};
use std::alloc::{AllocError, Global};
use std::process::Abort;
use std::test::Fail;
use wf_core::Text;

fn word<'a>(word: Option<&'a str>) -> Result<&'a str, Fail> {
    Ok(word.ok_or("a word is missing")?)
}

/// Opens the files of a store.
pub(super) fn open(
    alloc: Global,
    store: MemStore,
    chunk: usize,
    entries: usize,
) -> Result<ChunkFiles<MemStore>, Fail> {
    if chunk == 0 || chunk > 4096 || entries == 0 || entries > 64 {
        return Err("no size of a chunk or of a cache".into());
    }
    let sizes = store.sizes(alloc)?;
    Ok(ChunkFiles::make(alloc, store, sizes, chunk, entries)?)
}

/// What a table has before its reads.
#[derive(Drop)]
struct Scene {
    files: Vec<Text>,
    failing: Vec<u64>,
    room: usize,
}

fn push_answer(out: &mut String, answer: &ChunkAnswer) -> Result<(), AllocError> {
    match answer {
        ChunkAnswer::Bytes(bytes) => {
            if bytes.as_bytes().is_empty() {
                out.push_str("%_")?;
            }
            for byte in bytes.as_bytes() {
                out.push(char::from(*byte))?;
            }
            Ok(())
        }
        ChunkAnswer::NoFile => out.push_str("NoFile"),
        ChunkAnswer::Negative => out.push_str("Negative"),
        ChunkAnswer::Fault => out.push_str("Fault"),
        ChunkAnswer::NoMemory => out.push_str("NoMemory"),
    }
}

/// An answer, and the fetches from number `from` on, in words.
fn answer_text(
    alloc: Global,
    answer: &ChunkAnswer,
    asked: &[Fetch],
    from: usize,
) -> Result<String, AllocError> {
    let mut out = String::new(alloc);
    push_answer(&mut out, answer)?;
    for fetch in asked.iter().skip(from) {
        let text = format!(in alloc; " {}:{}", fetch.file, fetch.offset)?;
        out.push_str(text.as_str())?;
    }
    Ok(out)
}

fn expect_read(
    rt: &impl Abort,
    alloc: Global,
    files: &mut ChunkFiles<MemStore>,
    line: &str,
) -> Result<(), Fail> {
    let (read, expected) = line.split_once(" = ").ok_or("a line without an answer")?;
    let mut words = read.split(' ').skip(1);
    let file = word(words.next())?.parse::<u32>()?;
    let offset = word(words.next())?.parse::<i64>()?;
    let count = word(words.next())?.parse::<u32>()?;
    let before = files.store().asked().len();
    let answer = files.read_at(file, offset, count);
    let text = answer_text(alloc, &answer, files.store().asked(), before)?;
    assert_eq!(rt; text.as_str(), expected, "at {line}");
    Ok(())
}

/// Takes the lines before the reads.
fn scene_of(alloc: Global, table: &str) -> Result<Scene, Fail> {
    let mut scene = Scene {
        files: Vec::new(alloc),
        failing: Vec::new(alloc),
        room: 100,
    };
    for line in table.lines() {
        let mut words = line.split(' ');
        match word(words.next())? {
            "file" => scene
                .files
                .push(Text::read(alloc, word(words.next())?.as_bytes())?)?,
            "fail" => scene.failing.push(word(words.next())?.parse::<u64>()?)?,
            "room" => scene.room = word(words.next())?.parse::<usize>()?,
            _ => {}
        }
    }
    Ok(scene)
}

/// Takes each read of a table in turn, and compares its answer and its fetches.
pub(super) fn expect_all(rt: &impl Abort, alloc: Global, table: &str) -> Result<(), Fail> {
    let scene = scene_of(alloc, table)?;
    let store = MemStore::new(alloc, scene.files, scene.failing, scene.room)?;
    let line = word(table.lines().find(|line| line.starts_with("chunks ")))?;
    let mut words = line.split(' ').skip(1);
    let chunk = word(words.next())?.parse::<usize>()?;
    let entries = word(words.next())?.parse::<usize>()?;
    let mut files = open(alloc, store, chunk, entries)?;
    for line in table.lines() {
        if line.starts_with("read ") {
            expect_read(rt, alloc, &mut files, line)?;
        }
    }
    Ok(())
}
