use crate::scenes::open;
use chunk_backend::{ChunkAnswer, MemStore};
use std::alloc::Global;
use std::process::Abort;
use std::test::Fail;
use wf_core::Text;

/// A file of 8,200 bytes, in which the byte at an offset is the offset's last eight bits.
fn long_store(alloc: Global) -> Result<MemStore, Fail> {
    let mut bytes = Vec::new(alloc);
    for offset in 0..8200_u32 {
        bytes.push((offset & 0xff) as u8)?;
    }
    let mut files = Vec::new(alloc);
    files.push(Text::new(bytes))?;
    Ok(MemStore::new(alloc, files, Vec::new(alloc), 40_000)?)
}

/// Reads once and compares how many bytes there are, the first of them, and the fetches so far.
fn expect_count(
    rt: &impl Abort,
    alloc: Global,
    chunk: usize,
    offset: i64,
    count: u32,
    expected: (usize, Option<u8>, usize),
) -> Result<(), Fail> {
    let mut files = open(alloc, long_store(alloc)?, chunk, 64)?;
    let ChunkAnswer::Bytes(bytes) = files.read_at(0, offset, count) else {
        return Err("the read failed".into());
    };
    let bytes = bytes.as_bytes();
    let found = (
        bytes.len(),
        bytes.first().copied(),
        files.store().asked().len(),
    );
    assert_eq!(rt; found, expected, "chunks of {chunk} at {offset}");
    Ok(())
}

#[test]
fn reads_end_at_4096_bytes(rt: HostRuntime) -> Result<(), Fail> {
    let alloc = rt.alloc();
    expect_count(&rt, alloc, 1, 0, 4_294_967_295, (4096, Some(0), 4096))?;
    expect_count(&rt, alloc, 1, 4104, 4096, (4096, Some(8), 4096))?;
    expect_count(&rt, alloc, 1, 4105, 4096, (4095, Some(9), 4095))?;
    expect_count(&rt, alloc, 4, 0, 4096, (4096, Some(0), 1024))?;
    expect_count(&rt, alloc, 4, 1, 4097, (4096, Some(1), 1025))?;
    expect_count(&rt, alloc, 4096, 0, 4095, (4095, Some(0), 1))?;
    expect_count(&rt, alloc, 4096, 0, 4097, (4096, Some(0), 1))?;
    expect_count(&rt, alloc, 4096, 4095, 1, (1, Some(255), 1))?;
    expect_count(&rt, alloc, 4096, 4095, 2, (2, Some(255), 2))?;
    expect_count(&rt, alloc, 4096, 8191, 4096, (9, Some(255), 2))?;
    expect_count(&rt, alloc, 4096, 8199, 4096, (1, Some(7), 1))?;
    expect_count(&rt, alloc, 4096, 8200, 4096, (0, None, 0))?;
    Ok(())
}
