use super::{chunks_words, compare, push_line, run_on};
use chunk_backend::chunks;
use std::alloc::Global;
use std::test::Fail;
use wf_core::{MemSink, MemSource, RunStatus};

/// An input of so many files, each read once at its first byte.
fn files_input(alloc: Global, files: u32) -> Result<String, Fail> {
    let mut input = String::from_str(alloc, "wasmfs-chunks 1 1 64\n")?;
    for file in 0..files {
        push_line(&mut input, format!(in alloc; "file f{file} x")?.as_str())?;
    }
    Ok(input)
}

#[test]
fn files_end_at_64(rt: HostRuntime) -> Result<(), Fail> {
    let alloc = rt.alloc();
    let input = files_input(alloc, 64)?;
    compare(&rt, alloc, input.as_str(), "fetches 0\nhits 0\nend\n")?;
    let input = files_input(alloc, 65)?;
    compare(&rt, alloc, input.as_str(), "line 66: TooManyFiles\n")?;
    let mut input = files_input(alloc, 64)?;
    push_line(&mut input, "file f0 x")?;
    compare(&rt, alloc, input.as_str(), "line 66: DuplicateName\n")?;
    Ok(())
}

/// An input of 8,192 reads.
fn reads_input(alloc: Global) -> Result<String, Fail> {
    let mut input = String::from_str(alloc, "wasmfs-chunks 1 1 1\nfile f xy\n")?;
    for _ in 0..8192 {
        push_line(&mut input, "read f 1 1")?;
    }
    Ok(input)
}

#[test]
fn reads_end_at_8192(rt: HostRuntime) -> Result<(), Fail> {
    let alloc = rt.alloc();
    let mut input = reads_input(alloc)?;
    let (status, out) = run_on(alloc, input.as_bytes())?;
    assert_eq!(rt; status.number(), 0);
    assert!(rt;
        out.as_bytes()
            .ends_with(b"read 8192 ok y\nfetches 1\nhits 8191\nend\n")
    );
    push_line(&mut input, "read g 1 1")?;
    compare(&rt, alloc, input.as_str(), "line 8195: UnknownName\n")?;
    let mut input = reads_input(alloc)?;
    push_line(&mut input, "read f 1 1")?;
    compare(&rt, alloc, input.as_str(), "line 8195: TooManyCalls\n")?;
    Ok(())
}

#[test]
fn words_and_faults(rt: HostRuntime) -> Result<(), Fail> {
    let alloc = rt.alloc();
    let mut src = MemSource::new(Vec::new(alloc), 1, Vec::new(alloc));
    let mut out = MemSink::new(alloc, 100, 100, Vec::new(alloc))?;
    let status = chunks(alloc, &[], &mut src, &mut out);
    assert_eq!(rt; status, RunStatus::Usage);
    assert_eq!(rt; out.as_bytes(), b"usage: wasmfs-run chunks\n".as_slice());
    let words = chunks_words(alloc)?;
    let mut src = MemSource::new(Vec::new(alloc), 1, Vec::from_array(alloc, [0])?);
    let mut out = MemSink::new(alloc, 100, 100, Vec::new(alloc))?;
    let status = chunks(alloc, words.as_slice(), &mut src, &mut out);
    assert_eq!(rt; status, RunStatus::ReadFault);
    let mut src = MemSource::new(Vec::new(alloc), 1, Vec::new(alloc));
    let mut out = MemSink::new(alloc, 100, 5, Vec::from_array(alloc, [1])?)?;
    let status = chunks(alloc, words.as_slice(), &mut src, &mut out);
    assert_eq!(rt; status, RunStatus::WriteFault);
    assert_eq!(rt; out.as_bytes(), b"line ".as_slice());
    Ok(())
}
