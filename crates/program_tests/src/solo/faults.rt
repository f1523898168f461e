ghost use Rattle.std.specs.Prelude.{◌<◌};

use super::{run_on, solo_words};
use run_engine::solo;
use std::alloc::{AllocError, Global};
use std::test::Fail;
use wf_core::{MemSink, MemSource, RunStatus};

const TRACE: &str =
    "wasmfs-trace 1\nthread A\nA: mkdir /a\nA: mkdir /a/b\nA: stat /a/b\nA: mkdir /x/y\nA: mkdir /a\n";

const TEXT: &str =
    "reply A 1 ok\nreply A 2 ok\nreply A 3 ok dir\nreply A 4 ENOENT\nreply A 5 EEXIST\ndir 0 /\ndir 1 a\ndir 2 b\nend\n";

const USAGE: &str = "usage: wasmfs-run solo|threads|gen N\n";

fn numbers(alloc: Global, number: u64) -> Result<Vec<u64>, AllocError> {
    Ok(Vec::from_array(alloc, [number])?)
}

/// The first trace, with the source failing at one read.
fn read_fails(alloc: Global, piece: usize, read: u64) -> Result<(RunStatus, MemSink), AllocError>
    requires { 0 < piece }
{
    let words = solo_words(alloc)?;
    let bytes = Vec::from_slice(alloc, TRACE.as_bytes())?;
    let mut src = MemSource::new(bytes, piece, numbers(alloc, read)?);
    let mut out = MemSink::new(alloc, 4096, 4096, Vec::new(alloc))?;
    let status = solo(alloc, words.as_slice(), &mut src, &mut out);
    Ok((status, out))
}

/// The first trace, with the sink failing at one write.
fn write_fails(alloc: Global, piece: usize, write: u64) -> Result<(RunStatus, MemSink), AllocError>
    requires { 0 < piece }
{
    let words = solo_words(alloc)?;
    let bytes = Vec::from_slice(alloc, TRACE.as_bytes())?;
    let mut src = MemSource::new(bytes, 4096, Vec::new(alloc));
    let mut out = MemSink::new(alloc, 4096, piece, numbers(alloc, write)?)?;
    let status = solo(alloc, words.as_slice(), &mut src, &mut out);
    Ok((status, out))
}

#[test]
fn a_read_fails(rt: HostRuntime) -> Result<(), Fail> {
    for read in 0..=TRACE.len() as u64 {
        let (status, out) = read_fails(rt.alloc(), 1, read)?;
        assert_eq!(rt; status, RunStatus::ReadFault, "read {read}");
        assert!(rt; out.as_bytes().is_empty(), "read {read}");
    }
    let (status, out) = read_fails(rt.alloc(), 4096, 0)?;
    assert_eq!(rt; (status.number(), out.as_bytes().len()), (3, 0));
    let (status, out) = read_fails(rt.alloc(), 1, TRACE.len() as u64 + 1)?;
    assert_eq!(rt; status, RunStatus::Done);
    assert_eq!(rt; out.as_bytes(), TEXT.as_bytes());
    Ok(())
}

#[test]
fn a_write_fails(rt: HostRuntime) -> Result<(), Fail> {
    for (write, end) in (0..TEXT.len()).step_by(7).enumerate() {
        let (status, out) = write_fails(rt.alloc(), 7, write as u64)?;
        assert_eq!(rt; status, RunStatus::WriteFault, "write {write}");
        assert_eq!(rt;
            out.as_bytes(),
            &TEXT.as_bytes()[..end.min(TEXT.len())],
            "write {write}"
        );
    }
    let (status, out) = write_fails(rt.alloc(), 10, 1)?;
    assert_eq!(rt; status.number(), 4);
    assert_eq!(rt; out.as_bytes(), b"reply A 1 ".as_slice());
    Ok(())
}

/// The lines of the first trace from its second on.
const LINES: [&str; 6] = [
    "thread A\n",
    "A: mkdir /a\n",
    "A: mkdir /a/b\n",
    "A: stat /a/b\n",
    "A: mkdir /x/y\n",
    "A: mkdir /a\n",
];

/// The texts of the first trace's first lines, from its second on.
const TEXTS: [&str; 6] = [
    "dir 0 /\nend\n",
    "reply A 1 ok\ndir 0 /\ndir 1 a\nend\n",
    "reply A 1 ok\nreply A 2 ok\ndir 0 /\ndir 1 a\ndir 2 b\nend\n",
    "reply A 1 ok\nreply A 2 ok\nreply A 3 ok dir\ndir 0 /\ndir 1 a\ndir 2 b\nend\n",
    "reply A 1 ok\nreply A 2 ok\nreply A 3 ok dir\nreply A 4 ENOENT\ndir 0 /\ndir 1 a\ndir 2 b\nend\n",
    TEXT,
];

/// What the first trace is answered with where it ends after `count` bytes of a line.
fn cut_text(alloc: Global, index: usize, count: usize) -> Result<String, AllocError>
    requires { index < 6 }
{
    if count == LINES[index].len() {
        return String::from_str(alloc, TEXTS[index]);
    }
    let number = index + 2;
    format!(in alloc; "line {number}: MissingNewline\n")
}

#[test]
fn cut_after_each_byte(rt: HostRuntime) -> Result<(), Fail> {
    let alloc = rt.alloc();
    let mut start = "wasmfs-trace 1\n".len();
    for cut in 1..start {
        let (status, out) = run_on(alloc, &TRACE.as_bytes()[..cut])?;
        assert_eq!(rt; status, RunStatus::Refused, "{cut}");
        assert_eq!(rt;
            out.as_bytes(),
            b"line 1: MissingNewline\n".as_slice(),
            "{cut}"
        );
    }
    for index in 0..6 {
        let line = LINES[index];
        for count in 1..=line.len() {
            let cut = start.saturating_add(count).min(TRACE.len());
            let (status, out) = run_on(alloc, &TRACE.as_bytes()[..cut])?;
            let ended = if count == line.len() { 0 } else { 1 };
            assert_eq!(rt; status.number(), ended, "{cut}");
            assert_eq!(rt;
                out.as_bytes(),
                cut_text(alloc, index, count)?.as_bytes(),
                "{cut}"
            );
        }
        start = start.saturating_add(line.len());
    }
    assert_eq!(rt; start, TRACE.len());
    Ok(())
}

#[test]
fn wrong_words(rt: HostRuntime) -> Result<(), Fail> {
    let alloc = rt.alloc();
    for text in ["", "threads", "SOLO", "solo solo", "solo "] {
        let mut words = Vec::new(alloc);
        for word in text.split(' ') {
            words.push(String::from_str(alloc, word)?)?;
        }
        let mut src = MemSource::new(Vec::new(alloc), 1, numbers(alloc, 0)?);
        let mut out = MemSink::new(alloc, 4096, 4096, Vec::new(alloc))?;
        let status = solo(alloc, words.as_slice(), &mut src, &mut out);
        assert_eq!(rt; status.number(), 2, "{text}");
        assert_eq!(rt; out.as_bytes(), USAGE.as_bytes(), "{text}");
    }
    let mut src = MemSource::new(Vec::new(alloc), 1, Vec::new(alloc));
    let mut out = MemSink::new(alloc, 4096, 4096, Vec::new(alloc))?;
    let status = solo(alloc, &[], &mut src, &mut out);
    assert_eq!(rt; status.number(), 2, "no word");
    assert_eq!(rt; out.as_bytes(), USAGE.as_bytes(), "no word");
    let mut broken = MemSink::new(alloc, 4096, 4096, numbers(alloc, 0)?)?;
    let status = solo(alloc, &[], &mut src, &mut broken);
    assert_eq!(rt; (status.number(), broken.as_bytes().len()), (4, 0));
    Ok(())
}

#[test]
fn longest_input(rt: HostRuntime) -> Result<(), Fail> {
    let alloc = rt.alloc();
    let (status, out) = run_on(alloc, vec![in alloc; b'#'; 16_777_216]?.as_slice())?;
    assert_eq!(rt; status.number(), 1);
    assert_eq!(rt; out.as_bytes(), b"line 1: MissingNewline\n".as_slice());
    let (status, out) = run_on(alloc, vec![in alloc; b'#'; 16_777_217]?.as_slice())?;
    assert_eq!(rt; (status.number(), out.as_bytes().len()), (6, 0));
    Ok(())
}
