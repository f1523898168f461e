//! What `gen` makes of its words. The summaries are those of a second program for the same calls, written from the rules
//! alone.

use run_engine::{generate, generated_trace};
use std::alloc::{AllocError, Global};
use std::process::Abort;
use std::test::Fail;
use trace_text::{Mode, print_trace, read_trace};
use wf_core::{MemSink, RunStatus};

/// Runs `generate` on words with a space between them, or on none for `none`, over a sink that takes 100 bytes per write
/// and fails the writes of these numbers.
fn run_on(
    alloc: Global,
    words: &str,
    failing: Vec<u64>,
) -> Result<(RunStatus, MemSink), AllocError> {
    let mut list = Vec::new(alloc);
    if words != "none" {
        for word in words.split(' ') {
            list.push(String::from_str(alloc, word)?)?;
        }
    }
    let mut out = MemSink::new(alloc, 4096, 100, failing)?;
    let status = generate(alloc, list.as_slice(), &mut out);
    Ok((status, out))
}

/// The text of lines that end in `;`.
fn lined(alloc: Global, lines: &str) -> Result<String, AllocError> {
    let mut text = String::new(alloc);
    for line in lines.split(';') {
        if !line.is_empty() {
            text.push_str(&format!(in alloc; "{line}\n")?)?;
        }
    }
    Ok(text)
}

/// Summaries: how often each reply came, and what is in the tree.
const SUMMARIES: &str = "
gen 0 = calls 2000;ok 954;EBADF 5;EEXIST 368;EISDIR 100;ELOOP 12;ENOENT 264;ENOTDIR 132;EXDEV 165;nodes 41;bytes 0;end;
gen 1 = calls 2000;ok 913;EBADF 2;EEXIST 383;EISDIR 151;ELOOP 16;ENOENT 235;ENOTDIR 123;EXDEV 177;nodes 44;bytes 0;end;
gen 14 = calls 2000;ok 937;EBADF 4;EEXIST 390;EISDIR 144;ELOOP 8;ENOENT 221;ENOTDIR 115;EXDEV 181;nodes 39;bytes 69;end;
gen 103 = calls 2000;ok 984;EBADF 4;EEXIST 355;EISDIR 118;ELOOP 9;ENOENT 244;ENOTDIR 120;EXDEV 166;nodes 38;bytes 87;end;
gen 4294967295 = calls 2000;ok 920;EBADF 4;EEXIST 355;EISDIR 152;ELOOP 14;ENOENT 275;ENOTDIR 134;EXDEV 146;nodes 44;bytes 0;end;
";

#[test]
fn summaries(rt: HostRuntime) -> Result<(), Fail> {
    let alloc = rt.alloc();
    for row in SUMMARIES.lines() {
        if let Some((words, due)) = row.split_once(" = ") {
            let (status, out) = run_on(alloc, words, Vec::new(alloc))?;
            assert_eq!(rt; status, RunStatus::Done);
            assert_eq!(rt; out.as_bytes(), lined(alloc, due)?.as_bytes(), "{words}");
        }
    }
    Ok(())
}

/// Words that are not `gen` and a number.
const WRONG: &str = "
none
gen
gen 
gen 01
gen 00
gen -1
gen +1
gen -0
gen 4294967296
gen 42949672950
gen 1x
gen 0x1
gen 1,000
gen 1 2
gen 1 
gen  1
 gen 1
 1
Gen 1
gens 1
solo 1
solo
1
";

#[test]
fn wrong_words(rt: HostRuntime) -> Result<(), Fail> {
    let alloc = rt.alloc();
    for words in WRONG.lines().skip(1) {
        let (status, out) = run_on(alloc, words, Vec::new(alloc))?;
        assert_eq!(rt; status, RunStatus::Usage, "{words}");
        assert_eq!(rt;
            out.as_bytes(),
            b"usage: wasmfs-run solo|threads|gen N\n".as_slice(),
            "{words}"
        );
    }
    Ok(())
}

/// Runs on words over a sink of which one write fails, and shows a front of what is due.
fn expect_fault(
    rt: &impl Abort,
    alloc: Global,
    words: &str,
    failing: u64,
    due: &str,
) -> Result<(), Fail> {
    let mut writes = Vec::new(alloc);
    writes.push(failing)?;
    let (status, out) = run_on(alloc, words, writes)?;
    assert_eq!(rt; status, RunStatus::WriteFault);
    assert_eq!(rt; out.as_bytes(), lined(alloc, due)?.as_bytes(), "{words}");
    Ok(())
}

#[test]
fn a_write_fails(rt: HostRuntime) -> Result<(), Fail> {
    let alloc = rt.alloc();
    expect_fault(&rt, alloc, "gen 1", 0, "")?;
    expect_fault(&rt, alloc, "gen 01", 0, "")?;
    let mut writes = Vec::new(alloc);
    writes.push(1)?;
    let (status, out) = run_on(alloc, "gen 1", writes)?;
    assert_eq!(rt; status, RunStatus::WriteFault);
    let (_, whole) = run_on(alloc, "gen 1", Vec::new(alloc))?;
    assert_eq!(rt; out.as_bytes().len(), 100);
    assert!(rt; whole.as_bytes().starts_with(out.as_bytes()));
    Ok(())
}

/// The first calls of generated traces.
const FIRST_CALLS: &str = "
0 = D: stat /n1;A: open /p/n11 rw,creat;A: write 0 xyz;D: write 2 xyz;C: rmdir /m/n4;C: stat /m/n2;
1 = C: open /n12 rw,creat;C: rmdir /n3;C: write 1 xyz;C: write 2 xyz;A: stat /n10;A: rename /m/n15 /n1;
4294967295 = D: stat /n0;D: unlink /n15;A: write 7 xyz;A: mkdir /n10;D: stat /m/n0;A: symlink n1 /p/n8;
";

#[test]
fn first_calls(rt: HostRuntime) -> Result<(), Fail> {
    let alloc = rt.alloc();
    let declared =
        "wasmfs-trace 1;thread A;thread B;thread C;thread D;backend m memory;backend p proxied;";
    for row in FIRST_CALLS.lines() {
        if let Some((number, calls)) = row.split_once(" = ") {
            let seed: u64 = number.parse().map_err(|_| "a number")?;
            let text = print_trace(alloc, &generated_trace(alloc, seed)?)?;
            let due = format!(in alloc; "{declared}{calls}")?;
            let due = lined(alloc, due.as_str())?;
            assert!(rt; text.as_slice().starts_with(due.as_bytes()), "{number}");
        }
    }
    Ok(())
}

/// A generated trace is what its text is read as.
#[test]
fn traces_are_read(rt: HostRuntime) -> Result<(), Fail> {
    let alloc = rt.alloc();
    for seed in [0, 1, 14, 103, 4_294_967_295] {
        let made = generated_trace(alloc, seed)?;
        assert_eq!(rt; made.calls.len(), 2000);
        let text = print_trace(alloc, &made)?;
        let read = read_trace(alloc, text.as_slice(), Mode::Plain)?;
        let (made, read) = (
            format!(in alloc; "{made:?}")?,
            format!(in alloc; "{read:?}")?,
        );
        assert!(rt; made == read, "{seed}");
    }
    Ok(())
}
