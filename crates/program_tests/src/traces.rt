//! Texts that are read as traces: the fault that is told of one, or what it is printed as. In the tables `;` ends a line, and
//! what is due stands behind ` = `.

use super::repeated;
use std::alloc::Global;
use std::process::Abort;
use std::test::*;
use trace_text::{Mode, TraceRefusal, print_trace, read_trace, refusal_line};

mod calls;
mod limits;
mod versions;

const FRONT: &str = "wasmfs-trace 1\nthread A\n";

/// The text of a trace that was read, or of its refusal.
fn told(alloc: Global, bytes: &[u8], mode: Mode) -> Result<Vec<u8>, Fail> {
    match read_trace(alloc, bytes, mode) {
        Ok(trace) => Ok(print_trace(alloc, &trace)?),
        Err(TraceRefusal::Faulty(refusal)) => Ok(refusal_line(alloc, refusal)?),
        Err(TraceRefusal::NoMemory) => Err("memory ran out")?,
    }
}

/// Reads what stands in a table behind a front, and compares what is told.
fn expect_told(
    rt: &impl Abort,
    alloc: Global,
    front: &str,
    lines: &str,
    due: &str,
) -> Result<(), Fail> {
    let text = lined(alloc, front, lines)?;
    let told = told(alloc, text.as_bytes(), Mode::Plain)?;
    if due == "-" {
        assert!(rt;
            told.as_slice().starts_with(b"wasmfs-trace 1\n"),
            "{lines}: {told:?}"
        );
        return Ok(());
    }
    let due = lined(alloc, "", due)?;
    assert_eq!(rt; told.as_slice(), due.as_bytes(), "{lines}");
    Ok(())
}

/// A front and lines that end in `;`.
fn lined(alloc: Global, front: &str, lines: &str) -> Result<String, Fail> {
    let mut text = String::from_str(alloc, front)?;
    for (index, line) in lines.split(';').enumerate() {
        if index > 0 {
            text.push('\n')?;
        }
        text.push_str(line)?;
    }
    Ok(text)
}

/// Each row of a table that is no remark.
fn expect_all(rt: &impl Abort, alloc: Global, front: &str, table: &str) -> Result<(), Fail> {
    for line in table.lines() {
        if !line.is_empty() && !line.starts_with("-- ") {
            let (lines, due) = line.split_once(" = ").ok_or("a row without a text")?;
            expect_told(rt, alloc, front, lines, due)?;
        }
    }
    Ok(())
}

/// Line 1 and the end of an input.
const ENDS: &str = "
 = line 1: Header;
; = line 1: Header;
#; = line 1: Header;
wasmfs-trace 1; = -
wasmfs-trace 1 = line 1: MissingNewline;
x = line 1: MissingNewline;
wasmfs-trace 1 ; = line 1: Header;
wasmfs-trace 1\r; = line 1: Header;
\u{feff}wasmfs-trace 1; = line 1: Header;
wasmfs-trace 1;; = -
wasmfs-trace 1;# = line 2: MissingNewline;
wasmfs-trace 1;thread A = line 2: MissingNewline;
";

#[test]
fn line_1_and_the_end_are_tried(rt: HostRuntime) -> Result<(), Fail> {
    expect_all(&rt, rt.alloc(), "", ENDS)
}

/// Lines behind the header and `thread A`, so line 3 is their first.
const LINES: &str = "
-- no line form
; = -
#thread; = -
 ; = line 3: UnknownWord;
 #; = line 3: UnknownWord;
\r; = line 3: UnknownWord;
threads B; = line 3: UnknownWord;
Thread B; = line 3: UnknownWord;
wasmfs-trace 1; = line 3: UnknownWord;
-- threads
thread; = line 3: BadArgument;
thread ; = line 3: BadArgument;
thread  B; = line 3: BadArgument;
thread B ; = line 3: BadArgument;
thread B\r; = line 3: BadArgument;
thread A-B; = line 3: BadArgument;
thread %42; = line 3: BadArgument;
thread Abcdefgh_1234567; = -
thread Abcdefgh_12345678; = line 3: BadArgument;
thread A; = line 3: DuplicateName;
thread main; = line 3: DuplicateName;
thread main x; = line 3: BadArgument;
thread B;thread B; = line 4: DuplicateName;
-- backends
backend m; = line 3: BadArgument;
backend m disk; = line 3: BadArgument;
backend m memory ; = line 3: BadArgument;
backend m- memory; = line 3: BadArgument;
backend A disk; = line 3: BadArgument;
backend A memory; = line 3: DuplicateName;
backend main proxied; = line 3: DuplicateName;
backend m memory;thread m; = line 4: DuplicateName;
backend m memory;backend m proxied; = line 4: DuplicateName;
-- the thread of a call
B: stat /; = line 3: UnknownName;
B: stat /;thread B; = line 3: UnknownName;
main: stat /; = line 3: UnknownName;
: stat /; = line 3: UnknownName;
a: stat /; = line 3: UnknownName;
backend m memory;m: stat /; = line 4: UnknownName;
B: chmod /; = line 3: UnknownName;
B: stat; = line 3: UnknownName;
A stat /; = line 3: UnknownWord;
-- the word of a call
A:; = line 3: UnknownWord;
A: ; = line 3: UnknownWord;
A:  stat /; = line 3: UnknownWord;
A: chmod /a 7; = line 3: UnknownWord;
A: check; = line 3: UnknownWord;
A: async read 0 1; = line 3: UnknownWord;
A: via 0 read 0 1; = line 3: UnknownWord;
A: Stat /; = line 3: UnknownWord;
-- the first of two faulty lines
A: chmod;B: stat /; = line 3: UnknownWord;
B: stat /;A: chmod; = line 3: UnknownName;
;#;A: mkdir; = line 5: BadArgument;
A: stat /;thread B = line 4: MissingNewline;
";

#[test]
fn the_first_fault_of_a_line_is_told(rt: HostRuntime) -> Result<(), Fail> {
    expect_all(&rt, rt.alloc(), FRONT, LINES)
}

/// A trace is printed without comments and empty lines, threads first, then backends, then calls.
const WHOLE: &str = "
wasmfs-trace 1;;thread A;#;backend m memory;A: mkdir /a;thread main_2;# A: x;backend p proxied;main_2: stat /a;A: list / 7; = wasmfs-trace 1;thread A;thread main_2;backend m memory;backend p proxied;A: mkdir /a;main_2: stat /a;A: list / 7;
wasmfs-trace 1; = wasmfs-trace 1;
";

#[test]
fn whole_traces_are_printed(rt: HostRuntime) -> Result<(), Fail> {
    expect_all(&rt, rt.alloc(), "", WHOLE)
}

/// Mode Full knows no backend with a worker of its own.
#[test]
fn proxied_backends_are_refused_in_full(rt: HostRuntime) -> Result<(), Fail> {
    let text = "wasmfs-trace 1\nbackend m memory\nbackend p proxied\n";
    let told = told(rt.alloc(), text.as_bytes(), Mode::Full)?;
    assert_eq!(rt; told.as_slice(), b"line 3: BadArgument\n".as_slice());
    Ok(())
}

/// Bytes of 128 and more stand in no text field.
#[test]
fn high_bytes_are_escaped(rt: HostRuntime) -> Result<(), Fail> {
    let text = b"wasmfs-trace 1\nthread A\nA: stat /\xff\n";
    let told = told(rt.alloc(), text.as_slice(), Mode::Plain)?;
    assert_eq!(rt; told.as_slice(), b"line 3: BadArgument\n".as_slice());
    Ok(())
}
