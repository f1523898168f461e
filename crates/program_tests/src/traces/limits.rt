//! How many threads, backends, calls and bytes there may be.

use super::{expect_all, repeated};
use std::alloc::Global;
use std::process::Abort;
use std::test::Fail;
use trace_text::Mode;

/// All threads and backends that a trace may declare.
const MOST: &str = "wasmfs-trace 1
thread t0
thread t1
thread t2
thread t3
thread t4
thread t5
thread t6
thread t7
thread t8
thread t9
thread t10
thread t11
thread t12
thread t13
thread t14
thread t15
backend b1 memory
backend b2 proxied
backend b3 memory
backend b4 memory
backend b5 memory
backend b6 memory
backend b7 memory
";

const ONE_MORE: &str = "
thread x; = line 25: TooManyThreads;
thread t0; = line 25: DuplicateName;
thread b7; = line 25: DuplicateName;
thread t0 x; = line 25: BadArgument;
backend x proxied; = line 25: TooManyBackends;
backend t0 proxied; = line 25: DuplicateName;
backend t0 disk; = line 25: BadArgument;
t15: stat /; = -
 = -
";

#[test]
fn threads_and_backends_have_their_limits(rt: HostRuntime) -> Result<(), Fail> {
    expect_all(&rt, rt.alloc(), MOST, ONE_MORE)
}

/// Lines behind 8,192 calls, the last of which stands in line 8,195.
const NEXT_CALL: &str = "
A: stat /; = line 8196: TooManyCalls;
A: stat; = line 8196: BadArgument;
A: chmod /; = line 8196: UnknownWord;
C: stat /; = line 8196: UnknownName;
A: stat / = line 8196: MissingNewline;
thread C;#;; = -
";

#[test]
fn calls_have_their_limit(rt: HostRuntime) -> Result<(), Fail> {
    let alloc = rt.alloc();
    let front = "wasmfs-trace 1\nthread A\nthread B\n";
    let most = repeated(alloc, front, "A: stat /\nB: stat /\n", 4_096, "")?;
    expect_all(&rt, alloc, &most, NEXT_CALL)
}

/// A line 3 that is filled up with `x` to so many bytes.
fn expect_filled(
    rt: &impl Abort,
    alloc: Global,
    front: &str,
    length: usize,
    end: &str,
    due: &str,
) -> Result<(), Fail> {
    let head = format!(in alloc; "wasmfs-trace 1\nthread A\n{front}")?;
    let count = length.saturating_sub(front.len());
    let text = repeated(alloc, &head, "x", count, end)?;
    super::expect_told(rt, alloc, &text, "", due)
}

#[test]
fn lines_have_their_limit(rt: HostRuntime) -> Result<(), Fail> {
    let alloc = rt.alloc();
    let long = "line 3: LineTooLong;";
    let cut = "line 3: MissingNewline;";
    expect_filled(&rt, alloc, "#", 8_192, "\n", "-")?;
    expect_filled(&rt, alloc, "#", 8_193, "\n", long)?;
    expect_filled(&rt, alloc, "A: stat /", 8_192, "\n", "-")?;
    expect_filled(&rt, alloc, "A: stat /", 8_193, "\n", long)?;
    expect_filled(&rt, alloc, "A: write 0 ", 8_192, "\n", "-")?;
    expect_filled(&rt, alloc, "B: stat /", 8_192, "\n", "line 3: UnknownName;")?;
    expect_filled(&rt, alloc, "B: stat /", 8_193, "\n", long)?;
    expect_filled(&rt, alloc, "thread A", 8_193, "\n", long)?;
    expect_filled(&rt, alloc, "#", 8_193, "", cut)?;
    expect_filled(&rt, alloc, "A: stat /", 8_193, "", cut)?;
    let first = repeated(alloc, "", "x", 8_193, "\n")?;
    super::expect_told(&rt, alloc, &first, "", "line 1: LineTooLong;")
}

#[test]
fn the_longest_input_is_one_line(rt: HostRuntime) -> Result<(), Fail> {
    let longest = vec![in rt.alloc(); b'#'; 16_777_216]?;
    let told = super::told(rt.alloc(), longest.as_slice(), Mode::Plain)?;
    assert_eq!(rt; told.as_slice(), b"line 1: MissingNewline\n".as_slice());
    Ok(())
}
