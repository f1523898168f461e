use run_engine::solo;
use std::alloc::{AllocError, Global};
use std::process::Abort;
use std::test::Fail;
use wf_core::{MemSink, MemSource, RunStatus, StdSink, StdSource};

mod calls;
mod faults;
mod walks;

/// The words of `solo` alone.
fn solo_words(alloc: Global) -> Result<Vec<String>, AllocError> {
    let mut words = Vec::new(alloc);
    words.push(String::from_str(alloc, "solo")?)?;
    Ok(words)
}

/// Runs `solo` on an input, without a fault.
fn run_on(alloc: Global, input: &[u8]) -> Result<(RunStatus, MemSink), AllocError> {
    let words = solo_words(alloc)?;
    let mut src = MemSource::new(Vec::from_slice(alloc, input)?, 4096, Vec::new(alloc));
    let mut out = MemSink::new(alloc, 1_048_576, 4096, Vec::new(alloc))?;
    let status = solo(alloc, words.as_slice(), &mut src, &mut out);
    Ok((status, out))
}

/// Runs of the lines behind `> `, each with the text that it gives behind it, up to an empty line.
const RUNS: &str = "
> wasmfs-trace 1
dir 0 /
end

> wasmfs-trace 1
> thread A
dir 0 /
end

> wasmfs-trace 1
> thread main
line 2: DuplicateName

> wasmfs-trace 1
> thread A
> thread A
line 3: DuplicateName

> wasmfs-trace 1
> thread A
> B: mkdir /a
line 3: UnknownName

> wasmfs-trace 1
> thread A
> A: chmod /a 7
line 3: UnknownWord

> wasmfs-trace 1
> thread A
> A: mkdir /a /b
line 3: BadArgument

> wasmfs-trace 1
> thread A
> A: close @1
line 3: BadArgument

> wasmfs-trace 1
> thread A
> A: stat %2f
reply A 1 ok dir
dir 0 /
end

> wasmfs-trace 1
> thread A
> thread B
> #
> B: mkdir /b
> A: stat /b
> B: stat /c
reply B 1 ok
reply A 1 ok dir
reply B 2 ENOENT
dir 0 /
dir 1 b
end

> wasmfs-trace 1
> thread A
> A: symlink l /l
> A: stat /l
> A: lstat /l
reply A 1 ok
reply A 2 ELOOP
reply A 3 ok link 1
dir 0 /
link 1 l l
end

> wasmfs-trace 1
> thread A
> A: mkdir /a
> A: mkdir /a/b
> A: rename /a /a/b/c
> A: rename /a /a
reply A 1 ok
reply A 2 ok
reply A 3 EINVAL
reply A 4 ok
dir 0 /
dir 1 a
dir 2 b
end

> wasmfs-trace 1
> thread A
> backend m memory
> A: mkdir /a
> A: rename /a /m/a
> A: rmdir /m
> A: rename /m /b
> A: symlink a /l
> A: rename /l /m/l
> A: readlink /l
> A: list / 0
reply A 1 ok
reply A 2 EXDEV
reply A 3 EBUSY
reply A 4 EBUSY
reply A 5 ok
reply A 6 EXDEV
reply A 7 ok a
reply A 8 ok a l m
dir 0 /
dir 1 a
link 1 l a
dir 1 m
end

> wasmfs-trace 1
> thread A
> A: open /f rw,creat
> A: unlink /f
> A: write 0 hi
> A: pread 0 10 0
> A: open /f r
> A: close 0
reply A 1 ok 0
reply A 2 ok
reply A 3 ok 2
reply A 4 ok hi
reply A 5 ENOENT
reply A 6 ok
dir 0 /
end

> wasmfs-trace 1
> thread A
> A: open /f w,creat
> A: dup 0
> A: write 0 ab
> A: write 1 cd
> A: open /f r
> A: read 2 4
reply A 1 ok 0
reply A 2 ok 1
reply A 3 ok 2
reply A 4 ok 2
reply A 5 ok 2
reply A 6 ok abcd
dir 0 /
file 1 f 4
page 0 abcd
end

> wasmfs-trace 1
> thread A
> A: open /f rw,creat
> A: write 0 abc
> A: seek 0 -1 end
> A: write 0 XY
> A: pread 0 9 0
> A: seek 0 -9 cur
> A: ftruncate 0 16777217
> A: fstat 0
> A: dup2 0 7
> A: close 0
> A: fstat 7
> A: close 5
reply A 1 ok 0
reply A 2 ok 3
reply A 3 ok 2
reply A 4 ok 2
reply A 5 ok abXY
reply A 6 EINVAL
reply A 7 EFBIG
reply A 8 ok file 4
reply A 9 ok 7
reply A 10 ok
reply A 11 ok file 4
reply A 12 EBADF
dir 0 /
file 1 f 4
page 0 abXY
end

> wasmfs-trace 2
dir 0 /
end

> wasmfs-trace 1
> thread A
> A: chdir /
line 3: UnknownWord

> wasmfs-trace 2
> thread A
> A: mkdir /a
> A: chdir /a
> A: mkdir b
> A: stat /a/b
> A: open . r
> A: mkdirat @5 c
> A: fstatat @5 c
> A: chdir ..
> A: rmdir a/b
> A: unlinkat 9 x
> A: fstatat 9 /a
reply A 1 ok
reply A 2 ok
reply A 3 ok
reply A 4 ok dir
reply A 5 ok 0
reply A 6 ok
reply A 7 ok dir
reply A 8 ok
reply A 9 ok
reply A 10 EBADF
reply A 11 ok dir
dir 0 /
dir 1 a
dir 2 c
end

> wasmfs-trace 2
> thread A
> thread B
> A: mkdir /a
> A: chdir a
> B: mkdir b
> B: openat cwd f w,creat
> A: openat cwd . r
> B: chdir ..
> A: unlink f
> A: unlinkat @3 f
> B: write @2 xyz
> B: renameat 1 b cwd c
reply A 1 ok
reply A 2 ok
reply B 1 ok
reply B 2 ok 0
reply A 3 ok 1
reply B 3 ok
reply A 4 ENOENT
reply A 5 ok
reply B 4 ok 3
reply B 5 ok
dir 0 /
dir 1 a
dir 1 c
end

> wasmfs-trace 1
> thread A
> thread B
> backend m memory
> A: open /m/f rw,creat
> B: open /m/f r
> A: write @1 a%20%25%0a%00
> B: read @1 9
> B: open /g w,creat
> B: pwrite @3 x 4096
> B: pwrite @3 %00y%00 12288
> A: ftruncate 2 12292
> A: symlink g /l
> A: mkdir /m/d
> A: open /m/d/%20 w,creat
> A: open /removed w,creat
> A: write @7 gone
> A: unlink /removed
> B: dup @1
> A: read @1 9
reply A 1 ok 0
reply B 1 ok 1
reply A 2 ok 5
reply B 2 ok a%20%25%0A%00
reply B 3 ok 2
reply B 4 ok 1
reply B 5 ok 3
reply A 3 ok
reply A 4 ok
reply A 5 ok
reply A 6 ok 3
reply A 7 ok 4
reply A 8 ok 4
reply A 9 ok
reply B 6 ok 5
reply A 10 ok %_
dir 0 /
file 1 g 12292
page 1 x
page 3 %00y
link 1 l g
dir 1 m
dir 2 d
file 3 %20 0
file 2 f 5
page 0 a%20%25%0A
end

";

fn push_line(text: &mut String, line: &str) -> Result<(), AllocError> {
    text.push_str(line)?;
    text.push_str("\n")
}

/// A text that ends in `end` is a run's; another is a refusal.
fn compare(rt: &impl Abort, alloc: Global, input: &str, due: &str) -> Result<(), AllocError> {
    let status = if due.ends_with("end\n") { 0 } else { 1 };
    let (ended, out) = run_on(alloc, input.as_bytes())?;
    assert_eq!(rt; out.as_bytes(), due.as_bytes(), "{input}");
    assert_eq!(rt; ended.number(), status, "{input}");
    Ok(())
}

#[test]
fn whole_runs(rt: HostRuntime) -> Result<(), Fail> {
    let alloc = rt.alloc();
    let mut input = String::new(alloc);
    let mut due = String::new(alloc);
    for line in RUNS.lines() {
        if let Some(line) = line.strip_prefix("> ") {
            push_line(&mut input, line)?;
        } else if !line.is_empty() {
            push_line(&mut due, line)?;
        } else if !due.is_empty() {
            compare(&rt, alloc, &input, &due)?;
            input.clear();
            due.clear();
        }
    }
    assert!(rt; due.is_empty());
    Ok(())
}

#[test]
fn cut_inputs(rt: HostRuntime) -> Result<(), Fail> {
    compare(&rt, rt.alloc(), "", "line 1: Header\n")?;
    let cut = "wasmfs-trace 1\nthread A";
    compare(&rt, rt.alloc(), cut, "line 2: MissingNewline\n")?;
    Ok(())
}

#[test]
fn no_word_on_the_real_streams(rt: HostRuntime) {
    let mut src = StdSource::new(rt.stdin());
    let mut out = StdSink::new(rt.stdout());
    let status = solo(rt.alloc(), &[], &mut src, &mut out);
    assert_eq!(rt; status.number(), 2);
}
