use chunk_backend::chunks;
use std::alloc::{AllocError, Global};
use std::process::Abort;
use std::test::Fail;
use wf_core::{MemSink, MemSource, RunStatus};

mod limits;

/// The words of `chunks` alone.
fn chunks_words(alloc: Global) -> Result<Vec<String>, AllocError> {
    let mut words = Vec::new(alloc);
    words.push(String::from_str(alloc, "chunks")?)?;
    Ok(words)
}

/// Runs `chunks` on an input, without a fault.
fn run_on(alloc: Global, input: &[u8]) -> Result<(RunStatus, MemSink), AllocError> {
    let words = chunks_words(alloc)?;
    let mut src = MemSource::new(Vec::from_slice(alloc, input)?, 4096, Vec::new(alloc));
    let mut out = MemSink::new(alloc, 1_048_576, 4096, Vec::new(alloc))?;
    let status = chunks(alloc, words.as_slice(), &mut src, &mut out);
    Ok((status, out))
}

/// Runs of the lines behind `> `, each with the text that it gives behind it, up to an empty line.
const RUNS: &str = "
> wasmfs-chunks 1 4 2
> file f abcdefghij
> read f 2 4
> read f 0 1
> read f 8 9
> read f 4 1
> read f 10 1
> read f -1 1
read 1 ok cdef
read 2 ok a
read 3 ok ij
read 4 ok e
read 5 ok %_
read 6 EINVAL
fetches 4
hits 1
end

> wasmfs-chunks 1 4 2
> file f abcdefghij
> read f 2 4
> read f 0 1
> read f 8 9
> read f 4 1
> read f 10 1
> fail 3
> read f -1 1
read 1 ok cdef
read 2 ok a
read 3 ok ij
read 4 EIO
read 5 ok %_
read 6 EINVAL
fetches 4
hits 1
end

> wasmfs-chunks 1 4 2
> file f abcdefghij
> read g 0 1
line 3: UnknownName

> wasmfs-chunks 1 4096 64
fetches 0
hits 0
end

> wasmfs-chunks 1 1 1
> # two files
>
> file main %20%25
> file e %_
> read main 0 4294967295
> read e 0 1
> read e -1099511627776 0
> read main 1099511627776 1
> fail 0
read 1 EIO
read 2 ok %_
read 3 EINVAL
read 4 ok %_
fetches 1
hits 0
end

> wasmfs-chunks 1 0 1
line 1: Header

> wasmfs-chunks 1 1 0
line 1: Header

> wasmfs-chunks 1 4097 1
line 1: Header

> wasmfs-chunks 1 1 65
line 1: Header

> wasmfs-chunks 2 1 1
line 1: Header

> wasmfs-chunks 1 01 1
line 1: Header

> wasmfs-chunks 1 1
line 1: Header

> wasmfs-chunks 1 1 1 1
line 1: Header

> wasmfs-trace 1
line 1: Header

> wasmfs-chunks 1 1 1
> write f 0 1
line 2: UnknownWord

> wasmfs-chunks 1 1 1
>  file f x
line 2: UnknownWord

> wasmfs-chunks 1 1 1
> file f
line 2: BadArgument

> wasmfs-chunks 1 1 1
> file f-g x
line 2: BadArgument

> wasmfs-chunks 1 1 1
> file f %4
line 2: BadArgument

> wasmfs-chunks 1 1 1
> file f x y
line 2: BadArgument

> wasmfs-chunks 1 1 1
> file f x
> file f y
line 3: DuplicateName

> wasmfs-chunks 1 1 1
> fail 4294967296
line 2: BadArgument

> wasmfs-chunks 1 1 1
> fail 4294967295
> fail -1
line 3: BadArgument

> wasmfs-chunks 1 1 1
> fail 1 2
line 2: BadArgument

> wasmfs-chunks 1 1 1
> read f 0 x
line 2: BadArgument

> wasmfs-chunks 1 1 1
> read f-g 0 1
line 2: BadArgument

> wasmfs-chunks 1 1 1
> read f 0
line 2: BadArgument

> wasmfs-chunks 1 1 1
> file f x
> read f 1099511627777 1
line 3: BadArgument

> wasmfs-chunks 1 1 1
> file f x
> read f -0 1
line 3: BadArgument

> wasmfs-chunks 1 1 1
> file f x
> read f 0 4294967296
line 3: BadArgument

> wasmfs-chunks 1 1 1
> read f 0 1
> file f x
line 2: UnknownName

";

fn push_line(text: &mut String, line: &str) -> Result<(), AllocError> {
    text.push_str(line)?;
    text.push_str("\n")
}

/// A text that ends in `end` is a run's; another is a refusal.
fn compare(rt: &impl Abort, alloc: Global, input: &str, due: &str) -> Result<(), AllocError> {
    let status = if due.ends_with("end\n") { 0 } else { 1 };
    let (ended, out) = run_on(alloc, input.as_bytes())?;
    assert_eq!(rt; out.as_bytes(), due.as_bytes(), "{input}");
    assert_eq!(rt; ended.number(), status, "{input}");
    Ok(())
}

#[test]
fn whole_runs(rt: HostRuntime) -> Result<(), Fail> {
    let alloc = rt.alloc();
    let mut input = String::new(alloc);
    let mut due = String::new(alloc);
    for line in RUNS.lines() {
        if let Some(line) = line.strip_prefix('>') {
            push_line(&mut input, line.strip_prefix(' ').unwrap_or(line))?;
        } else if !line.is_empty() {
            push_line(&mut due, line)?;
        } else if !due.is_empty() {
            compare(&rt, alloc, &input, &due)?;
            input.clear();
            due.clear();
        }
    }
    assert!(rt; due.is_empty());
    Ok(())
}

#[test]
fn cut_inputs(rt: HostRuntime) -> Result<(), Fail> {
    let alloc = rt.alloc();
    compare(&rt, alloc, "", "line 1: Header\n")?;
    compare(
        &rt,
        alloc,
        "wasmfs-chunks 1 1 1",
        "line 1: MissingNewline\n",
    )?;
    compare(
        &rt,
        alloc,
        "wasmfs-chunks 1 1 1\n#",
        "line 2: MissingNewline\n",
    )?;
    Ok(())
}
