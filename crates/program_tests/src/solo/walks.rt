use super::calls::expect;
use super::run_on;
use crate::repeated;
use std::alloc::{AllocError, Global};
use std::process::Abort;
use std::test::Fail;
use wf_core::RunStatus;

const TREE: &str = "dir 0 /\ndir 1 a\ndir 2 b\n";

/// Makes `/a` and `/a/b`, and then one more call, whose reply and whose tree must be these.
fn replies(
    rt: &impl Abort,
    alloc: Global,
    call: &str,
    reply: &str,
    tree: &str,
) -> Result<(), AllocError> {
    let input = format!(in alloc;
        "wasmfs-trace 1\nthread A\nA: mkdir /a\nA: mkdir /a/b\nA: {call}\n"
    )?;
    let text = format!(in alloc; "reply A 1 ok\nreply A 2 ok\nreply A 3 {reply}\n{tree}end\n")?;
    let (status, out) = run_on(alloc, input.as_bytes())?;
    assert_eq!(rt; status, RunStatus::Done, "{call}");
    assert_eq!(rt; out.as_bytes(), text.as_bytes(), "{call}");
    Ok(())
}

const STATS: &str = "
mkdir /a = ok
mkdir /a/b = ok
stat / = ok dir
stat // = ok dir
stat /// = ok dir
stat /. = ok dir
stat /.. = ok dir
stat /../.. = ok dir
stat /a = ok dir
stat /a/ = ok dir
stat //a = ok dir
stat /a//b = ok dir
stat /a/b/ = ok dir
stat /a/b/.. = ok dir
stat /a/b/../b = ok dir
stat /a/../a/b = ok dir
stat /a/b/../../.. = ok dir
stat /./..//a/ = ok dir
stat a = ok dir
stat . = ok dir
stat .. = ok dir
stat /b = ENOENT
stat /a/a = ENOENT
stat /a/c/.. = ENOENT
stat /a/b/c/d = ENOENT
stat /... = ENOENT
stat /.a = ENOENT
";

const MKDIRS: &str = "
mkdir /a = ok
mkdir /a/b = ok
mkdir / = EEXIST
mkdir // = EEXIST
mkdir /. = EEXIST
mkdir /.. = EEXIST
mkdir /a = EEXIST
mkdir /a/ = EEXIST
mkdir /a/. = EEXIST
mkdir /a/.. = EEXIST
mkdir /a/b/../b = EEXIST
mkdir /c/. = ENOENT
mkdir /c/.. = ENOENT
mkdir /c/d = ENOENT
mkdir /c/../a = ENOENT
list / 0 = ok a
mkdir /c/ = ok
list / 0 = ok a c
mkdir //a/./c// = ok
list /a 0 = ok b c
mkdir /a/b/../a = ok
list /a 0 = ok a b c
mkdir /a/b/../../../B = ok
list / 0 = ok B a c
mkdir ... = ok
list / 0 = ok ... B a c
mkdir /a/b/c = ok
list /a/b 0 = ok c
";

fn limits(rt: &impl Abort, alloc: Global) -> Result<(), AllocError> {
    let cases = [
        // A name of 255 bytes and of 256, and its turn among the errors of one path.
        ("stat /", "n", 255, "", "ENOENT"),
        ("stat /", "n", 256, "", "ENAMETOOLONG"),
        ("stat /none/", "n", 256, "", "ENOENT"),
        ("stat /", "n", 256, "/..", "ENAMETOOLONG"),
        ("mkdir /", "n", 256, "", "ENAMETOOLONG"),
        ("mkdir /none/", "n", 256, "", "ENOENT"),
        // A path of 4,095 bytes and of 4,096.
        ("stat ", "/", 4095, "", "ok dir"),
        ("stat ", "/", 4096, "", "ENAMETOOLONG"),
        ("stat ", "/", 4095, "c", "ENAMETOOLONG"),
        ("mkdir ", "/", 4094, "a", "EEXIST"),
        ("mkdir ", "/", 4095, "b", "ENAMETOOLONG"),
        ("stat ", "/.", 2047, "/", "ok dir"),
        // 256 names and 257, where `.` is none and a last `..` of `mkdir` is none.
        ("stat ", "/..", 256, "", "ok dir"),
        ("stat ", "/..", 257, "", "ENAMETOOLONG"),
        ("stat ", "/a/..", 128, "", "ok dir"),
        ("stat ", "/a/..", 128, "/.", "ok dir"),
        ("stat ", "/a/..", 128, "/a", "ENAMETOOLONG"),
        ("stat ", "/..", 255, "/none", "ENOENT"),
        ("stat ", "/..", 256, "/none", "ENAMETOOLONG"),
        ("mkdir ", "/..", 255, "/a", "EEXIST"),
        ("mkdir ", "/..", 256, "/c", "ENAMETOOLONG"),
        ("mkdir ", "/..", 256, "/..", "EEXIST"),
        ("mkdir ", "/..", 257, "/.", "ENAMETOOLONG"),
        ("mkdir ", "/..", 256, "/.", "EEXIST"),
    ];
    for (head, piece, count, tail, reply) in cases {
        replies(
            rt,
            alloc,
            repeated(alloc, head, piece, count, tail)?.as_str(),
            reply,
            TREE,
        )?;
    }
    Ok(())
}

fn long_made(rt: &impl Abort, alloc: Global) -> Result<(), AllocError> {
    let name = repeated(alloc, "dir 0 /\ndir 1 a\ndir 2 b\ndir 1 ", "n", 255, "\n")?;
    replies(
        rt,
        alloc,
        repeated(alloc, "mkdir /", "n", 255, "")?.as_str(),
        "ok",
        name.as_str(),
    )?;
    let tree = "dir 0 /\ndir 1 a\ndir 2 b\ndir 1 c\n";
    replies(
        rt,
        alloc,
        repeated(alloc, "mkdir ", "/", 4094, "c")?.as_str(),
        "ok",
        tree,
    )?;
    replies(
        rt,
        alloc,
        repeated(alloc, "mkdir ", "/..", 255, "/c")?.as_str(),
        "ok",
        tree,
    )
}

#[test]
fn lengths_of_paths(rt: HostRuntime) -> Result<(), Fail> {
    limits(&rt, rt.alloc())?;
    long_made(&rt, rt.alloc())?;
    Ok(())
}

#[test]
fn spellings_of_paths(rt: HostRuntime) -> Result<(), Fail> {
    expect(&rt, rt.alloc(), "", STATS)?;
    expect(&rt, rt.alloc(), "", MKDIRS)
}
