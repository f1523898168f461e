//! The fields of calls.

use super::{FRONT, expect_all};
use std::alloc::Global;
use std::process::Abort;
use std::test::Fail;

/// Calls of thread A, and the first fault of the last of them.
const FAULTS: &str = "
-- paths
A: mkdir; = line 3: BadArgument;
A: mkdir ; = line 3: BadArgument;
A: mkdir /a /b; = line 3: BadArgument;
A: mkdir /a\r; = line 3: BadArgument;
A: symlink t; = line 3: BadArgument;
A: rename /a /b /c; = line 3: BadArgument;
A: rmdir /a;A: unlink /a;A: symlink t /a; = -
A: rename /a /b;A: readlink /a;A: lstat /a; = -
A: stat %; = line 3: BadArgument;
A: stat %4; = line 3: BadArgument;
A: stat a%; = line 3: BadArgument;
A: stat %4g; = line 3: BadArgument;
A: stat %g4; = line 3: BadArgument;
A: stat %__; = line 3: BadArgument;
A: stat a%_; = line 3: BadArgument;
A: stat %00; = line 3: BadArgument;
A: stat /\x7f; = line 3: BadArgument;
A: stat /\x1f; = line 3: BadArgument;
A: stat /\u{e4}; = line 3: BadArgument;
-- positions and counts
A: list /; = line 3: BadArgument;
A: list / 0 0; = line 3: BadArgument;
A: list / ; = line 3: BadArgument;
A: list / 4294967296; = line 3: BadArgument;
A: list / 18446744073709551616; = line 3: BadArgument;
A: list / 99999999999999999999999999999999; = line 3: BadArgument;
A: list / 00; = line 3: BadArgument;
A: list / 01; = line 3: BadArgument;
A: list / -1; = line 3: BadArgument;
A: list / -0; = line 3: BadArgument;
A: list / +1; = line 3: BadArgument;
A: list / 0x1; = line 3: BadArgument;
A: read 0; = line 3: BadArgument;
A: read 0 -1; = line 3: BadArgument;
A: read 0 4294967296; = line 3: BadArgument;
A: read 0 1 2; = line 3: BadArgument;
-- flags
A: open /a; = line 3: BadArgument;
A: open /a ; = line 3: BadArgument;
A: open r; = line 3: BadArgument;
A: open /a r w; = line 3: BadArgument;
A: open /a x; = line 3: BadArgument;
A: open /a R; = line 3: BadArgument;
A: open /a wr; = line 3: BadArgument;
A: open /a creat; = line 3: BadArgument;
A: open /a creat,r; = line 3: BadArgument;
A: open /a r,; = line 3: BadArgument;
A: open /a ,r; = line 3: BadArgument;
A: open /a r,,creat; = line 3: BadArgument;
A: open /a r,w; = line 3: BadArgument;
A: open /a rw,r; = line 3: BadArgument;
A: open /a r,creat,creat; = line 3: BadArgument;
A: open /a r,creat,excl,creat; = line 3: BadArgument;
A: open /a r,cloexec; = line 3: BadArgument;
A: open /a r%2ccreat; = line 3: BadArgument;
-- descriptors
A: close; = line 3: BadArgument;
A: close x; = line 3: BadArgument;
A: close -1; = line 3: BadArgument;
A: close 01; = line 3: BadArgument;
A: close 4294967296; = line 3: BadArgument;
A: close 0 0; = line 3: BadArgument;
A: close @; = line 3: BadArgument;
A: close @0; = line 3: BadArgument;
A: close @1; = line 3: BadArgument;
A: close @x; = line 3: BadArgument;
A: open /a r;A: close @-1; = line 4: BadArgument;
A: open /a r;A: close @01; = line 4: BadArgument;
A: open /a r;A: close @2; = line 4: BadArgument;
A: open /a r;A: close @4294967297; = line 4: BadArgument;
A: open /a r;A: close @18446744073709551617; = line 4: BadArgument;
A: stat /;A: close @1; = line 4: BadArgument;
A: open /a r;A: close 0;A: close @2; = line 5: BadArgument;
A: open /a r;thread B;B: close @1; = line 5: BadArgument;
A: open /a r;A: close @1;A: close @1; = -
A: stat /;A: dup 0;A: dup2 @2 @2;A: dup @3;A: fstat @4; = -
A: dup; = line 3: BadArgument;
A: dup2 0; = line 3: BadArgument;
A: dup2 0 1 2; = line 3: BadArgument;
A: dup2 0 x; = line 3: BadArgument;
A: fstat; = line 3: BadArgument;
A: fstat 0 0; = line 3: BadArgument;
-- bytes
A: write 0; = line 3: BadArgument;
A: write 0 ; = line 3: BadArgument;
A: write 0 a b; = line 3: BadArgument;
A: write 0 %; = line 3: BadArgument;
A: write x a; = line 3: BadArgument;
A: pwrite 0 a; = line 3: BadArgument;
A: pwrite 0 1; = line 3: BadArgument;
-- offsets and sizes
A: pread 0 1; = line 3: BadArgument;
A: pread 0 1 -0; = line 3: BadArgument;
A: pread 0 1 --1; = line 3: BadArgument;
A: pread 0 1 -; = line 3: BadArgument;
A: pread 0 1 -01; = line 3: BadArgument;
A: pread 0 1 1099511627777; = line 3: BadArgument;
A: pread 0 1 -1099511627777; = line 3: BadArgument;
A: pwrite 0 a 99999999999999999999; = line 3: BadArgument;
A: ftruncate 0; = line 3: BadArgument;
A: ftruncate 0 1099511627777; = line 3: BadArgument;
A: ftruncate 0 x; = line 3: BadArgument;
A: seek 0 0; = line 3: BadArgument;
A: seek 0 0 here; = line 3: BadArgument;
A: seek 0 0 SET; = line 3: BadArgument;
A: seek 0 0 set set; = line 3: BadArgument;
A: seek 0 end 0; = line 3: BadArgument;
";

#[test]
fn faulty_fields_are_told(rt: HostRuntime) -> Result<(), Fail> {
    expect_all(&rt, rt.alloc(), FRONT, FAULTS)
}

/// Calls that are read, and what they are printed as.
const PRINTED: &str = "
A: stat /a; = A: stat /a;
A: stat !~; = A: stat !~;
A: stat %41; = A: stat A;
A: stat %2f%2F; = A: stat //;
A: stat a%20b; = A: stat a%20b;
A: stat %0a%Ff%25; = A: stat %0A%FF%25;
A: stat %_; = A: stat %_;
A: stat a_; = A: stat a_;
A: stat %5f; = A: stat _;
A: symlink %_ %2e; = A: symlink %_ .;
A: rename %61 %7e; = A: rename a ~;
A: list / 0; = A: list / 0;
A: list / 4294967295; = A: list / 4294967295;
A: open /%61 r; = A: open /a r;
A: open /a rw,nofollow,creat; = A: open /a rw,creat,nofollow;
A: open /a w,nofollow,directory,append,trunc,excl,creat; = A: open /a w,creat,excl,trunc,append,directory,nofollow;
A: open %_ r,creat,directory; = A: open %_ r,creat,directory;
A: close 4294967295; = A: close 4294967295;
A: dup 0;A: dup2 @1 7;A: dup2 1 @2; = A: dup 0;A: dup2 @1 7;A: dup2 1 @2;
A: read 0 0; = A: read 0 0;
A: read 7 4294967295; = A: read 7 4294967295;
A: pread 0 1 -1099511627776; = A: pread 0 1 -1099511627776;
A: pread 0 1 1099511627776; = A: pread 0 1 1099511627776;
A: write 0 %00%41%ff%20; = A: write 0 %00A%FF%20;
A: write 0 %_; = A: write 0 %_;
A: pwrite 0 ab%2c -1; = A: pwrite 0 ab, -1;
A: seek 0 -7 set;A: seek 0 7 cur;A: seek 0 0 end; = A: seek 0 -7 set;A: seek 0 7 cur;A: seek 0 0 end;
A: ftruncate 0 -1; = A: ftruncate 0 -1;
A: fstat 0;A: lstat a;A: unlink a;A: rmdir a;A: mkdir a;A: readlink a; = A: fstat 0;A: lstat a;A: unlink a;A: rmdir a;A: mkdir a;A: readlink a;
";

/// Rows whose two texts both stand behind the front.
pub(super) fn expect_printed(
    rt: &impl Abort,
    alloc: Global,
    front: &str,
    table: &str,
) -> Result<(), Fail> {
    for line in table.lines() {
        if !line.is_empty() {
            let (read, printed) = line.split_once(" = ").ok_or("a row without a text")?;
            let due = format!(in alloc; "{front}{printed}")?;
            super::expect_told(rt, alloc, front, read, &due)?;
        }
    }
    Ok(())
}

#[test]
fn calls_are_printed(rt: HostRuntime) -> Result<(), Fail> {
    expect_printed(&rt, rt.alloc(), FRONT, PRINTED)
}
