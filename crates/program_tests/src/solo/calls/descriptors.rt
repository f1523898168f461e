use super::expect;
use crate::repeated;
use crate::solo::run_on;
use std::test::Fail;
use wf_core::RunStatus;

/// Each access mode with each call on a file: numbers 0, 1 and 2 read, write and do both; 3 and 4 append.
const MODES: &str = "
open /f w,creat = ok 0
write 0 abcdef = ok 6
close 0 = ok
open /f r = ok 0
open /f w = ok 1
open /f rw = ok 2
open /f w,append = ok 3
open /f rw,append = ok 4
read 0 2 = ok ab
read 1 2 = EBADF
read 2 3 = ok abc
read 3 2 = EBADF
read 4 1 = ok a
pread 0 2 1 = ok bc
pread 1 2 1 = EBADF
pread 2 2 1 = ok bc
pread 3 2 1 = EBADF
pread 4 2 1 = ok bc
# A mode that is wrong comes before an offset that is.
pread 1 2 -1 = EBADF
pread 0 2 -1 = EINVAL
write 0 X = EBADF
write 1 X = ok 1
write 2 X = ok 1
write 3 Y = ok 1
write 4 Z = ok 1
pread 0 20 0 = ok XbcXefYZ
pwrite 0 P 1 = EBADF
pwrite 1 P 1 = ok 1
pwrite 2 P 2 = ok 1
# `pwrite` writes at its offset, also where a write appends.
pwrite 3 Q 4 = ok 1
pwrite 4 Q 5 = ok 1
pread 0 20 0 = ok XPPXQQYZ
pwrite 0 P -1 = EBADF
pwrite 1 P -1 = EINVAL
pwrite 1 %_ -1 = EINVAL
write 0 %_ = EBADF
write 1 %_ = ok 0
seek 0 0 cur = ok 2
seek 1 0 cur = ok 1
seek 3 0 cur = ok 7
seek 4 0 cur = ok 8
seek 1 3 set = ok 3
seek 1 -1 cur = ok 2
seek 1 -1 end = ok 7
seek 1 2 end = ok 10
seek 1 -11 cur = EINVAL
seek 1 -1 set = EINVAL
seek 1 -9 end = EINVAL
seek 1 0 cur = ok 10
ftruncate 0 3 = EINVAL
ftruncate 1 3 = ok
ftruncate 2 4 = ok
ftruncate 3 5 = ok
ftruncate 4 2 = ok
ftruncate 1 -1 = EINVAL
fstat 0 = ok file 2
fstat 1 = ok file 2
fstat 4 = ok file 2
pread 0 9 0 = ok XP
read 0 9 = ok %_
# What the access mode refuses comes before what no file can hold.
ftruncate 0 16777217 = EINVAL
ftruncate 1 16777217 = EFBIG
pwrite 0 a 16777216 = EBADF
seek 0 16777216 set = ok 16777216
write 0 a = EBADF
seek 2 16777216 set = ok 16777216
write 2 a = EFBIG
";

/// A directory's descriptor with each call.
const DIRECTORIES: &str = "
mkdir /d = ok
open /d r = ok 0
open /m r = ok 1
fstat 0 = ok dir
fstat 1 = ok dir
read 0 1 = EISDIR
read 0 0 = EISDIR
pread 0 1 -1 = EISDIR
write 0 a = EBADF
write 0 %_ = EBADF
pwrite 0 a -1 = EBADF
seek 0 0 set = EINVAL
seek 0 -1 end = EINVAL
ftruncate 0 0 = EINVAL
dup 0 = ok 2
fstat 2 = ok dir
dup2 0 9 = ok 9
close 0 = ok
fstat 0 = EBADF
fstat 9 = ok dir
# A directory's descriptor outlives its directory.
rmdir /d = ok
fstat 9 = ok dir
close 9 = ok
close 2 = ok
close 1 = ok
close 1 = EBADF
";

/// Numbers that name nothing, with each call.
const NOTHING: &str = "
read 0 1 = EBADF
pread 0 1 -1 = EBADF
write 0 a = EBADF
write 0 %_ = EBADF
pwrite 0 a -1 = EBADF
seek 0 -1 set = EBADF
ftruncate 0 -1 = EBADF
fstat 0 = EBADF
close 0 = EBADF
dup 0 = EBADF
dup2 0 0 = EBADF
dup2 0 1 = EBADF
dup2 0 1024 = EBADF
fstat 1023 = EBADF
fstat 1024 = EBADF
close 4294967295 = EBADF
open / r = ok 0
dup2 0 1023 = ok 1023
dup2 0 1024 = EBADF
dup2 0 4294967295 = EBADF
dup2 0 0 = ok 0
fstat 1023 = ok dir
close 1023 = ok
fstat 1023 = EBADF
";

/// The lowest number that is free is given, and one offset is shared by all numbers of one description.
const NUMBERS: &str = "
open /f rw,creat = ok 0
dup 0 = ok 1
open /f r = ok 2
dup2 2 5 = ok 5
dup 2 = ok 3
dup 2 = ok 4
dup 2 = ok 6
close 1 = ok
close 4 = ok
open /f w = ok 1
dup 0 = ok 4
write 0 abcdef = ok 6
seek 4 1 set = ok 1
read 0 2 = ok bc
seek 4 0 cur = ok 3
read 2 1 = ok a
read 5 1 = ok b
read 3 1 = ok c
seek 6 0 cur = ok 3
# Another description of the file has an offset of its own.
seek 1 0 cur = ok 0
dup2 1 2 = ok 2
seek 2 4 set = ok 4
seek 1 0 cur = ok 4
# Onto itself a number stays what it was, with its description.
dup2 1 1 = ok 1
write 1 X = ok 1
read 5 9 = ok dXf
close 0 = ok
close 4 = ok
open /f r = ok 0
";

/// `@N` is the number that call N replied, or none where it failed.
const NAMED_BY_CALL: &str = "
open /f rw,creat = ok 0
write @1 ab = ok 2
dup @1 = ok 1
seek @3 0 set = ok 0
read @1 1 = ok a
open /none r = ENOENT
read @6 1 = EBADF
close @6 = EBADF
dup2 @1 @3 = ok 1
dup2 @6 @1 = EBADF
dup2 @1 @6 = EBADF
dup2 @1 7 = ok 7
close @12 = ok
fstat @12 = EBADF
open /f r = ok 2
close @1 = ok
# A number that was given anew is what it names now.
open / r = ok 0
fstat @1 = ok dir
";

/// A removed file is there for its descriptors, and goes with the last of them.
const REMOVED: &str = "
open /f rw,creat = ok 0
write 0 abc = ok 3
dup 0 = ok 1
open /f r = ok 2
unlink /f = ok
stat /f = ENOENT
open /f r = ENOENT
fstat 0 = ok file 3
read 2 9 = ok abc
close 0 = ok
write 1 d = ok 1
pread 2 9 0 = ok abcd
open /f w,creat,excl = ok 0
write 0 new = ok 3
pread 2 9 0 = ok abcd
close 1 = ok
pread 2 9 0 = ok abcd
close 2 = ok
pread 2 9 0 = EBADF
stat /f = ok file 3
# A file that another is moved over is removed, too.
open /g w,creat = ok 1
write 1 g = ok 1
rename /g /f = ok
fstat 0 = ok file 3
fstat 1 = ok file 1
stat /f = ok file 1
stat /g = ENOENT
# `dup2` closes what its target named.
dup2 1 0 = ok 0
fstat 0 = ok file 1
";

#[test]
fn access_modes(rt: HostRuntime) -> Result<(), Fail> {
    expect(&rt, rt.alloc(), "", MODES)
}

#[test]
fn directories(rt: HostRuntime) -> Result<(), Fail> {
    expect(&rt, rt.alloc(), "backend m memory\n", DIRECTORIES)
}

#[test]
fn numbers_of_nothing(rt: HostRuntime) -> Result<(), Fail> {
    expect(&rt, rt.alloc(), "", NOTHING)
}

#[test]
fn numbers(rt: HostRuntime) -> Result<(), Fail> {
    expect(&rt, rt.alloc(), "", NUMBERS)
}

#[test]
fn named_by_call(rt: HostRuntime) -> Result<(), Fail> {
    expect(&rt, rt.alloc(), "", NAMED_BY_CALL)
}

#[test]
fn removed_files(rt: HostRuntime) -> Result<(), Fail> {
    expect(&rt, rt.alloc(), "", REMOVED)
}

/// The last replies of a run in which all numbers are taken, and after it the tree.
const ALL_TAKEN: &str = "
reply A 1026 ok
reply A 1027 EMFILE
reply A 1028 EMFILE
reply A 1029 EMFILE
reply A 1030 EINVAL
reply A 1031 EMFILE
reply A 1032 EBADF
reply A 1033 ok 1023
reply A 1034 ok
reply A 1035 EEXIST
reply A 1036 ok 512
reply A 1037 EMFILE
reply A 1038 ok dir
dir 0 /
dir 1 d
end
";

/// With 1,024 numbers taken each `open` fails before its path is looked at, and its flags are looked at before.
#[test]
fn all_numbers(rt: HostRuntime) -> Result<(), Fail> {
    let alloc = rt.alloc();
    let head = "wasmfs-trace 1\nthread A\nA: open / r\n";
    let tail =
        "A: mkdir /d\nA: dup 0\nA: open /f w,creat\nA: open %_ r\nA: open /d r,trunc\nA: open /d w\nA: dup 1024\nA: dup2 0 1023\nA: close 512\nA: open /d r,creat,excl\nA: open /d r\nA: open /none r\nA: fstat 1023\n";
    let input = repeated(alloc, head, "A: dup 0\n", 1_024, tail)?;
    let (status, out) = run_on(alloc, input.as_bytes())?;
    assert_eq!(rt; status, RunStatus::Done);
    assert!(rt; out.as_bytes().ends_with(ALL_TAKEN.as_bytes()));
    Ok(())
}
