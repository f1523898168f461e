use super::steps::expect_all;
use file_store::Files;
use std::alloc::Global;
use std::process::Abort;
use std::test::Fail;

const FOUR_FILES: &str = "
make rw = file 1 1
make r = file 5 5
make w = file 9 9
make rwa = file 13 13
";

/// Ids of a group go up by four, for files and for descriptions.
fn make_four(rt: &impl Abort, alloc: Global, files: &mut Files) -> Result<(), Fail> {
    expect_all(rt, alloc, files, FOUR_FILES)
}

const READ_CASES: &str = "
write 1 abc = count 3
size 1 = size 3
sizeof 1 = size 3
read 1 9 = bytes %_
seek 1 0 set = at 0
read 1 2 = bytes ab
read 1 9 = bytes c
seek 1 0 cur = at 3
readat 1 5 1 = bytes bc
readat 1 1 3 = bytes %_
seek 1 0 cur = at 3
readat 1 1 -1 = EINVAL
readat 9 1 -1 = EBADF
read 9 1 = EBADF
# No such description; one of another group.
read 99 1 = EBADF
readat 2 1 0 = EBADF
size 2 = EBADF
sizeof 2 = gone
";

#[test]
fn reads(rt: HostRuntime) -> Result<(), Fail> {
    let alloc = rt.alloc();
    let mut files = Files::new(alloc, 1);
    make_four(&rt, alloc, &mut files)?;
    expect_all(&rt, alloc, &mut files, READ_CASES)?;
    Ok(())
}

const WRITE_CASES: &str = "
write 5 x = EBADF
write 5 %_ = EBADF
write 99 x = EBADF
writeat 5 x -1 = EBADF
writeat 99 x 0 = EBADF
writeat 1 x -1 = EINVAL
writeat 1 %_ -1 = EINVAL
writeat 1 %_ 7 = count 0
write 1 %_ = count 0
size 1 = size 0
# A gap is zeros, and a write at an offset leaves the description's.
write 1 ab = count 2
writeat 1 z 4 = count 1
seek 1 0 cur = at 2
read 1 9 = bytes %00%00z
";

#[test]
fn writes(rt: HostRuntime) -> Result<(), Fail> {
    let alloc = rt.alloc();
    let mut files = Files::new(alloc, 1);
    make_four(&rt, alloc, &mut files)?;
    expect_all(&rt, alloc, &mut files, WRITE_CASES)?;
    Ok(())
}

const APPEND_CASES: &str = "
write 13 ab = count 2
seek 13 0 set = at 0
write 13 %_ = count 0
seek 13 0 cur = at 0
write 13 c = count 1
seek 13 0 cur = at 3
writeat 13 z 0 = count 1
readat 13 9 0 = bytes zbc
";

#[test]
fn appends(rt: HostRuntime) -> Result<(), Fail> {
    let alloc = rt.alloc();
    let mut files = Files::new(alloc, 1);
    make_four(&rt, alloc, &mut files)?;
    expect_all(&rt, alloc, &mut files, APPEND_CASES)?;
    Ok(())
}

const SEEK_AND_CUT_CASES: &str = "
write 1 abcdef = count 6
seek 1 -1 set = EINVAL
seek 1 -7 end = EINVAL
seek 1 -7 cur = EINVAL
seek 1 -6 end = at 0
seek 1 2 cur = at 2
seek 99 0 set = EBADF
cut 5 0 = EINVAL
cut 1 -1 = EINVAL
cut 99 0 = EBADF
# What was cut off does not come back.
cut 1 2 = done
size 1 = size 2
cut 1 4 = done
readat 1 9 0 = bytes ab%00%00
seek 1 0 cur = at 2
";

#[test]
fn seeks_and_cuts(rt: HostRuntime) -> Result<(), Fail> {
    let alloc = rt.alloc();
    let mut files = Files::new(alloc, 1);
    make_four(&rt, alloc, &mut files)?;
    expect_all(&rt, alloc, &mut files, SEEK_AND_CUT_CASES)?;
    Ok(())
}

const END_CASES: &str = "
write 1 abc = count 3
attach 1 rw 0 = desc 17
seek 17 0 cur = at 0
attach 99 rw 0 = gone
# A removed file stays while it is open.
unlinked 1 = done
sizeof 1 = gone
attach 1 rw 1 = gone
size 1 = size 3
release 17 = done
size 1 = size 3
release 1 = done
size 1 = EBADF
release 1 = EBADF
unlinked 1 = done
unlinked 99 = done
# A linked file stays while it is not open, and ids are not used again.
release 9 = done
sizeof 9 = size 0
unlinked 9 = done
sizeof 9 = gone
make w = file 17 21
write 21 hello = count 5
attach 17 r 1 = desc 25
sizeof 17 = size 0
";

#[test]
fn files_end(rt: HostRuntime) -> Result<(), Fail> {
    let alloc = rt.alloc();
    let mut files = Files::new(alloc, 1);
    make_four(&rt, alloc, &mut files)?;
    expect_all(&rt, alloc, &mut files, END_CASES)?;
    assert_eq!(rt; files.pages(), 0);
    Ok(())
}
