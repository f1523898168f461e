use super::{Script, expect};
use crate::repeated;
use std::test::Fail;

/// What is written is read, with zeros where nothing was.
const READS: &str = "
open /f rw,creat = ok 0
read 0 5 = ok %_
pread 0 0 0 = ok %_
seek 0 5 set = ok 5
read 0 5 = ok %_
fstat 0 = ok file 0
write 0 ab = ok 2
pread 0 9 0 = ok %00%00%00%00%00ab
pread 0 2 6 = ok b
pread 0 2 7 = ok %_
pread 0 2 1099511627776 = ok %_
seek 0 0 set = ok 0
read 0 6 = ok %00%00%00%00%00a
read 0 4294967295 = ok b
read 0 1 = ok %_
seek 0 0 cur = ok 7
# What was cut off does not come back.
ftruncate 0 6 = ok
ftruncate 0 8 = ok
pread 0 9 4 = ok %00a%00%00
seek 0 0 cur = ok 7
write 0 c = ok 1
pread 0 9 4 = ok %00a%00c
# A write over what is there keeps the rest.
pwrite 0 %ff%0a%20%25 1 = ok 4
pread 0 9 0 = ok %00%FF%0A%20%25a%00c
write 0 %00 = ok 1
fstat 0 = ok file 9
# Across the border of two pages.
pwrite 0 xyz 4094 = ok 3
pread 0 4 4093 = ok %00xyz
pread 0 2 4095 = ok yz
pwrite 0 Z 4096 = ok 1
pread 0 9 4095 = ok yZ
";

/// The least and the greatest offsets and sizes.
const LIMITS: &str = "
open /f rw,creat = ok 0
seek 0 1099511627776 set = ok 1099511627776
seek 0 1 cur = EOVERFLOW
seek 0 1099511627776 cur = EOVERFLOW
seek 0 0 cur = ok 1099511627776
write 0 a = EFBIG
write 0 %_ = ok 0
read 0 1 = ok %_
seek 0 16777215 set = ok 16777215
write 0 ab = EFBIG
fstat 0 = ok file 0
write 0 a = ok 1
seek 0 0 cur = ok 16777216
write 0 b = EFBIG
fstat 0 = ok file 16777216
pread 0 9 16777214 = ok %00a
pwrite 0 b 16777216 = EFBIG
pwrite 0 b 16777215 = ok 1
pwrite 0 bc 16777215 = EFBIG
pwrite 0 b 1099511627776 = EFBIG
pwrite 0 %_ 1099511627776 = ok 0
open /f w,append = ok 1
write 1 c = EFBIG
write 1 %_ = ok 0
ftruncate 0 16777217 = EFBIG
ftruncate 0 1099511627776 = EFBIG
ftruncate 0 -1099511627776 = EINVAL
ftruncate 0 16777216 = ok
ftruncate 0 16777215 = ok
write 1 c = ok 1
seek 1 0 cur = ok 16777216
ftruncate 0 0 = ok
seek 0 -1099511627776 cur = EINVAL
seek 0 1099511627776 end = ok 1099511627776
ftruncate 0 1 = ok
seek 0 1099511627776 end = EOVERFLOW
seek 0 1099511627775 end = ok 1099511627776
seek 0 -1099511627776 cur = ok 0
";

/// The files of one group have room together: those whose descriptor was given a number of one remainder modulo 4.
const GROUPS: &str = "
open /a rw,creat = ok 0
open / r = ok 1
dup 1 = ok 2
dup 1 = ok 3
open /b w,creat = ok 4
dup 1 = ok 5
dup 1 = ok 6
dup 1 = ok 7
open /c w,creat = ok 8
dup 1 = ok 9
dup 1 = ok 10
dup 1 = ok 11
open /d w,creat = ok 12
dup 1 = ok 13
dup 1 = ok 14
dup 1 = ok 15
open /e w,creat = ok 16
open /g w,creat = ok 17
open /h w,creat = ok 18
open /i w,creat = ok 19
ftruncate 0 16777216 = ok
ftruncate 4 16777216 = ok
ftruncate 8 16777216 = ok
ftruncate 12 16777215 = ok
write 16 ab = ENOSPC
write 16 a = ok 1
write 16 b = ENOSPC
pwrite 16 b 1 = ENOSPC
pwrite 16 b 0 = ok 1
ftruncate 16 2 = ENOSPC
ftruncate 12 16777216 = ENOSPC
# EFBIG comes before ENOSPC, and a write of nothing needs no room.
pwrite 16 b 16777216 = EFBIG
ftruncate 16 16777217 = EFBIG
write 16 %_ = ok 0
fstat 16 = ok file 1
# What is there is written over, and other groups have room.
pwrite 0 x 16777215 = ok 1
ftruncate 17 16777216 = ok
ftruncate 18 16777216 = ok
ftruncate 19 16777216 = ok
# A removed file takes its room until it is closed.
unlink /a = ok
write 16 b = ENOSPC
pread 0 1 16777215 = ok x
close 0 = ok
write 16 b = ok 1
ftruncate 16 16777216 = ok
# `trunc` gives back the room of a file.
open /m/a w,creat = ok 0
ftruncate 0 16777216 = ok
open /b w,trunc = ok 20
ftruncate 12 16777216 = ok
ftruncate 4 16777215 = ok
ftruncate 4 16777216 = ok
write 20 x = ok 1
";

#[test]
fn reads(rt: HostRuntime) -> Result<(), Fail> {
    expect(&rt, rt.alloc(), "", READS)
}

#[test]
fn limits_of_sizes(rt: HostRuntime) -> Result<(), Fail> {
    expect(&rt, rt.alloc(), "", LIMITS)
}

#[test]
fn all_groups(rt: HostRuntime) -> Result<(), Fail> {
    expect(&rt, rt.alloc(), "backend m memory\n", GROUPS)
}

/// At most 4,096 bytes are read at once, however many are asked for.
#[test]
fn long_reads(rt: HostRuntime) -> Result<(), Fail> {
    let alloc = rt.alloc();
    let mut script = Script::new(alloc, "")?;
    script.add(alloc, "open /f rw,creat", "ok 0")?;
    let write = repeated(alloc, "write 0 ", "x", 8_000, "")?;
    script.add(alloc, &write, "ok 8000")?;
    let page = repeated(alloc, "ok ", "x", 4_096, "")?;
    script.add(alloc, "pread 0 4096 0", &page)?;
    script.add(alloc, "pread 0 4097 1", &page)?;
    script.add(alloc, "pread 0 4294967295 3904", &page)?;
    script.add(alloc, "pread 0 4 7999", "ok x")?;
    script.add(alloc, "seek 0 0 set", "ok 0")?;
    script.add(alloc, "read 0 5000", &page)?;
    script.add(alloc, "seek 0 0 cur", "ok 4096")?;
    let rest = repeated(alloc, "ok ", "x", 3_904, "")?;
    script.add(alloc, "read 0 5000", &rest)?;
    script.add(alloc, "seek 0 0 cur", "ok 8000")?;
    Ok(script.run(&rt, alloc)?)
}
