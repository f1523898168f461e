use crate::scenes::expect_all;
use std::test::Fail;

/// One file in chunks of 4: `abcd`, `efgh`, `ij`. Of them two are kept.
const CHUNKS_OF_FOUR: &str = "\
file abcdefghij
chunks 4 2
read 0 2 4 = cdef 0:0 0:4
read 0 0 1 = a
read 0 8 9 = ij 0:8
read 0 4 1 = e 0:4
read 0 10 1 = %_
read 0 -1 1 = Negative
read 1 0 1 = NoFile
read 1 -1 1 = NoFile
read 0 0 0 = %_
read 0 4 0 = %_
read 0 3 1 = d 0:0
read 0 4 4 = efgh
read 0 4 5 = efghi 0:8
read 0 7 1 = h
read 0 9 1 = j
read 0 9 2 = j
read 0 11 4294967295 = %_
read 0 9223372036854775807 4294967295 = %_
read 0 -9223372036854775808 1 = Negative
read 0 0 4294967295 = abcdefghij 0:0 0:4 0:8
";

/// The fourth fetch fails, whichever chunk it is of, and leaves the cache as it was.
const FOURTH_FAILS: &str = "\
file abcdefghij
fail 3
chunks 4 2
read 0 2 4 = cdef 0:0 0:4
read 0 0 1 = a
read 0 8 9 = ij 0:8
read 0 4 1 = Fault 0:4
read 0 0 1 = a
read 0 8 1 = i
read 0 4 1 = e 0:4
";

const FAULTS: &str = "\
file abcdefghijkl
fail 0
fail 2
fail 6
chunks 4 64
read 0 0 12 = Fault 0:0
read 0 0 12 = Fault 0:0 0:4
read 0 0 4 = abcd
read 0 0 12 = abcdefghijkl 0:4 0:8
read 0 0 12 = abcdefghijkl
read 0 0 1 = a
";

const LAST_FAILS: &str = "\
file abcdefghijkl
fail 2
chunks 4 2
read 0 1 11 = Fault 0:0 0:4 0:8
read 0 0 8 = abcdefgh
read 0 8 4 = ijkl 0:8
read 0 4 4 = efgh
read 0 0 1 = a 0:0
read 0 8 1 = i 0:8
";

/// Only the chunk that was used last is kept.
const ONE_ENTRY: &str = "\
file abc
file de
chunks 1 1
read 0 0 3 = abc 0:0 0:1 0:2
read 0 2 1 = c
read 0 1 1 = b 0:1
read 0 2 1 = c 0:2
read 1 0 2 = de 1:0 1:1
read 1 1 1 = e
read 0 1 1 = b 0:1
read 1 1 1 = e 1:1
read 1 2 1 = %_
read 2 0 1 = NoFile
";

/// A chunk that is found comes first, so the other one goes.
const HITS_COME_FIRST: &str = "\
file abcdef
chunks 1 2
read 0 0 1 = a 0:0
read 0 1 1 = b 0:1
read 0 0 1 = a
read 0 2 1 = c 0:2
read 0 0 1 = a
read 0 1 1 = b 0:1
read 0 2 1 = c 0:2
";

/// Where there may be no more fetches the next one fails.
const ROOM_ENDS: &str = "\
file abcd
room 2
chunks 1 64
read 0 0 2 = ab 0:0 0:1
read 0 0 3 = Fault
read 0 1 1 = b
read 0 3 1 = Fault
";

const EMPTY_FILES: &str = "\
file %
chunks 4096 64
read 0 0 1 = % 0:0
read 0 1 1 = %_
read 0 0 4096 = %
";

#[test]
fn reads_are_the_files(rt: HostRuntime) -> Result<(), Fail> {
    let alloc = rt.alloc();
    expect_all(&rt, alloc, CHUNKS_OF_FOUR)?;
    expect_all(&rt, alloc, ONE_ENTRY)?;
    expect_all(&rt, alloc, HITS_COME_FIRST)?;
    expect_all(&rt, alloc, EMPTY_FILES)?;
    Ok(())
}

#[test]
fn faults_end_a_read(rt: HostRuntime) -> Result<(), Fail> {
    let alloc = rt.alloc();
    expect_all(&rt, alloc, FOURTH_FAILS)?;
    expect_all(&rt, alloc, FAULTS)?;
    expect_all(&rt, alloc, LAST_FAILS)?;
    expect_all(&rt, alloc, ROOM_ENDS)?;
    Ok(())
}
