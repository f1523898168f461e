use super::steps::{expect, expect_all};
use file_store::{FileAnswer, FileOp, Files};
use std::alloc::{AllocError, Global};
use std::process::Abort;
use std::test::Fail;
use wf_core::{DescriptionId, Text};

/// Bytes other than 0, in which no two pages that follow one another are alike.
fn pattern(alloc: Global, count: usize) -> Result<Vec<u8>, AllocError> {
    let mut bytes = Vec::with_capacity(alloc, count)?;
    for i in 0..count {
        bytes.push(1 + (i % 251) as u8)?;
    }
    Ok(bytes)
}

/// Reads a file from its start to its end, in pieces of 4,096 bytes.
fn expect_contents(
    rt: &impl Abort,
    alloc: Global,
    files: &mut Files,
    id: u64,
    bytes: &[u8],
) -> Result<(), Fail> {
    expect(
        rt,
        alloc,
        files,
        &format!(in alloc; "seek {id} 0 set")?,
        "at 0",
    )?;
    let read = FileOp::Read {
        description: DescriptionId::new(id),
        count: 4_096,
    };
    for piece in bytes.chunks(4_096) {
        match files.apply(&read)? {
            FileAnswer::Bytes(text) => assert!(rt; text.as_bytes() == piece),
            answer => panic!(rt; "{answer:?}"),
        }
    }
    expect(
        rt,
        alloc,
        files,
        &format!(in alloc; "read {id} 1")?,
        "bytes %_",
    )
}

const FOUR_FILES: &str = "
make rw = file 0 0
make rw = file 4 4
make rw = file 8 8
make rw = file 12 12
";

/// Four files of 16,777,216 bytes other than 0, which are the most that a group has.
#[test]
fn bytes_of_a_group(rt: HostRuntime) -> Result<(), Fail> {
    let alloc = rt.alloc();
    let mut files = Files::new(alloc, 0);
    expect_all(&rt, alloc, &mut files, FOUR_FILES)?;
    for id in [0, 4] {
        let write = FileOp::Write {
            description: DescriptionId::new(id),
            bytes: Text::new(pattern(alloc, 16_777_216)?),
        };
        assert!(&rt; matches!(files.apply(&write)?, FileAnswer::Count(16_777_216)));
    }
    for id in [8, 12] {
        let write_at = FileOp::Writeat {
            description: DescriptionId::new(id),
            bytes: Text::new(pattern(alloc, 16_777_216)?),
            offset: 0,
        };
        assert!(&rt; matches!(files.apply(&write_at)?, FileAnswer::Count(16_777_216)));
    }
    assert_eq!(&rt; files.pages(), 16_384);
    let bytes = pattern(alloc, 16_777_216)?;
    for id in [0, 4, 8, 12] {
        expect_contents(&rt, alloc, &mut files, id, bytes.as_slice())?;
    }
    Ok(())
}

/// 1,024 files of group 3, of which each has a size of its own.
#[test]
fn count_of_files(rt: HostRuntime) -> Result<(), Fail> {
    let alloc = rt.alloc();
    let mut files = Files::new(alloc, 3);
    for i in 0..1_024u32 {
        let id = 4 * i + 3;
        let made = format!(in alloc; "file {id} {id}")?;
        expect(&rt, alloc, &mut files, "make rw", &made)?;
        let write = format!(in alloc; "writeat {id} x {i}")?;
        expect(&rt, alloc, &mut files, &write, "count 1")?;
    }
    assert_eq!(&rt; files.pages(), 1_024);
    for i in 0..1_024u32 {
        let id = 4 * i + 3;
        let size = format!(in alloc; "size {}", i + 1)?;
        expect(
            &rt,
            alloc,
            &mut files,
            &format!(in alloc; "sizeof {id}")?,
            &size,
        )?;
        let read = format!(in alloc; "readat {id} 2 {i}")?;
        expect(&rt, alloc, &mut files, &read, "bytes x")?;
        expect(
            &rt,
            alloc,
            &mut files,
            &format!(in alloc; "release {id}")?,
            "done",
        )?;
        expect(
            &rt,
            alloc,
            &mut files,
            &format!(in alloc; "unlinked {id}")?,
            "done",
        )?;
        expect(
            &rt,
            alloc,
            &mut files,
            &format!(in alloc; "sizeof {id}")?,
            "gone",
        )?;
    }
    assert_eq!(&rt; files.pages(), 0);
    Ok(())
}

const ENDS: &str = "
size 3 = size 0
release 3 = done
size 3 = EBADF
";

/// 1,024 descriptions of one file, of which each has an offset of its own.
#[test]
fn count_of_descriptions(rt: HostRuntime) -> Result<(), Fail> {
    let alloc = rt.alloc();
    let mut files = Files::new(alloc, 3);
    expect(&rt, alloc, &mut files, "make rw", "file 3 3")?;
    for i in 1..1_024u32 {
        let id = 4 * i + 3;
        let made = format!(in alloc; "desc {id}")?;
        expect(&rt, alloc, &mut files, "attach 3 rw 0", &made)?;
        let seek = format!(in alloc; "seek {id} {i} set")?;
        expect(&rt, alloc, &mut files, &seek, &format!(in alloc; "at {i}")?)?;
    }
    expect(&rt, alloc, &mut files, "unlinked 3", "done")?;
    for i in 1..1_024u32 {
        let id = 4 * i + 3;
        let seek = format!(in alloc; "seek {id} 0 cur")?;
        expect(&rt, alloc, &mut files, &seek, &format!(in alloc; "at {i}")?)?;
        expect(
            &rt,
            alloc,
            &mut files,
            &format!(in alloc; "release {id}")?,
            "done",
        )?;
        expect(
            &rt,
            alloc,
            &mut files,
            &format!(in alloc; "size {id}")?,
            "EBADF",
        )?;
    }
    expect_all(&rt, alloc, &mut files, ENDS)
}
