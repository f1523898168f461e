use super::steps::{expect, expect_all};
use file_store::{FileAnswer, FileOp, Files};
use std::test::Fail;
use wf_core::DescriptionId;

const FILE_GROWS: &str = "
make rw = file 0 0
cut 0 16777217 = EFBIG
cut 0 16777216 = done
";

const FILE_FILLS: &str = "
writeat 0 %00%00 4095 = count 2
writeat 0 x 16777216 = EFBIG
writeat 0 xy 16777215 = EFBIG
writeat 0 x 9223372036854775807 = EFBIG
writeat 0 x 16777215 = count 1
writeat 0 xy 4095 = count 2
";

const FILE_EMPTIES: &str = "
writeat 0 %00 4096 = count 1
cut 0 16777215 = done
";

/// A file of 16,777,216 zeros costs no page, and one byte more is too much.
#[test]
fn size_of_a_file(rt: HostRuntime) -> Result<(), Fail> {
    let alloc = rt.alloc();
    let mut files = Files::new(alloc, 0);
    expect_all(&rt, alloc, &mut files, FILE_GROWS)?;
    assert_eq!(rt; files.pages(), 0);
    expect_all(&rt, alloc, &mut files, FILE_FILLS)?;
    assert_eq!(rt; files.pages(), 3);
    expect_all(&rt, alloc, &mut files, FILE_EMPTIES)?;
    assert_eq!(rt; files.pages(), 1);
    Ok(())
}

const FIVE_FILES: &str = "
make rw = file 0 0
make rw = file 4 4
make rw = file 8 8
make rw = file 12 12
make rw = file 16 16
";

const GROUP_FILLS: &str = "
cut 0 16777216 = done
cut 4 16777216 = done
cut 8 16777216 = done
cut 12 16777215 = done
cut 16 2 = ENOSPC
write 16 ab = ENOSPC
seek 16 0 cur = at 0
write 16 a = count 1
write 16 b = ENOSPC
writeat 16 b 1 = ENOSPC
writeat 16 b 16777216 = EFBIG
cut 16 16777217 = EFBIG
unlinked 0 = done
write 16 b = ENOSPC
release 0 = done
write 16 b = count 1
";

/// The files of a group have 67,108,864 bytes together, removed ones that are still open among them.
#[test]
fn size_of_a_group(rt: HostRuntime) -> Result<(), Fail> {
    let alloc = rt.alloc();
    let mut files = Files::new(alloc, 0);
    expect_all(&rt, alloc, &mut files, FIVE_FILES)?;
    expect_all(&rt, alloc, &mut files, GROUP_FILLS)?;
    Ok(())
}

const OFFSETS: &str = "
make rw = file 0 0
seek 0 1099511627777 set = EOVERFLOW
seek 0 1099511627776 set = at 1099511627776
seek 0 1 cur = EOVERFLOW
seek 0 9223372036854775807 cur = EOVERFLOW
read 0 1 = bytes %_
write 0 x = EFBIG
seek 0 0 cur = at 1099511627776
seek 0 -9223372036854775808 cur = EINVAL
";

/// An offset is at most 1,099,511,627,776.
#[test]
fn offsets(rt: HostRuntime) -> Result<(), Fail> {
    let alloc = rt.alloc();
    let mut files = Files::new(alloc, 0);
    expect_all(&rt, alloc, &mut files, OFFSETS)?;
    Ok(())
}

const ZEROS: &str = "
make rw = file 0 0
cut 0 10000 = done
";

/// One read gives 4,096 bytes at most, also over the end of a page.
#[test]
fn size_of_a_read(rt: HostRuntime) -> Result<(), Fail> {
    let alloc = rt.alloc();
    let mut files = Files::new(alloc, 0);
    expect_all(&rt, alloc, &mut files, ZEROS)?;
    let bytes = match files.apply(&FileOp::Readat {
        description: DescriptionId::new(0),
        count: 4_097,
        offset: 100,
    })? {
        FileAnswer::Bytes(text) => text.as_bytes().len(),
        _ => 0,
    };
    assert_eq!(rt; bytes, 4_096);
    files.apply(&FileOp::Read {
        description: DescriptionId::new(0),
        count: 4_294_967_295,
    })?;
    expect(&rt, alloc, &mut files, "seek 0 0 cur", "at 4096")?;
    Ok(())
}
