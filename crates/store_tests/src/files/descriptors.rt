//! Operations on descriptors and their answers as lines of words, as `fill 0 file 2 5`.

use super::steps::word;
use file_store::{Descriptors, FdAnswer, FdOp};
use std::alloc::{AllocError, Global};
use std::process::Abort;
use std::test::Fail;
use wf_core::{BackendId, DescriptionId, DirId};

/// What a number is filled with, from its words.
fn fill(number: u32, kind: &str, backend: u32, id: u64) -> FdOp {
    let backend = BackendId::new(backend);
    if kind == "file" {
        return FdOp::FillFile {
            number,
            backend,
            description: DescriptionId::new(id),
        };
    }
    FdOp::FillDir {
        number,
        backend,
        dir: DirId::new(id),
    }
}

fn read_op(line: &str) -> Result<FdOp, Fail> {
    let mut words = line.split(' ');
    let operation = word(words.next())?;
    if operation == "reserve" {
        return Ok(FdOp::Reserve);
    }
    let number = word(words.next())?.parse::<u32>()?;
    Ok(match operation {
        "fill" => {
            let kind = word(words.next())?;
            let backend = word(words.next())?.parse::<u32>()?;
            fill(number, kind, backend, word(words.next())?.parse::<u64>()?)
        }
        "drop" => FdOp::Drop(number),
        "look" => FdOp::Look(number),
        "copy" => FdOp::Copy(number),
        "copyto" => FdOp::Copyto {
            number,
            target: word(words.next())?.parse::<u32>()?,
        },
        _ => FdOp::Take(number),
    })
}

fn answer_text(alloc: Global, answer: &FdAnswer) -> Result<String, AllocError> {
    match answer {
        FdAnswer::Fd(number) => format!(in alloc; "fd {number}"),
        FdAnswer::FdLast {
            number,
            backend,
            description,
        } => {
            format!(in alloc;
                "fd {number} last {} {}",
                backend.number(),
                description.number()
            )
        }
        FdAnswer::Done => format!(in alloc; "done"),
        FdAnswer::Last {
            backend,
            description,
        } => format!(in alloc; "last {} {}", backend.number(), description.number()),
        FdAnswer::File {
            backend,
            description,
        } => format!(in alloc; "file {} {}", backend.number(), description.number()),
        FdAnswer::Dir { backend, dir } => {
            format!(in alloc; "dir {} {}", backend.number(), dir.number())
        }
        FdAnswer::Fault(error) => format!(in alloc; "{}", error.word()),
    }
}

fn expect_all(
    rt: &impl Abort,
    alloc: Global,
    map: &mut Descriptors,
    table: &str,
) -> Result<(), Fail> {
    for line in table.lines() {
        if !line.is_empty() && !line.starts_with('#') {
            let (operation, expected) = line.split_once(" = ").ok_or("a line without an answer")?;
            let answer = answer_text(alloc, &map.apply(&read_op(operation)?))?;
            assert_eq!(rt; answer.as_str(), expected, "at {operation}");
        }
    }
    Ok(())
}

const RESERVES_AND_FILLS: &str = "
reserve = fd 0
reserve = fd 1
look 0 = EBADF
fill 0 file 2 5 = done
look 0 = file 2 5
# Only a reserved number is filled or dropped.
fill 0 file 3 6 = done
fill 0 dir 3 6 = done
drop 0 = done
look 0 = file 2 5
fill 9 dir 1 7 = done
look 9 = EBADF
fill 1 dir 1 7 = done
look 1 = dir 1 7
look 4294967295 = EBADF
# A dropped number is the lowest free one again.
reserve = fd 2
drop 2 = done
reserve = fd 2
";

const COPIES_AND_TAKES: &str = "
copy 0 = fd 3
look 3 = file 2 5
copy 2 = EBADF
copy 9 = EBADF
copyto 9 4 = EBADF
copyto 2 2 = EBADF
copyto 0 1024 = EBADF
copyto 0 2 = EBUSY
copyto 0 0 = fd 0
copyto 0 5 = fd 5
copyto 1 5 = fd 5
copyto 0 3 = fd 3
copyto 1 3 = fd 3
copyto 1 0 = fd 0 last 2 5
look 0 = dir 1 7
take 5 = done
take 5 = EBADF
take 2 = EBADF
# The last number of a description tells it.
fill 2 file 2 8 = done
copy 2 = fd 4
take 2 = done
take 4 = last 2 8
";

/// Each answer of each operation.
#[test]
fn answers_of_each_operation(rt: HostRuntime) -> Result<(), Fail> {
    let alloc = rt.alloc();
    let mut map = Descriptors::new(alloc)?;
    expect_all(&rt, alloc, &mut map, RESERVES_AND_FILLS)?;
    expect_all(&rt, alloc, &mut map, COPIES_AND_TAKES)
}

const FULL: &str = "
reserve = EMFILE
fill 1023 file 0 4 = done
copy 1023 = EMFILE
copyto 1023 1024 = EBADF
drop 700 = done
drop 64 = done
copy 1023 = fd 64
copyto 64 1023 = fd 1023
reserve = fd 700
take 1023 = done
take 64 = last 0 4
";

/// The numbers are 0 to 1,023.
#[test]
fn numbers_end(rt: HostRuntime) -> Result<(), Fail> {
    let alloc = rt.alloc();
    let mut map = Descriptors::new(alloc)?;
    for number in 0..1_024 {
        assert_eq!(rt; map.apply(&FdOp::Reserve), FdAnswer::Fd(number));
    }
    expect_all(&rt, alloc, &mut map, FULL)
}
