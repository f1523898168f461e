//! Operations on files and their answers as lines of words, in which a text field stands for bytes: `%00` for byte 0, and
//! `%_` alone for none.

use file_store::{Access, FileAnswer, FileOp, Files, Mode, Whence};
use std::alloc::{AllocError, Global};
use std::process::Abort;
use std::test::Fail;
use wf_core::{DescriptionId, FileId, Text};

pub(super) fn word<'a>(word: Option<&'a str>) -> Result<&'a str, Fail> {
    Ok(word.ok_or("a word is missing")?)
}

fn mode(name: &str) -> Mode {
    let access = match name {
        "r" | "ra" => Access::Read,
        "w" | "wa" => Access::Write,
        _ => Access::ReadWrite,
    };
    Mode {
        access,
        append: name.ends_with('a'),
    }
}

fn whence(name: &str) -> Whence {
    match name {
        "set" => Whence::Set,
        "cur" => Whence::Cur,
        _ => Whence::End,
    }
}

fn bytes_of(alloc: Global, field: &str) -> Result<Text, AllocError> {
    let mut bytes = Vec::new(alloc);
    if field != "%_" {
        for piece in field.split('%') {
            match piece.strip_prefix("00") {
                Some(rest) => {
                    bytes.push(0)?;
                    bytes.extend_from_slice(rest.as_bytes())?;
                }
                None => bytes.extend_from_slice(piece.as_bytes())?,
            }
        }
    }
    Ok(Text::new(bytes))
}

/// An operation from its words, as `seek 1 0 set`.
fn read_op(alloc: Global, line: &str) -> Result<FileOp, Fail> {
    let mut words = line.split(' ');
    let operation = word(words.next())?;
    let first = word(words.next())?;
    if operation == "make" {
        return Ok(FileOp::Make(mode(first)));
    }
    let id = first.parse::<u64>()?;
    let description = DescriptionId::new(id);
    Ok(match operation {
        "attach" => FileOp::Attach {
            file: FileId::new(id),
            mode: mode(word(words.next())?),
            truncate: word(words.next())? == "1",
        },
        "sizeof" => FileOp::Sizeof(FileId::new(id)),
        "unlinked" => FileOp::Unlinked(FileId::new(id)),
        "release" => FileOp::Release(description),
        "read" => FileOp::Read {
            description,
            count: word(words.next())?.parse::<u32>()?,
        },
        "readat" => FileOp::Readat {
            description,
            count: word(words.next())?.parse::<u32>()?,
            offset: word(words.next())?.parse::<i64>()?,
        },
        "write" => FileOp::Write {
            description,
            bytes: bytes_of(alloc, word(words.next())?)?,
        },
        "writeat" => FileOp::Writeat {
            description,
            bytes: bytes_of(alloc, word(words.next())?)?,
            offset: word(words.next())?.parse::<i64>()?,
        },
        "seek" => FileOp::Seek {
            description,
            offset: word(words.next())?.parse::<i64>()?,
            whence: whence(word(words.next())?),
        },
        "cut" => FileOp::Cut {
            description,
            size: word(words.next())?.parse::<i64>()?,
        },
        _ => FileOp::Size(description),
    })
}

fn push_bytes(out: &mut String, bytes: &[u8]) -> Result<(), AllocError> {
    if bytes.is_empty() {
        out.push_str("%_")?;
    }
    for byte in bytes {
        if *byte == 0 {
            out.push_str("%00")?;
        } else {
            out.push(char::from(*byte))?;
        }
    }
    Ok(())
}

/// An answer in words, as `count 3`.
fn answer_text(alloc: Global, answer: &FileAnswer) -> Result<String, AllocError> {
    match answer {
        FileAnswer::File { file, description } => {
            format!(in alloc; "file {} {}", file.number(), description.number())
        }
        FileAnswer::Gone => format!(in alloc; "gone"),
        FileAnswer::Desc(description) => format!(in alloc; "desc {}", description.number()),
        FileAnswer::Size(size) => format!(in alloc; "size {size}"),
        FileAnswer::Done => format!(in alloc; "done"),
        FileAnswer::Bytes(bytes) => {
            let mut out = format!(in alloc; "bytes ")?;
            push_bytes(&mut out, bytes.as_bytes())?;
            Ok(out)
        }
        FileAnswer::Count(count) => format!(in alloc; "count {count}"),
        FileAnswer::At(offset) => format!(in alloc; "at {offset}"),
        FileAnswer::Fault(error) => format!(in alloc; "{}", error.word()),
    }
}

/// Takes a step and compares what it answers, twice.
pub(super) fn expect(
    rt: &impl Abort,
    alloc: Global,
    files: &mut Files,
    line: &str,
    expected: &str,
) -> Result<(), Fail> {
    let (answer, copy) = files.apply_with_copy(&read_op(alloc, line)?)?;
    let text = answer_text(alloc, &answer)?;
    assert_eq!(rt; text.as_str(), expected, "at {line}");
    let text = answer_text(alloc, &copy)?;
    assert_eq!(rt; text.as_str(), expected, "of the copy at {line}");
    Ok(())
}

/// Takes each step in turn, and compares what it answers. A line of the table is an operation, ` = ` and the answer, or a
/// remark behind `#`.
pub(super) fn expect_all(
    rt: &impl Abort,
    alloc: Global,
    files: &mut Files,
    table: &str,
) -> Result<(), Fail> {
    for line in table.lines() {
        if !line.is_empty() && !line.starts_with('#') {
            let (operation, expected) = line.split_once(" = ").ok_or("a line without an answer")?;
            expect(rt, alloc, files, operation, expected)?;
        }
    }
    Ok(())
}
