use name_store::{NameAnswer, NameOp, NameTree, Node, TreeLine};
use std::alloc::{AllocError, Global};
use std::process::Abort;
use std::test::Fail;
use wf_core::{BackendId, DirId, FileId, Name, PathText, Text};

mod depth;
mod limits;
mod lists;
mod moves;
mod rows;

fn number(word: Option<&str>) -> Result<u64, Fail> {
    Ok(word.ok_or("a number is missing")?.parse::<u64>()?)
}

fn directory(word: Option<&str>) -> Result<DirId, Fail> {
    Ok(DirId::new(number(word)?))
}

fn slash(word: Option<&str>) -> Result<bool, Fail> {
    Ok(number(word)? == 1)
}

fn name(alloc: Global, word: Option<&str>) -> Result<Name, Fail> {
    Ok(Name::read(alloc, word.ok_or("a name is missing")?.as_bytes())?)
}

/// An operation from its words, as `move 0 a 1 b 0`.
fn read_op(alloc: Global, line: &str) -> Result<NameOp, Fail> {
    let mut words = line.split(' ');
    let word = words.next().ok_or("an operation is missing")?;
    let id = directory(words.next())?;
    if word == "parent" {
        return Ok(NameOp::Parent(id));
    }
    if word == "list" {
        return Ok(NameOp::List {
            directory: id,
            start: u32::try_from(number(words.next())?)?,
        });
    }
    let first = name(alloc, words.next())?;
    match word {
        "look" => Ok(NameOp::Look(id, first)),
        "makedir" => Ok(NameOp::Makedir(id, first)),
        "remdir" => Ok(NameOp::Remdir(id, first)),
        "addfile" => Ok(NameOp::Addfile {
            directory: id,
            name: first,
            file: FileId::new(number(words.next())?),
        }),
        "remfile" => Ok(NameOp::Remfile {
            directory: id,
            name: first,
            slash: slash(words.next())?,
        }),
        "addlink" => {
            let text = words.next().ok_or("a text is missing")?;
            Ok(NameOp::Addlink {
                directory: id,
                name: first,
                text: PathText::read(alloc, text.as_bytes())?,
            })
        }
        _ => Ok(NameOp::Move {
            from: id,
            name: first,
            to: directory(words.next())?,
            new_name: name(alloc, words.next())?,
            slash: slash(words.next())?,
        }),
    }
}

fn push_number(out: &mut Vec<u8>, word: &str, number: u64) -> Result<(), AllocError> {
    let text = format!(in *out.allocator(); "{word} {number}")?;
    out.extend_from_slice(text.as_bytes())
}

fn push_node(out: &mut Vec<u8>, node: &Node) -> Result<(), AllocError> {
    match node {
        Node::Dir(id) => push_number(out, "dir", id.number()),
        Node::File(file) => push_number(out, "file", file.number()),
        Node::Mount(backend) => push_number(out, "mount", u64::from(backend.number())),
        Node::Link(id, text) => {
            push_number(out, "link", id.number())?;
            out.push(b' ')?;
            out.extend_from_slice(text.as_bytes())
        }
    }
}

/// An answer in words, as `made 1`.
fn answer_text(alloc: Global, answer: &NameAnswer) -> Result<Vec<u8>, AllocError> {
    let mut out = Vec::new(alloc);
    match answer {
        NameAnswer::Gone => out.extend_from_slice(b"gone")?,
        NameAnswer::Absent => out.extend_from_slice(b"absent")?,
        NameAnswer::Found(node) => push_node(&mut out, node)?,
        NameAnswer::MadeDir(id) => push_number(&mut out, "made", id.number())?,
        NameAnswer::MadeLink(id) => push_number(&mut out, "made", id.number())?,
        NameAnswer::Taken(node) => {
            out.extend_from_slice(b"taken ")?;
            push_node(&mut out, node)?;
        }
        NameAnswer::Done => out.extend_from_slice(b"done")?,
        NameAnswer::RemovedFile(file) => push_number(&mut out, "file", file.number())?,
        NameAnswer::RemovedLink => out.extend_from_slice(b"link")?,
        NameAnswer::Same => out.extend_from_slice(b"same")?,
        NameAnswer::Over(file) => push_number(&mut out, "over", file.number())?,
        NameAnswer::Moved => out.extend_from_slice(b"moved")?,
        NameAnswer::Names(names) => {
            out.extend_from_slice(b"names")?;
            for name in names.as_slice() {
                out.push(b' ')?;
                out.extend_from_slice(name.as_bytes())?;
            }
        }
        NameAnswer::Fault(errno) => out.extend_from_slice(errno.word().as_bytes())?,
    }
    Ok(out)
}

fn push_line(out: &mut Vec<u8>, word: &str, depth: u32, name: &Text) -> Result<(), AllocError> {
    push_number(out, word, u64::from(depth))?;
    out.push(b' ')?;
    out.extend_from_slice(name.as_bytes())
}

/// The lines of a tree, each as its kind, depth, name and rest.
fn tree_text(alloc: Global, tree: &NameTree) -> Result<Vec<u8>, AllocError> {
    let mut out = Vec::new(alloc);
    let lines = tree.lines(alloc)?;
    for line in lines.as_slice() {
        match line {
            TreeLine::Dir { depth, name } => push_line(&mut out, "dir", *depth, name)?,
            TreeLine::Link { depth, name, text } => {
                push_line(&mut out, "link", *depth, name)?;
                out.push(b' ')?;
                out.extend_from_slice(text.as_bytes())?;
            }
            TreeLine::File { depth, name, file } => {
                push_line(&mut out, "file", *depth, name)?;
                push_number(&mut out, "", file.number())?;
            }
            TreeLine::Mount {
                depth,
                name,
                backend,
            } => {
                push_line(&mut out, "mount", *depth, name)?;
                push_number(&mut out, "", u64::from(backend.number()))?;
            }
        }
        out.push(b'\n')?;
    }
    Ok(out)
}

/// Takes each step in turn, and compares its answer, which is given twice. A line of the table is an operation, ` = ` and the answer, or a
/// remark behind `#`.
fn check_steps(
    rt: &impl Abort,
    alloc: Global,
    tree: &mut NameTree,
    table: &str,
) -> Result<(), Fail> {
    for line in table.lines() {
        if !line.is_empty() && !line.starts_with('#') {
            let (operation, expected) = line.split_once(" = ").ok_or("a line without an answer")?;
            let (answer, copy) = tree.apply_with_copy(&read_op(alloc, operation)?)?;
            assert_eq!(rt; copy, answer, "at {operation}");
            let text = answer_text(alloc, &answer)?;
            assert_eq!(rt; text.as_slice(), expected.as_bytes(), "at {operation}");
        }
    }
    Ok(())
}

fn mounts(alloc: Global) -> Result<Vec<(Name, BackendId)>, Fail> {
    let mut mounts = Vec::new(alloc);
    mounts.push((Name::read(alloc, b"p")?, BackendId::new(2)))?;
    mounts.push((Name::read(alloc, b"m")?, BackendId::new(1)))?;
    Ok(mounts)
}
