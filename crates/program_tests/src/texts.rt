use file_store::{Access, FileOp, Files, Mode};
use name_store::{NameAnswer, NameOp, NameTree, TreeLine};
use path_walk::Reply;
use std::alloc::Global;
use std::test::*;
use trace_text::{Fault, Refusal, push_end_line, push_reply_line, push_tree_line, refusal_line};
use wf_core::{BackendId, DescriptionId, DirId, Errno, FileId, Name, PathText, Text};

fn path_text(alloc: Global, bytes: &[u8]) -> Result<PathText, Fail> {
    Ok(PathText::read(alloc, bytes).ok().ok_or("it has no byte 0")?)
}

/// Replies, but for names, and their texts.
fn replies(alloc: Global) -> Result<Vec<(Reply, &'static str)>, Fail> {
    let mut replies = Vec::new(alloc);
    replies.push((Reply::Done, "ok"))?;
    replies.push((Reply::Dir, "ok dir"))?;
    replies.push((Reply::File(0), "ok file 0"))?;
    replies.push((Reply::File(16_777_216), "ok file 16777216"))?;
    replies.push((Reply::Link(255), "ok link 255"))?;
    replies.push((Reply::Text(path_text(alloc, b"../a")?), "ok ../a"))?;
    replies.push((Reply::Text(path_text(alloc, b"")?), "ok %_"))?;
    replies.push((
        Reply::Text(path_text(alloc, b"A ~!%\x7f\xff\n")?),
        "ok A%20~!%25%7F%FF%0A",
    ))?;
    replies.push((Reply::Text(path_text(alloc, b"%_")?), "ok %25_"))?;
    replies.push((Reply::Fd(1_023), "ok 1023"))?;
    replies.push((Reply::Bytes(Text::read(alloc, b"")?), "ok %_"))?;
    let bytes = Text::read(alloc, b"\0a %\xff")?;
    replies.push((Reply::Bytes(bytes), "ok %00a%20%25%FF"))?;
    replies.push((Reply::Count(0), "ok 0"))?;
    replies.push((Reply::At(1_099_511_627_776), "ok 1099511627776"))?;
    replies.push((Reply::Fault(Errno::Eexist), "EEXIST"))?;
    replies.push((Reply::Fault(Errno::Enametoolong), "ENAMETOOLONG"))?;
    Ok(replies)
}

#[test]
fn replies_are_printed(rt: HostRuntime) -> Result<(), Fail> {
    let alloc = rt.alloc();
    for (reply, text) in &replies(alloc)? {
        let mut out = Vec::from_slice(alloc, b"before\n")?;
        push_reply_line(&mut out, b"main_2", 8_192, reply)?;
        let due = format!(in alloc; "before\nreply main_2 8192 {text}\n")?;
        assert_eq!(rt; out.as_slice(), due.as_bytes());
    }
    Ok(())
}

/// The names of a directory with these entries.
fn names_of(alloc: Global, names: &[&[u8]]) -> Result<Reply, Fail> {
    let mut tree = NameTree::new(alloc, Vec::new(alloc))?;
    for name in names {
        let name = Name::read(alloc, name).ok().ok_or("it is a name")?;
        tree.apply(&NameOp::Makedir(DirId::ROOT, name))?;
    }
    let list = NameOp::List {
        directory: DirId::ROOT,
        start: 0,
    };
    match tree.apply(&list)? {
        NameAnswer::Names(names) => Ok(Reply::Names(names)),
        _ => Err("it is a list")?,
    }
}

#[test]
fn names_are_printed(rt: HostRuntime) -> Result<(), Fail> {
    let alloc = rt.alloc();
    let lists: [(&[&[u8]], &str); 3] = [
        (&[], "reply A 1 ok\n"),
        (&[b"m", b"a"], "reply A 1 ok a m\n"),
        // in the order of the bytes, not of their escapes
        (&[b"%", b"\x01", b"~"], "reply A 1 ok %01 %25 ~\n"),
    ];
    for (names, due) in lists {
        let reply = names_of(alloc, names)?;
        let mut out = Vec::new(alloc);
        push_reply_line(&mut out, b"A", 1, &reply)?;
        assert_eq!(rt; out.as_slice(), due.as_bytes());
    }
    Ok(())
}

/// The lines of a tree, each with the depth of the mount that it stands in.
fn tree_lines(alloc: Global) -> Result<Vec<(u32, TreeLine)>, Fail> {
    let mut lines = Vec::new(alloc);
    let name = Text::read(alloc, b"/")?;
    lines.push((0, TreeLine::Dir { depth: 0, name }))?;
    let line = TreeLine::Mount {
        depth: 1,
        name: Text::read(alloc, b"m")?,
        backend: BackendId::new(1),
    };
    lines.push((0, line))?;
    let name = Text::read(alloc, b"a b")?;
    lines.push((1, TreeLine::Dir { depth: 1, name }))?;
    let line = TreeLine::Link {
        depth: 2,
        name: Text::read(alloc, b"l")?,
        text: Text::read(alloc, b"\xc3\xa4")?,
    };
    lines.push((1, line))?;
    let line = TreeLine::File {
        depth: 4_294_967_295,
        name: Text::read(alloc, b"f")?,
        file: FileId::new(4),
    };
    lines.push((4_294_967_295, line))?;
    let name = Text::read(alloc, b"g")?;
    let file = FileId::new(0);
    lines.push((
        1,
        TreeLine::File {
            depth: 1,
            name,
            file,
        },
    ))?;
    Ok(lines)
}

/// A group with file 0 alone, which has these bytes behind 4,096 zeros.
fn group_of(alloc: Global, bytes: &[u8]) -> Result<Files, Fail> {
    let mut files = Files::new(alloc, 0);
    let mode = Mode {
        access: Access::ReadWrite,
        append: false,
    };
    files.apply(&FileOp::Make(mode))?;
    files.apply(&FileOp::Writeat {
        description: DescriptionId::new(0),
        bytes: Text::read(alloc, bytes)?,
        offset: 4_096,
    })?;
    Ok(files)
}

#[test]
fn tree_lines_are_printed(rt: HostRuntime) -> Result<(), Fail> {
    let alloc = rt.alloc();
    let groups = [group_of(alloc, b"a b\0")?];
    let mut out = Vec::new(alloc);
    for (deeper, line) in &tree_lines(alloc)? {
        push_tree_line(&mut out, &groups, *deeper, line)?;
    }
    push_end_line(&mut out)?;
    let due =
        "dir 0 /\ndir 1 m\ndir 2 a%20b\nlink 3 l %C3%A4\nfile 8589934590 f 0\nfile 2 g 4100\npage 1 a%20b\nend\n";
    assert_eq!(rt; out.as_slice(), due.as_bytes());
    Ok(())
}

const REFUSALS: [(u64, Fault, &str); 10] = [
    (1, Fault::Header, "line 1: Header\n"),
    (2, Fault::UnknownWord, "line 2: UnknownWord\n"),
    (10, Fault::BadArgument, "line 10: BadArgument\n"),
    (3, Fault::UnknownName, "line 3: UnknownName\n"),
    (4, Fault::DuplicateName, "line 4: DuplicateName\n"),
    (5, Fault::LineTooLong, "line 5: LineTooLong\n"),
    (8_195, Fault::TooManyCalls, "line 8195: TooManyCalls\n"),
    (18, Fault::TooManyThreads, "line 18: TooManyThreads\n"),
    (9, Fault::TooManyBackends, "line 9: TooManyBackends\n"),
    (
        16_777_216,
        Fault::MissingNewline,
        "line 16777216: MissingNewline\n",
    ),
];

#[test]
fn refusals_are_printed(rt: HostRuntime) -> Result<(), Fail> {
    for (line, fault, due) in REFUSALS {
        let text = refusal_line(rt.alloc(), Refusal { line, fault })?;
        assert_eq!(rt; text.as_slice(), due.as_bytes());
    }
    Ok(())
}
