use super::check_steps;
use name_store::{NameAnswer, NameOp, NameTree, Node, TreeLine};
use std::alloc::{AllocError, Global};
use std::test::Fail;
use wf_core::{BackendId, DirId, Name};

fn name_of(alloc: Global, first: u8, length: usize) -> Result<Name, Fail> {
    let mut bytes = vec![in alloc; b'n'; length]?;
    if let Some(byte) = bytes.as_mut_slice().first_mut() {
        *byte = first;
    }
    Ok(Name::read(alloc, bytes.as_slice())?)
}

/// A line with a text in the place of each mark.
fn filled(alloc: Global, line: &str, mark: char, text: &str) -> Result<String, AllocError> {
    let mut out = String::new(alloc);
    for (index, piece) in line.split(mark).enumerate() {
        if index > 0 {
            out.push_str(text)?;
        }
        out.push_str(piece)?;
    }
    Ok(out)
}

fn repeated(alloc: Global, piece: &str, count: u32) -> Result<String, AllocError> {
    let mut out = String::new(alloc);
    for _ in 0..count {
        out.push_str(piece)?;
    }
    Ok(out)
}

/// Each operation that takes a name or a text. `@` stands for all bytes of a name but its first, `#` for a text.
const LONG: &str = "
makedir 0 a@ = made 1
makedir 0 a@ = EEXIST
look 0 a@ = dir 1
addlink 0 b@ # = made 2
addlink 0 b@ # = EEXIST
look 0 b@ = link 2 #
addfile 0 c@ 4 = done
addfile 0 c@ 8 = taken file 4
addfile 0 b@ 8 = taken link 2 #
move 0 c@ 1 d@ 0 = moved
look 0 c@ = absent
look 1 d@ = file 4
move 0 b@ 1 d@ 0 = over 4
look 1 d@ = link 2 #
list 1 0 = names d@
move 1 d@ 0 e@ 0 = moved
move 0 a@ 0 f@ 0 = moved
remfile 0 e@ 1 = ENOTDIR
remfile 0 e@ 0 = link
addfile 0 g@ 8 = done
remfile 0 g@ 0 = file 8
remdir 0 f@ = done
list 0 0 = names
";

#[test]
fn names_and_texts_of_each_length(rt: HostRuntime) -> Result<(), Fail> {
    let alloc = rt.alloc();
    for (name, text) in [(1, 1), (9, 9), (10, 10), (100, 255), (255, 4095)] {
        let rest = repeated(alloc, "n", name - 1)?;
        let text = repeated(alloc, "t", text)?;
        let mut tree = NameTree::new(alloc, Vec::new(alloc))?;
        let table = filled(alloc, LONG, '@', rest.as_str())?;
        let table = filled(alloc, table.as_str(), '#', text.as_str())?;
        check_steps(&rt, alloc, &mut tree, table.as_str())?;
    }
    Ok(())
}

#[test]
fn lists_32_names_of_255_bytes(rt: HostRuntime) -> Result<(), Fail> {
    let alloc = rt.alloc();
    let mut tree = NameTree::new(alloc, Vec::new(alloc))?;
    for first in b'A'..b'b' {
        let _ = tree.apply(&NameOp::Makedir(DirId::ROOT, name_of(alloc, first, 255)?))?;
    }
    let cases = [
        (0, 32, b'A'),
        (1, 32, b'B'),
        (2, 31, b'C'),
        (32, 1, b'a'),
        (33, 0, b'b'),
    ];
    for (start, count, from) in cases {
        let op = NameOp::List {
            directory: DirId::ROOT,
            start,
        };
        let NameAnswer::Names(names) = tree.apply(&op)? else {
            return Err("the answer is no list")?;
        };
        assert_eq!(rt; names.as_slice().len(), count, "from {start}");
        for (name, first) in names.as_slice().iter().zip(from..b'b') {
            let expected = name_of(alloc, first, 255)?;
            assert_eq!(rt; name.as_bytes(), expected.as_bytes());
        }
    }
    Ok(())
}

#[test]
fn mounts_under_a_name_of_255_bytes(rt: HostRuntime) -> Result<(), Fail> {
    let alloc = rt.alloc();
    let backend = BackendId::new(4_294_967_295);
    let mut mounts = Vec::new(alloc);
    mounts.push((name_of(alloc, b'm', 255)?, backend))?;
    let mut tree = NameTree::new(alloc, mounts)?;
    let look = NameOp::Look(DirId::ROOT, name_of(alloc, b'm', 255)?);
    assert_eq!(rt; tree.apply(&look)?, NameAnswer::Found(Node::Mount(backend)));
    let lines = tree.lines(alloc)?;
    let Some(TreeLine::Mount { depth, name, .. }) = lines.as_slice().get(1) else {
        return Err("the line is no mount's")?;
    };
    assert_eq!(rt; *depth, 1);
    assert_eq!(rt; name.as_bytes().len(), 255);
    Ok(())
}
