use name_store::{NameAnswer, NameOp, NameTree, TreeLine};
use std::alloc::Global;
use std::process::Abort;
use std::test::Fail;
use wf_core::{DirId, Errno, Name};

const DEPTH: u64 = 100_000;

/// The root with so many directories in one another, each of the name `d`.
fn chain(rt: &impl Abort, alloc: Global) -> Result<NameTree, Fail> {
    let mut tree = NameTree::new(alloc, Vec::new(alloc))?;
    for id in 0..DEPTH {
        let op = NameOp::Makedir(DirId::new(id), Name::read(alloc, b"d")?);
        let made = DirId::new(id + 1);
        assert_eq!(rt; tree.apply(&op)?, NameAnswer::MadeDir(made));
    }
    Ok(tree)
}

#[test]
fn nests_100000_directories(rt: HostRuntime) -> Result<(), Fail> {
    let alloc = rt.alloc();
    let mut tree = chain(&rt, alloc)?;
    let lines = tree.lines(alloc)?;
    assert_eq!(rt; lines.len() as u64, DEPTH + 1);
    for (index, line) in lines.as_slice().iter().enumerate() {
        let TreeLine::Dir { depth, name } = line else {
            return Err("a line is no directory's")?;
        };
        assert_eq!(rt; u64::from(*depth), index as u64);
        let expected = if index == 0 { b"/" } else { b"d" };
        assert_eq!(rt; name.as_bytes(), expected.as_slice());
    }
    let into_itself = NameOp::Move {
        from: DirId::ROOT,
        name: Name::read(alloc, b"d")?,
        to: DirId::new(DEPTH),
        new_name: Name::read(alloc, b"e")?,
        slash: false,
    };
    assert_eq!(rt; tree.apply(&into_itself)?, NameAnswer::Fault(Errno::Einval));
    for id in (0..DEPTH).rev() {
        let op = NameOp::Remdir(DirId::new(id), Name::read(alloc, b"d")?);
        assert_eq!(rt; tree.apply(&op)?, NameAnswer::Done);
    }
    assert_eq!(rt; tree.lines(alloc)?.len(), 1);
    Ok(())
}
