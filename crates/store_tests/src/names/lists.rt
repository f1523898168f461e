use name_store::{NameAnswer, NameOp, NameTree};
use std::alloc::Global;
use std::process::Abort;
use std::test::Fail;
use wf_core::{DirId, Name};

/// A tree whose root has so many directories, `n100` and on.
fn tree_of(alloc: Global, count: u32) -> Result<NameTree, Fail> {
    let mut tree = NameTree::new(alloc, Vec::new(alloc))?;
    for index in 0..count {
        let number = 100 + u64::from(index);
        let name = Name::read(alloc, format!(in alloc; "n{number}")?.as_bytes())?;
        let _ = tree.apply(&NameOp::Makedir(DirId::ROOT, name))?;
    }
    Ok(tree)
}

fn check_list(
    rt: &impl Abort,
    alloc: Global,
    tree: &mut NameTree,
    start: u32,
    count: usize,
    first: &str,
) -> Result<(), Fail> {
    let op = NameOp::List {
        directory: DirId::ROOT,
        start,
    };
    let NameAnswer::Names(names) = tree.apply(&op)? else {
        return Err("the answer is no list")?;
    };
    assert_eq!(rt; names.as_slice().len(), count, "from {start}");
    for (index, name) in names.as_slice().iter().enumerate() {
        let number = 100 + u64::from(start) + index as u64;
        let expected = format!(in alloc; "n{number}")?;
        assert_eq!(rt; name.as_bytes(), expected.as_bytes());
    }
    if let Some(name) = names.as_slice().first() {
        assert_eq!(rt; name.as_bytes(), first.as_bytes());
    }
    Ok(())
}

#[test]
fn lists_from_each_position(rt: HostRuntime) -> Result<(), Fail> {
    let alloc = rt.alloc();
    let cases = [
        (0, 0, 0, ""),
        (0, 1, 0, ""),
        (31, 0, 31, "n100"),
        (31, 30, 1, "n130"),
        (31, 31, 0, ""),
        (32, 0, 32, "n100"),
        (32, 1, 31, "n101"),
        (32, 32, 0, ""),
        (33, 0, 32, "n100"),
        (33, 1, 32, "n101"),
        (33, 32, 1, "n132"),
        (33, 33, 0, ""),
        (100, 0, 32, "n100"),
        (100, 32, 32, "n132"),
        (100, 68, 32, "n168"),
        (100, 69, 31, "n169"),
        (100, 99, 1, "n199"),
        (100, 100, 0, ""),
        (100, 4_294_967_295, 0, ""),
    ];
    for (total, start, count, first) in cases {
        let mut tree = tree_of(alloc, total)?;
        check_list(&rt, alloc, &mut tree, start, count, first)?;
    }
    Ok(())
}
