use super::{check_steps, mounts, tree_text};
use name_store::NameTree;
use std::test::Fail;

const LOOKS_AND_MAKES: &str = "
look 0 a = absent
look 9 a = gone
look 0 m = mount 1
look 0 p = mount 2
parent 0 = dir 0
parent 1 = gone
makedir 0 a = made 1
makedir 0 a = EEXIST
makedir 0 m = EEXIST
makedir 9 a = gone
makedir 1 b = made 2
parent 2 = dir 1
look 1 b = dir 2
addlink 0 l x/y = made 3
look 0 l = link 3 x/y
addlink 0 l z = EEXIST
addlink 0 a z = EEXIST
makedir 0 l = EEXIST
# A link's id is no directory's.
addlink 3 k z = gone
parent 3 = gone
look 3 l = gone
makedir 3 x = gone
addfile 0 g 4 = done
look 0 g = file 4
addfile 0 g 8 = taken file 4
addfile 0 a 8 = taken dir 1
addfile 0 l 8 = taken link 3 x/y
addfile 0 m 8 = taken mount 1
addfile 9 g 8 = gone
look 0 g = file 4
list 0 0 = names a g l m p
list 0 3 = names m p
list 0 5 = names
list 2 0 = names
list 3 0 = gone
list 9 0 = gone
";

#[test]
fn looks_and_makes(rt: HostRuntime) -> Result<(), Fail> {
    let alloc = rt.alloc();
    let mut tree = NameTree::new(alloc, mounts(alloc)?)?;
    check_steps(&rt, alloc, &mut tree, LOOKS_AND_MAKES)?;
    let text = tree_text(alloc, &tree)?;
    let expected =
        b"dir 0 /\ndir 1 a\ndir 2 b\nfile 1 g 4\nlink 1 l x/y\nmount 1 m 1\nmount 1 p 2\n";
    assert_eq!(rt; text.as_slice(), expected.as_slice());
    Ok(())
}

const REMOVES: &str = "
makedir 0 a = made 1
makedir 1 b = made 2
addfile 0 g 4 = done
addlink 0 l q = made 3
remfile 9 g 0 = gone
remfile 3 g 0 = gone
remfile 0 none 0 = ENOENT
remfile 0 none 1 = ENOENT
remfile 0 a 0 = EISDIR
remfile 0 a 1 = EISDIR
remfile 0 m 0 = EISDIR
remfile 0 m 1 = EISDIR
remfile 0 g 1 = ENOTDIR
remfile 0 l 1 = ENOTDIR
remdir 9 a = gone
remdir 0 none = ENOENT
remdir 0 m = EBUSY
remdir 0 g = ENOTDIR
remdir 0 l = ENOTDIR
remdir 0 a = ENOTEMPTY
list 0 0 = names a g l m p
remfile 0 g 0 = file 4
remfile 0 l 0 = link
look 0 g = absent
look 0 l = absent
remdir 1 b = done
look 1 b = absent
# What was removed is gone, and no id is used again.
parent 2 = gone
look 2 x = gone
makedir 2 x = gone
addlink 2 x y = gone
addfile 2 x 4 = gone
remdir 2 x = gone
list 2 0 = gone
remdir 0 a = done
makedir 0 a = made 4
addlink 4 l q = made 5
remdir 0 a = ENOTEMPTY
remfile 4 l 0 = link
remdir 0 a = done
list 0 0 = names m p
";

#[test]
fn removes(rt: HostRuntime) -> Result<(), Fail> {
    let alloc = rt.alloc();
    let mut tree = NameTree::new(alloc, mounts(alloc)?)?;
    check_steps(&rt, alloc, &mut tree, REMOVES)?;
    let text = tree_text(alloc, &tree)?;
    assert_eq!(rt;
        text.as_slice(),
        b"dir 0 /\nmount 1 m 1\nmount 1 p 2\n".as_slice()
    );
    Ok(())
}
