use super::{check_steps, mounts, tree_text};
use name_store::NameTree;
use std::test::Fail;

const START: &str = "
makedir 0 a = made 1
makedir 1 b = made 2
makedir 2 c = made 3
makedir 0 e = made 4
makedir 0 f = made 5
addfile 5 x 8 = done
addfile 0 g 4 = done
addfile 0 h 12 = done
addlink 0 l a = made 6
";

/// A case for each line of the order, and where two hold, that of the first.
const REFUSED: &str = "
move 9 a 0 z 0 = gone
move 0 a 9 z 0 = gone
move 0 a 6 z 0 = gone
move 9 none 9 none 1 = gone
move 0 none 9 z 0 = gone
move 0 none 0 z 0 = ENOENT
move 0 none 0 m 1 = ENOENT
move 0 m 0 z 0 = EBUSY
move 0 m 0 m 0 = EBUSY
move 0 m 0 m 1 = EBUSY
move 0 m 0 p 0 = EBUSY
move 0 g 0 z 1 = ENOTDIR
move 0 l 0 z 1 = ENOTDIR
move 0 g 0 m 1 = ENOTDIR
move 0 g 0 g 1 = ENOTDIR
move 0 g 0 e 1 = ENOTDIR
move 0 a 1 z 0 = EINVAL
move 0 a 2 z 0 = EINVAL
move 0 a 3 z 0 = EINVAL
move 0 a 1 b 1 = EINVAL
move 0 g 0 m 0 = EBUSY
move 0 a 0 m 1 = EBUSY
move 0 a 0 a 0 = same
move 0 a 0 a 1 = same
move 5 x 5 x 0 = same
move 0 l 0 l 0 = same
move 0 a 0 g 0 = ENOTDIR
move 0 a 0 g 1 = ENOTDIR
move 0 a 0 l 0 = ENOTDIR
move 0 g 0 e 0 = EISDIR
move 0 g 0 f 0 = EISDIR
move 0 l 0 e 0 = EISDIR
move 0 a 0 f 0 = ENOTEMPTY
move 0 e 0 f 1 = ENOTEMPTY
move 1 b 0 a 0 = ENOTEMPTY
";

const MOVED: &str = "
move 0 g 0 z 0 = moved
look 0 g = absent
look 0 z = file 4
move 0 z 0 h 0 = over 12
move 0 l 0 h 0 = over 4
look 0 h = link 6 a
addlink 0 k q = made 7
move 0 k 0 h 0 = moved
look 0 h = link 7 q
move 5 x 0 h 0 = moved
look 0 h = file 8
# Over an empty directory, which is no more.
move 0 a 0 e 0 = moved
look 0 a = absent
look 0 e = dir 1
parent 1 = dir 0
parent 4 = gone
parent 2 = dir 1
# A moved directory has its new place above it.
move 0 e 5 y 0 = moved
parent 1 = dir 5
move 5 y 5 w 1 = moved
move 1 b 0 b 0 = moved
parent 2 = dir 0
move 0 f 3 f 0 = moved
move 0 b 1 b 0 = EINVAL
";

#[test]
fn moves_in_order(rt: HostRuntime) -> Result<(), Fail> {
    let alloc = rt.alloc();
    let mut tree = NameTree::new(alloc, mounts(alloc)?)?;
    check_steps(&rt, alloc, &mut tree, START)?;
    let before = tree_text(alloc, &tree)?;
    check_steps(&rt, alloc, &mut tree, REFUSED)?;
    let after = tree_text(alloc, &tree)?;
    assert_eq!(rt; before.as_slice(), after.as_slice());
    check_steps(&rt, alloc, &mut tree, MOVED)?;
    let text = tree_text(alloc, &tree)?;
    let expected =
        b"dir 0 /\ndir 1 b\ndir 2 c\ndir 3 f\ndir 4 w\nfile 1 h 8\nmount 1 m 1\nmount 1 p 2\n";
    assert_eq!(rt; text.as_slice(), expected.as_slice());
    Ok(())
}
