use super::expect;
use std::test::Fail;

const MOVES: &str = "
mkdir /a = ok
mkdir /a/b = ok
mkdir /full = ok
mkdir /full/x = ok
symlink t /l = ok
symlink u /m = ok
rename /a /a/b/c = EINVAL
rename /a /a = ok
rename /a/ /a = ok
rename /a /a/b = EINVAL
rename /a/b /a = ENOTEMPTY
rename /none /x = ENOENT
rename /none/x /x = ENOENT
rename /a /none/x = ENOENT
rename %_ /x = ENOENT
rename /a %_ = ENOENT
rename /l /a = EISDIR
rename /a /l = ENOTDIR
rename /a /full = ENOTEMPTY
# A slash after either path asks for a directory there, before what the other is.
rename /l/ /x = ENOTDIR
rename /l /x/ = ENOTDIR
rename /l /a/ = ENOTDIR
rename /l/ /l = ENOTDIR
rename /l /l = ok
readlink /l = ok t
rename /l /m = ok
readlink /m = ok t
lstat /l = ENOENT
rename /a/ /z/ = ok
stat /z/b = ok dir
stat /a = ENOENT
# A moved directory has a new parent.
rename /z/b /full/b = ok
list /full/b/.. 0 = ok b x
rename /full/x /z = ok
list / 0 = ok full m z
stat /z/.. = ok dir
rename /full/b /z/../full/./c = ok
list /full 0 = ok c
rename /m /full/c/m = ok
readlink /full/c/m = ok t
rename /full/c /z/c = ok
";

#[test]
fn moves(rt: HostRuntime) -> Result<(), Fail> {
    expect(&rt, rt.alloc(), "", MOVES)
}
