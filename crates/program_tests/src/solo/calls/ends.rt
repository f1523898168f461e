use super::expect;
use std::test::Fail;

/// A last `.`, a last `..` and a path without a component, after the prefix was walked.
const ENDS: &str = "
mkdir /d = ok
symlink x /l = ok
mkdir / = EEXIST
mkdir // = EEXIST
mkdir /. = EEXIST
mkdir /.. = EEXIST
mkdir /d/./ = EEXIST
mkdir /d/.. = EEXIST
mkdir /none/. = ENOENT
symlink t / = EEXIST
symlink t /. = EEXIST
symlink t /d/.. = EEXIST
symlink t /d/./ = EEXIST
symlink t /none/.. = ENOENT
rmdir / = EBUSY
rmdir /. = EINVAL
rmdir /.. = ENOTEMPTY
rmdir /d/. = EINVAL
rmdir /d/.. = ENOTEMPTY
rmdir /d/../ = ENOTEMPTY
rmdir /none/. = ENOENT
rmdir /l/. = ENOENT
unlink / = EISDIR
unlink /. = EISDIR
unlink /.. = EISDIR
unlink /d/. = EISDIR
unlink /d/.. = EISDIR
unlink /none/.. = ENOENT
# `rename` walks both prefixes, and then looks at the first end and at the second.
rename / /x = EBUSY
rename /. /x = EINVAL
rename /.. /x = EINVAL
rename /d / = EBUSY
rename /d /. = EINVAL
rename /d /d/.. = EINVAL
rename / /. = EBUSY
rename /. / = EINVAL
rename /. /none/x = ENOENT
rename /none/. / = ENOENT
rename /none /. = EINVAL
rename /none / = EBUSY
stat /. = ok dir
lstat /d/. = ok dir
readlink / = EINVAL
list /d/.. 0 = ok d l
";

#[test]
fn ends_of_paths(rt: HostRuntime) -> Result<(), Fail> {
    expect(&rt, rt.alloc(), "", ENDS)
}
