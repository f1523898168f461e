use super::expect;
use std::test::Fail;

const TWO_BACKENDS: &str = "backend m memory\nbackend p proxied\n";

const MOUNTS: &str = "
list / 0 = ok m p
stat /m = ok dir
lstat /m/ = ok dir
readlink /m = EINVAL
mkdir /m = EEXIST
symlink t /m = EEXIST
rmdir /m = EBUSY
rmdir /m/ = EBUSY
unlink /m = EISDIR
mkdir /m/a = ok
mkdir /p/a = ok
mkdir /a = ok
list /m 0 = ok a
# `..` leads from a backend's root to the root.
list /m/.. 0 = ok a m p
stat /m/a/../../p/../a = ok dir
rmdir /m/.. = ENOTEMPTY
rename /m/a /p/b = EXDEV
rename /m/a /b = EXDEV
rename /a /m/b = EXDEV
# Both paths' own errors come before EXDEV, and the move's behind it.
rename /m/none /p/b = EXDEV
rename /m/a /p/. = EINVAL
rename /m/a /p/none/x = ENOENT
rename /m /p/x = EXDEV
rename /m /x = EBUSY
rename /m /m = EBUSY
rename /a /m = EBUSY
rename /a /m/ = EBUSY
rename /m/a /m/b = ok
# A link's text starts where the link stands, an absolute one in the root.
symlink /m/b /p/l = ok
symlink ../a /p/up = ok
mkdir /p/l/c = ok
stat /m/b/c = ok dir
stat /p/up = ok dir
list /p/up/.. 0 = ok a m p
symlink p/l /m/q = ok
stat /m/q = ENOENT
";

#[test]
fn mounts(rt: HostRuntime) -> Result<(), Fail> {
    expect(&rt, rt.alloc(), TWO_BACKENDS, MOUNTS)
}
