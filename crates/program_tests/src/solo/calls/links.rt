use super::expect;
use std::test::Fail;

const LINKS: &str = "
# The text's own checks come before the path's.
symlink %_ /x = ENOENT
symlink %_ %_ = ENOENT
symlink t %_ = ENOENT
symlink t /s/ = ENOENT
mkdir /d = ok
symlink t /d = EEXIST
symlink t /d/ = ENOENT
symlink d /l = ok
symlink t /l = EEXIST
readlink /l = ok d
lstat /l = ok link 1
stat /l = ok dir
# A slash has a last link followed.
lstat /l/ = ok dir
readlink /l/ = EINVAL
readlink /d = EINVAL
readlink /none = ENOENT
mkdir /l/new = ok
stat /d/new = ok dir
symlink /d/../d/ /n = ok
stat /n = ok dir
readlink /n = ok /d/../d/
symlink l/ /o = ok
stat /o = ok dir
lstat /o = ok link 2
lstat /o/ = ok dir
# A relative text starts where its link stands, and `..` goes up from there.
symlink .. /d/up = ok
stat /d/up/d = ok dir
readlink /l/up = ok ..
stat /l/up/l/up/l = ok dir
symlink up/l/new /d/deep = ok
stat /d/deep = ok dir
stat /l/deep/../up = ok dir
# A text without a component does not ask for a directory; one that has one and a slash does.
symlink / /root = ok
stat /root = ok dir
symlink none /m = ok
symlink m/ /p = ok
stat /p = ENOENT
lstat /p = ok link 2
symlink a%20b%25 /q = ok
readlink /q = ok a%20b%25
symlink loop /loop = ok
stat /loop = ELOOP
lstat /loop = ok link 4
";

#[test]
fn links(rt: HostRuntime) -> Result<(), Fail> {
    expect(&rt, rt.alloc(), "", LINKS)
}
