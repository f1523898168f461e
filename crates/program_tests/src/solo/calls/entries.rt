use super::expect;
use std::test::Fail;

const MAKES: &str = "
mkdir /a = ok
mkdir /a = EEXIST
mkdir /a/ = EEXIST
mkdir b/ = ok
mkdir /b//c = ok
mkdir /none/x = ENOENT
mkdir %_ = ENOENT
symlink none /l = ok
mkdir /l = EEXIST
mkdir /l/ = EEXIST
mkdir /l/x = ENOENT
stat /b/c/ = ok dir
stat b/./c/../c = ok dir
stat %_ = ENOENT
stat /l = ENOENT
lstat /l = ok link 4
lstat /l/ = ENOENT
list / 0 = ok a b l
";

const REMOVES: &str = "
mkdir /d = ok
mkdir /d/e = ok
symlink d /l = ok
rmdir /d = ENOTEMPTY
rmdir /d/ = ENOTEMPTY
rmdir /none = ENOENT
rmdir /none/x = ENOENT
rmdir /l = ENOTDIR
rmdir /l/ = ENOTDIR
unlink /d = EISDIR
unlink /d/ = EISDIR
unlink /none = ENOENT
unlink /none/ = ENOENT
# A slash asks for a directory, and a last link is not followed.
unlink /l/ = ENOTDIR
lstat /l = ok link 1
rmdir /l/e = ok
stat /d/e = ENOENT
unlink /l = ok
lstat /l = ENOENT
unlink /l = ENOENT
rmdir /d/ = ok
rmdir /d = ENOENT
mkdir /d = ok
list /d 0 = ok
";

/// Names are listed in the order of their bytes, not of their escapes.
const LISTS: &str = "
mkdir /%7f = ok
mkdir /A = ok
mkdir /%41%ff = ok
mkdir /%20 = ok
mkdir /%25 = ok
mkdir /a:b = ok
list / 0 = ok %20 %25 A A%FF a:b %7F
list / 4 = ok a:b %7F
list / 6 = ok
list / 4294967295 = ok
list /none 0 = ENOENT
symlink A /l = ok
list /l 0 = ok
list /a:b/../l/../A/.. 5 = ok l %7F
";

/// Files among the entries of directories.
const FILES: &str = "
open /f w,creat = ok 0
write 0 abc = ok 3
stat /f = ok file 3
lstat /f = ok file 3
stat /f/ = ENOTDIR
lstat /f/ = ENOTDIR
stat /f/. = ENOTDIR
stat /f/x = ENOTDIR
readlink /f = EINVAL
readlink /f/ = ENOTDIR
list /f 0 = ENOTDIR
list /f/ 0 = ENOTDIR
mkdir /f = EEXIST
mkdir /f/ = EEXIST
mkdir /f/x = ENOTDIR
symlink t /f = EEXIST
symlink t /f/ = ENOENT
rmdir /f = ENOTDIR
rmdir /f/ = ENOTDIR
unlink /f/ = ENOTDIR
unlink /f/. = ENOTDIR
symlink f /l = ok
stat /l = ok file 3
lstat /l = ok link 1
stat /l/ = ENOTDIR
lstat /l/ = ENOTDIR
unlink /l/ = ENOTDIR
mkdir /d = ok
# A move within a directory, into another, over a link and over a file.
rename /f /g = ok
stat /l = ENOENT
rename /g /d/f = ok
rename /d/f /d/f = ok
rename /d/f/ /d/x = ENOTDIR
rename /d/f /d/x/ = ENOTDIR
rename /d/f /d = EISDIR
rename /d /d/f = EINVAL
mkdir /e = ok
rename /e /d/f = ENOTDIR
rename /e/ /d/f = ENOTDIR
rename /d/f /e/ = ENOTDIR
rename /d/f /l = ok
lstat /l = ok file 3
open /g rw,creat = ok 1
rename /l /g = ok
stat /g = ok file 3
fstat 1 = ok file 0
stat /l = ENOENT
list / 0 = ok d e g
unlink /g = ok
unlink /g = ENOENT
fstat 0 = ok file 3
list / 0 = ok d e
";

#[test]
fn makes(rt: HostRuntime) -> Result<(), Fail> {
    expect(&rt, rt.alloc(), "", MAKES)
}

#[test]
fn removes(rt: HostRuntime) -> Result<(), Fail> {
    expect(&rt, rt.alloc(), "", REMOVES)
}

#[test]
fn lists(rt: HostRuntime) -> Result<(), Fail> {
    expect(&rt, rt.alloc(), "", LISTS)
}

#[test]
fn files(rt: HostRuntime) -> Result<(), Fail> {
    expect(&rt, rt.alloc(), "", FILES)
}
