//! Calls of version 2: with a current directory, and with paths from a base.

use super::{expect_in, expect_of};
use crate::repeated;
use std::alloc::{AllocError, Global};
use std::test::Fail;

/// Paths of the calls that name no base start in the current directory, which is the root at first.
const CURRENT: &str = "
mkdir d = ok
chdir d = ok
mkdir a = ok
symlink a l = ok
readlink l = ok a
stat l = ok dir
lstat l = ok link 1
list . 0 = ok a l
open f rw,creat = ok 0
rename f ./g = ok
unlink ../d/g = ok
unlink l = ok
stat /d/a = ok dir
stat d = ENOENT
stat /a = ENOENT
rmdir a = ok
list /d 0 = ok
chdir ./../d// = ok
list .. 0 = ok d
stat ../../.. = ok dir
# A text of a link starts where the link stands, or in the root.
mkdir /d/x = ok
symlink ../d/x /d/up = ok
symlink /d /to = ok
stat up = ok dir
chdir /to/up/.. = ok
mkdir y = ok
list /d 0 = ok up x y
# A call that fails leaves it.
open /f w,creat = ok 1
chdir /f = ENOTDIR
chdir ../f/ = ENOTDIR
chdir /none = ENOENT
chdir %_ = ENOENT
list . 0 = ok up x y
# It stays where its name is another, and its way up is that of the new place.
mkdir /e = ok
rename /d /e/d = ok
list . 0 = ok up x y
list .. 0 = ok d
chdir .. = ok
chdir .. = ok
list . 0 = ok e f to
chdir .. = ok
list . 0 = ok e f to
";

#[test]
fn current_directories(rt: HostRuntime) -> Result<(), Fail> {
    expect_of(&rt, rt.alloc(), CURRENT)
}

/// The current directory is removed, and then one of its name is made.
const REMOVED: &str = "
mkdir /a = ok
chdir /a = ok
rmdir /a = ok
mkdir b = ENOENT
stat . = ok dir
chdir . = ok
open . r = ok 0
mkdir . = EEXIST
list . 0 = ENOENT
stat .. = ENOENT
stat ./. = ok dir
lstat . = ok dir
readlink . = EINVAL
symlink t . = EEXIST
symlink t l = ENOENT
rmdir . = EINVAL
rmdir .. = ENOTEMPTY
rmdir b = ENOENT
unlink . = EISDIR
unlink b = ENOENT
rename . x = EINVAL
rename b c = ENOENT
open b rw,creat = ENOENT
open b r = ENOENT
stat b = ENOENT
stat / = ok dir
fstat 0 = ok dir
fchdir 0 = ok
fstatat 0 . = ok dir
fstatat 0 .. = ENOENT
mkdirat 0 b = ENOENT
openat 0 . r = ok 1
mkdir /a = ok
mkdir b = ENOENT
stat /a/b = ENOENT
chdir /a/ = ok
mkdir b = ok
fstatat 0 b = ENOENT
fstatat cwd b = ok dir
chdir / = ok
list . 0 = ok a
";

#[test]
fn removed_current_directories(rt: HostRuntime) -> Result<(), Fail> {
    expect_of(&rt, rt.alloc(), REMOVED)
}

/// Each call with a directory, a file, a removed directory, numbers of nothing, and the current directory as base.
const BASES: &str = "
mkdir /d = ok
mkdir /gone = ok
open /d r = ok 0
open /f rw,creat = ok 1
open /gone r = ok 2
rmdir /gone = ok
mkdir /c = ok
chdir /c = ok
mkdirat 0 a = ok
mkdirat 1 a = ENOTDIR
mkdirat 2 a = ENOENT
mkdirat 9 a = EBADF
mkdirat 1024 a = EBADF
mkdirat 4294967295 a = EBADF
mkdirat cwd a = ok
mkdirat 0 a = EEXIST
fstatat 0 a = ok dir
fstatat 0 . = ok dir
fstatat 0 .. = ok dir
fstatat 1 a = ENOTDIR
fstatat 1 . = ENOTDIR
fstatat 2 a = ENOENT
fstatat 2 . = ok dir
fstatat 9 a = EBADF
fstatat 9 . = EBADF
fstatat cwd a = ok dir
rmdirat 0 a = ok
rmdirat 1 a = ENOTDIR
rmdirat 2 a = ENOENT
rmdirat 9 a = EBADF
rmdirat cwd a = ok
list /d 0 = ok
list /c 0 = ok
openat 0 a w,creat = ok 3
openat 1 a w,creat = ENOTDIR
openat 2 a w,creat = ENOENT
openat 9 a w,creat = EBADF
openat cwd a w,creat = ok 4
write 3 xyz = ok 3
fstatat 0 a = ok file 3
fstatat cwd a = ok file 0
# The flags are tried before the base.
openat 9 a r,trunc = EINVAL
unlinkat 0 a = ok
unlinkat 1 a = ENOTDIR
unlinkat 2 a = ENOENT
unlinkat 9 a = EBADF
unlinkat cwd a = ok
fstat 3 = ok file 3
# With a slash, with a link, and with the ends of paths.
mkdirat 0 b/ = ok
symlink b /d/l = ok
fstatat 0 l = ok dir
unlinkat 0 b = EISDIR
rmdirat 0 l = ENOTDIR
unlinkat 0 l/ = ENOTDIR
unlinkat 0 l = ok
mkdirat 0 . = EEXIST
mkdirat 0 .. = EEXIST
rmdirat 0 . = EINVAL
rmdirat 0 .. = ENOTEMPTY
rmdirat 9 . = EBADF
unlinkat 0 . = EISDIR
openat 0 . r = ok 5
openat 5 b r,directory = ok 6
openat 6 .. w = EISDIR
close 6 = ok
fstatat 6 . = EBADF
fchdir 0 = ok
list . 0 = ok b
fchdir 1 = ENOTDIR
fchdir 9 = EBADF
fchdir 4294967295 = EBADF
list . 0 = ok b
fchdir 2 = ok
list . 0 = ENOENT
# The number of a call that failed names nothing.
openat 9 a r = EBADF
fstatat @75 a = EBADF
fchdir @75 = EBADF
";

#[test]
fn bases(rt: HostRuntime) -> Result<(), Fail> {
    expect_of(&rt, rt.alloc(), BASES)
}

/// The base of a path that begins with a slash is not looked at.
const ABSOLUTE: &str = "
open /f rw,creat = ok 0
mkdirat 9 /a = ok
mkdirat 0 /b = ok
fstatat 9 /a = ok dir
fstatat 0 //b/. = ok dir
openat 9 /g w,creat = ok 1
renameat 9 /a 9 /c = ok
renameat 0 /c 4294967295 /d = ok
rmdirat 9 /d = ok
unlinkat 9 /g = ok
openat 9 / r = ok 2
list / 0 = ok b f
openat 0 g rw,creat = ENOTDIR
openat cwd g rw,creat = ok 3
";

#[test]
fn paths_without_a_base(rt: HostRuntime) -> Result<(), Fail> {
    expect_of(&rt, rt.alloc(), ABSOLUTE)
}

/// Each path of a move has its base, and all of the first path is tried before anything of the second.
const MOVES: &str = "
mkdir /a = ok
mkdir /b = ok
open /a r = ok 0
open /b r = ok 1
open /f w,creat = ok 2
mkdirat 0 x = ok
renameat 0 x 1 y = ok
list /a 0 = ok
list /b 0 = ok y
renameat 1 y cwd z = ok
list . 0 = ok a b f z
chdir /b = ok
renameat cwd ../z 0 z = ok
list /a 0 = ok z
renameat 0 z 9 z = EBADF
renameat 9 z 0 z = EBADF
renameat 2 z 0 z = ENOTDIR
renameat 0 z 2 z = ENOTDIR
renameat 2 z 9 z = ENOTDIR
renameat 9 z 2 z = EBADF
renameat 9 /a/z 9 /a/w = ok
renameat 0 w 9 /a/z = ok
renameat 9 /a/z 0 w = ok
renameat 0 w 0 w/v = EINVAL
renameat 0 none 1 x = ENOENT
renameat 0 none 9 x = EBADF
renameat 9 %_ 0 x = ENOENT
renameat 0 w 9 %_ = ENOENT
renameat 9 w 0 %_ = EBADF
renameat 0 . 9 x = EBADF
renameat 0 . 1 x = EINVAL
renameat 0 w 1 .. = EINVAL
renameat 0 w cwd / = EBUSY
renameat 0 w 1 w/ = ok
renameat 1 w 1 w = ok
list . 0 = ok w
rmdir /a = ok
renameat 1 w 0 w = ENOENT
renameat 0 w 1 x = ENOENT
";

#[test]
fn moves_between_bases(rt: HostRuntime) -> Result<(), Fail> {
    expect_of(&rt, rt.alloc(), MOVES)
}

/// A directory of another backend as base and as current directory: above its root is the root.
const MOUNTS: &str = "
open /m r = ok 0
fstatat 0 .. = ok dir
mkdirat 0 d = ok
list /m 0 = ok d
mkdirat 0 ../e = ok
list / 0 = ok e m
openat 0 d r = ok 1
mkdirat 1 ../../g = ok
mkdirat 1 ../../../h = ok
list / 0 = ok e g h m
chdir /m/d = ok
mkdir ../x = ok
list .. 0 = ok d x
openat 1 f w,creat = ok 2
fstat 2 = ok file 0
chdir ../.. = ok
list . 0 = ok e g h m
renameat 0 d cwd d = EXDEV
renameat 0 d cwd m/y = ok
rmdirat cwd m = EBUSY
fchdir 1 = ok
list . 0 = ok f
list .. 0 = ok x y
";

#[test]
fn bases_in_mounts(rt: HostRuntime) -> Result<(), Fail> {
    expect_in(&rt, rt.alloc(), 2, "backend m memory\n", MOUNTS)
}

/// A path that is empty or too long is refused before its base is looked at.
fn refused_paths(alloc: Global) -> Result<String, AllocError> {
    let longest = repeated(alloc, "", "n", 4095, "")?;
    format!(in alloc;
        "
open /f rw,creat = ok 0
fstatat 9 {longest} = EBADF
fstatat 0 {longest} = ENOTDIR
fstatat cwd {longest} = ENAMETOOLONG
fstatat 9 {longest}n = ENAMETOOLONG
mkdirat 9 {longest}n = ENAMETOOLONG
rmdirat 0 {longest}n = ENAMETOOLONG
unlinkat 0 {longest}n = ENAMETOOLONG
openat 9 {longest}n r = ENAMETOOLONG
fstatat 9 %_ = ENOENT
mkdirat 9 %_ = ENOENT
rmdirat 0 %_ = ENOENT
unlinkat 0 %_ = ENOENT
openat 9 %_ r = ENOENT
stat {longest}n = ENAMETOOLONG
stat %_ = ENOENT
chdir {longest}n = ENAMETOOLONG
open . r = ok 1
"
    )
}

/// To tell where a path starts takes none of its names.
fn names_of_paths(alloc: Global) -> Result<String, AllocError> {
    let most = repeated(alloc, "..", "/..", 255, "")?;
    format!(in alloc;
        "
mkdir /d = ok
chdir /d = ok
open . r = ok 0
stat {most} = ok dir
stat {most}/. = ok dir
stat {most}/.. = ENAMETOOLONG
fstatat 0 {most} = ok dir
fstatat 0 {most}/.. = ENAMETOOLONG
mkdir {most}/e = ENAMETOOLONG
mkdirat 0 {most}/. = EEXIST
chdir {most} = ok
list . 0 = ok d
"
    )
}

#[test]
fn lengths_of_relative_paths(rt: HostRuntime) -> Result<(), Fail> {
    expect_of(&rt, rt.alloc(), &refused_paths(rt.alloc())?)?;
    expect_of(&rt, rt.alloc(), &names_of_paths(rt.alloc())?)
}
