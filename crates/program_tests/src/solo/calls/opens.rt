use super::expect;
use std::test::Fail;

/// Flags that do not go together, before any number is reserved.
const FLAGS: &str = "
open /f r,excl = EINVAL
open /f w,excl = EINVAL
open /f rw,excl,append = EINVAL
open /f r,trunc = EINVAL
open /f r,creat,trunc = EINVAL
open /f r,creat,directory = EINVAL
open /f w,creat,directory = EINVAL
open /f rw,directory,creat,excl = EINVAL
open %_ r,trunc = EINVAL
open /f r = ENOENT
open /f w,trunc = ENOENT
open /f r,directory,nofollow = ENOENT
open /f rw,append = ENOENT
open %_ r = ENOENT
open /none/f rw,creat = ENOENT
# No failure has kept a number.
open / r = ok 0
";

/// A last name under which nothing is.
const ABSENT: &str = "
open /a r,creat = ok 0
open /b w,creat,excl = ok 1
open /c rw,creat,excl,trunc,append,nofollow = ok 2
open /d/ rw,creat = ENOENT
open /d/ r = ENOENT
open /d/. w,creat = ENOENT
open /d/.. w,creat = ENOENT
stat /d = ENOENT
open d/../e w,creat = ENOENT
mkdir /d = ok
open d/../e w,creat = ok 3
list / 0 = ok a b c d e
lstat /e = ok file 0
";

/// A directory, a mount, and a path that ends without a name.
const DIRECTORIES: &str = "
mkdir /d = ok
open /d r = ok 0
open /d/ r = ok 1
open /d r,directory = ok 2
open /d r,nofollow = ok 3
open /m r = ok 4
open /m/ r,directory = ok 5
open / r = ok 6
open . r = ok 7
open /d/. r = ok 8
open /d/.. r,directory = ok 9
open /m/.. r,nofollow = ok 10
open /d r,creat = EISDIR
open /d w = EISDIR
open /d rw = EISDIR
open /d w,trunc = EISDIR
open /d rw,directory = EISDIR
open /d r,append = ok 11
open /d r,creat,excl = EEXIST
open /d w,creat,excl = EEXIST
open /m w,creat,excl = EEXIST
open /m w = EISDIR
open /m r,creat = EISDIR
open / r,creat = EISDIR
open / rw = EISDIR
open / r,creat,excl = EEXIST
open /. w,creat,excl = EEXIST
open /d/.. w = EISDIR
open /d/.. w,creat,excl = EEXIST
open /d/ w,creat,excl = EEXIST
open /d r = ok 12
";

/// A file.
const FILES: &str = "
open /f w,creat = ok 0
write 0 abc = ok 3
open /f r = ok 1
open /f w,creat = ok 2
open /f rw,nofollow = ok 3
open /f r,append = ok 4
open /f r,creat,excl = EEXIST
open /f w,creat,excl,trunc = EEXIST
open /f/ r,creat,excl = EEXIST
open /f/ r = ENOTDIR
open /f/ w,creat = ENOTDIR
open /f/ w,trunc = ENOTDIR
open /f r,directory = ENOTDIR
open /f w,directory = ENOTDIR
open /f/ r,directory = ENOTDIR
open /f w,directory,trunc = ENOTDIR
open /f/. r = ENOTDIR
open /f/.. r = ENOTDIR
open /f/x w,creat = ENOTDIR
stat /f = ok file 3
open /f w,trunc = ok 5
stat /f = ok file 0
read 1 9 = ok %_
write 0 d = ok 1
# What was empty has zeros before the old offset.
pread 1 9 0 = ok %00%00%00d
open /f rw,creat,trunc = ok 6
fstat 1 = ok file 0
";

/// A last link: to nothing, to a file, to a directory, and to itself.
const LINKS: &str = "
mkdir /d = ok
open /f w,creat = ok 0
write 0 abc = ok 3
symlink f /lf = ok
symlink d /ld = ok
symlink d/new /ln = ok
symlink lost/ /ls = ok
symlink self /self = ok
open /lf r = ok 1
read 1 2 = ok ab
open /lf w,creat = ok 2
open /lf r,nofollow = ELOOP
open /lf r,creat,excl = EEXIST
open /lf w,creat,excl,nofollow = EEXIST
open /lf r,creat,nofollow = ELOOP
open /lf/ r = ENOTDIR
open /lf r,directory = ENOTDIR
open /lf r,directory,nofollow = ELOOP
open /ld r = ok 3
open /ld r,nofollow = ELOOP
# A slash has a last link followed in any case.
open /ld/ r,nofollow = ok 4
open /ld/ r,creat,excl = EEXIST
open /ld w = EISDIR
open /ld r,creat = EISDIR
open /ln r = ENOENT
open /ln r,creat,excl = EEXIST
open /ln/ w,creat = ENOENT
open /ln w,creat = ok 5
write 5 xy = ok 2
stat /d/new = ok file 2
open /ln r = ok 6
# The text's own slash asks for a directory too.
open /ls w,creat = ENOENT
open /ls r,creat,excl = EEXIST
stat /lost = ENOENT
mkdir /lost = ok
open /ls r = ok 7
open /ls r,nofollow = ELOOP
open /self r = ELOOP
open /self/ r = ELOOP
open /self w,creat = ELOOP
open /self r,creat,excl = EEXIST
lstat /self = ok link 4
";

/// Flags that act on the file to which a last link leads.
const THROUGH_LINKS: &str = "
open /f w,creat = ok 0
write 0 abc = ok 3
symlink f /lf = ok
symlink new /ln = ok
open /lf w,append = ok 1
write 1 d = ok 1
seek 1 0 cur = ok 4
open /lf rw,creat,append = ok 2
write 2 e = ok 1
pread 2 9 0 = ok abcde
open /lf r,trunc = EINVAL
open /lf/ w,trunc = ENOTDIR
open /lf w,trunc,directory = ENOTDIR
open /lf w,trunc,nofollow = ELOOP
open /lf w,creat,excl,trunc = EEXIST
stat /f = ok file 5
open /lf w,trunc = ok 3
stat /f = ok file 0
lstat /lf = ok link 1
write 3 xy = ok 2
open /lf rw,creat,trunc,append = ok 4
stat /lf = ok file 0
write 1 z = ok 1
pread 4 9 0 = ok z
open /ln w,trunc = ENOENT
open /ln w,append = ENOENT
open /ln rw,creat,trunc,append = ok 5
write 5 z = ok 1
stat /new = ok file 1
";

/// A file is made beside its directory, in the backend that its path leads to.
const BACKENDS: &str = "
open /m/f w,creat = ok 0
write 0 in = ok 2
mkdir /m/d = ok
symlink /m/d /m/l = ok
symlink m/l/deep /up = ok
open /up rw,creat = ok 1
write 1 deeper = ok 6
stat /m/d/deep = ok file 6
open /m/../f w,creat = ok 2
stat /f = ok file 0
rename /f /m/f = EXDEV
rename /m/f /m/d/f = ok
stat /m/d/f = ok file 2
stat /m/f = ENOENT
";

#[test]
fn flags_through_links(rt: HostRuntime) -> Result<(), Fail> {
    expect(&rt, rt.alloc(), "", THROUGH_LINKS)
}

#[test]
fn flags(rt: HostRuntime) -> Result<(), Fail> {
    expect(&rt, rt.alloc(), "", FLAGS)
}

#[test]
fn absent_names(rt: HostRuntime) -> Result<(), Fail> {
    expect(&rt, rt.alloc(), "", ABSENT)
}

#[test]
fn directories(rt: HostRuntime) -> Result<(), Fail> {
    expect(&rt, rt.alloc(), "backend m memory\n", DIRECTORIES)
}

#[test]
fn files(rt: HostRuntime) -> Result<(), Fail> {
    expect(&rt, rt.alloc(), "", FILES)
}

#[test]
fn links(rt: HostRuntime) -> Result<(), Fail> {
    expect(&rt, rt.alloc(), "", LINKS)
}

#[test]
fn backends(rt: HostRuntime) -> Result<(), Fail> {
    expect(&rt, rt.alloc(), "backend m memory\n", BACKENDS)
}
