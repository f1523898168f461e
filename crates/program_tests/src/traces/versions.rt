//! Version 2, and what version 1 does not know of it.

use super::calls::expect_printed;
use super::{FRONT, expect_all, told};
use std::test::*;
use trace_text::Mode;

const FRONT_OF_2: &str = "wasmfs-trace 2\nthread A\n";

const HEADERS: &str = "
wasmfs-trace 2; = wasmfs-trace 2;
wasmfs-trace 2;;#; = wasmfs-trace 2;
wasmfs-trace 2;#;thread A;A: chdir /;backend m memory; = wasmfs-trace 2;thread A;backend m memory;A: chdir /;
wasmfs-trace 2 = line 1: MissingNewline;
wasmfs-trace 2;thread A = line 2: MissingNewline;
wasmfs-trace 0; = line 1: Header;
wasmfs-trace 3; = line 1: Header;
wasmfs-trace 02; = line 1: Header;
wasmfs-trace 12; = line 1: Header;
wasmfs-trace 21; = line 1: Header;
wasmfs-trace  2; = line 1: Header;
wasmfs-trace 2 ; = line 1: Header;
wasmfs-trace 2\r; = line 1: Header;
Wasmfs-trace 2; = line 1: Header;
\u{feff}wasmfs-trace 2; = line 1: Header;
;wasmfs-trace 2; = line 1: Header;
wasmfs-trace 2;wasmfs-trace 2; = line 2: UnknownWord;
wasmfs-trace 1;wasmfs-trace 2; = line 2: UnknownWord;
";

#[test]
fn headers_tell_the_version(rt: HostRuntime) -> Result<(), Fail> {
    expect_all(&rt, rt.alloc(), "", HEADERS)
}

const WORDS_IN_1: &str = "
A: chdir /a; = line 3: UnknownWord;
A: fchdir 0; = line 3: UnknownWord;
A: openat cwd /a r; = line 3: UnknownWord;
A: mkdirat cwd /a; = line 3: UnknownWord;
A: rmdirat cwd /a; = line 3: UnknownWord;
A: unlinkat cwd /a; = line 3: UnknownWord;
A: fstatat cwd /a; = line 3: UnknownWord;
A: renameat cwd /a cwd /b; = line 3: UnknownWord;
A: chdir; = line 3: UnknownWord;
A: mkdirat; = line 3: UnknownWord;
B: chdir /a; = line 3: UnknownName;
A: close cwd; = line 3: BadArgument;
";

const FAULTS_IN_2: &str = "
-- words
A: linkat cwd /a cwd /b; = line 3: UnknownWord;
A: symlinkat t cwd /a; = line 3: UnknownWord;
A: getcwd; = line 3: UnknownWord;
A: Chdir /a; = line 3: UnknownWord;
A: cwd; = line 3: UnknownWord;
A: check; = line 3: UnknownWord;
A:; = line 3: UnknownWord;
B: chdir /a; = line 3: UnknownName;
chdir /a; = line 3: UnknownWord;
-- fields that are too few or too many
A: chdir; = line 3: BadArgument;
A: chdir /a /b; = line 3: BadArgument;
A: fchdir; = line 3: BadArgument;
A: fchdir 0 0; = line 3: BadArgument;
A: openat cwd /a; = line 3: BadArgument;
A: openat /a r; = line 3: BadArgument;
A: openat cwd /a r w; = line 3: BadArgument;
A: mkdirat /a; = line 3: BadArgument;
A: mkdirat cwd; = line 3: BadArgument;
A: mkdirat cwd ; = line 3: BadArgument;
A: mkdirat cwd /a /b; = line 3: BadArgument;
A: rmdirat cwd; = line 3: BadArgument;
A: rmdirat cwd /a ; = line 3: BadArgument;
A: unlinkat 0; = line 3: BadArgument;
A: fstatat cwd; = line 3: BadArgument;
A: fstatat cwd /a nofollow; = line 3: BadArgument;
A: renameat; = line 3: BadArgument;
A: renameat cwd /a /b; = line 3: BadArgument;
A: renameat cwd /a cwd; = line 3: BadArgument;
A: renameat cwd /a cwd /b /c; = line 3: BadArgument;
-- bases
A: mkdirat CWD a; = line 3: BadArgument;
A: mkdirat cwd. a; = line 3: BadArgument;
A: mkdirat %63wd a; = line 3: BadArgument;
A: mkdirat  a; = line 3: BadArgument;
A: mkdirat . a; = line 3: BadArgument;
A: mkdirat -1 a; = line 3: BadArgument;
A: mkdirat 01 a; = line 3: BadArgument;
A: mkdirat 4294967296 a; = line 3: BadArgument;
A: mkdirat a cwd; = line 3: BadArgument;
A: openat x a r; = line 3: BadArgument;
A: renameat x a cwd b; = line 3: BadArgument;
A: renameat cwd a x b; = line 3: BadArgument;
A: fchdir cwd; = line 3: BadArgument;
A: close cwd; = line 3: BadArgument;
A: dup2 0 cwd; = line 3: BadArgument;
A: read cwd 1; = line 3: BadArgument;
-- paths and flags
A: chdir %00; = line 3: BadArgument;
A: openat cwd %00 r; = line 3: BadArgument;
A: openat cwd a creat; = line 3: BadArgument;
A: openat cwd r a; = line 3: BadArgument;
A: unlinkat cwd a%; = line 3: BadArgument;
A: renameat cwd %0 cwd b; = line 3: BadArgument;
A: renameat cwd a cwd %00; = line 3: BadArgument;
-- numbers of earlier calls
A: fstatat @1 a; = line 3: BadArgument;
A: fstatat @0 a; = line 3: BadArgument;
A: fstatat @ a; = line 3: BadArgument;
A: chdir /a;A: fstatat @1 b; = line 4: BadArgument;
A: mkdirat cwd /a;A: fchdir @1; = line 4: BadArgument;
A: fstatat cwd /a;A: close @1; = line 4: BadArgument;
A: openat cwd a r;A: fstatat @01 a; = line 4: BadArgument;
A: openat cwd a r;A: fstatat @2 a; = line 4: BadArgument;
A: openat cwd a r;thread B;B: fstatat @1 a; = line 5: BadArgument;
A: openat cwd a r;A: renameat @1 a @2 b; = line 4: BadArgument;
";

#[test]
fn words_have_their_version(rt: HostRuntime) -> Result<(), Fail> {
    expect_all(&rt, rt.alloc(), FRONT, WORDS_IN_1)?;
    expect_all(&rt, rt.alloc(), FRONT_OF_2, FAULTS_IN_2)
}

/// Calls that are read, and what they are printed as.
const PRINTED: &str = "
A: chdir %2fa; = A: chdir /a;
A: chdir %_; = A: chdir %_;
A: fchdir 0;A: fchdir 4294967295; = A: fchdir 0;A: fchdir 4294967295;
A: openat cwd %61 rw,nofollow,creat; = A: openat cwd a rw,creat,nofollow;
A: openat 7 %_ r; = A: openat 7 %_ r;
A: mkdirat cwd %41;A: mkdirat 4294967295 a%0a; = A: mkdirat cwd A;A: mkdirat 4294967295 a%0A;
A: rmdirat 7 cwd;A: unlinkat cwd cwd;A: fstatat cwd .; = A: rmdirat 7 cwd;A: unlinkat cwd cwd;A: fstatat cwd .;
A: renameat cwd a 0 %62;A: renameat 0 cwd cwd cwd; = A: renameat cwd a 0 b;A: renameat 0 cwd cwd cwd;
A: openat cwd a r;A: mkdirat @1 b;A: fchdir @1;A: read @1 1;A: openat @1 c r;A: renameat @1 a @5 b; = A: openat cwd a r;A: mkdirat @1 b;A: fchdir @1;A: read @1 1;A: openat @1 c r;A: renameat @1 a @5 b;
A: open a r;A: dup @1;A: dup2 @1 @2;A: unlinkat @3 x; = A: open a r;A: dup @1;A: dup2 @1 @2;A: unlinkat @3 x;
A: mkdir a;A: symlink a b;A: list . 0;A: seek 0 0 set; = A: mkdir a;A: symlink a b;A: list . 0;A: seek 0 0 set;
";

#[test]
fn calls_of_2_are_printed(rt: HostRuntime) -> Result<(), Fail> {
    expect_printed(&rt, rt.alloc(), FRONT_OF_2, PRINTED)
}

/// Mode Full knows the calls of version 2 too.
#[test]
fn calls_of_2_are_read_in_full(rt: HostRuntime) -> Result<(), Fail> {
    let text = b"wasmfs-trace 2\nthread A\nA: chdir /\nA: fstatat cwd a\n";
    let told = told(rt.alloc(), text.as_slice(), Mode::Full)?;
    assert_eq!(rt; told.as_slice(), text.as_slice());
    Ok(())
}
