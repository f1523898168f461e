//! What a user may conclude of `open`. The functions do nothing: each clause is a law.

ghost use Rattle.call_laws.specs.OpenLaws.{NumbersAreLowest, OpensFind, OpensFindDirectories, OpensMakeFiles};

/// With `creat`, where nothing is, `open` makes an empty file and opens it, and changes nothing else.
pub fn opens_make_files()
    ensures { OpensMakeFiles }
{}

/// `open` of a file or a directory that is there opens it, and changes nothing else, but that `trunc` empties the file.
pub fn opens_find()
    ensures { OpensFind }
{}

/// Where a path leads to a directory, links followed, an `open` that replies a number has opened that directory.
pub fn opens_find_directories()
    ensures { OpensFindDirectories }
{}

/// `open`, `openat` and `dup` give the lowest number that was free.
pub fn numbers_are_lowest()
    ensures { NumbersAreLowest }
{}
