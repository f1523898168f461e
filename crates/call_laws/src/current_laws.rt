//! What a user may conclude of the current directory. The functions do nothing: each clause is a law.

ghost use Rattle.call_laws.specs.CurrentLaws.{ChdirEnters, CurrentDirectoryStays, FchdirEnters, FchdirIsChdir, OtherCallsKeepTheCurrentDirectory};

/// After `chdir` the current directory is the one to which its path led, and nothing else has changed.
pub fn chdir_enters()
    ensures { ChdirEnters }
{}

/// After `fchdir` it is the one that the number names.
pub fn fchdir_enters()
    ensures { FchdirEnters }
{}

/// Paths start in it whatever other calls do, until one sets another.
pub fn current_directory_stays()
    ensures { CurrentDirectoryStays }
{}

/// No step of a call sets another, unless the call is `chdir` or `fchdir`.
pub fn other_calls_keep_the_current_directory()
    ensures { OtherCallsKeepTheCurrentDirectory }
{}

/// `fchdir` of a number is `chdir` of the path that was opened under it.
pub fn fchdir_is_chdir()
    ensures { FchdirIsChdir }
{}
