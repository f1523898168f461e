//! What a user may conclude of a directory that was removed. The functions do nothing: each clause is a law.

ghost use Rattle.call_laws.specs.RemovedLaws.{RemovedDirectoriesStayCurrent, RemovedDirectoriesTakeNothing};

/// A directory that was removed has no entries, and takes none.
pub fn removed_directories_take_nothing()
    ensures { RemovedDirectoriesTakeNothing }
{}

/// A directory that was removed may stay the current one.
pub fn removed_directories_stay_current()
    ensures { RemovedDirectoriesStayCurrent }
{}
