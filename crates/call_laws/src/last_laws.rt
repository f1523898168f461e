//! What becomes of a file that has lost its name. The functions do nothing: each clause is a law.

ghost use Rattle.call_laws.specs.LastLaws.{RemovedFilesGo, RemovedFilesStay};

/// A file that was removed is read through its descriptors as before.
pub fn removed_files_stay()
    ensures { RemovedFilesStay }
{}

/// And it is gone with the last of them.
pub fn removed_files_go()
    ensures { RemovedFilesGo }
{}
