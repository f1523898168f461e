//! What a user may conclude of where paths start. The functions do nothing: each clause is a law.

ghost use Rattle.call_laws.specs.StartLaws.{AbsolutePathsStartInTheRoot, BasesAreDirectories, BasesAreStarts, CallsStartAtDescriptors, CwdIsTheDefaultBase};

/// A call of version 2 whose paths begin with slashes takes the steps that it takes in version 1.
pub fn absolute_paths_start_in_the_root()
    ensures { AbsolutePathsStartInTheRoot }
{}

/// A call that names the current directory as its base takes the steps of the call without a base.
pub fn cwd_is_the_default_base()
    ensures { CwdIsTheDefaultBase }
{}

/// A call with bases takes the steps of the call without, but that it asks for its bases where that asks for the current
/// directory.
pub fn bases_are_starts()
    ensures { BasesAreStarts }
{}

/// A call relative to a descriptor of a directory is the call without a base in that directory.
pub fn calls_start_at_descriptors()
    ensures { CallsStartAtDescriptors }
{}

/// Relative to a number that names nothing a call replies `EBADF`, and relative to a file's `ENOTDIR`.
pub fn bases_are_directories()
    ensures { BasesAreDirectories }
{}
