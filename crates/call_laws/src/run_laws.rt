//! What holds of every store that calls lead to. The functions do nothing: each clause is a law.

ghost use Rattle.call_laws.specs.RunLaws.{FilesAreUsed, RunsAreSound, RunsAreTidy};

/// In each store that calls lead to, the names of each backend are a tree, and its groups are all there and sound.
pub fn runs_are_sound()
    ensures { RunsAreSound }
{}

/// In each store that calls lead to no number is reserved, each description that a number names is there, and each
/// description has a number.
pub fn runs_are_tidy()
    ensures { RunsAreTidy }
{}

/// In each store that calls lead to a file that is there is named by an entry, or is open.
pub fn files_are_used()
    ensures { FilesAreUsed }
{}
