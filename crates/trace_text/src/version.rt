ghost use Rattle.std.specs.Prelude.{◌≡◌};
ghost use Rattle.path_walk.specs.Calls.{IsVersion};
ghost use Rattle.trace_text.specs.Versions.{header, version_in, version_number};

/// The version of a trace, which says what calls it may have and where their paths start.
#[derive(Clone, Copy, Debug, PartialEq, Eq)]
pub enum Version {
    /// Each path starts in the root directory.
    One,
    /// There is a current directory, and there are calls that start from a base.
    Two,
}

impl Version {
    /// The number in line 1.
    pub fn number(self) -> u32
        ensures value { result ≡ version_number self }
        ensures known { IsVersion result }
    {
        match self {
            Version::One => 1,
            Version::Two => 2,
        }
    }

    /// Line 1 of a trace of this version.
    pub(crate) fn header(self) -> &'static [u8]
        ensures { result.now ≡ header self }
    {
        match self {
            Version::One => b"wasmfs-trace 1",
            Version::Two => b"wasmfs-trace 2",
        }
    }
}

/// The version of the traces that begin with that line.
pub(crate) fn version_in(line: &[u8]) -> Option<Version>
    ensures { result ≡ version_in line.now }
{
    if line == Version::One.header() {
        return Some(Version::One);
    }
    if line == Version::Two.header() {
        return Some(Version::Two);
    }
    None
}
