//! The numbers by which the stores name things. Each kind is a type of its own, so that none stands for another; a
//! clause sees the number.

ghost use Rattle.std.specs.Prelude.{◌≡◌};

use std::marker::Model;

/// A directory of one backend; the root is 0. Directories and links of a backend share one count.
#[derive(Clone, Copy, Debug, PartialEq, Eq)]
pub struct DirId(u64);

impl Model for DirId {
    ghost use Rattle.std.specs.Prelude.{ℕ};

    ghost Value = { ℕ };

    ghost view = { λ id. id.0 };

    ghost inverse = { λ id. record { 0 = id } };
}

impl DirId {
    /// The root of each backend.
    pub const ROOT: DirId = DirId(0);

    pub const fn new(number: u64) -> DirId
        ensures { result ≡ number }
    {
        DirId(number)
    }

    pub const fn number(self) -> u64
        ensures { result ≡ self }
    {
        self.0
    }
}

/// A link of one backend, of the same count as its directories.
#[derive(Clone, Copy, Debug, PartialEq, Eq)]
pub struct LinkId(u64);

impl Model for LinkId {
    ghost use Rattle.std.specs.Prelude.{ℕ};

    ghost Value = { ℕ };

    ghost view = { λ id. id.0 };

    ghost inverse = { λ id. record { 0 = id } };
}

impl LinkId {
    pub const fn new(number: u64) -> LinkId
        ensures { result ≡ number }
    {
        LinkId(number)
    }

    pub const fn number(self) -> u64
        ensures { result ≡ self }
    {
        self.0
    }
}

/// A file of one backend. Those of its group G are G, G + `GROUP_COUNT` and so on.
#[derive(Clone, Copy, Debug, PartialEq, Eq)]
pub struct FileId(u64);

impl Model for FileId {
    ghost use Rattle.std.specs.Prelude.{ℕ};

    ghost Value = { ℕ };

    ghost view = { λ id. id.0 };

    ghost inverse = { λ id. record { 0 = id } };
}

impl FileId {
    pub const fn new(number: u64) -> FileId
        ensures { result ≡ number }
    {
        FileId(number)
    }

    pub const fn number(self) -> u64
        ensures { result ≡ self }
    {
        self.0
    }
}

/// An open file description (POSIX.1-2017, XBD 3.258) of one backend, numbered as files are.
#[derive(Clone, Copy, Debug, PartialEq, Eq)]
pub struct DescriptionId(u64);

impl Model for DescriptionId {
    ghost use Rattle.std.specs.Prelude.{ℕ};

    ghost Value = { ℕ };

    ghost view = { λ id. id.0 };

    ghost inverse = { λ id. record { 0 = id } };
}

impl DescriptionId {
    pub const fn new(number: u64) -> DescriptionId
        ensures { result ≡ number }
    {
        DescriptionId(number)
    }

    pub const fn number(self) -> u64
        ensures { result ≡ self }
    {
        self.0
    }
}

/// A backend; that of the root is 0.
#[derive(Clone, Copy, Debug, PartialEq, Eq)]
pub struct BackendId(u32);

impl Model for BackendId {
    ghost use Rattle.std.specs.Prelude.{ℕ};

    ghost Value = { ℕ };

    ghost view = { λ id. id.0 };

    ghost inverse = { λ id. record { 0 = id } };
}

impl BackendId {
    /// The backend of the root.
    pub const ROOT: BackendId = BackendId(0);

    pub const fn new(number: u32) -> BackendId
        ensures { result ≡ number }
    {
        BackendId(number)
    }

    pub const fn number(self) -> u32
        ensures { result ≡ self }
    {
        self.0
    }
}
