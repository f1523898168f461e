//! The limits of the file system and of a run. POSIX names are those of POSIX.1-2017, XBD `<limits.h>`.

/// The most bytes of a name.
pub const NAME_MAX: usize = 255;

/// The most bytes of a path, with the byte 0 that ends it in C: so a path itself has at most 4,095.
pub const PATH_MAX: usize = 4_096;

/// The most names that one path may take. A component `.` takes none.
pub const PATH_NAMES_MAX: u32 = 256;

/// The most links that one path may follow.
pub const SYMLOOP_MAX: u32 = 40;

/// The most bytes of a link's text.
pub const SYMLINK_MAX: usize = 255;

/// The most steps that one file call takes (own).
pub const CALL_STEPS_MAX: u32 = 1_100;

/// How many descriptors there are, which are numbered from 0.
pub const OPEN_MAX: usize = 1_024;

/// The most names of one list.
pub const LIST_MAX: usize = 32;

/// The most bytes of one read.
pub const READ_MAX: u32 = 4_096;

/// The bytes of a page, in which a file's bytes are kept.
pub const PAGE_SIZE: usize = 4_096;

/// The most bytes of a file.
pub const FILE_MAX: u64 = 16_777_216;

/// The most bytes of all files of a group.
pub const GROUP_MAX: u64 = 67_108_864;

/// How many groups a backend's files are in. The ids of one group lie this far apart.
pub const GROUP_COUNT: u64 = 4;

/// The greatest offset of a seek, 2^40.
pub const OFFSET_MAX: u64 = 1_099_511_627_776;

/// The most bytes of the input of a run.
pub const INPUT_MAX: u64 = 16_777_216;

/// The most bytes of a trace's line, without the newline that ends it.
pub const LINE_MAX: usize = 8_192;

/// The most threads of a trace.
pub const THREADS_MAX: usize = 16;

/// The most backends of a trace, the root among them.
pub const BACKENDS_MAX: usize = 8;

/// The most calls of a trace.
pub const CALLS_MAX: usize = 8_192;
