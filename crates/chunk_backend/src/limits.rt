//! The limits of files by chunks, which are this project's own.

/// The most bytes of a chunk.
pub const CHUNK_MAX: usize = 4_096;

/// The most chunks in a cache.
pub const ENTRIES_MAX: usize = 64;

/// The most files of an input.
pub const FILES_MAX: usize = 64;
