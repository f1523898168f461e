/// A chunk of a file: `number` chunks stand before it.
#[derive(Clone, Copy, Debug, PartialEq, Eq, Hash)]
pub struct ChunkId {
    pub file: u32,
    pub number: u64,
}

/// What a store was asked for: a file, and the offset of the first byte.
#[derive(Clone, Copy, Debug, PartialEq, Eq)]
pub struct Fetch {
    pub file: u32,
    pub offset: u64,
}

/// A read of a file: at most `count` bytes from an offset on.
#[derive(Clone, Copy, Debug, PartialEq, Eq)]
pub struct ChunkRead {
    pub file: u32,
    pub offset: i64,
    pub count: u32,
}
