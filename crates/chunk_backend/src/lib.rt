//! Read-only files whose bytes are fetched chunk by chunk, and a cache of the chunks that were used last.
#![tactic(auto)]

pub use chunk::{ChunkId, ChunkRead, Fetch};
pub use chunk_answer::ChunkAnswer;
pub use chunk_fault::{ChunkFault, ChunkRefusal, InputRefusal};
pub use chunk_files::ChunkFiles;
pub use chunk_store::ChunkStore;
pub use command::chunks;
pub use laws::{folds_are_whole, needs_hold_bytes, reads_are_folded};
pub use limits::{CHUNK_MAX, ENTRIES_MAX, FILES_MAX};
pub use mem_store::MemStore;

mod chunk;
mod chunk_answer;
mod chunk_cache;
mod chunk_fault;
mod chunk_files;
mod chunk_store;
mod chunks_text;
mod command;
mod fetch_numbers;
mod input;
mod laws;
mod limits;
mod mem_store;
