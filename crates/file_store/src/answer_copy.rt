ghost use Rattle.std.specs.Prelude.{◌≡◌, ◌≤◌, [], length, vec_capacity, IfOk};
ghost use Rattle.file_store.specs.FileForms.{answer_bytes_max, bytes_in};

use crate::file_operation::{FileAnswer, FileOp};
use std::alloc::{AllocError, Global};
use wf_core::{READ_MAX, Text};

/// Room for the bytes of an answer to that operation.
pub(crate) fn answer_room(alloc: Global, op: &FileOp) -> Result<Vec<u8>, AllocError>
    ensures empty { IfOk result (λ room. room.items ≡ []) }
    ensures room { IfOk result (λ room. answer_bytes_max op.now ≤ vec_capacity room) }
{
    match op {
        FileOp::Read { count, .. } | FileOp::Readat { count, .. } => {
            Ok(Vec::with_capacity(alloc, (*count).min(READ_MAX) as usize)?)
        }
        _ => Ok(Vec::new(alloc)),
    }
}

impl FileAnswer {
    /// A copy, whose bytes lie in that room. It takes no memory.
    pub(crate) fn copy_in(&self, mut room: Vec<u8>) -> FileAnswer
        requires empty { room.items ≡ [] }
        requires room { length (bytes_in self.now) ≤ vec_capacity room }
        ensures { result ≡ self.now }
    {
        match self {
            FileAnswer::File { file, description } => FileAnswer::File {
                file: *file,
                description: *description,
            },
            FileAnswer::Gone => FileAnswer::Gone,
            FileAnswer::Desc(description) => FileAnswer::Desc(*description),
            FileAnswer::Size(size) => FileAnswer::Size(*size),
            FileAnswer::Done => FileAnswer::Done,
            FileAnswer::Bytes(bytes) => {
                room.extend_from_slice(bytes.as_bytes()).unwrap();
                FileAnswer::Bytes(Text::new(room))
            }
            FileAnswer::Count(count) => FileAnswer::Count(*count),
            FileAnswer::At(offset) => FileAnswer::At(*offset),
            FileAnswer::Fault(errno) => FileAnswer::Fault(*errno),
        }
    }
}
