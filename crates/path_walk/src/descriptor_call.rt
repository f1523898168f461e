ghost use Rattle.std.specs.Prelude.{◌≡◌};
ghost use Rattle.path_walk.specs.Plans.{fault_in, program_of, replies, spot_in, unless_told};
ghost use Rattle.path_walk.specs.DescriptorCalls.{changes_numbers, enters, enters_number, number_plan, op_of_data, releases, reply_of_directory, data_step_plan, data_plan};
ghost use Rattle.path_walk.specs.Machine.{Shows};

use crate::call::Reply;
use crate::goal::step_on_file;
use crate::reply::{fault_in, reply_to, spot_in, unless_told};
use crate::route::Spot;
use crate::step::{CellId, StepAnswer, StoreAnswer, StoreOp};
use crate::trail::{Pause, Stage, fault, over, step};
use file_store::{FdAnswer, FdOp, FileOp, Whence};
use wf_core::{BackendId, DescriptionId, Errno, Text};

/// A call on the file of one descriptor, apart from the descriptor. Counts, offsets and sizes are in bytes.
#[derive(Debug, Drop)]
pub enum DataCall {
    Read(u32),
    Pread(u32, i64),
    Write(Text),
    Pwrite(Text, i64),
    Seek(i64, Whence),
    Ftruncate(i64),
    Fstat,
}

impl DataCall {
    fn op(self, description: DescriptionId) -> FileOp
        ensures { result ≡ op_of_data self description }
    {
        match self {
            DataCall::Read(count) => FileOp::Read { description, count },
            DataCall::Pread(count, offset) => FileOp::Readat {
                description,
                count,
                offset,
            },
            DataCall::Write(bytes) => FileOp::Write { description, bytes },
            DataCall::Pwrite(bytes, offset) => FileOp::Writeat {
                description,
                bytes,
                offset,
            },
            DataCall::Seek(offset, whence) => FileOp::Seek {
                description,
                offset,
                whence,
            },
            DataCall::Ftruncate(size) => FileOp::Cut { description, size },
            DataCall::Fstat => FileOp::Size(description),
        }
    }

    /// What it replies of a directory's descriptor.
    fn reply_of_directory(&self) -> Reply
        ensures { result ≡ reply_of_directory self.now }
    {
        match self {
            DataCall::Read(_) | DataCall::Pread(_, _) => Reply::Fault(Errno::Eisdir),
            DataCall::Write(_) | DataCall::Pwrite(_, _) => Reply::Fault(Errno::Ebadf),
            DataCall::Seek(_, _) | DataCall::Ftruncate(_) => Reply::Fault(Errno::Einval),
            DataCall::Fstat => Reply::Dir,
        }
    }

    /// Asks what the number names.
    pub(crate) fn begin(self, number: u32) -> Pause
        ensures { Shows result.need (program_of (data_plan number self)) result.stage }
    {
        step(
            Stage::Looking(self),
            CellId::Descriptors,
            StoreOp::Descriptors(FdOp::Look(number)),
        )
    }

    /// What follows the answer to that.
    pub(crate) fn after_look(self, answer: StepAnswer) -> Pause
        ensures { Shows result.need (program_of (data_step_plan self answer)) result.stage }
    {
        match &answer {
            StepAnswer::Answered(
                StoreAnswer::Descriptors(
                    FdAnswer::File {
                        backend,
                        description,
                    },
                ),
            ) => step_on_file(
                backend.number(),
                description.number(),
                self.op(*description),
            ),
            StepAnswer::Answered(StoreAnswer::Descriptors(FdAnswer::Dir { .. })) => {
                over(self.reply_of_directory())
            }
            _ => over(reply_to(answer)),
        }
    }
}

/// Begins `close`, `dup` and `dup2`.
pub(crate) fn change_numbers(op: FdOp) -> Pause
    ensures { Shows result.need (program_of (changes_numbers op)) result.stage }
{
    step(
        Stage::LastOnDescriptors,
        CellId::Descriptors,
        StoreOp::Descriptors(op),
    )
}

/// What follows the answer to the step of `close`, `dup` and `dup2`.
pub(crate) fn after_numbers(answer: StepAnswer) -> Pause
    ensures { Shows result.need (program_of (number_plan answer)) result.stage }
{
    match &answer {
        StepAnswer::Answered(
            StoreAnswer::Descriptors(
                FdAnswer::Last {
                    backend,
                    description,
                },
            ),
        ) => release(*backend, *description, Reply::Done),
        StepAnswer::Answered(
            StoreAnswer::Descriptors(
                FdAnswer::FdLast {
                    number,
                    backend,
                    description,
                },
            ),
        ) => release(*backend, *description, Reply::Fd(*number)),
        _ => over(reply_to(answer)),
    }
}

/// Releases a description that has lost its last number.
fn release(backend: BackendId, description: DescriptionId, reply: Reply) -> Pause
    ensures { Shows result.need (program_of (releases backend description reply)) result.stage }
{
    step(
        Stage::Releasing(reply),
        CellId::of_id(backend.number(), description.number()),
        StoreOp::Files(FileOp::Release(description)),
    )
}

/// What follows that.
pub(crate) fn after_release(reply: Reply, answer: StepAnswer) -> Pause
    ensures { Shows result.need
        (program_of (replies (unless_told (fault_in answer) reply))) result.stage }
{
    over(unless_told(fault_in(&answer), reply))
}

/// Has the current directory be that one.
pub(crate) fn enter(there: Result<Spot, Errno>) -> Pause
    ensures { Shows result.need (program_of (enters there)) result.stage }
{
    match there {
        Ok(spot) => step(
            Stage::Last,
            CellId::Descriptors,
            StoreOp::Descriptors(FdOp::Setcwd {
                backend: BackendId::new(spot.backend),
                dir: spot.dir(),
            }),
        ),
        Err(errno) => fault(errno),
    }
}

/// Begins `fchdir`.
pub(crate) fn enter_number(number: u32) -> Pause
    ensures { Shows result.need (program_of (enters_number number)) result.stage }
{
    step(
        Stage::Entering,
        CellId::Descriptors,
        StoreOp::Descriptors(FdOp::Look(number)),
    )
}

/// What follows the answer to its first step.
pub(crate) fn after_enter(answer: StepAnswer) -> Pause
    ensures { Shows result.need (program_of (enters (spot_in answer))) result.stage }
{
    enter(spot_in(&answer))
}
