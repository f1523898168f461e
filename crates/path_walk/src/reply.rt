ghost use Rattle.std.specs.Prelude.{◌≡◌};
ghost use Rattle.path_walk.specs.Plans.{fault_in, reply_to, reply_to_descriptors, reply_to_files, reply_to_names, spot_in, unless_told};

use crate::call::Reply;
use crate::route::Spot;
use crate::step::{StepAnswer, StoreAnswer};
use file_store::{FdAnswer, FileAnswer};
use name_store::NameAnswer;
use wf_core::Errno;

fn reply_to_names(answer: NameAnswer) -> Reply
    ensures { result ≡ reply_to_names answer }
{
    match answer {
        NameAnswer::Names(names) => Reply::Names(names),
        NameAnswer::Fault(errno) => Reply::Fault(errno),
        NameAnswer::Gone => Reply::Fault(Errno::Enoent),
        _ => Reply::Done,
    }
}

fn reply_to_files(answer: FileAnswer) -> Reply
    ensures { result ≡ reply_to_files answer }
{
    match answer {
        FileAnswer::Size(size) => Reply::File(size),
        FileAnswer::Bytes(bytes) => Reply::Bytes(bytes),
        FileAnswer::Count(count) => Reply::Count(count),
        FileAnswer::At(offset) => Reply::At(offset),
        FileAnswer::Fault(errno) => Reply::Fault(errno),
        FileAnswer::Gone => Reply::Fault(Errno::Enoent),
        _ => Reply::Done,
    }
}

fn reply_to_descriptors(answer: FdAnswer) -> Reply
    ensures { result ≡ reply_to_descriptors answer }
{
    match answer {
        FdAnswer::Fd(number) => Reply::Fd(number),
        FdAnswer::Fault(errno) => Reply::Fault(errno),
        _ => Reply::Done,
    }
}

/// What a call replies to the answer to its last step.
pub(crate) fn reply_to(answer: StepAnswer) -> Reply
    ensures { result ≡ reply_to answer }
{
    match answer {
        StepAnswer::Answered(StoreAnswer::Names(answer)) => reply_to_names(answer),
        StepAnswer::Answered(StoreAnswer::Files(answer)) => reply_to_files(answer),
        StepAnswer::Answered(StoreAnswer::Descriptors(answer)) => reply_to_descriptors(answer),
        StepAnswer::Cancelled => Reply::Fault(Errno::Ecanceled),
        StepAnswer::Closed => Reply::Fault(Errno::Enxio),
    }
}

/// The error that an answer tells.
pub(crate) fn fault_in(answer: &StepAnswer) -> Option<Errno>
    ensures { result ≡ fault_in answer.now }
{
    match answer {
        StepAnswer::Answered(
            StoreAnswer::Names(NameAnswer::Fault(errno))
            | StoreAnswer::Files(FileAnswer::Fault(errno))
            | StoreAnswer::Descriptors(FdAnswer::Fault(errno)),
        ) => Some(*errno),
        StepAnswer::Answered(
            StoreAnswer::Names(NameAnswer::Gone) | StoreAnswer::Files(FileAnswer::Gone),
        ) => Some(Errno::Enoent),
        StepAnswer::Answered(_) => None,
        StepAnswer::Cancelled => Some(Errno::Ecanceled),
        StepAnswer::Closed => Some(Errno::Enxio),
    }
}

/// That reply, unless an answer told an error.
pub(crate) fn unless_told(told: Option<Errno>, reply: Reply) -> Reply
    ensures { result ≡ unless_told told reply }
{
    match told {
        Some(errno) => Reply::Fault(errno),
        None => reply,
    }
}

/// The directory that an answer names. What else it names is none.
pub(crate) fn spot_in(answer: &StepAnswer) -> Result<Spot, Errno>
    ensures { result ≡ spot_in answer.now }
{
    match answer {
        StepAnswer::Answered(StoreAnswer::Descriptors(FdAnswer::Dir { backend, dir })) => Ok(
            Spot {
                backend: backend.number(),
                directory: dir.number(),
            },
        ),
        _ => Err(fault_in(answer).unwrap_or(Errno::Enotdir)),
    }
}
