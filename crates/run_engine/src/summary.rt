ghost use Rattle.std.specs.Prelude.{◌≡◌, ◌++◌, count_by, sum_by, IfOk, OnOk};
ghost use Rattle.std.specs.List.{flat_map};
ghost use Rattle.trace_text.specs.Traces.{traced};
ghost use Rattle.trace_text.specs.SoloText.{store_after};
ghost use Rattle.trace_text.specs.Texts.{file_in};
ghost use Rattle.run_engine.specs.RunStores.{AreMountable};
ghost use Rattle.run_engine.specs.Summary.{count_line, fault_line, is_fault_reply, is_ok_reply, replies_summary, replies_to, size_of_file, size_of_line, summary_text, tree_summary};

use crate::run::Run;
use crate::run_store::RunStore;
use crate::whole_tree::{PlacedLine, whole_tree};
use file_store::Files;
use name_store::TreeLine;
use path_walk::Reply;
use std::alloc::{AllocError, Global};
use trace_text::{CallLine, Trace, push_end_line};
use wf_core::{Errno, FileId, GROUP_COUNT};

/// All errors, by their words in byte order.
const ERRORS_IN_ORDER: [Errno; 19] = [
    Errno::Eagain,
    Errno::Ebadf,
    Errno::Ebusy,
    Errno::Ecanceled,
    Errno::Eexist,
    Errno::Efbig,
    Errno::Einval,
    Errno::Eisdir,
    Errno::Eloop,
    Errno::Emfile,
    Errno::Enametoolong,
    Errno::Enoent,
    Errno::Enospc,
    Errno::Enotdir,
    Errno::Enotempty,
    Errno::Enotsup,
    Errno::Enxio,
    Errno::Eoverflow,
    Errno::Exdev,
];

/// Runs the calls of a trace in its order over an empty store, and gives the summary.
pub(crate) fn run_summary(alloc: Global, trace: Trace) -> Result<Vec<u8>, AllocError>
    requires { AreMountable (traced trace).backends }
    ensures { IfOk result (λ text. text.items ≡ summary_text (traced trace)) }
{
    let mut run = Run::new(alloc, &trace)?;
    let replies = take_calls(alloc, trace.calls, &mut run)?;
    let mut text = Vec::new(alloc);
    push_replies(alloc, replies.as_slice(), &mut text)?;
    push_tree(alloc, run.store(), &mut text)?;
    push_end_line(&mut text)?;
    Ok(text)
}

/// Takes calls one after another, and gives their replies.
fn take_calls(alloc: Global, calls: Vec<CallLine>, run: &mut Run) -> Result<Vec<Reply>, AllocError>
    ensures replies { IfOk result (λ replies. replies.items ≡ replies_to run.old calls.items) }
    ensures store { OnOk result (run.new.store ≡ store_after run.old calls.items) }
{
    let mut replies = Vec::with_capacity(alloc, calls.len())?;
    for line in calls {
        replies.push(run.take(alloc, line)?)?;
    }
    Ok(replies)
}

fn push_count(alloc: Global, text: &mut Vec<u8>, word: &str, count: u128) -> Result<(), AllocError>
    ensures { OnOk result (text.new.items ≡ text.old.items ++ count_line word.now count) }
{
    text.extend_from_slice(format!(in alloc; "{word} {count}\n")?.as_bytes())
}

#[tactic(auto, unfolding(crate::specs::Summary::errors_in_order))]
fn push_replies(alloc: Global, replies: &[Reply], text: &mut Vec<u8>) -> Result<(), AllocError>
    ensures { OnOk result (text.new.items ≡ text.old.items ++ replies_summary replies.now) }
{
    push_count(alloc, text, "calls", replies.len() as u128)?;
    push_count(alloc, text, "ok", u128::from(count_ok(replies)))?;
    push_faults(alloc, replies, &ERRORS_IN_ORDER, text)?;
    Ok(())
}

/// Appends a line for each error that came, of these.
fn push_faults(
    alloc: Global,
    replies: &[Reply],
    errors: &[Errno],
    text: &mut Vec<u8>,
) -> Result<(), AllocError>
    ensures { OnOk result (text.new.items
        ≡ text.old.items ++ flat_map (fault_line replies.now) errors.now) }
{
    for error in errors {
        push_fault(alloc, replies, *error, text)?;
    }
    Ok(())
}

fn is_ok_reply(reply: &Reply) -> bool
    ensures { result ≡ is_ok_reply reply.now }
{
    !matches!(reply, Reply::Fault(_))
}

fn count_ok(replies: &[Reply]) -> u64
    ensures { result ≡ count_by is_ok_reply replies.now }
{
    replies.iter().filter(|reply| is_ok_reply(reply)).count() as u64
}

fn is_fault_reply(reply: &Reply, error: Errno) -> bool
    ensures { result ≡ is_fault_reply error reply.now }
{
    match reply {
        Reply::Fault(fault) => fault.word() == error.word(),
        _ => false,
    }
}

fn count_faults(replies: &[Reply], error: Errno) -> u64
    ensures { result ≡ count_by (is_fault_reply error) replies.now }
{
    replies
        .iter()
        .filter(|reply| is_fault_reply(reply, error))
        .count() as u64
}

/// Appends the line of an error that came.
fn push_fault(
    alloc: Global,
    replies: &[Reply],
    error: Errno,
    text: &mut Vec<u8>,
) -> Result<(), AllocError>
    ensures { OnOk result (text.new.items ≡ text.old.items ++ fault_line replies.now error) }
{
    let count = count_faults(replies, error);
    if count == 0 {
        return Ok(());
    }
    push_count(alloc, text, error.word(), u128::from(count))
}

/// How many bytes the file of a line has.
fn size_of_line(store: &RunStore, line: &PlacedLine) -> u64
    ensures { result ≡ size_of_line store.now line.now }
{
    let TreeLine::File { file, .. } = &line.line else {
        return 0;
    };
    match store.backend(line.backend) {
        Some(backend) => size_of_file(backend.groups(), *file),
        None => 0,
    }
}

fn size_of_file(groups: &[Files], file: FileId) -> u64
    ensures { result ≡ size_of_file (file_in groups.now file) }
{
    let Some(files) = groups.get((file.number() % GROUP_COUNT) as usize) else {
        return 0;
    };
    files.size(file).unwrap_or(0)
}

/// How many bytes the files of lines have: less than 2^64 for each line, of which there are less than 2^63.
fn sum_sizes(store: &RunStore, lines: &[PlacedLine]) -> u128
    ensures { result ≡ sum_by (size_of_line store.now) lines.now }
{
    let mut sum: u128 = 0;
    for line in lines {
        sum += u128::from(size_of_line(store, line));
    }
    sum
}

fn push_tree(alloc: Global, store: &RunStore, text: &mut Vec<u8>) -> Result<(), AllocError>
    ensures { OnOk result (text.new.items ≡ text.old.items ++ tree_summary store.now) }
{
    let lines = whole_tree(alloc, store)?;
    push_count(alloc, text, "nodes", lines.len() as u128)?;
    push_count(alloc, text, "bytes", sum_sizes(store, lines.as_slice()))
}
