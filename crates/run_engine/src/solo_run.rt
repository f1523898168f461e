ghost use Rattle.std.specs.Prelude.{◌≡◌, ◌++◌, IfOk, OnOk};
ghost use Rattle.std.specs.List.{flat_map};
ghost use Rattle.path_walk.specs.Store.{Store};
ghost use Rattle.trace_text.specs.Traces.{thread_name, traced};
ghost use Rattle.trace_text.specs.Texts.{reply_line};
ghost use Rattle.trace_text.specs.SoloText.{after_call_line, outcome_of_line, replies_text, solo_text, store_after, store_text};
ghost use Rattle.run_engine.specs.RunStores.{AreMountable};
ghost use Rattle.run_engine.specs.WholeTree.{placed_text};

use crate::run::Run;
use crate::run_store::RunStore;
use crate::whole_tree::{PlacedLine, whole_tree};
use std::alloc::{AllocError, Global};
use trace_text::{CallLine, Trace, push_end_line, push_reply_line, push_tree_line};
use wf_core::Text;

/// Runs the calls of a trace in its order over an empty store, and gives the whole text.
pub(crate) fn run_solo(alloc: Global, trace: Trace) -> Result<Vec<u8>, AllocError>
    requires { AreMountable (traced trace).backends }
    ensures { IfOk result (λ text. text.items ≡ solo_text (traced trace)) }
{
    let mut run = Run::new(alloc, &trace)?;
    let mut text = Vec::new(alloc);
    let Trace { threads, calls, .. } = trace;
    run_calls(alloc, threads.as_slice(), calls, &mut run, &mut text)?;
    push_tree(alloc, run.store(), &mut text)?;
    push_end_line(&mut text)?;
    Ok(text)
}

fn run_calls(
    alloc: Global,
    threads: &[Text],
    calls: Vec<CallLine>,
    run: &mut Run,
    text: &mut Vec<u8>,
) -> Result<(), AllocError>
    ensures text { OnOk result
        (text.new.items ≡ text.old.items ++ replies_text threads.now run.old calls.items) }
    ensures store { OnOk result (run.new.store ≡ store_after run.old calls.items) }
{
    for line in calls {
        run_call(alloc, threads, line, run, text)?;
    }
    Ok(())
}

fn run_call(
    alloc: Global,
    threads: &[Text],
    line: CallLine,
    run: &mut Run,
    text: &mut Vec<u8>,
) -> Result<(), AllocError>
    ensures text { OnOk result (text.new.items ≡ text.old.items ++ reply_line
        (thread_name threads.now line.thread) line.number (outcome_of_line run.old line).reply) }
    ensures after { OnOk result (run.new ≡ after_call_line run.old line) }
{
    let name = name_of(threads, line.thread);
    let number = line.number;
    let reply = run.take(alloc, line)?;
    push_reply_line(text, name, number, &reply)
}

fn name_of(threads: &[Text], thread: u32) -> &[u8]
    ensures { result.now ≡ thread_name threads.now thread }
{
    match threads.get(thread as usize) {
        Some(name) => name.as_bytes(),
        None => b"",
    }
}

/// Appends the lines of the whole tree: the root's, and behind each mount those of its backend.
fn push_tree(alloc: Global, store: &RunStore, text: &mut Vec<u8>) -> Result<(), AllocError>
    ensures { OnOk result (text.new.items ≡ text.old.items ++ store_text store.now) }
{
    let lines = whole_tree(alloc, store)?;
    push_lines(store, lines.as_slice(), text)?;
    Ok(())
}

fn push_lines(store: &RunStore, lines: &[PlacedLine], text: &mut Vec<u8>) -> Result<(), AllocError>
    ensures { OnOk result (text.new.items
        ≡ text.old.items ++ flat_map (placed_text store.now) lines.now) }
{
    for line in lines {
        push_line(store, line, text)?;
    }
    Ok(())
}

fn push_line(store: &RunStore, line: &PlacedLine, text: &mut Vec<u8>) -> Result<(), AllocError>
    ensures { OnOk result (text.new.items ≡ text.old.items ++ placed_text store.now line.now) }
{
    match store.backend(line.backend) {
        Some(backend) => push_tree_line(text, backend.groups(), line.deeper, &line.line),
        None => push_tree_line(text, &[], line.deeper, &line.line),
    }
}
