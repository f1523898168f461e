//! Calls of one thread and the reply to each, in the words of the formats, worked out by hand from the calls' tables.

use super::run_on;
use std::alloc::{AllocError, Global};
use std::process::Abort;
use std::test::Fail;
use wf_core::RunStatus;

mod contents;
mod descriptors;
mod ends;
mod entries;
mod limits;
mod links;
mod mounts;
mod moves;
mod opens;
mod relative;

/// The lines of a run, and the reply lines that are due.
#[derive(Drop)]
struct Script {
    input: String,
    due: String,
    count: u32,
}

impl Script {
    fn new(alloc: Global, declarations: &str) -> Result<Script, AllocError> {
        Script::of(alloc, 1, declarations)
    }

    /// In a trace of that version.
    fn of(alloc: Global, version: u32, declarations: &str) -> Result<Script, AllocError> {
        Ok(Script {
            input: format!(in alloc; "wasmfs-trace {version}\n{declarations}thread A\n")?,
            due: String::new(alloc),
            count: 0,
        })
    }

    fn add(&mut self, alloc: Global, call: &str, reply: &str) -> Result<(), AllocError> {
        self.count = self.count.saturating_add(1);
        let number = self.count;
        self.input.push_str(&format!(in alloc; "A: {call}\n")?)?;
        self.due
            .push_str(&format!(in alloc; "reply A {number} {reply}\n")?)
    }

    /// Runs the calls and compares the reply to each.
    fn run(self, rt: &impl Abort, alloc: Global) -> Result<(), AllocError> {
        let (status, out) = run_on(alloc, self.input.as_bytes())?;
        assert_eq!(rt; status, RunStatus::Done);
        let lines = out.as_bytes().split(|byte| *byte == b'\n');
        let due = self.due.as_bytes().split(|byte| *byte == b'\n');
        for (line, due) in lines.zip(due) {
            assert!(rt; line == due || due.is_empty(), "{line:?} and not {due:?}");
        }
        assert!(rt; out.as_bytes().len() > self.due.len());
        Ok(())
    }
}

/// Runs calls behind declarations, and compares the reply to each. A line of the table is a call, ` = ` and the reply, or a
/// remark behind `#`.
pub(super) fn expect(
    rt: &impl Abort,
    alloc: Global,
    declarations: &str,
    table: &str,
) -> Result<(), Fail> {
    expect_in(rt, alloc, 1, declarations, table)
}

/// The same of version 2, without declarations.
fn expect_of(rt: &impl Abort, alloc: Global, table: &str) -> Result<(), Fail> {
    expect_in(rt, alloc, 2, "", table)
}

/// The same of that version.
fn expect_in(
    rt: &impl Abort,
    alloc: Global,
    version: u32,
    declarations: &str,
    table: &str,
) -> Result<(), Fail> {
    let mut script = Script::of(alloc, version, declarations)?;
    for line in table.lines() {
        if !line.is_empty() && !line.starts_with('#') {
            let (call, reply) = line.split_once(" = ").ok_or("a call without a reply")?;
            script.add(alloc, call, reply)?;
        }
    }
    Ok(script.run(rt, alloc)?)
}
