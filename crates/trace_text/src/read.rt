ghost use Rattle.std.specs.Prelude.{◌≡◌, IfErr, IfOk, Ok};
ghost use Rattle.trace_text.specs.Faults.{first_fault};
ghost use Rattle.trace_text.specs.Fields.{pieces_of};
ghost use Rattle.trace_text.specs.Grammar.{Reads};
ghost use Rattle.trace_text.specs.Reading.{first_end, trace_at, trace_on, version_of};
ghost use Rattle.trace_text.specs.Refusals.{GivesTrace, Refuses, refusal_at};
ghost use Rattle.trace_text.specs.Traces.{nothing, traced};

use crate::field::first_line;
use crate::reader::Reader;
use crate::refusal::{Fault, Refusal, TraceRefusal};
use crate::trace::{Mode, Trace};
use crate::version::{Version, version_in};
use std::alloc::Global;
use wf_core::LINE_MAX;

fn refusal_at(line: u64, fault: Fault) -> TraceRefusal
    ensures { result ≡ TraceRefusal.Faulty (refusal_at line fault) }
{
    TraceRefusal::Faulty(Refusal { line, fault })
}

/// The fault of an input without byte 10: an empty one has no line.
fn first_end(rest: &[u8]) -> Fault
    ensures { result ≡ first_end rest.now }
{
    if rest.is_empty() {
        return Fault::Header;
    }
    Fault::MissingNewline
}

/// The version that line 1 tells.
fn version_of(line: &[u8]) -> Result<Version, Fault>
    ensures { result ≡ version_of line.now }
{
    if line.len() > LINE_MAX {
        return Err(Fault::LineTooLong);
    }
    version_in(line).ok_or(Fault::Header)
}

/// Reads the lines after line 1.
fn read_lines(
    alloc: Global,
    bytes: &[u8],
    mode: Mode,
    version: Version,
) -> Result<Trace, TraceRefusal>
    ensures { GivesTrace traced result
        (trace_on mode 2 (nothing version) (pieces_of bytes.now)) }
{
    let mut reader = Reader::new(alloc, version)?;
    let mut number = 2;
    let mut rest = bytes;
    while let Some((line, left)) = first_line(rest) {
        if let Err(fault) = reader.read_line(alloc, mode, line)? {
            return Err(refusal_at(number, fault));
        }
        number += 1;
        rest = left;
    }
    if !rest.is_empty() {
        return Err(refusal_at(number, Fault::MissingNewline));
    }
    Ok(reader.into_trace())
}

fn trace_of(alloc: Global, bytes: &[u8], mode: Mode) -> Result<Trace, TraceRefusal>
    ensures { GivesTrace traced result (trace_at mode bytes.now) }
{
    let Some((first, rest)) = first_line(bytes) else {
        return Err(refusal_at(1, first_end(bytes)));
    };
    match version_of(first) {
        Ok(version) => read_lines(alloc, rest, mode, version),
        Err(fault) => Err(refusal_at(1, fault)),
    }
}

/// Reads a trace. A refusal tells the first faulty line, and of its faults the one that is tried first.
pub fn read_trace(alloc: Global, bytes: &[u8], mode: Mode) -> Result<Trace, TraceRefusal>
    ensures ok { IfOk result (λ trace. Reads bytes.now mode (traced trace)) }
    ensures refused { IfErr result (λ refusal. Refuses refusal (first_fault bytes.now mode)) }
{
    trace_of(alloc, bytes, mode)
}
