ghost use Rattle.std.specs.Prelude.{◌≡◌, ◌<◌, ◌≤◌, codes, length, option_and_then, option_map, position, IfOk, IfSome};
ghost use Rattle.std.specs.List.{list_any};
ghost use Rattle.std.specs.Option.{option_copied};
ghost use Rattle.wf_core.specs.Names.{is_text};
ghost use Rattle.trace_text.specs.Fields.{count_in, fields_in, fields_of, number_in, offset_in, one_of, pieces_of, three_of, two_of};
ghost use Rattle.trace_text.specs.Reading.{first_end};
ghost use Rattle.chunk_backend.specs.Chunks.{chunk_max, entries_max};
ghost use Rattle.chunk_backend.specs.Inputs.{Adds, GivesInput, after_fail, after_file, after_line, after_read, after_read_of, after_statement, at_least_one, file_of, files_max, header_of, input_at, input_on, opening_input, range_of, read_of, refusal_at, sizes_in};

use crate::chunk::ChunkRead;
use crate::chunk_fault::{ChunkFault, ChunkRefusal, InputRefusal};
use crate::limits::{CHUNK_MAX, ENTRIES_MAX, FILES_MAX};
use std::alloc::{AllocError, Global};
use std::marker::Model;
use trace_text::{
    Fault, FieldRefusal, cut, first_line, is_name, is_skipped, one_of, read_number, read_signed,
    read_text, three_of, two_of,
};
use wf_core::{CALLS_MAX, LINE_MAX, OFFSET_MAX, Text};

/// The greatest COUNT and number of a fetch.
const NUMBER_MAX: u64 = 4_294_967_295;

/// What the lines of an input so far say.
#[derive(Drop)]
pub(crate) struct Input {
    pub(crate) chunk: usize,
    pub(crate) entries: usize,
    pub(crate) names: Vec<Text>,
    pub(crate) files: Vec<Text>,
    pub(crate) failing: Vec<u64>,
    pub(crate) reads: Vec<ChunkRead>,
}

impl Model for Input {
    ghost use Rattle.std.specs.Prelude.{◌<◌, ◌≤◌, length};
    ghost use Rattle.wf_core.specs.Limits.{calls_max};
    ghost use Rattle.chunk_backend.specs.Chunks.{chunk_max, entries_max};
    ghost use Rattle.chunk_backend.specs.Inputs.{Input as Said, files_max};

    ghost Value = { Said };

    ghost view = { λ i. record {
      chunk = i.chunk;
      entries = i.entries;
      names = i.names.items;
      files = i.files.items;
      failing = i.failing.items;
      reads = i.reads.items;
    } };

    ghost invariant = { λ i. (0 < i.chunk) × (i.chunk ≤ chunk_max) × (0 < i.entries)
        × (i.entries ≤ entries_max) × (length i.names.items ≤ files_max)
        × (length i.reads.items ≤ calls_max) };
}

/// A size that is at least 1 and at most `limit`.
fn size_in(field: &[u8], limit: usize) -> Option<usize>
    ensures value { result ≡ at_least_one (number_in limit field.now) }
    ensures within { IfSome result (λ size. (0 < size) × (size ≤ limit)) }
{
    match read_number(field, limit as u64)? {
        0 => None,
        size => Some(size as usize),
    }
}

/// Whether the word is that with which an input begins.
fn is_header_word(word: &[u8]) -> bool
    ensures { result ≡ is_text word.now (codes "wasmfs-chunks") }
{
    word == b"wasmfs-chunks".as_slice()
}

fn is_version(field: &[u8]) -> bool
    ensures { result ≡ is_text field.now (codes "1") }
{
    field == b"1".as_slice()
}

/// The sizes behind the version.
fn sizes_in(fields: Option<&[u8]>) -> Option<(usize, usize)>
    ensures value { result ≡ sizes_in (three_of (fields_in (option_copied fields.entry))) }
    ensures within { IfSome result (λ sizes. (0 < sizes.0) × (sizes.0 ≤ chunk_max)
        × (0 < sizes.1) × (sizes.1 ≤ entries_max)) }
{
    let (version, chunk, entries) = three_of(fields)?;
    if !is_version(version) {
        return None;
    }
    let chunk = size_in(chunk, CHUNK_MAX)?;
    let entries = size_in(entries, ENTRIES_MAX)?;
    Some((chunk, entries))
}

/// The sizes of chunks and of the cache that line 1 has.
fn header_in(line: &[u8]) -> Option<(usize, usize)>
    ensures value { result ≡ header_of (fields_of line.now) }
    ensures within { IfSome result (λ sizes. (0 < sizes.0) × (sizes.0 ≤ chunk_max)
        × (0 < sizes.1) × (sizes.1 ≤ entries_max)) }
{
    let (word, fields) = cut(line, b' ');
    if !is_header_word(word) {
        return None;
    }
    sizes_in(fields)
}

/// The name and the bytes of a file.
fn file_in(alloc: Global, fields: Option<&[u8]>) -> Result<Option<(Text, Text)>, AllocError>
    ensures { IfOk result
        (λ file. file ≡ file_of (two_of (fields_in (option_copied fields.entry)))) }
{
    let Some((name, bytes)) = two_of(fields) else {
        return Ok(None);
    };
    if !is_name(name) {
        return Ok(None);
    }
    match read_text(alloc, bytes) {
        Ok(bytes) => Ok(Some((Text::read(alloc, name)?, Text::new(bytes)))),
        Err(FieldRefusal::NotAText) => Ok(None),
        Err(FieldRefusal::NoMemory) => Err(AllocError),
    }
}

fn number_of(fields: Option<&[u8]>) -> Option<u64>
    ensures { result
        ≡ option_and_then count_in (one_of (fields_in (option_copied fields.entry))) }
{
    read_number(one_of(fields)?, NUMBER_MAX)
}

/// The offset and the count of a read.
fn range_in(offset: &[u8], count: &[u8]) -> Option<(i64, u32)>
    ensures { result ≡ range_of (offset_in offset.now) (count_in count.now) }
{
    let offset = read_signed(offset, OFFSET_MAX)?;
    let count = read_number(count, NUMBER_MAX)?;
    Some((offset, count as u32))
}

/// The name, the offset and the count of a read.
fn read_in(fields: Option<&[u8]>) -> Option<(&[u8], i64, u32)>
    ensures { option_map (λ x. (x.0.now, (x.1, x.2))) result
        ≡ read_of (three_of (fields_in (option_copied fields.entry))) }
{
    let (name, offset, count) = three_of(fields)?;
    if !is_name(name) {
        return None;
    }
    let (offset, count) = range_in(offset, count)?;
    Some((name, offset, count))
}

fn position_of(names: &[Text], name: &[u8]) -> Option<usize>
    ensures value { result ≡ position (λ other. is_text other name.now) names.now }
    ensures within { IfSome result (λ file. file < length names.now) }
{
    names.iter().position(|other| other.as_bytes() == name)
}

fn has_name(names: &[Text], name: &[u8]) -> bool
    ensures { result ≡ list_any (λ other. is_text other name.now) names.now }
{
    names.iter().any(|other| other.as_bytes() == name)
}

impl Input {
    /// Without files.
    fn new(alloc: Global, chunk: usize, entries: usize) -> Input
        requires chunk { (0 < chunk) × (chunk ≤ chunk_max) }
        requires entries { (0 < entries) × (entries ≤ entries_max) }
        ensures { result ≡ opening_input chunk entries }
    {
        Input {
            chunk,
            entries,
            names: Vec::new(alloc),
            files: Vec::new(alloc),
            failing: Vec::new(alloc),
            reads: Vec::new(alloc),
        }
    }

    fn add_file(&mut self, name: Text, bytes: Text) -> Result<Result<(), ChunkFault>, AllocError>
        ensures { IfOk result (λ read. Adds
            (after_file self.old (Some (name, bytes))) read self.new) }
    {
        if has_name(self.names.as_slice(), name.as_bytes()) {
            return Ok(Err(ChunkFault::Line(Fault::DuplicateName)));
        }
        if self.names.len() >= FILES_MAX {
            return Ok(Err(ChunkFault::TooManyFiles));
        }
        self.names.push(name)?;
        self.files.push(bytes)?;
        Ok(Ok(()))
    }

    /// Reads the fields behind `file`.
    fn read_file(
        &mut self,
        alloc: Global,
        fields: Option<&[u8]>,
    ) -> Result<Result<(), ChunkFault>, AllocError>
        ensures { IfOk result (λ read. Adds (after_file self.old
            (file_of (two_of (fields_in (option_copied fields.entry))))) read self.new) }
    {
        match file_in(alloc, fields)? {
            Some((name, bytes)) => self.add_file(name, bytes),
            None => Ok(Err(ChunkFault::Line(Fault::BadArgument))),
        }
    }

    /// Reads the fields behind `fail`.
    fn read_fail(&mut self, fields: Option<&[u8]>) -> Result<Result<(), ChunkFault>, AllocError>
        ensures { IfOk result (λ read. Adds (after_fail self.old
            (option_and_then count_in (one_of (fields_in (option_copied fields.entry))))) read
            self.new) }
    {
        let Some(number) = number_of(fields) else {
            return Ok(Err(ChunkFault::Line(Fault::BadArgument)));
        };
        self.failing.push(number)?;
        Ok(Ok(()))
    }

    fn add_read(
        &mut self,
        file: Option<usize>,
        offset: i64,
        count: u32,
    ) -> Result<Result<(), ChunkFault>, AllocError>
        requires { IfSome file (λ file. file < files_max) }
        ensures { IfOk result
            (λ read. Adds (after_read_of self.old file offset count) read self.new) }
    {
        let Some(file) = file else {
            return Ok(Err(ChunkFault::Line(Fault::UnknownName)));
        };
        if self.reads.len() >= CALLS_MAX {
            return Ok(Err(ChunkFault::Line(Fault::TooManyCalls)));
        }
        self.reads.push(ChunkRead {
            file: file as u32,
            offset,
            count,
        })?;
        Ok(Ok(()))
    }

    /// Reads the fields behind `read`.
    fn read_read(&mut self, fields: Option<&[u8]>) -> Result<Result<(), ChunkFault>, AllocError>
        ensures { IfOk result (λ read. Adds (after_read self.old
            (read_of (three_of (fields_in (option_copied fields.entry))))) read self.new) }
    {
        let Some((name, offset, count)) = read_in(fields) else {
            return Ok(Err(ChunkFault::Line(Fault::BadArgument)));
        };
        let file = position_of(self.names.as_slice(), name);
        self.add_read(file, offset, count)
    }

    fn read_statement(
        &mut self,
        alloc: Global,
        word: &[u8],
        fields: Option<&[u8]>,
    ) -> Result<Result<(), ChunkFault>, AllocError>
        ensures { IfOk result (λ read. Adds (after_statement self.old word.now
            (fields_in (option_copied fields.entry))) read self.new) }
    {
        if word == b"file".as_slice() {
            return self.read_file(alloc, fields);
        }
        if word == b"fail".as_slice() {
            return self.read_fail(fields);
        }
        if word == b"read".as_slice() {
            return self.read_read(fields);
        }
        Ok(Err(ChunkFault::Line(Fault::UnknownWord)))
    }

    /// Reads a line after line 1.
    #[tactic(auto, unfolding(crate::specs::Inputs::after_line))]
    fn read_line(
        &mut self,
        alloc: Global,
        line: &[u8],
    ) -> Result<Result<(), ChunkFault>, AllocError>
        ensures { IfOk result (λ read. Adds (after_line self.old line.now) read self.new) }
    {
        if line.len() > LINE_MAX {
            return Ok(Err(ChunkFault::Line(Fault::LineTooLong)));
        }
        if is_skipped(line) {
            return Ok(Ok(()));
        }
        let (word, fields) = cut(line, b' ');
        self.read_statement(alloc, word, fields)
    }

    /// Reads the lines after line 1.
    fn read_lines(mut self, alloc: Global, bytes: &[u8]) -> Result<Input, InputRefusal>
        ensures { GivesInput result (input_on 2 self (pieces_of bytes.now)) }
    {
        let mut number = 2;
        let mut rest = bytes;
        while let Some((line, left)) = first_line(rest) {
            if let Err(fault) = self.read_line(alloc, line)? {
                return Err(refusal_at(number, fault));
            }
            number += 1;
            rest = left;
        }
        if !rest.is_empty() {
            return Err(refusal_at(number, ChunkFault::Line(Fault::MissingNewline)));
        }
        Ok(self)
    }
}

fn refusal_at(line: u64, fault: ChunkFault) -> InputRefusal
    ensures { result ≡ InputRefusal.Faulty (refusal_at line fault) }
{
    InputRefusal::Faulty(ChunkRefusal { line, fault })
}

/// The fault of an input without byte 10: an empty one has no line.
fn first_end(rest: &[u8]) -> Fault
    ensures { result ≡ first_end rest.now }
{
    if rest.is_empty() {
        return Fault::Header;
    }
    Fault::MissingNewline
}

/// Reads an input. A refusal tells the first faulty line, and of its faults the one that is tried first.
pub(crate) fn read_chunks(alloc: Global, bytes: &[u8]) -> Result<Input, InputRefusal>
    ensures { GivesInput result (input_at bytes.now) }
{
    let Some((first, rest)) = first_line(bytes) else {
        return Err(refusal_at(1, ChunkFault::Line(first_end(bytes))));
    };
    if first.len() > LINE_MAX {
        return Err(refusal_at(1, ChunkFault::Line(Fault::LineTooLong)));
    }
    let Some((chunk, entries)) = header_in(first) else {
        return Err(refusal_at(1, ChunkFault::Line(Fault::Header)));
    };
    Input::new(alloc, chunk, entries).read_lines(alloc, rest)
}
