ghost use Rattle.std.specs.Prelude.{◌≡◌, ◌+◌, ◌<◌, ◌++◌, ◌∷◌, [], length, option_map, position, IfOk, IfSome, OnOk, Ok};
ghost use Rattle.std.specs.List.{list_any};
ghost use Rattle.std.specs.Vec.{vec_capacity, vec_len};
ghost use Rattle.std.specs.Option.{option_copied};
ghost use Rattle.wf_core.specs.Limits.{calls_max, threads_max};
ghost use Rattle.wf_core.specs.Names.{is_text};
ghost use Rattle.trace_text.specs.Traces.{backend_line, is_declared, nothing, thread_number, traced, with_call};
ghost use Rattle.trace_text.specs.Fields.{fields_in};
ghost use Rattle.trace_text.specs.Lines.{after_backend, after_call, after_call_of, after_declaration, after_line, after_thread};
ghost use Rattle.trace_text.specs.Words.{backend_in, has_kind, name_in, proxied_in};
ghost use Rattle.trace_text.specs.Openings.{openings_of};
ghost use Rattle.trace_text.specs.Reading.{Adds};

use crate::call::call_of;
use crate::field::{cut, is_name, is_skipped, label_in, one_of, two_of};
use crate::openings::{Openings, is_opening};
use crate::refusal::Fault;
use crate::trace::{BackendLine, CallLine, Mode, Trace};
use crate::trace_call::TraceCall;
use crate::version::Version;
use std::alloc::{AllocError, Global};
use std::marker::Model;
use wf_core::{BACKENDS_MAX, CALLS_MAX, LINE_MAX, THREADS_MAX, Text};

/// The name that the fields behind `thread` are.
fn name_in(fields: Option<&[u8]>) -> Option<&[u8]>
    ensures { option_copied result ≡ name_in (fields_in (option_copied fields.entry)) }
{
    let name = one_of(fields)?;
    if is_name(name) { Some(name) } else { None }
}

/// Whether the kind of a backend is that of one with a worker.
fn proxied_in(kind: &[u8]) -> Option<bool>
    ensures { result ≡ proxied_in kind.now }
{
    if kind == b"memory".as_slice() {
        return Some(false);
    }
    if kind == b"proxied".as_slice() {
        return Some(true);
    }
    None
}

fn has_kind(mode: Mode, proxied: bool) -> bool
    ensures { result ≡ has_kind mode proxied }
{
    match mode {
        Mode::Plain => true,
        Mode::Full => !proxied,
    }
}

/// The name and the kind that the fields behind `backend` are.
fn backend_in(mode: Mode, fields: Option<&[u8]>) -> Option<(&[u8], bool)>
    ensures { option_map (λ x. backend_line x.0.now x.1) result
        ≡ backend_in mode (fields_in (option_copied fields.entry)) }
{
    let (name, kind) = two_of(fields)?;
    let proxied = proxied_in(kind)?;
    if has_kind(mode, proxied) && is_name(name) {
        Some((name, proxied))
    } else {
        None
    }
}

fn has_thread(threads: &[Text], name: &[u8]) -> bool
    ensures { result ≡ list_any (λ thread. is_text thread name.now) threads.now }
{
    threads.iter().any(|thread| thread.as_bytes() == name)
}

fn has_backend(backends: &[BackendLine], name: &[u8]) -> bool
    ensures { result ≡ list_any (λ backend. is_text backend.name name.now) backends.now }
{
    backends
        .iter()
        .any(|backend| backend.name.as_bytes() == name)
}

fn position_of(threads: &[Text], name: &[u8]) -> Option<usize>
    ensures value { result ≡ position (λ thread. is_text thread name.now) threads.now }
    ensures within { IfSome result (λ thread. thread < length threads.now) }
{
    threads.iter().position(|thread| thread.as_bytes() == name)
}

/// Adds a call for which there is room.
fn push_line(calls: &mut Vec<CallLine>, line: CallLine)
    requires { vec_len calls.old < vec_capacity calls.old }
    ensures { calls.new.items ≡ calls.old.items ++ line ∷ [] }
{
    if calls.push(line).is_err() {
        unreachable!()
    }
}

/// A trace that is read line by line, seen as what its lines so far say.
#[derive(Drop)]
pub(crate) struct Reader {
    trace: Trace,
    /// How many calls each thread has.
    counts: [u32; THREADS_MAX],
    /// Which calls of each thread are opening calls.
    openings: Openings,
}

impl Model for Reader {
    ghost use Rattle.trace_text.specs.Traces.{AreCounts, Traced, traced};
    ghost use Rattle.trace_text.specs.Openings.{AreOpenings};

    ghost Value = { Traced };

    ghost view = { λ r. traced r.trace };

    ghost invariant = { λ r. AreCounts (traced r.trace) r.counts
        × AreOpenings (traced r.trace).calls r.openings };
}

impl Reader {
    /// A trace without declarations.
    pub(crate) fn new(alloc: Global, version: Version) -> Result<Reader, AllocError>
        ensures { IfOk result (λ reader. reader ≡ nothing version) }
    {
        Ok(Reader {
            trace: Trace {
                version,
                threads: Vec::new(alloc),
                backends: Vec::new(alloc),
                calls: Vec::new(alloc),
            },
            counts: [0; THREADS_MAX],
            openings: Openings::new(alloc)?,
        })
    }

    pub(crate) fn into_trace(self) -> Trace
        ensures { traced result ≡ self }
    {
        self.trace
    }

    fn is_declared(&self, name: &[u8]) -> bool
        ensures { result ≡ is_declared self.now name.now }
    {
        name == b"main".as_slice()
            || has_thread(self.trace.threads.as_slice(), name)
            || has_backend(self.trace.backends.as_slice(), name)
    }

    fn thread_number(&self, name: &[u8]) -> Option<usize>
        ensures value { result ≡ thread_number self.now name.now }
        ensures small { IfSome result (λ thread. thread < threads_max) }
    {
        position_of(self.trace.threads.as_slice(), name)
    }

    /// Reads the fields behind `thread`.
    fn read_thread(
        &mut self,
        alloc: Global,
        fields: Option<&[u8]>,
    ) -> Result<Result<(), Fault>, AllocError>
        ensures { IfOk result (λ read. Adds (after_thread self.old
            (name_in (fields_in (option_copied fields.entry)))) read self.new) }
    {
        let Some(name) = name_in(fields) else {
            return Ok(Err(Fault::BadArgument));
        };
        if self.is_declared(name) {
            return Ok(Err(Fault::DuplicateName));
        }
        if self.trace.threads.len() >= THREADS_MAX {
            return Ok(Err(Fault::TooManyThreads));
        }
        self.trace.threads.push(Text::read(alloc, name)?)?;
        Ok(Ok(()))
    }

    /// Reads the fields behind `backend`.
    fn read_backend(
        &mut self,
        alloc: Global,
        mode: Mode,
        fields: Option<&[u8]>,
    ) -> Result<Result<(), Fault>, AllocError>
        ensures { IfOk result (λ read. Adds (after_backend self.old
            (backend_in mode (fields_in (option_copied fields.entry)))) read self.new) }
    {
        let Some((name, proxied)) = backend_in(mode, fields) else {
            return Ok(Err(Fault::BadArgument));
        };
        if self.is_declared(name) {
            return Ok(Err(Fault::DuplicateName));
        }
        if self.trace.backends.len() + 1 >= BACKENDS_MAX {
            return Ok(Err(Fault::TooManyBackends));
        }
        let name = Text::read(alloc, name)?;
        self.trace.backends.push(BackendLine { name, proxied })?;
        Ok(Ok(()))
    }

    /// Adds the next call of a thread.
    fn add_call(&mut self, thread: usize, call: TraceCall) -> Result<(), AllocError>
        requires thread { thread < threads_max }
        requires room { length self.old.calls < calls_max }
        ensures { OnOk result (self.new ≡ with_call self.old thread call) }
    {
        let number = self.counts[thread] + 1;
        self.trace.calls.reserve(1)?;
        self.openings.push(thread, is_opening(&call))?;
        let line = CallLine {
            thread: thread as u32,
            number,
            call,
        };
        push_line(&mut self.trace.calls, line);
        self.counts[thread] = number;
        Ok(())
    }

    /// Reads the call of a thread that its fields make.
    fn read_call_of(
        &mut self,
        thread: usize,
        call: Result<TraceCall, Fault>,
    ) -> Result<Result<(), Fault>, AllocError>
        requires { thread < threads_max }
        ensures { IfOk result
            (λ read. Adds (after_call_of self.old thread call) read self.new) }
    {
        match call {
            Err(fault) => Ok(Err(fault)),
            Ok(call) => self.add_call_if_room(thread, call),
        }
    }

    fn add_call_if_room(
        &mut self,
        thread: usize,
        call: TraceCall,
    ) -> Result<Result<(), Fault>, AllocError>
        requires { thread < threads_max }
        ensures { IfOk result
            (λ read. Adds (after_call_of self.old thread (Ok call)) read self.new) }
    {
        if self.trace.calls.len() >= CALLS_MAX {
            return Ok(Err(Fault::TooManyCalls));
        }
        self.add_call(thread, call)?;
        Ok(Ok(()))
    }

    /// Reads a call of the thread of that name, by the fields behind its label.
    fn read_call(
        &mut self,
        alloc: Global,
        name: &[u8],
        fields: Option<&[u8]>,
    ) -> Result<Result<(), Fault>, AllocError>
        ensures { IfOk result (λ read. Adds (after_call self.old
            (thread_number self.old name.now) (fields_in (option_copied fields.entry)))
            read self.new) }
    {
        let Some(thread) = self.thread_number(name) else {
            return Ok(Err(Fault::UnknownName));
        };
        let call = call_of(alloc, self.trace.version, self.openings.of(thread), fields)?;
        self.read_call_of(thread, call)
    }

    /// Reads a line that begins with this word, which is no label.
    fn read_declaration(
        &mut self,
        alloc: Global,
        mode: Mode,
        word: &[u8],
        fields: Option<&[u8]>,
    ) -> Result<Result<(), Fault>, AllocError>
        ensures { IfOk result (λ read. Adds (after_declaration mode self.old word.now
            (fields_in (option_copied fields.entry))) read self.new) }
    {
        if word == b"thread".as_slice() {
            return self.read_thread(alloc, fields);
        }
        if word == b"backend".as_slice() {
            return self.read_backend(alloc, mode, fields);
        }
        Ok(Err(Fault::UnknownWord))
    }

    /// Reads a line after line 1.
    #[tactic(auto, unfolding(crate::specs::Lines::after_line))]
    pub(crate) fn read_line(
        &mut self,
        alloc: Global,
        mode: Mode,
        line: &[u8],
    ) -> Result<Result<(), Fault>, AllocError>
        ensures { IfOk result (λ read. Adds (after_line mode self.old line.now) read self.new) }
    {
        if line.len() > LINE_MAX {
            return Ok(Err(Fault::LineTooLong));
        }
        if is_skipped(line) {
            return Ok(Ok(()));
        }
        let (first, fields) = cut(line, b' ');
        match label_in(first) {
            Some(name) => self.read_call(alloc, name, fields),
            None => self.read_declaration(alloc, mode, first, fields),
        }
    }
}
