ghost use Rattle.std.specs.Prelude.{◌≡◌, ◌++◌, ◌∷◌, IfOk, OnOk};
ghost use Rattle.std.specs.Fmt.{signed_decimal};
ghost use Rattle.std.specs.List.{flat_map, join_with_byte};
ghost use Rattle.trace_text.specs.Grammar.{kind_word};
ghost use Rattle.trace_text.specs.Texts.{next_field};
ghost use Rattle.trace_text.specs.TraceTexts.{access_field, at_fields, backend_text, base_field, call_line, call_text, data_fields, descriptor_field, ended, flag_text, flags_field, text_of_trace, thread_line, whence_field};
ghost use Rattle.trace_text.specs.Traces.{thread_name, traced};

use crate::print::{append_field, append_number, append_signed, append_sized};
use crate::trace::{BackendLine, CallLine, Trace};
use crate::trace_call::{AtCall, Descriptor, TraceBase, TraceCall};
use file_store::{Access, Whence};
use path_walk::{DataCall, OpenFlags};
use std::alloc::{AllocError, Global};
use wf_core::{PathText, Text};

fn append_descriptor(text: &mut Vec<u8>, descriptor: Descriptor) -> Result<(), AllocError>
    ensures { OnOk result
        (text.new.items ≡ text.old.items ++ descriptor_field descriptor) }
{
    match descriptor {
        Descriptor::Number(number) => append_number(text, u64::from(number)),
        Descriptor::ReplyOf(call) => append_sized(text, b"@", u64::from(call)),
    }
}

/// The word of WHENCE.
pub fn whence_word(whence: Whence) -> &'static [u8]
    ensures { result.now ≡ whence_field whence }
{
    match whence {
        Whence::Set => b"set",
        Whence::Cur => b"cur",
        Whence::End => b"end",
    }
}

/// The flag of an access.
pub fn access_word(access: Access) -> &'static [u8]
    ensures { result.now ≡ access_field access }
{
    match access {
        Access::Read => b"r",
        Access::Write => b"w",
        Access::ReadWrite => b"rw",
    }
}

fn append_flag(text: &mut Vec<u8>, there: bool, flag: &[u8]) -> Result<(), AllocError>
    ensures { OnOk result (text.new.items ≡ text.old.items ++ flag_text there flag.now) }
{
    if there {
        return text.extend_from_slice(flag);
    }
    Ok(())
}

fn append_flags(text: &mut Vec<u8>, flags: OpenFlags) -> Result<(), AllocError>
    ensures { OnOk result (text.new.items ≡ text.old.items ++ flags_field flags) }
{
    text.extend_from_slice(access_word(flags.access))?;
    append_flag(text, flags.creat, b",creat")?;
    append_flag(text, flags.excl, b",excl")?;
    append_flag(text, flags.trunc, b",trunc")?;
    append_flag(text, flags.append, b",append")?;
    append_flag(text, flags.directory, b",directory")?;
    append_flag(text, flags.nofollow, b",nofollow")
}

/// Appends a word and a path.
fn append_path(text: &mut Vec<u8>, word: &[u8], path: &PathText) -> Result<(), AllocError>
    ensures { OnOk result
        (text.new.items ≡ text.old.items ++ (word.now ++ next_field path.now)) }
{
    text.extend_from_slice(word)?;
    append_field(text, path.as_bytes())
}

/// Appends a word and two paths.
fn append_two_paths(
    text: &mut Vec<u8>,
    word: &[u8],
    first: &PathText,
    second: &PathText,
) -> Result<(), AllocError>
    ensures { OnOk result (text.new.items
        ≡ text.old.items ++ (word.now ++ next_field first.now ++ next_field second.now)) }
{
    append_path(text, word, first)?;
    append_field(text, second.as_bytes())
}

/// Appends a word and a descriptor.
fn append_use(text: &mut Vec<u8>, word: &[u8], descriptor: Descriptor) -> Result<(), AllocError>
    ensures { OnOk result (text.new.items
        ≡ text.old.items ++ (word.now ++ 32 ∷ descriptor_field descriptor)) }
{
    text.extend_from_slice(word)?;
    text.push(b' ')?;
    append_descriptor(text, descriptor)
}

/// Appends a space and a signed number.
fn append_offset(text: &mut Vec<u8>, offset: i64) -> Result<(), AllocError>
    ensures { OnOk result (text.new.items ≡ text.old.items ++ 32 ∷ signed_decimal offset) }
{
    text.push(b' ')?;
    append_signed(text, offset)
}

fn append_data_call(
    text: &mut Vec<u8>,
    descriptor: Descriptor,
    call: &DataCall,
) -> Result<(), AllocError>
    ensures { OnOk result (text.new.items ≡ text.old.items
        ++ join_with_byte 32 (data_fields (descriptor_field descriptor) call.now)) }
{
    match call {
        DataCall::Read(count) => {
            append_use(text, b"read", descriptor)?;
            append_sized(text, b" ", u64::from(*count))
        }
        DataCall::Pread(count, offset) => {
            append_use(text, b"pread", descriptor)?;
            append_sized(text, b" ", u64::from(*count))?;
            append_offset(text, *offset)
        }
        DataCall::Write(bytes) => {
            append_use(text, b"write", descriptor)?;
            append_field(text, bytes.as_bytes())
        }
        DataCall::Pwrite(bytes, offset) => {
            append_use(text, b"pwrite", descriptor)?;
            append_field(text, bytes.as_bytes())?;
            append_offset(text, *offset)
        }
        DataCall::Seek(offset, whence) => {
            append_use(text, b"seek", descriptor)?;
            append_offset(text, *offset)?;
            text.push(b' ')?;
            text.extend_from_slice(whence_word(*whence))
        }
        DataCall::Ftruncate(size) => {
            append_use(text, b"ftruncate", descriptor)?;
            append_offset(text, *size)
        }
        DataCall::Fstat => append_use(text, b"fstat", descriptor),
    }
}

fn append_base(text: &mut Vec<u8>, base: TraceBase) -> Result<(), AllocError>
    ensures { OnOk result (text.new.items ≡ text.old.items ++ base_field base) }
{
    match base {
        TraceBase::Cwd => text.extend_from_slice(b"cwd"),
        TraceBase::Fd(descriptor) => append_descriptor(text, descriptor),
    }
}

/// Appends a word, a base and a path.
fn append_path_from(
    text: &mut Vec<u8>,
    word: &[u8],
    base: TraceBase,
    path: &PathText,
) -> Result<(), AllocError>
    ensures { OnOk result (text.new.items
        ≡ text.old.items ++ (word.now ++ 32 ∷ base_field base ++ next_field path.now)) }
{
    text.extend_from_slice(word)?;
    text.push(b' ')?;
    append_base(text, base)?;
    append_field(text, path.as_bytes())
}

fn append_at_call(text: &mut Vec<u8>, call: &AtCall) -> Result<(), AllocError>
    ensures { OnOk result
        (text.new.items ≡ text.old.items ++ join_with_byte 32 (at_fields call.now)) }
{
    match call {
        AtCall::Openat(base, path, flags) => {
            append_path_from(text, b"openat", *base, path)?;
            text.push(b' ')?;
            append_flags(text, *flags)
        }
        AtCall::Mkdirat(base, path) => append_path_from(text, b"mkdirat", *base, path),
        AtCall::Rmdirat(base, path) => append_path_from(text, b"rmdirat", *base, path),
        AtCall::Unlinkat(base, path) => append_path_from(text, b"unlinkat", *base, path),
        AtCall::Fstatat(base, path) => append_path_from(text, b"fstatat", *base, path),
        AtCall::Renameat(base, path, new_base, new) => {
            append_path_from(text, b"renameat", *base, path)?;
            append_path_from(text, b"", *new_base, new)
        }
    }
}

fn append_call(text: &mut Vec<u8>, call: &TraceCall) -> Result<(), AllocError>
    ensures { OnOk result (text.new.items ≡ text.old.items ++ call_text call.now) }
{
    match call {
        TraceCall::Mkdir(path) => append_path(text, b"mkdir", path),
        TraceCall::Rmdir(path) => append_path(text, b"rmdir", path),
        TraceCall::Unlink(path) => append_path(text, b"unlink", path),
        TraceCall::Symlink(link, path) => append_two_paths(text, b"symlink", link, path),
        TraceCall::Rename(from, to) => append_two_paths(text, b"rename", from, to),
        TraceCall::Readlink(path) => append_path(text, b"readlink", path),
        TraceCall::Stat(path) => append_path(text, b"stat", path),
        TraceCall::Lstat(path) => append_path(text, b"lstat", path),
        TraceCall::List(path, start) => {
            append_path(text, b"list", path)?;
            append_sized(text, b" ", u64::from(*start))
        }
        TraceCall::Open(path, flags) => {
            append_path(text, b"open", path)?;
            text.push(b' ')?;
            append_flags(text, *flags)
        }
        TraceCall::Close(descriptor) => append_use(text, b"close", *descriptor),
        TraceCall::Dup(descriptor) => append_use(text, b"dup", *descriptor),
        TraceCall::Dup2(descriptor, target) => {
            append_use(text, b"dup2", *descriptor)?;
            append_use(text, b"", *target)
        }
        TraceCall::Data(descriptor, call) => append_data_call(text, *descriptor, call),
        TraceCall::Chdir(path) => append_path(text, b"chdir", path),
        TraceCall::Fchdir(descriptor) => append_use(text, b"fchdir", *descriptor),
        TraceCall::At(call) => append_at_call(text, call),
    }
}

fn append_threads(text: &mut Vec<u8>, threads: &[Text]) -> Result<(), AllocError>
    ensures { OnOk result (text.new.items ≡ text.old.items
        ++ flat_map (λ name. ended (thread_line name)) threads.now) }
{
    for name in threads {
        text.extend_from_slice(b"thread ")?;
        text.extend_from_slice(name.as_bytes())?;
        text.push(b'\n')?;
    }
    Ok(())
}

fn kind_word(proxied: bool) -> &'static [u8]
    ensures { result.now ≡ kind_word proxied }
{
    if proxied { b"proxied" } else { b"memory" }
}

fn append_backends(text: &mut Vec<u8>, backends: &[BackendLine]) -> Result<(), AllocError>
    ensures { OnOk result (text.new.items ≡ text.old.items
        ++ flat_map (λ backend. ended (backend_text backend)) backends.now) }
{
    for backend in backends {
        text.extend_from_slice(b"backend ")?;
        text.extend_from_slice(backend.name.as_bytes())?;
        text.push(b' ')?;
        text.extend_from_slice(kind_word(backend.proxied))?;
        text.push(b'\n')?;
    }
    Ok(())
}

/// The name of a thread by its number, and no bytes where there is none.
pub fn thread_name(threads: &[Text], number: u32) -> &[u8]
    ensures { result.now ≡ thread_name threads.now number }
{
    match threads.get(number as usize) {
        Some(name) => name.as_bytes(),
        None => b"",
    }
}

fn append_calls(text: &mut Vec<u8>, threads: &[Text], calls: &[CallLine]) -> Result<(), AllocError>
    ensures { OnOk result (text.new.items ≡ text.old.items
        ++ flat_map (λ line. ended (call_line threads.now line)) calls.now) }
{
    for line in calls {
        text.extend_from_slice(thread_name(threads, line.thread))?;
        text.extend_from_slice(b": ")?;
        append_call(text, &line.call)?;
        text.push(b'\n')?;
    }
    Ok(())
}

/// The trace's text: line 1, the threads, the backends and the calls, without comments and empty lines.
pub fn print_trace(alloc: Global, trace: &Trace) -> Result<Vec<u8>, AllocError>
    ensures { IfOk result (λ text. text.items ≡ text_of_trace (traced trace.now)) }
{
    let mut text = Vec::new(alloc);
    text.extend_from_slice(trace.version.header())?;
    text.push(b'\n')?;
    append_threads(&mut text, trace.threads.as_slice())?;
    append_backends(&mut text, trace.backends.as_slice())?;
    append_calls(&mut text, trace.threads.as_slice(), trace.calls.as_slice())?;
    Ok(text)
}
