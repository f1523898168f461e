ghost use Rattle.std.specs.Prelude.{◌≡◌, Bool, List, IfOk, option_map};
ghost use Rattle.std.specs.Option.{option_copied};
ghost use Rattle.trace_text.specs.Fields.{count_in, fields_in, path_in};
ghost use Rattle.trace_text.specs.Words.{flags_in, form_among, one, pair_rows, path_rows, two};

use crate::call_field::count_in;
use crate::field::{one_of, two_of};
use crate::open_flags::flags_in;
use crate::text_field::path_in;
use crate::trace_call::TraceCall;
use path_walk::OpenFlags;
use std::alloc::{AllocError, Global};
use wf_core::PathText;

/// The path that is the one field.
pub(crate) fn path_alone(
    alloc: Global,
    fields: Option<&[u8]>,
) -> Result<Option<PathText>, AllocError>
    ensures { IfOk result
        (λ path. path ≡ one path_in (fields_in (option_copied fields.entry))) }
{
    match one_of(fields) {
        Some(path) => path_in(alloc, path),
        None => Ok(None),
    }
}

/// The link's text and the path, or the two paths, that are the two fields.
fn two_paths(
    alloc: Global,
    fields: Option<&[u8]>,
) -> Result<Option<(PathText, PathText)>, AllocError>
    ensures { IfOk result
        (λ both. both ≡ two path_in path_in (fields_in (option_copied fields.entry))) }
{
    let Some((text, path)) = two_of(fields) else {
        return Ok(None);
    };
    let Some(text) = path_in(alloc, text)? else {
        return Ok(None);
    };
    let Some(path) = path_in(alloc, path)? else {
        return Ok(None);
    };
    Ok(Some((text, path)))
}

/// The path and the position that are the two fields.
fn path_with_start(
    alloc: Global,
    fields: Option<&[u8]>,
) -> Result<Option<(PathText, u32)>, AllocError>
    ensures { IfOk result
        (λ both. both ≡ two path_in count_in (fields_in (option_copied fields.entry))) }
{
    let Some((path, start)) = two_of(fields) else {
        return Ok(None);
    };
    let Some(path) = path_in(alloc, path)? else {
        return Ok(None);
    };
    let Some(start) = count_in(start) else {
        return Ok(None);
    };
    Ok(Some((path, start)))
}

/// The path and the flags that are the two fields.
fn path_with_flags(
    alloc: Global,
    fields: Option<&[u8]>,
) -> Result<Option<(PathText, OpenFlags)>, AllocError>
    ensures { IfOk result
        (λ both. both ≡ two path_in flags_in (fields_in (option_copied fields.entry))) }
{
    let Some((path, flags)) = two_of(fields) else {
        return Ok(None);
    };
    let Some(path) = path_in(alloc, path)? else {
        return Ok(None);
    };
    let Some(flags) = flags_in(flags) else {
        return Ok(None);
    };
    Ok(Some((path, flags)))
}

/// The call with a path alone that the fields behind a word make, where there is such a word.
pub(crate) fn path_call(
    alloc: Global,
    word: &[u8],
    fields: Option<&[u8]>,
) -> Result<Option<Option<TraceCall>>, AllocError>
    ensures { (openings : List Bool) → IfOk result (λ call. call ≡ option_map
        (λ form. form openings (fields_in (option_copied fields.entry)))
        (form_among path_rows word.now)) }
{
    if word == b"mkdir".as_slice() {
        return Ok(Some(path_alone(alloc, fields)?.map(TraceCall::Mkdir)));
    }
    if word == b"rmdir".as_slice() {
        return Ok(Some(path_alone(alloc, fields)?.map(TraceCall::Rmdir)));
    }
    if word == b"unlink".as_slice() {
        return Ok(Some(path_alone(alloc, fields)?.map(TraceCall::Unlink)));
    }
    if word == b"readlink".as_slice() {
        return Ok(Some(path_alone(alloc, fields)?.map(TraceCall::Readlink)));
    }
    if word == b"stat".as_slice() {
        return Ok(Some(path_alone(alloc, fields)?.map(TraceCall::Stat)));
    }
    if word == b"lstat".as_slice() {
        return Ok(Some(path_alone(alloc, fields)?.map(TraceCall::Lstat)));
    }
    Ok(None)
}

/// The call with a path and one field more.
pub(crate) fn pair_call(
    alloc: Global,
    word: &[u8],
    fields: Option<&[u8]>,
) -> Result<Option<Option<TraceCall>>, AllocError>
    ensures { (openings : List Bool) → IfOk result (λ call. call ≡ option_map
        (λ form. form openings (fields_in (option_copied fields.entry)))
        (form_among pair_rows word.now)) }
{
    if word == b"symlink".as_slice() {
        let both = two_paths(alloc, fields)?;
        return Ok(Some(both.map(|(text, path)| TraceCall::Symlink(text, path))));
    }
    if word == b"rename".as_slice() {
        let both = two_paths(alloc, fields)?;
        return Ok(Some(both.map(|(from, to)| TraceCall::Rename(from, to))));
    }
    if word == b"list".as_slice() {
        let both = path_with_start(alloc, fields)?;
        return Ok(Some(both.map(|(path, start)| TraceCall::List(path, start))));
    }
    if word == b"open".as_slice() {
        let both = path_with_flags(alloc, fields)?;
        return Ok(Some(both.map(|(path, flags)| TraceCall::Open(path, flags))));
    }
    Ok(None)
}
