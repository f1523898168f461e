ghost use Rattle.std.specs.Prelude.{◌≡◌, IfOk, option_map};
ghost use Rattle.std.specs.Option.{option_copied};
ghost use Rattle.trace_text.specs.Fields.{fields_in, path_in};
ghost use Rattle.trace_text.specs.Words.{base_in, base_rows, flags_in, form_among, four, later_form, relative_rows, three, two};

use crate::call_field::base_in;
use crate::descriptor_call::descriptor_alone;
use crate::field::{four_of, three_of, two_of};
use crate::open_flags::flags_in;
use crate::path_call::path_alone;
use crate::text_field::path_in;
use crate::trace_call::{AtCall, TraceBase, TraceCall};
use crate::version::Version;
use path_walk::OpenFlags;
use std::alloc::{AllocError, Global};
use wf_core::PathText;

/// The base and the path that are the two fields.
fn base_with_path(
    alloc: Global,
    openings: &[bool],
    fields: Option<&[u8]>,
) -> Result<Option<(TraceBase, PathText)>, AllocError>
    ensures { IfOk result (λ both. both ≡ two (base_in openings.now) path_in
        (fields_in (option_copied fields.entry))) }
{
    let Some((base, path)) = two_of(fields) else {
        return Ok(None);
    };
    let Some(base) = base_in(openings, base) else {
        return Ok(None);
    };
    let Some(path) = path_in(alloc, path)? else {
        return Ok(None);
    };
    Ok(Some((base, path)))
}

/// The base, the path and the flags that are the three fields.
fn base_with_path_and_flags(
    alloc: Global,
    openings: &[bool],
    fields: Option<&[u8]>,
) -> Result<Option<(TraceBase, PathText, OpenFlags)>, AllocError>
    ensures { IfOk result (λ all. option_map (λ x. (x.0, (x.1, x.2))) all
        ≡ three (base_in openings.now) path_in flags_in
        (fields_in (option_copied fields.entry))) }
{
    let Some((base, path, flags)) = three_of(fields) else {
        return Ok(None);
    };
    let Some(base) = base_in(openings, base) else {
        return Ok(None);
    };
    let Some(path) = path_in(alloc, path)? else {
        return Ok(None);
    };
    let Some(flags) = flags_in(flags) else {
        return Ok(None);
    };
    Ok(Some((base, path, flags)))
}

/// The two bases, each with its path, that are the four fields.
fn two_bases_with_paths(
    alloc: Global,
    openings: &[bool],
    fields: Option<&[u8]>,
) -> Result<Option<(TraceBase, PathText, TraceBase, PathText)>, AllocError>
    ensures { IfOk result (λ all. option_map (λ x. (x.0, (x.1, (x.2, x.3)))) all
        ≡ four (base_in openings.now) path_in (base_in openings.now) path_in
        (fields_in (option_copied fields.entry))) }
{
    let Some((base, path, new_base, new)) = four_of(fields) else {
        return Ok(None);
    };
    let Some(base) = base_in(openings, base) else {
        return Ok(None);
    };
    let Some(path) = path_in(alloc, path)? else {
        return Ok(None);
    };
    let Some(new_base) = base_in(openings, new_base) else {
        return Ok(None);
    };
    let Some(new) = path_in(alloc, new)? else {
        return Ok(None);
    };
    Ok(Some((base, path, new_base, new)))
}

/// The call with a base and a path alone that the fields behind a word make, where there is such a word.
fn base_call(
    alloc: Global,
    word: &[u8],
    openings: &[bool],
    fields: Option<&[u8]>,
) -> Result<Option<Option<TraceCall>>, AllocError>
    ensures { IfOk result (λ call. call ≡ option_map
        (λ form. form openings.now (fields_in (option_copied fields.entry)))
        (form_among base_rows word.now)) }
{
    if word == b"mkdirat".as_slice() {
        let both = base_with_path(alloc, openings, fields)?;
        return Ok(Some(both.map(|(base, path)| TraceCall::At(AtCall::Mkdirat(base, path)))));
    }
    if word == b"rmdirat".as_slice() {
        let both = base_with_path(alloc, openings, fields)?;
        return Ok(Some(both.map(|(base, path)| TraceCall::At(AtCall::Rmdirat(base, path)))));
    }
    if word == b"unlinkat".as_slice() {
        let both = base_with_path(alloc, openings, fields)?;
        return Ok(Some(both.map(|(base, path)| TraceCall::At(AtCall::Unlinkat(base, path)))));
    }
    if word == b"fstatat".as_slice() {
        let both = base_with_path(alloc, openings, fields)?;
        return Ok(Some(both.map(|(base, path)| TraceCall::At(AtCall::Fstatat(base, path)))));
    }
    Ok(None)
}

/// The call that sets the current directory, opens from a base, or has two bases.
fn relative_call(
    alloc: Global,
    word: &[u8],
    openings: &[bool],
    fields: Option<&[u8]>,
) -> Result<Option<Option<TraceCall>>, AllocError>
    ensures { IfOk result (λ call. call ≡ option_map
        (λ form. form openings.now (fields_in (option_copied fields.entry)))
        (form_among relative_rows word.now)) }
{
    if word == b"chdir".as_slice() {
        return Ok(Some(path_alone(alloc, fields)?.map(TraceCall::Chdir)));
    }
    if word == b"fchdir".as_slice() {
        return Ok(Some(descriptor_alone(openings, fields).map(TraceCall::Fchdir)));
    }
    if word == b"openat".as_slice() {
        let all = base_with_path_and_flags(alloc, openings, fields)?;
        return Ok(Some(all.map(|(base, path, flags)| {
            TraceCall::At(AtCall::Openat(base, path, flags))
        })));
    }
    if word == b"renameat".as_slice() {
        let all = two_bases_with_paths(alloc, openings, fields)?;
        return Ok(Some(all.map(|(base, path, new_base, new)| {
            TraceCall::At(AtCall::Renameat(base, path, new_base, new))
        })));
    }
    Ok(None)
}

/// The call that a version has beside those of version 1.
pub(crate) fn later_call(
    alloc: Global,
    version: Version,
    word: &[u8],
    openings: &[bool],
    fields: Option<&[u8]>,
) -> Result<Option<Option<TraceCall>>, AllocError>
    ensures { IfOk result (λ call. call ≡ option_map
        (λ form. form openings.now (fields_in (option_copied fields.entry)))
        (later_form version word.now)) }
{
    if version == Version::One {
        return Ok(None);
    }
    if let Some(call) = base_call(alloc, word, openings, fields)? {
        return Ok(Some(call));
    }
    relative_call(alloc, word, openings, fields)
}
