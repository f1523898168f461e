ghost use Rattle.std.specs.Prelude.{◌≡◌, IfOk, option_map};
ghost use Rattle.std.specs.Option.{option_copied};
ghost use Rattle.trace_text.specs.Fields.{count_in, fields_in, offset_in, text_in};
ghost use Rattle.trace_text.specs.Words.{data_rows, descriptor_in, descriptor_rows, form_among, one, three, two, whence_in};

use crate::call_field::{count_in, descriptor_in, offset_in, whence_in};
use crate::field::{one_of, three_of, two_of};
use crate::text_field::bytes_of;
use crate::trace_call::{Descriptor, TraceCall};
use file_store::Whence;
use path_walk::DataCall;
use std::alloc::{AllocError, Global};
use wf_core::Text;

/// The descriptor that is the one field.
pub(crate) fn descriptor_alone(openings: &[bool], fields: Option<&[u8]>) -> Option<Descriptor>
    ensures { result
        ≡ one (descriptor_in openings.now) (fields_in (option_copied fields.entry)) }
{
    descriptor_in(openings, one_of(fields)?)
}

fn two_descriptors(openings: &[bool], fields: Option<&[u8]>) -> Option<(Descriptor, Descriptor)>
    ensures { result ≡ two (descriptor_in openings.now) (descriptor_in openings.now)
        (fields_in (option_copied fields.entry)) }
{
    let (descriptor, target) = two_of(fields)?;
    Some((
        descriptor_in(openings, descriptor)?,
        descriptor_in(openings, target)?,
    ))
}

fn descriptor_with_size(openings: &[bool], fields: Option<&[u8]>) -> Option<(Descriptor, i64)>
    ensures { result ≡ two (descriptor_in openings.now) offset_in
        (fields_in (option_copied fields.entry)) }
{
    let (descriptor, size) = two_of(fields)?;
    Some((descriptor_in(openings, descriptor)?, offset_in(size)?))
}

fn descriptor_with_count(openings: &[bool], fields: Option<&[u8]>) -> Option<(Descriptor, u32)>
    ensures { result ≡ two (descriptor_in openings.now) count_in
        (fields_in (option_copied fields.entry)) }
{
    let (descriptor, count) = two_of(fields)?;
    Some((descriptor_in(openings, descriptor)?, count_in(count)?))
}

fn descriptor_with_count_and_offset(
    openings: &[bool],
    fields: Option<&[u8]>,
) -> Option<(Descriptor, u32, i64)>
    ensures { option_map (λ x. (x.0, (x.1, x.2))) result
        ≡ three (descriptor_in openings.now) count_in offset_in
        (fields_in (option_copied fields.entry)) }
{
    let (descriptor, count, offset) = three_of(fields)?;
    Some((
        descriptor_in(openings, descriptor)?,
        count_in(count)?,
        offset_in(offset)?,
    ))
}

fn descriptor_with_offset_and_whence(
    openings: &[bool],
    fields: Option<&[u8]>,
) -> Option<(Descriptor, i64, Whence)>
    ensures { option_map (λ x. (x.0, (x.1, x.2))) result
        ≡ three (descriptor_in openings.now) offset_in whence_in
        (fields_in (option_copied fields.entry)) }
{
    let (descriptor, offset, whence) = three_of(fields)?;
    Some((
        descriptor_in(openings, descriptor)?,
        offset_in(offset)?,
        whence_in(whence)?,
    ))
}

fn descriptor_with_bytes(
    alloc: Global,
    openings: &[bool],
    fields: Option<&[u8]>,
) -> Result<Option<(Descriptor, Text)>, AllocError>
    ensures { IfOk result (λ both. both ≡ two (descriptor_in openings.now) text_in
        (fields_in (option_copied fields.entry))) }
{
    let Some((descriptor, bytes)) = two_of(fields) else {
        return Ok(None);
    };
    let Some(descriptor) = descriptor_in(openings, descriptor) else {
        return Ok(None);
    };
    let Some(bytes) = bytes_of(alloc, bytes)? else {
        return Ok(None);
    };
    Ok(Some((descriptor, bytes)))
}

fn descriptor_with_bytes_and_offset(
    alloc: Global,
    openings: &[bool],
    fields: Option<&[u8]>,
) -> Result<Option<(Descriptor, Text, i64)>, AllocError>
    ensures { IfOk result (λ all. option_map (λ x. (x.0, (x.1, x.2))) all
        ≡ three (descriptor_in openings.now) text_in offset_in
        (fields_in (option_copied fields.entry))) }
{
    let Some((descriptor, bytes, offset)) = three_of(fields) else {
        return Ok(None);
    };
    let Some(descriptor) = descriptor_in(openings, descriptor) else {
        return Ok(None);
    };
    let Some(bytes) = bytes_of(alloc, bytes)? else {
        return Ok(None);
    };
    let Some(offset) = offset_in(offset) else {
        return Ok(None);
    };
    Ok(Some((descriptor, bytes, offset)))
}

/// The call on descriptors that the fields behind a word make, where there is such a word.
pub(crate) fn descriptor_call(
    word: &[u8],
    openings: &[bool],
    fields: Option<&[u8]>,
) -> Option<Option<TraceCall>>
    ensures { result ≡ option_map
        (λ form. form openings.now (fields_in (option_copied fields.entry)))
        (form_among descriptor_rows word.now) }
{
    if word == b"close".as_slice() {
        return Some(descriptor_alone(openings, fields).map(TraceCall::Close));
    }
    if word == b"dup".as_slice() {
        return Some(descriptor_alone(openings, fields).map(TraceCall::Dup));
    }
    if word == b"dup2".as_slice() {
        let both = two_descriptors(openings, fields);
        return Some(both.map(|(descriptor, target)| TraceCall::Dup2(descriptor, target)));
    }
    if word == b"fstat".as_slice() {
        let descriptor = descriptor_alone(openings, fields);
        return Some(descriptor.map(|descriptor| TraceCall::Data(descriptor, DataCall::Fstat)));
    }
    if word == b"ftruncate".as_slice() {
        let both = descriptor_with_size(openings, fields);
        return Some(both.map(|(descriptor, size)| {
            TraceCall::Data(descriptor, DataCall::Ftruncate(size))
        }));
    }
    None
}

/// The call that reads, writes or seeks.
pub(crate) fn data_call(
    alloc: Global,
    word: &[u8],
    openings: &[bool],
    fields: Option<&[u8]>,
) -> Result<Option<Option<TraceCall>>, AllocError>
    ensures { IfOk result (λ call. call ≡ option_map
        (λ form. form openings.now (fields_in (option_copied fields.entry)))
        (form_among data_rows word.now)) }
{
    if word == b"read".as_slice() {
        let both = descriptor_with_count(openings, fields);
        return Ok(Some(both.map(|(descriptor, count)| {
            TraceCall::Data(descriptor, DataCall::Read(count))
        })));
    }
    if word == b"pread".as_slice() {
        let all = descriptor_with_count_and_offset(openings, fields);
        return Ok(Some(all.map(|(descriptor, count, offset)| {
            TraceCall::Data(descriptor, DataCall::Pread(count, offset))
        })));
    }
    if word == b"write".as_slice() {
        let both = descriptor_with_bytes(alloc, openings, fields)?;
        return Ok(Some(both.map(|(descriptor, bytes)| {
            TraceCall::Data(descriptor, DataCall::Write(bytes))
        })));
    }
    if word == b"pwrite".as_slice() {
        let all = descriptor_with_bytes_and_offset(alloc, openings, fields)?;
        return Ok(Some(all.map(|(descriptor, bytes, offset)| {
            TraceCall::Data(descriptor, DataCall::Pwrite(bytes, offset))
        })));
    }
    if word == b"seek".as_slice() {
        let all = descriptor_with_offset_and_whence(openings, fields);
        return Ok(Some(all.map(|(descriptor, offset, whence)| {
            TraceCall::Data(descriptor, DataCall::Seek(offset, whence))
        })));
    }
    Ok(None)
}
