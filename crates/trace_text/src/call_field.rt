ghost use Rattle.std.specs.Prelude.{◌≡◌};
ghost use Rattle.trace_text.specs.Fields.{count_in, number_max, offset_in};
ghost use Rattle.trace_text.specs.Words.{base_in, descriptor_in, reply_of, whence_in};

use crate::field::{read_number, read_signed};
use crate::openings::is_opening_at;
use crate::trace_call::{Descriptor, TraceBase};
use file_store::Whence;
use wf_core::OFFSET_MAX;

/// The greatest COUNT, START and FD.
const NUMBER_MAX: u64 = 4_294_967_295;

/// A COUNT, a START, or an FD that is a number.
pub(crate) fn count_in(field: &[u8]) -> Option<u32>
    ensures { result ≡ count_in field.now }
{
    Some(read_number(field, NUMBER_MAX)? as u32)
}

/// An OFFSET or a SIZE.
pub(crate) fn offset_in(field: &[u8]) -> Option<i64>
    ensures { result ≡ offset_in field.now }
{
    read_signed(field, OFFSET_MAX)
}

/// The reply that a number behind `@` names, where that is one of an opening call.
fn reply_of(openings: &[bool], digits: &[u8]) -> Option<Descriptor>
    ensures { result ≡ reply_of openings.now (count_in digits.now) }
{
    let call = count_in(digits)?;
    if is_opening_at(openings, call) {
        Some(Descriptor::ReplyOf(call))
    } else {
        None
    }
}

/// An FD: a number, or `@N`.
pub(crate) fn descriptor_in(openings: &[bool], field: &[u8]) -> Option<Descriptor>
    ensures { result ≡ descriptor_in openings.now field.now }
{
    match field {
        [] => None,
        [b'@', digits @ ..] => reply_of(openings, digits),
        _ => Some(Descriptor::Number(count_in(field)?)),
    }
}

/// A BASE: `cwd`, or an FD.
pub(crate) fn base_in(openings: &[bool], field: &[u8]) -> Option<TraceBase>
    ensures { result ≡ base_in openings.now field.now }
{
    if field == b"cwd".as_slice() {
        return Some(TraceBase::Cwd);
    }
    Some(TraceBase::Fd(descriptor_in(openings, field)?))
}

pub(crate) fn whence_in(word: &[u8]) -> Option<Whence>
    ensures { result ≡ whence_in word.now }
{
    if word == b"set".as_slice() {
        return Some(Whence::Set);
    }
    if word == b"cur".as_slice() {
        return Some(Whence::Cur);
    }
    if word == b"end".as_slice() {
        return Some(Whence::End);
    }
    None
}
