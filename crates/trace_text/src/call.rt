ghost use Rattle.std.specs.Prelude.{◌≡◌, IfOk, option_map};
ghost use Rattle.std.specs.Option.{option_copied};
ghost use Rattle.trace_text.specs.Fields.{fields_in};
ghost use Rattle.trace_text.specs.Lines.{call_of};
ghost use Rattle.trace_text.specs.Words.{form_of};

use crate::descriptor_call::{data_call, descriptor_call};
use crate::field::cut;
use crate::path_call::{pair_call, path_call};
use crate::refusal::Fault;
use crate::relative_call::later_call;
use crate::trace_call::TraceCall;
use crate::version::Version;
use std::alloc::{AllocError, Global};

/// The call that the fields behind a word make, where there is such a word.
fn call_behind(
    alloc: Global,
    version: Version,
    word: &[u8],
    openings: &[bool],
    fields: Option<&[u8]>,
) -> Result<Option<Option<TraceCall>>, AllocError>
    ensures { IfOk result (λ call. call ≡ option_map
        (λ form. form openings.now (fields_in (option_copied fields.entry)))
        (form_of version word.now)) }
{
    if let Some(call) = path_call(alloc, word, fields)? {
        return Ok(Some(call));
    }
    if let Some(call) = pair_call(alloc, word, fields)? {
        return Ok(Some(call));
    }
    if let Some(call) = descriptor_call(word, openings, fields) {
        return Ok(Some(call));
    }
    if let Some(call) = data_call(alloc, word, openings, fields)? {
        return Ok(Some(call));
    }
    later_call(alloc, version, word, openings, fields)
}

/// The call that the fields behind a label make in that version, or why they make none. `openings` says of the earlier calls of the
/// thread which are opening calls.
pub(crate) fn call_of(
    alloc: Global,
    version: Version,
    openings: &[bool],
    fields: Option<&[u8]>,
) -> Result<Result<TraceCall, Fault>, AllocError>
    ensures { IfOk result
        (λ call. call ≡ call_of version openings.now (fields_in (option_copied fields.entry))) }
{
    let Some(fields) = fields else {
        return Ok(Err(Fault::UnknownWord));
    };
    let (word, fields) = cut(fields, b' ');
    match call_behind(alloc, version, word, openings, fields)? {
        Some(Some(call)) => Ok(Ok(call)),
        Some(None) => Ok(Err(Fault::BadArgument)),
        None => Ok(Err(Fault::UnknownWord)),
    }
}
