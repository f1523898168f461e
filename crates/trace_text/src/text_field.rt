ghost use Rattle.std.specs.Prelude.{◌≡◌, ◌<◌, ◌≢◌, IfErr, IfOk, IfSome, IsErrOf, None, Some, length, option_map};
ghost use Rattle.std.specs.List.{list_all};
ghost use Rattle.trace_text.specs.Fields.{bytes_in, escape_value, first_in, hex_value, is_plain, path_in, text_in, unless_nul};

use std::alloc::{AllocError, Global};
use wf_core::{PathRefusal, PathText, Text};

/// Why a text field was not read.
#[derive(Clone, Copy, Debug, PartialEq, Eq, thiserror::Error)]
pub enum FieldRefusal {
    /// The field is empty, or holds a byte that stands neither for itself nor in an escape.
    #[error("the field is no text field")]
    NotAText,
    #[error("out of memory")]
    NoMemory,
}

/// Whether a byte of a text field stands for itself.
pub(crate) fn is_plain(byte: u8) -> bool
    ensures { result ≡ is_plain byte }
{
    (33..=126).contains(&byte) && byte != b'%'
}

/// Whether each byte stands for itself. It looks at them all, since a loop that does not stop takes many at once.
pub(crate) fn has_plain_bytes(field: &[u8]) -> bool
    ensures { result ≡ list_all is_plain field.now }
{
    field
        .iter()
        .fold(true, |plain, byte| plain & is_plain(*byte))
}

/// The value of a hexadecimal digit of either case.
fn hex_value(byte: u8) -> Option<u8>
    ensures value { result ≡ hex_value byte }
    ensures small { IfSome result (λ value. value < 16) }
{
    match byte {
        b'0'..=b'9' => Some(byte - b'0'),
        b'A'..=b'F' => Some(byte - b'A' + 10),
        b'a'..=b'f' => Some(byte - b'a' + 10),
        _ => None,
    }
}

/// The byte that `%` and two digits stand for.
fn escape_value(high: u8, low: u8) -> Option<u8>
    ensures { result ≡ escape_value high low }
{
    let high = hex_value(high)?;
    let low = hex_value(low)?;
    Some(16 * high + low)
}

/// The first byte that a field stands for, and what is left of the field behind it.
fn first_in(field: &[u8]) -> Option<(u8, &[u8])>
    requires { length field.now ≢ 0 }
    ensures value { bytes_in field.now ≡ first_in (option_map (λ x. (x.0, x.1.now)) result) }
    ensures shorter { IfSome result (λ x. length x.1.now < length field.now) }
{
    match field {
        [byte, rest @ ..] if is_plain(*byte) => Some((*byte, rest)),
        [b'%', high, low, rest @ ..] => Some((escape_value(*high, *low)?, rest)),
        _ => None,
    }
}

/// The bytes that a row of plain bytes and escapes stands for.
fn bytes_in(alloc: Global, field: &[u8]) -> Result<Option<Vec<u8>>, AllocError>
    ensures { IfOk result (λ bytes. option_map (λ v. v.items) bytes ≡ bytes_in field.now) }
{
    let mut bytes = Vec::with_capacity(alloc, field.len())?;
    let mut rest = field;
    while !rest.is_empty() {
        let Some((byte, left)) = first_in(rest) else {
            return Ok(None);
        };
        bytes.push(byte)?;
        rest = left;
    }
    Ok(Some(bytes))
}

/// What a text field stands for: `%_` alone for the empty text.
fn text_in(alloc: Global, field: &[u8]) -> Result<Option<Vec<u8>>, AllocError>
    ensures { IfOk result (λ text. option_map (λ v. v.items) text ≡ text_in field.now) }
{
    if field.is_empty() {
        return Ok(None);
    }
    if has_plain_bytes(field) {
        return Ok(Some(Vec::from_slice(alloc, field)?));
    }
    if field == b"%_".as_slice() {
        return Ok(Some(Vec::new(alloc)));
    }
    bytes_in(alloc, field)
}

/// Reads a text field: what it stands for.
pub fn read_text(alloc: Global, field: &[u8]) -> Result<Vec<u8>, FieldRefusal>
    ensures ok { IfOk result (λ text. text_in field.now ≡ Some text.items) }
    ensures refused { IsErrOf result FieldRefusal.NotAText → text_in field.now ≡ None }
{
    match text_in(alloc, field) {
        Ok(Some(text)) => Ok(text),
        Ok(None) => Err(FieldRefusal::NotAText),
        Err(_) => Err(FieldRefusal::NoMemory),
    }
}

/// The bytes that a field stands for.
pub(crate) fn bytes_of(alloc: Global, field: &[u8]) -> Result<Option<Text>, AllocError>
    ensures { IfOk result (λ text. text ≡ text_in field.now) }
{
    match text_in(alloc, field)? {
        Some(text) => Ok(Some(Text::new(text))),
        None => Ok(None),
    }
}

/// The path that bytes are, where none of them is 0.
fn path_of(alloc: Global, text: &[u8]) -> Result<Option<PathText>, AllocError>
    ensures { IfOk result (λ path. path ≡ unless_nul (Some text.now)) }
{
    match PathText::read(alloc, text) {
        Ok(path) => Ok(Some(path)),
        Err(PathRefusal::HasNul) => Ok(None),
        Err(PathRefusal::NoMemory) => Err(AllocError),
    }
}

/// The path or the link's text that a field stands for.
pub(crate) fn path_in(alloc: Global, field: &[u8]) -> Result<Option<PathText>, AllocError>
    ensures { IfOk result (λ path. path ≡ path_in field.now) }
{
    if !field.is_empty() && has_plain_bytes(field) {
        return path_of(alloc, field);
    }
    match text_in(alloc, field)? {
        Some(text) => path_of(alloc, text.as_slice()),
        None => Ok(None),
    }
}
