ghost use Rattle.std.specs.Prelude.{◌≡◌, ◌+◌, ◌∷◌, ◌++◌, [], ◌<◌, ◌≤◌, true, length, not, position, take, IfOk, IfSome, OnOk};
ghost use Rattle.std.specs.List.{flat_map, list_all};
ghost use Rattle.std.specs.Fmt.{decimal, signed_decimal};
ghost use Rattle.trace_text.specs.Fields.{byte_field, hex_digit, is_plain, text_field};
ghost use Rattle.trace_text.specs.Texts.{end_line, next_field, refusal_text};

use crate::refusal::Refusal;
use crate::text_field::{has_plain_bytes, is_plain};
use itoa::Buffer;
use std::alloc::{AllocError, Global};

/// Appends a number in decimal.
pub fn append_number(text: &mut Vec<u8>, number: u64) -> Result<(), AllocError>
    ensures { OnOk result (text.new.items ≡ text.old.items ++ decimal number) }
{
    let mut digits = Buffer::new();
    text.extend_from_slice(digits.format(number).as_bytes())
}

/// Appends a number in decimal, with `-` before one below 0.
pub fn append_signed(text: &mut Vec<u8>, number: i64) -> Result<(), AllocError>
    ensures { OnOk result (text.new.items ≡ text.old.items ++ signed_decimal number) }
{
    let mut digits = Buffer::new();
    text.extend_from_slice(digits.format(number).as_bytes())
}

/// A digit of upper case.
fn hex_digit(value: u8) -> u8
    requires { value < 16 }
    ensures { result ≡ hex_digit value }
{
    if value < 10 {
        return b'0' + value;
    }
    b'A' + (value - 10)
}

fn append_byte(text: &mut Vec<u8>, byte: u8) -> Result<(), AllocError>
    ensures { OnOk result (text.new.items ≡ text.old.items ++ byte_field byte) }
{
    if is_plain(byte) {
        text.push(byte)?;
        return Ok(());
    }
    text.extend_from_slice(&[b'%', hex_digit(byte / 16), hex_digit(byte % 16)])
}

/// The place of the first byte that is not plain.
fn first_other(bytes: &[u8]) -> Option<usize>
    ensures value { result ≡ position (λ byte. not (is_plain byte)) bytes.now }
    ensures within { IfSome result (λ place. place < length bytes.now) }
{
    bytes.iter().position(|byte| !is_plain(*byte))
}

/// How many plain bytes stand at the front.
#[tactic(auto, using(crate::proofs::TextFields::plain_front, crate::proofs::TextFields::all_plain))]
fn plain_size(bytes: &[u8]) -> usize
    ensures within { result ≤ length bytes.now }
    ensures plain { list_all is_plain (take result bytes.now) ≡ true }
{
    match first_other(bytes) {
        Some(size) => size,
        None => bytes.len(),
    }
}

/// Appends bytes, of which each run of plain ones is taken at once.
fn append_bytes(text: &mut Vec<u8>, bytes: &[u8]) -> Result<(), AllocError>
    ensures { OnOk result (text.new.items ≡ text.old.items ++ flat_map byte_field bytes.now) }
{
    let mut rest = bytes;
    while !rest.is_empty() {
        let (plain, others) = rest.split_at(plain_size(rest));
        text.extend_from_slice(plain)?;
        let Some((byte, left)) = others.split_first() else {
            return Ok(());
        };
        append_byte(text, *byte)?;
        rest = left;
    }
    Ok(())
}

/// Appends a text field.
#[tactic(auto, using(crate::proofs::TextFields::plain_fields))]
pub(crate) fn append_text(text: &mut Vec<u8>, bytes: &[u8]) -> Result<(), AllocError>
    ensures { OnOk result (text.new.items ≡ text.old.items ++ text_field bytes.now) }
{
    if bytes.is_empty() {
        return text.extend_from_slice(b"%_");
    }
    if has_plain_bytes(bytes) {
        return text.extend_from_slice(bytes);
    }
    append_bytes(text, bytes)
}

/// Appends a space and a text field.
pub fn append_field(text: &mut Vec<u8>, bytes: &[u8]) -> Result<(), AllocError>
    ensures { OnOk result (text.new.items ≡ text.old.items ++ next_field bytes.now) }
{
    text.push(b' ')?;
    append_text(text, bytes)
}

/// Appends a word and a number.
pub fn append_sized(text: &mut Vec<u8>, front: &[u8], size: u64) -> Result<(), AllocError>
    ensures { OnOk result (text.new.items ≡ text.old.items ++ (front.now ++ decimal size)) }
{
    text.extend_from_slice(front)?;
    append_number(text, size)
}

/// The text field of these bytes: those from 33 to 126 but `%` as they are, the others as `%XX`, and `%_` for none.
pub fn print_text(alloc: Global, bytes: &[u8]) -> Result<Vec<u8>, AllocError>
    ensures { IfOk result (λ field. field.items ≡ text_field bytes.now) }
{
    let mut field = Vec::with_capacity(alloc, bytes.len())?;
    append_text(&mut field, bytes)?;
    Ok(field)
}

/// Appends `end`, the last line of each text.
pub fn push_end_line(text: &mut Vec<u8>) -> Result<(), AllocError>
    ensures { OnOk result (text.new.items ≡ text.old.items ++ end_line) }
{
    text.extend_from_slice(b"end\n")
}

/// `line N: WORD` with its byte 10.
pub fn refusal_line(alloc: Global, refusal: Refusal) -> Result<Vec<u8>, AllocError>
    ensures { IfOk result (λ text. text.items ≡ refusal_text refusal) }
{
    let line = refusal.line;
    let word = refusal.fault.word();
    Ok(format!(in alloc; "line {line}: {word}\n")?.into_bytes())
}
