ghost use Rattle.std.specs.Prelude.{◌≡◌, ◌∷◌, ◌+◌, ◌*◌, Some, ◌==◌, ◌<◌, ◌^◌, length, position, option_map, [], IfNone, IfSome, MatchOption};
ghost use Rattle.std.specs.List.{list_all, slice_split};
ghost use Rattle.std.specs.Option.{option_copied};
ghost use Rattle.trace_text.specs.Fields.{at_most, fields_in, four_of, negative_of, has_leading_zero, is_label, is_label_byte, is_skipped, label_in, number_in, one_of, pieces_behind, pieces_of, signed_in, three_of, two_of};

use memchr::memchr;

/// The most bytes of the name of a thread or a backend.
const LABEL_MAX: usize = 16;

fn place_of(text: &[u8], byte: u8) -> Option<usize>
    ensures { result ≡ position (λ b. b == byte) text.now }
{
    memchr(byte, text)
}

/// The text before the first such byte, and the text behind it where there is one.
pub fn cut(text: &[u8], byte: u8) -> (&[u8], Option<&[u8]>)
    ensures pieces { slice_split (λ b. b == byte) text.now
        ≡ result.0.now ∷ pieces_behind byte (option_copied result.1) }
    ensures whole { IfNone result.1 (result.0.now ≡ text.now) }
    ensures shorter { IfSome result.1 (λ rest. length rest.now < length text.now) }
{
    match place_of(text, byte) {
        Some(at) => (&text[..at], Some(&text[at + 1..])),
        None => (text, None),
    }
}

/// The first line of a text and what is behind its byte 10, where it has one.
pub fn first_line(text: &[u8]) -> Option<(&[u8], &[u8])>
    ensures pieces { MatchOption result (pieces_of text.now ≡ text.now ∷ [])
        (λ x. pieces_of text.now ≡ x.0.now ∷ pieces_of x.1.now) }
    ensures shorter { IfSome result (λ x. length x.1.now < length text.now) }
{
    let (line, rest) = cut(text, b'\n');
    match rest {
        Some(rest) => Some((line, rest)),
        None => None,
    }
}

/// The field that a text is, where it has no space.
pub fn one_of(text: Option<&[u8]>) -> Option<&[u8]>
    ensures { option_copied result ≡ one_of (fields_in (option_copied text.entry)) }
{
    let (field, rest) = cut(text?, b' ');
    match rest {
        Some(_) => None,
        None => Some(field),
    }
}

/// The two fields that a text is, where it has one space.
pub fn two_of(text: Option<&[u8]>) -> Option<(&[u8], &[u8])>
    ensures { option_map (λ x. (x.0.now, x.1.now)) result
        ≡ two_of (fields_in (option_copied text.entry)) }
{
    let (first, rest) = cut(text?, b' ');
    let second = one_of(rest)?;
    Some((first, second))
}

/// The three fields that a text is, where it has two spaces.
pub fn three_of(text: Option<&[u8]>) -> Option<(&[u8], &[u8], &[u8])>
    ensures { option_map (λ x. (x.0.now, (x.1.now, x.2.now))) result
        ≡ three_of (fields_in (option_copied text.entry)) }
{
    let (first, rest) = cut(text?, b' ');
    let (second, third) = two_of(rest)?;
    Some((first, second, third))
}

/// The four fields that a text is, where it has three spaces.
pub(crate) fn four_of(text: Option<&[u8]>) -> Option<(&[u8], &[u8], &[u8], &[u8])>
    ensures { option_map (λ x. (x.0.now, (x.1.now, (x.2.now, x.3.now)))) result
        ≡ four_of (fields_in (option_copied text.entry)) }
{
    let (first, rest) = cut(text?, b' ');
    let (second, third, fourth) = three_of(rest)?;
    Some((first, second, third, fourth))
}

/// Whether a line is empty or a comment.
pub fn is_skipped(line: &[u8]) -> bool
    ensures { result ≡ is_skipped line.now }
{
    match line {
        [] => true,
        [byte, ..] => *byte == b'#',
    }
}

/// The name before the `:` that a field ends in.
pub(crate) fn label_in(field: &[u8]) -> Option<&[u8]>
    ensures { option_copied result ≡ label_in field.now }
{
    match field.split_last() {
        Some((b':', name)) => Some(name),
        _ => None,
    }
}

fn has_label_bytes(field: &[u8]) -> bool
    ensures { result ≡ list_all is_label_byte field.now }
{
    field
        .iter()
        .all(|byte| byte.is_ascii_alphanumeric() || *byte == b'_')
}

/// Whether the field is spelled as the name of a thread or a backend: 1 to 16 letters, digits and `_`, of ASCII.
pub fn is_name(field: &[u8]) -> bool
    ensures { result ≡ is_label field.now }
{
    !field.is_empty() && field.len() <= LABEL_MAX && has_label_bytes(field)
}

/// Whether a zero stands before another digit.
fn has_leading_zero(field: &[u8]) -> bool
    ensures { result ≡ has_leading_zero field.now }
{
    match field {
        [byte, _, ..] => *byte == b'0',
        _ => false,
    }
}

/// The number that the field is: decimal, without leading zeros, at most `limit`.
pub fn read_number(field: &[u8], limit: u64) -> Option<u64>
    ensures { result ≡ number_in limit field.now }
{
    if field.is_empty() || has_leading_zero(field) {
        return None;
    }
    let mut value: u64 = 0;
    for byte in field {
        if !byte.is_ascii_digit() {
            return None;
        }
        let digit = u64::from(*byte - b'0');
        value = next_value(value, digit, limit)?;
    }
    Some(value)
}

/// The number with one digit more behind it, where it is at most `limit`.
fn next_value(value: u64, digit: u64, limit: u64) -> Option<u64>
    ensures { result ≡ at_most limit (Some (10 * value + digit)) }
{
    let value = value.checked_mul(10)?.checked_add(digit)?;
    if value > limit {
        return None;
    }
    Some(value)
}

/// The number that the field is: decimal, without leading zeros, from `-limit` to `limit`. `-0` is none.
pub fn read_signed(field: &[u8], limit: u64) -> Option<i64>
    requires { limit < 2 ^ 63 }
    ensures { result ≡ signed_in limit field.now }
{
    match field {
        [] => None,
        [b'-', digits @ ..] => negative(read_number(digits, limit)?),
        _ => Some(read_number(field, limit)? as i64),
    }
}

fn negative(value: u64) -> Option<i64>
    requires { value < 2 ^ 63 }
    ensures { result ≡ negative_of (Some value) }
{
    if value == 0 {
        return None;
    }
    Some(-(value as i64))
}
