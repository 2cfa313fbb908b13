//! Header lines, and the length that one of them gives.
ghost use Rattle.std.specs.Prelude.{◌≡◌, ◌<◌, ◌≤◌, min, length, IfSome};
ghost use Rattle.std.specs.Char.{is_ascii_digit};
ghost use Rattle.std.specs.List.{prefix_len, position, list_all};
ghost use Rattle.rpc_frames.specs.Fields.{is_space, is_colon, number_after, value_length, trimmed_length, is_length_name, field_length, line_length};

use crate::FrameFault;

/// The longest body.
pub const BODY_LIMIT: u32 = 4_194_304;

fn leading_spaces(bytes: &[u8]) -> usize
    ensures count { result ≡ prefix_len is_space bytes.now }
    ensures within { result ≤ length bytes.now }
{
    bytes.iter().take_while(|b| **b == b' ').count()
}

fn leading_digits(bytes: &[u8]) -> usize
    ensures count { result ≡ prefix_len is_ascii_digit bytes.now }
    ensures within { result ≤ length bytes.now }
{
    bytes.iter().take_while(|b| b.is_ascii_digit()).count()
}

fn are_spaces(bytes: &[u8]) -> bool
    ensures { result ≡ list_all is_space bytes.now }
{
    bytes.iter().all(|b| *b == b' ')
}

// One more than the limit stands for every number above it.
fn capped_number(digits: &[u8]) -> u32
    ensures { result ≡ min (number_after 0 digits.now) 4194305 }
{
    let mut number = 0;
    for digit in digits {
        number = (10 * number + u32::from(digit.saturating_sub(b'0'))).min(BODY_LIMIT + 1);
    }
    number
}

fn trimmed_value(value: &[u8]) -> Result<u32, FrameFault>
    ensures { result ≡ trimmed_length value.now }
{
    let (digits, tail) = value.split_at(leading_digits(value));
    if digits.is_empty() || !are_spaces(tail) {
        return Err(FrameFault::BadHeader);
    }
    let number = capped_number(digits);
    if number > BODY_LIMIT {
        return Err(FrameFault::TooLong);
    }
    Ok(number)
}

fn read_value(value: &[u8]) -> Result<u32, FrameFault>
    ensures { result ≡ value_length value.now }
{
    trimmed_value(&value[leading_spaces(value)..])
}

fn is_content_length(name: &[u8]) -> bool
    ensures { result ≡ is_length_name name.now }
{
    name.eq_ignore_ascii_case(b"content-length")
}

fn field(told: Option<u32>, name: &[u8], value: &[u8]) -> Result<Option<u32>, FrameFault>
    ensures { result ≡ field_length told name.now value.now }
{
    if name.is_empty() {
        return Err(FrameFault::BadHeader);
    }
    if !is_content_length(name) {
        return Ok(told);
    }
    let given = read_value(value);
    match (told, given) {
        (Some(_), _) => Err(FrameFault::BadHeader),
        (None, Ok(number)) => Ok(Some(number)),
        (None, Err(fault)) => Err(fault),
    }
}

fn colon(text: &[u8]) -> Option<usize>
    ensures place { result ≡ position is_colon text.now }
    ensures within { IfSome result (λ at. at < length text.now) }
{
    text.iter().position(|b| *b == b':')
}

/// The length known after a header line, from the one known before it.
pub(crate) fn read_field(told: Option<u32>, text: &[u8]) -> Result<Option<u32>, FrameFault>
    ensures { result ≡ line_length told text.now }
{
    match colon(text) {
        None => Err(FrameFault::BadHeader),
        Some(at) => field(told, &text[..at], &text[at + 1..]),
    }
}
