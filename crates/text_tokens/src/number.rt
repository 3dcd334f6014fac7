//! Numbers.
ghost use Rattle.std.specs.Prelude.{◌≡◌, ◌≤◌, length, nat_le, IfSome};
ghost use Rattle.text_tokens.specs.Tokens as tokens;

use crate::blank::after_blanks;
use crate::bytes::{is_digit, word_goes_on};

fn number_goes_on(text: &[u8]) -> bool
    ensures { result ≡ tokens.number_goes_on text.now }
{
    match text {
        [first, ..] => word_goes_on(text) || *first == 46,
        _ => false,
    }
}

/// Whether bytes are digits alone.
fn all_digits(text: &[u8]) -> bool
    ensures { result ≡ tokens.all_digits text.now }
{
    match text {
        [first, rest @ ..] => is_digit(*first) && all_digits(rest),
        _ => true,
    }
}

/// Whether there is a digit, and no zero in front of others.
fn has_no_zero_before(text: &[u8]) -> bool
    ensures { result ≡ tokens.has_no_zero_before text.now }
{
    match text {
        [first, _, ..] => *first != b'0',
        [_] => true,
        _ => false,
    }
}

/// The value of digits behind others, if it is small enough.
fn value_of(digits: &[u8], before: u64) -> Option<u64>
    ensures { IfSome result (λ value. value ≡ tokens.decimal before digits.now) }
{
    match digits {
        [first, rest @ ..] => {
            if before < 1_000_000_000_000_000_000 && b'0' <= *first {
                value_of(rest, before * 10 + u64::from(*first - b'0'))
            } else {
                None
            }
        }
        _ => Some(before),
    }
}

/// How many digits stand at the front, at most 16.
fn digits_len(text: &[u8]) -> usize
    ensures { result ≤ length text.now }
{
    let mut len: usize = 0;
    for byte in text {
        if !is_digit(*byte) || len >= 16 {
            break;
        }
        len = len.saturating_add(1);
    }
    len.min(text.len())
}

/// Whether a number is its own value.
fn is_exact(value: u64) -> bool
    ensures { result ≡ nat_le value 9007199254740991 }
{
    value <= 9_007_199_254_740_991
}

/// What is behind a number of this value, where it stands at the front in plain decimal digits.
pub fn after_number<'a>(text: &'a [u8], value: u64) -> Option<&'a [u8]>
    ensures { IfSome result (λ rest. tokens.Number value text.now rest.now) }
{
    let place = after_blanks(text);
    let (digits, rest) = place.split_at(digits_len(place));
    if !all_digits(digits) || !has_no_zero_before(digits) || number_goes_on(rest) {
        return None;
    }
    let found = value_of(digits, 0)?;
    if !is_exact(found) {
        return None;
    }
    if found == value { Some(rest) } else { None }
}
