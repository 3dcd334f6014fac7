//! The number that a text stands for. ECMA-262, 7.1.4.1, for plain decimal numbers.
ghost use Rattle.std.specs.Prelude.{◌≡◌};
ghost use Rattle.swc_ast.specs.Operators as operators;
ghost use Rattle.swc_ast.specs.Operators.{whole, negative_whole, of_digits, numeric_text, text_to_number};
ghost use Rattle.std.specs.Prelude.{pos};
ghost use Rattle.swc_utils.specs.Sound.{known_number};
ghost use Rattle.swc_utils.specs.Digits.{capped, digits_spelled};

use crate::answers::Value;

/// 2^53 - 1
const GREATEST: u64 = 9007199254740991;

/// White space and line ends of ASCII.
fn is_space(c: u8) -> bool
    ensures { result ≡ operators.is_space c }
{
    c == 32 || 9 <= c && c <= 13
}

fn is_digit(c: u8) -> bool
    ensures { result ≡ operators.is_digit c }
{
    48 <= c && c <= 57
}

fn skip_spaces(text: &[u8]) -> &[u8]
    ensures { result.now ≡ operators.skip_spaces text.now }
{
    let mut left = text;
    while let [c, rest @ ..] = left {
        if !is_space(*c) {
            return left;
        }
        left = rest;
    }
    left
}

#[tactic(auto, using(crate::proofs::Trimmed::trims_on, crate::proofs::Trimmed::trims_no_more))]
fn trim_end(text: &[u8]) -> &[u8]
    ensures { result.now ≡ operators.trim_end text.now }
{
    let mut left = text;
    while let [rest @ .., c] = left {
        if !is_space(*c) {
            return left;
        }
        left = rest;
    }
    left
}

fn starts_in_ascii(text: &[u8]) -> bool
    ensures { result ≡ operators.starts_in_ascii text.now }
{
    match text {
        [] => true,
        [c, ..] => *c < 128,
    }
}

#[tactic(auto, using(crate::proofs::Trimmed::ends_at_last))]
fn ends_in_ascii(text: &[u8]) -> bool
    ensures { result ≡ operators.ends_in_ascii text.now }
{
    match text {
        [] => true,
        [.., c] => *c < 128,
    }
}

/// The number that decimal digits spell, at least one and at most 2^53 - 1.
fn spelled(digits: &[u8]) -> Option<u64>
    ensures { result ≡ capped (digits_spelled digits.now) }
{
    if let [] = digits {
        return None;
    }
    let mut number = 0u64;
    for c in digits {
        if !is_digit(*c) {
            return None;
        }
        number = 10 * number + u64::from(*c - 48);
        if GREATEST < number {
            return None;
        }
    }
    Some(number)
}

fn positive(digits: &[u8]) -> Value<Option<i64>>
    ensures { known_number result ≡ of_digits (λ n. whole (pos n)) digits.now }
{
    match spelled(digits) {
        Some(n) => Value::Known(Some(n as i64)),
        None => Value::Unknown,
    }
}

/// Minus the number that digits spell; -0 is not known.
fn negative(digits: &[u8]) -> Value<Option<i64>>
    ensures { known_number result ≡ of_digits negative_whole digits.now }
{
    match spelled(digits) {
        Some(n) => {
            if n == 0 {
                return Value::Unknown;
            }
            Value::Known(Some(-(n as i64)))
        }
        None => Value::Unknown,
    }
}

/// The number of a text without white space round it.
fn number_of_bare(text: &[u8]) -> Value<Option<i64>>
    ensures { known_number result ≡ numeric_text text.now }
{
    match text {
        [] => Value::Known(Some(0)),
        [c, rest @ ..] => {
            if *c == 45 {
                return negative(rest);
            }
            if *c == 43 {
                return positive(rest);
            }
            if is_digit(*c) {
                return positive(text);
            }
            if *c == 46 || *c == 73 {
                return Value::Unknown;
            }
            Value::Known(None)
        }
    }
}

/// The number that a text stands for; NaN where there is none. Not known: a text that is no plain decimal number and
/// begins as one, -0, a number past 2^53 - 1, and a text that begins or ends with a character that isn't ASCII, ASCII
/// white space aside.
pub(crate) fn number_of_text(text: &str) -> Value<Option<i64>>
    ensures { known_number result ≡ text_to_number text.now }
{
    let bare = trim_end(skip_spaces(text.as_bytes()));
    if starts_in_ascii(bare) && ends_in_ascii(bare) {
        return number_of_bare(bare);
    }
    Value::Unknown
}
