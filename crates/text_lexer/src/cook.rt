//! What literals stand for.
use crate::fault::{Construct, Fault};
use std::alloc::Global;

/// The greatest number that is read.
const GREATEST: i64 = 9_007_199_254_740_991;

/// The value of a number's text, which begins with a digit or a dot (ECMA-262, 12.9.3). Only `0` and decimal digits without a
/// leading zero have one; past 2^53 - 1 they are `NumberRange`, and other numbers of the grammar are `OutOfCore`.
pub fn number(text: &[u8], at: u32) -> Result<i64, Fault> {
    let mut value: i64 = 0;
    for (i, byte) in text.iter().enumerate() {
        let byte = *byte;
        if !byte.is_ascii_digit() || (i == 1 && value == 0) {
            return Err(not_decimal(text, at));
        }
        value = value
            .saturating_mul(10)
            .saturating_add(i64::from(byte - b'0'));
    }
    if value > GREATEST {
        return Err(Fault::NumberRange { at });
    }
    Ok(value)
}

/// The digits that a number's first signs promise.
#[derive(Clone, Copy)]
enum Radix {
    Binary,
    Octal,
    Decimal,
    Hex,
}

impl Radix {
    fn of(text: &[u8]) -> Radix {
        match text {
            [b'0', b'x' | b'X', ..] => Radix::Hex,
            [b'0', b'o' | b'O', ..] => Radix::Octal,
            [b'0', b'b' | b'B', ..] => Radix::Binary,
            _ => Radix::Decimal,
        }
    }

    /// Whether a number of the grammar has these digits, with separators, a fraction and an exponent where it may.
    fn admits(self, digits: &[u8]) -> bool {
        let mut in_exponent = false;
        for byte in digits {
            let fits = match (self, *byte) {
                (_, b'0' | b'1' | b'_') => true,
                (Radix::Hex, digit) => digit.is_ascii_hexdigit(),
                (Radix::Octal, digit) => (b'2'..=b'7').contains(&digit),
                (Radix::Binary, _) => false,
                (Radix::Decimal, b'e' | b'E') => !in_exponent,
                (Radix::Decimal, sign) => sign.is_ascii_digit()
                    || matches!(sign, b'.' | b'+' | b'-'),
            };
            if !fits {
                return false;
            }
            in_exponent = in_exponent || matches!(*byte, b'e' | b'E');
        }
        !digits.is_empty()
    }
}

/// What a number's text is that is no plain decimal.
fn not_decimal(text: &[u8], at: u32) -> Fault {
    let radix = Radix::of(text);
    let is_big = text.last() == Some(&b'n');
    let end = if is_big {
        text.len().saturating_sub(1)
    } else {
        text.len()
    };
    let from = if matches!(radix, Radix::Decimal) {
        0
    } else {
        2
    };
    if !radix.admits(text.get(from..end).unwrap_or(b"")) {
        return Fault::Syntax { at };
    }
    let what = if is_big {
        Construct::BigInt
    } else {
        Construct::Number
    };
    Fault::OutOfCore { at, what }
}

/// Where the reading of an escape stands.
#[derive(Clone, Copy)]
enum Escape {
    Outside,
    /// behind the backslash
    Begun,
    /// behind a carriage return
    LineBroken,
    /// digits to come, and the value so far
    Digits(u32, u32),
    /// behind `\u`
    Unicode,
    /// behind the opening brace
    Brace,
    /// inside the braces, with the value so far
    Braced(u32),
    /// behind `\0`
    Zero,
}

/// What the text of a literal or of a template's part stands for, given without its quotes (ECMA-262, 12.9.4 and 12.9.6). In a
/// template a carriage return, with a line feed or without one, is a line feed. An escape of no grammar is `Syntax`.
pub fn text(alloc: Global, raw: &str, at: u32) -> Result<String, Fault> {
    let mut value = String::with_capacity(alloc, raw.len())?;
    let mut escape = Escape::Outside;
    let mut high: u32 = 0;
    for c in raw.chars() {
        let (next, unit) = step(escape, c).ok_or(Fault::Syntax { at })?;
        escape = next;
        let Some(unit) = unit else {
            continue;
        };
        if high != 0 {
            let Some(both) = joined(high, unit) else {
                return Err(surrogate(at));
            };
            value.push(both)?;
            high = 0;
        } else if (0xD800..0xDC00).contains(&unit) {
            high = unit;
        } else {
            let Some(one) = char::from_u32(unit) else {
                return Err(surrogate(at));
            };
            value.push(one)?;
        }
    }
    if high != 0 {
        return Err(surrogate(at));
    }
    match escape {
        Escape::Outside | Escape::Zero | Escape::LineBroken => Ok(value),
        _ => Err(Fault::Syntax { at }),
    }
}

fn surrogate(at: u32) -> Fault {
    Fault::OutOfCore {
        at,
        what: Construct::Surrogate,
    }
}

/// The character of two surrogates.
fn joined(high: u32, low: u32) -> Option<char> {
    if !(0xD800..0xDC00).contains(&high) || !(0xDC00..0xE000).contains(&low) {
        return None;
    }
    char::from_u32(0x10000 + (high - 0xD800) * 0x400 + (low - 0xDC00))
}

/// One character more: where the reading stands then, and the unit or the character that is complete. There is no answer where
/// the escape is of no grammar.
fn step(escape: Escape, c: char) -> Option<(Escape, Option<u32>)> {
    match escape {
        Escape::Outside => Some(plain(c)),
        Escape::Begun => begun(c),
        Escape::LineBroken if c == '\n' => Some((Escape::Outside, None)),
        Escape::LineBroken => Some(plain(c)),
        Escape::Digits(left, value) => digit(left, value, c),
        Escape::Unicode if c == '{' => Some((Escape::Brace, None)),
        Escape::Unicode => digit(4, 0, c),
        Escape::Brace => braced(0, c),
        Escape::Braced(value) if c == '}' => Some((Escape::Outside, Some(value))),
        Escape::Braced(value) => braced(value, c),
        Escape::Zero if c.is_ascii_digit() => None,
        Escape::Zero => Some(plain(c)),
    }
}

fn plain(c: char) -> (Escape, Option<u32>) {
    match c {
        '\\' => (Escape::Begun, None),
        '\r' => (Escape::LineBroken, Some(10)),
        _ => (Escape::Outside, Some(c as u32)),
    }
}

/// One digit more of so many that are left.
fn digit(left: u32, value: u32, c: char) -> Option<(Escape, Option<u32>)> {
    let value = value.saturating_mul(16).saturating_add(c.to_digit(16)?);
    if left <= 1 {
        Some((Escape::Outside, Some(value)))
    } else {
        Some((Escape::Digits(left - 1, value), None))
    }
}

/// One digit more in the braces of an escape.
fn braced(value: u32, c: char) -> Option<(Escape, Option<u32>)> {
    let value = value.saturating_mul(16).saturating_add(c.to_digit(16)?);
    if value > 0x10FFFF {
        return None;
    }
    Some((Escape::Braced(value), None))
}

/// The character behind a backslash.
fn begun(c: char) -> Option<(Escape, Option<u32>)> {
    let unit = match c {
        'n' => 10,
        't' => 9,
        'r' => 13,
        'b' => 8,
        'v' => 11,
        'f' => 12,
        'x' => return Some((Escape::Digits(2, 0), None)),
        'u' => return Some((Escape::Unicode, None)),
        '0' => return Some((Escape::Zero, Some(0))),
        '1'..='9' => return None,
        '\r' => return Some((Escape::LineBroken, None)),
        '\n' | '\u{2028}' | '\u{2029}' => return Some((Escape::Outside, None)),
        _ => c as u32,
    };
    Some((Escape::Outside, Some(unit)))
}
