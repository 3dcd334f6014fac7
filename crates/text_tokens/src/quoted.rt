//! Texts in quotes and in templates.
ghost use Rattle.std.specs.Prelude.{◌≡◌, ◌≤◌, ◌<◌, ◌^◌, ◌++◌, ◌∷◌, encode_utf8, IfSome};
ghost use Rattle.text_tokens.specs.Texts as texts;
ghost use Rattle.text_tokens.specs.Texts.{Hexes, Unit, LineBreak, Escape, Piece, Pieces, Quoted, TemplateText};

use crate::blank::after_blanks;
use crate::bytes::{
    begins_byte, begins_line_end, behind, behind_byte, first_of, is_digit, is_separator,
};

fn is_hex(byte: u8) -> bool
    ensures { result ≡ texts.is_hex byte }
{
    is_digit(byte) || (65 <= byte && byte <= 70) || (97 <= byte && byte <= 102)
}

/// The value of a hexadecimal digit.
fn hex(byte: u8) -> u32
    ensures value { result ≡ texts.hex byte }
    ensures bound { result ≤ 255 }
{
    if 97 <= byte {
        u32::from(byte - 87)
    } else if 65 <= byte {
        u32::from(byte - 55)
    } else {
        u32::from(byte.saturating_sub(48))
    }
}

/// The value of so many hexadecimal digits behind others, and what is behind them.
fn after_hexes(text: &[u8], count: usize, before: u32) -> Option<(u32, &[u8])>
    ensures { IfSome result (λ found. Hexes count before found.0 text.now found.1.now) }
{
    if count == 0 {
        return Some((before, text));
    }
    let (first, rest) = first_of(text)?;
    if !is_hex(first) || before >= 1_000_000 {
        return None;
    }
    after_hexes(rest, count - 1, before * 16 + hex(first))
}

/// How many hexadecimal digits stand at the front.
fn hexes_len(text: &[u8]) -> usize {
    let mut len: usize = 0;
    for byte in text {
        if !is_hex(*byte) {
            break;
        }
        len = len.saturating_add(1);
    }
    len
}

/// What is behind the escape of a unit, whose backslash is left out, and the unit.
fn after_unit(text: &[u8]) -> Option<(u32, &[u8])>
    ensures { IfSome result (λ found. Unit found.0 text.now found.1.now) }
{
    let rest = behind_byte(text, 117)?;
    match behind_byte(rest, 123) {
        Some(digits) => after_braces(digits),
        None => after_hexes(rest, 4, 0),
    }
}

/// The same behind the brace.
fn after_braces(text: &[u8]) -> Option<(u32, &[u8])>
    ensures { IfSome result (λ found. texts.Braces found.0 text.now found.1.now) }
{
    let count = hexes_len(text);
    if count == 0 {
        return None;
    }
    let (unit, end) = after_hexes(text, count, 0)?;
    let rest = behind_byte(end, 125)?;
    Some((unit, rest))
}

fn is_scalar(unit: u32) -> bool
    ensures { result ≡ texts.is_scalar unit }
{
    !(55296 <= unit) || (57344 <= unit && unit <= 1114111)
}

fn is_high(unit: u32) -> bool
    ensures { result ≡ texts.is_high unit }
{
    55296 <= unit && unit <= 56319
}

fn is_low(unit: u32) -> bool
    ensures { result ≡ texts.is_low unit }
{
    56320 <= unit && unit <= 57343
}

/// The code point of two halves.
fn joined(high: u32, low: u32) -> u32
    requires high { high < 2 ^ 16 }
    requires low { low < 2 ^ 16 }
    ensures { result ≡ texts.joined high low }
{
    high.saturating_sub(55296) * 1024 + low.saturating_sub(56320) + 65536
}

/// What of a value is behind a code point.
fn behind_code(value: &[u8], code: u32) -> Option<&[u8]>
    ensures { IfSome result (λ left. value.now ≡ encode_utf8 code ++ left.now) }
{
    let one = char::from_u32(code)?;
    let mut bytes = [0; 4];
    let text = one.encode_utf8(&mut bytes);
    behind(value, text.as_bytes())
}

/// What is behind an escape of one unit, or of two that are one code point, and what of the value is behind it.
fn after_code<'a, 'b>(text: &'a [u8], value: &'b [u8]) -> Option<(&'a [u8], &'b [u8])>
    ensures { IfSome result (λ found. Escape value.now text.now found.1.now found.0.now) }
{
    let (unit, rest) = after_unit(text)?;
    if is_scalar(unit) {
        let left = behind_code(value, unit)?;
        return Some((rest, left));
    }
    let second = behind_byte(rest, 92)?;
    let (low, end) = after_unit(second)?;
    if !is_high(unit) || !is_low(low) {
        return None;
    }
    let left = behind_code(value, joined(unit, low))?;
    Some((end, left))
}

/// What is behind a carriage return, with a line feed or without one; the carriage return is left out.
fn after_return_break(text: &[u8]) -> Option<&[u8]>
    ensures { IfSome result (λ rest. LineBreak (13 ∷ text.now) rest.now) }
{
    if begins_byte(10, text) {
        behind_byte(text, 10)
    } else {
        Some(text)
    }
}

/// What is behind a separator.
fn after_separator(text: &[u8]) -> Option<&[u8]>
    ensures { IfSome result (λ rest. LineBreak text.now rest.now) }
{
    let (first, behind_first) = first_of(text)?;
    let (second, behind_second) = first_of(behind_first)?;
    let (third, rest) = first_of(behind_second)?;
    if is_separator(first, second, third) {
        Some(rest)
    } else {
        None
    }
}

/// What is behind a line end.
fn after_line_break(text: &[u8]) -> Option<&[u8]>
    ensures { IfSome result (λ rest. LineBreak text.now rest.now) }
{
    if let Some(rest) = behind_byte(text, 10) {
        return Some(rest);
    }
    match behind_byte(text, 13) {
        Some(rest) => after_return_break(rest),
        None => after_separator(text),
    }
}

fn is_single(text: &[u8]) -> bool
    ensures { result ≡ texts.is_single text.now }
{
    match text {
        [first, ..] => !(is_digit(*first)
            || *first == 120
            || *first == 117
            || begins_line_end(text)),
        _ => false,
    }
}

fn escaped_byte(byte: u8) -> u8
    ensures { result ≡ texts.escaped_byte byte }
{
    if byte == 98 {
        8
    } else if byte == 116 {
        9
    } else if byte == 110 {
        10
    } else if byte == 118 {
        11
    } else if byte == 102 {
        12
    } else if byte == 114 {
        13
    } else {
        byte
    }
}

fn begins_digit(text: &[u8]) -> bool
    ensures { result ≡ texts.begins_digit text.now }
{
    match text {
        [first, ..] => is_digit(*first),
        _ => false,
    }
}

/// What is behind a byte that is escaped by itself, whose backslash is left out, and what of the value is behind what it stands for.
fn after_single<'a, 'b>(text: &'a [u8], value: &'b [u8]) -> Option<(&'a [u8], &'b [u8])>
    ensures { IfSome result (λ found. Escape value.now text.now found.1.now found.0.now) }
{
    let (first, rest) = first_of(text)?;
    if !is_single(text) {
        return None;
    }
    let left = behind_byte(value, escaped_byte(first))?;
    Some((rest, left))
}

/// The same of `x41`.
fn after_two_hex<'a, 'b>(text: &'a [u8], value: &'b [u8]) -> Option<(&'a [u8], &'b [u8])>
    ensures { IfSome result (λ found. Escape value.now text.now found.1.now found.0.now) }
{
    let digits = behind_byte(text, 120)?;
    let (code, end) = after_hexes(digits, 2, 0)?;
    let left = behind_code(value, code)?;
    Some((end, left))
}

/// The same of a zero that no digit is behind.
fn after_zero<'a, 'b>(text: &'a [u8], value: &'b [u8]) -> Option<(&'a [u8], &'b [u8])>
    ensures { IfSome result (λ found. Escape value.now text.now found.1.now found.0.now) }
{
    let rest = behind_byte(text, 48)?;
    if begins_digit(rest) {
        return None;
    }
    let left = behind_byte(value, 0)?;
    Some((rest, left))
}

/// The same of a line end, which stands for nothing.
fn after_continued<'a, 'b>(text: &'a [u8], value: &'b [u8]) -> Option<(&'a [u8], &'b [u8])>
    ensures { IfSome result (λ found. Escape value.now text.now found.1.now found.0.now) }
{
    let rest = after_line_break(text)?;
    Some((rest, value))
}

/// The same of all that stands behind a backslash.
fn after_escape<'a, 'b>(text: &'a [u8], value: &'b [u8]) -> Option<(&'a [u8], &'b [u8])>
    ensures { IfSome result (λ found. Escape value.now text.now found.1.now found.0.now) }
{
    if is_single(text) {
        return after_single(text, value);
    }
    if begins_byte(117, text) {
        return after_code(text, value);
    }
    if begins_byte(120, text) {
        return after_two_hex(text, value);
    }
    if begins_byte(48, text) {
        after_zero(text, value)
    } else {
        after_continued(text, value)
    }
}

fn is_template(quote: u8) -> bool
    ensures { result ≡ texts.is_template quote }
{
    quote == 96
}

fn is_plain(quote: u8, byte: u8) -> bool
    ensures { result ≡ texts.is_plain quote byte }
{
    !(byte == 92 || byte == 13 || (byte == 10 && !is_template(quote)))
}

/// The same of a carriage return in a template, which is left out.
fn after_return<'a, 'b>(text: &'a [u8], quote: u8, value: &'b [u8]) -> Option<(&'a [u8], &'b [u8])>
    ensures { IfSome result (λ found. Piece quote value.now (13 ∷ text.now) found.1.now found.0.now) }
{
    if !is_template(quote) {
        return None;
    }
    let left = behind_byte(value, 10)?;
    if !begins_byte(10, text) {
        return Some((text, left));
    }
    let rest = behind_byte(text, 10)?;
    Some((rest, left))
}

/// What is behind a piece of a text, and what of the value is behind what it stands for.
fn after_piece<'a, 'b>(text: &'a [u8], quote: u8, value: &'b [u8]) -> Option<(&'a [u8], &'b [u8])>
    ensures { IfSome result (λ found. Piece quote value.now text.now found.1.now found.0.now) }
{
    let (first, rest) = first_of(text)?;
    if is_plain(quote, first) {
        let left = behind_byte(value, first)?;
        return Some((rest, left));
    }
    if let Some(escape) = behind_byte(text, 92) {
        return after_escape(escape, value);
    }
    let behind_return = behind_byte(text, 13)?;
    after_return(behind_return, quote, value)
}

fn ends(quote: u8, text: &[u8]) -> bool
    ensures { result ≡ texts.ends quote text.now }
{
    match text {
        [first, rest @ ..] => {
            *first == quote || (is_template(quote) && *first == 36 && begins_byte(123, rest))
        }
        _ => false,
    }
}

/// The end of a text, where nothing of the value is left.
fn at_end<'a>(text: &'a [u8], quote: u8, value: &[u8]) -> Option<&'a [u8]>
    ensures { IfSome result (λ rest. Pieces quote value.now text.now rest.now) }
{
    let left = value.len();
    if left > 0 {
        return None;
    }
    if ends(quote, text) { Some(text) } else { None }
}

/// What is left of a text in front of its quote, where it has this value.
fn after_pieces<'a>(text: &'a [u8], quote: u8, value: &[u8]) -> Option<&'a [u8]>
    ensures { IfSome result (λ rest. Pieces quote value.now text.now rest.now) }
{
    let mut rest = text;
    let mut left = value;
    for _piece in 0..text.len() {
        if ends(quote, rest) {
            return at_end(rest, quote, left);
        }
        let (behind_text, behind_value) = after_piece(rest, quote, left)?;
        rest = behind_text;
        left = behind_value;
    }
    at_end(rest, quote, left)
}

fn is_quote(byte: u8) -> bool
    ensures { result ≡ texts.is_quote byte }
{
    byte == 34 || byte == 39
}

/// What is behind a text in quotes that has this value.
pub fn after_quoted<'a>(text: &'a [u8], value: &[u8]) -> Option<&'a [u8]>
    ensures { IfSome result (λ rest. Quoted value.now text.now rest.now) }
{
    let place = after_blanks(text);
    let (quote, inside) = first_of(place)?;
    if !is_quote(quote) {
        return None;
    }
    let end = after_pieces(inside, quote, value)?;
    behind_byte(end, quote)
}

/// What is behind a text of a template that has this value, with the quote, or with the two signs in front of an expression.
pub fn after_template_text<'a>(text: &'a [u8], value: &[u8], last: bool) -> Option<&'a [u8]>
    ensures { IfSome result (λ rest. TemplateText last value.now text.now rest.now) }
{
    let end = after_pieces(text, 96, value)?;
    if last {
        return behind_byte(end, 96);
    }
    let brace = behind_byte(end, 36)?;
    behind_byte(brace, 123)
}
