//! Words: names and reserved words.
ghost use Rattle.std.specs.Prelude.{◌≡◌, ◌≤◌, length};
ghost use Rattle.text_lexer.specs.Words.{word_part};

use crate::reserved::{kind_of_long, kind_of_short};
use crate::search::LANES;
use crate::token::Kind;
use std::simd::prelude::*;

/// Whether a byte is an ASCII letter, a digit, `_` or `$`.
#[inline(always)]
pub fn is_word_part(byte: u8) -> bool
    ensures { result ≡ word_part byte }
{
    byte.is_ascii_alphanumeric() || byte == b'_' || byte == b'$'
}

/// How many bytes at the front may stand in a name.
#[inline(never)]
pub fn word_len(bytes: &[u8]) -> usize
    ensures { result ≤ length bytes.now }
{
    for (i, byte) in bytes.iter().enumerate() {
        if !is_word_part(*byte) {
            return i;
        }
    }
    bytes.len()
}

/// How many bytes at the front of a block may stand in a name.
#[inline(always)]
pub fn word_len_in(block: &[u8; LANES]) -> usize
    ensures { result ≤ 16 }
{
    let block = u8x16::from_array(*block);
    let from_letter = (block | u8x16::splat(0x20)) - u8x16::splat(b'a');
    let from_digit = block - u8x16::splat(b'0');
    let stops = from_letter.simd_ge(u8x16::splat(26))
        & from_digit.simd_ge(u8x16::splat(10))
        & block.simd_ne(u8x16::splat(b'_'))
        & block.simd_ne(u8x16::splat(b'$'));
    (stops.to_bitmask().trailing_zeros() as usize).min(LANES)
}

/// What the word is that a block begins with.
#[inline(always)]
pub fn kind_in(block: &[u8; LANES], len: usize) -> Kind
    requires { len ≤ 16 }
{
    if len > 8 {
        return kind_of_long(&block[..len]);
    }
    let head = match block.first_chunk::<8>() {
        Some(head) => u64::from_le_bytes(*head),
        None => 0,
    };
    kind_of_short(head.wrapping_shl((64 - 8 * len) as u32))
}

/// What a word is.
fn kind_of_word(word: &[u8]) -> Kind {
    if word.len() > 8 {
        return kind_of_long(word);
    }
    let mut letters = 0;
    for byte in word {
        letters = letters >> 8 | u64::from(*byte) << 56;
    }
    kind_of_short(letters)
}

/// The name or the reserved word at a place, and where it ends.
#[inline(never)]
pub fn word_at(text: &str, start: usize) -> (Kind, usize) {
    let rest = text.as_bytes().get(start..).unwrap_or(b"");
    let len = word_len(rest);
    let end = start.saturating_add(len);
    let wide_end = wide_name_end(text, end);
    if wide_end > end {
        (Kind::WideName, wide_end)
    } else {
        (kind_of_word(&rest[..len]), end)
    }
}

/// How many bytes the character past ASCII, or the escape, at the front has that may go on with a name. 0 where there is none.
fn wide_len(text: &str) -> usize {
    let Some(first) = text.chars().next() else {
        return 0;
    };
    if first == '\\' {
        return escape_len(text.as_bytes());
    }
    let joins = first == '\u{200C}' || first == '\u{200D}';
    if !first.is_ascii() && (joins || unicode_ident::is_xid_continue(first)) {
        first.len_utf8()
    } else {
        0
    }
}

/// Where a name ends whose first part ends at a place, and that goes on with more than ASCII.
#[inline(never)]
pub fn wide_name_end(text: &str, start: usize) -> usize {
    let bytes = text.as_bytes();
    let mut end = start;
    for _ in 0..bytes.len() {
        let len = wide_len(text.get(end..).unwrap_or(""));
        if len == 0 {
            break;
        }
        end = end.saturating_add(len);
        let rest = bytes.get(end..).unwrap_or(b"");
        end = end.saturating_add(word_len(rest));
    }
    end
}

/// How long the escape of a character is that stands at the front.
fn escape_len(bytes: &[u8]) -> usize {
    if !bytes.starts_with(b"\\u") {
        return 0;
    }
    let is_braced = bytes.get(2) == Some(&b'{');
    for (i, byte) in bytes.iter().enumerate() {
        if i < 2 || (i == 2 && is_braced) {
            continue;
        }
        if is_braced && *byte == b'}' {
            return i.saturating_add(1);
        }
        if !byte.is_ascii_hexdigit() {
            return 0;
        }
        if !is_braced && i == 5 {
            return 6;
        }
    }
    0
}
