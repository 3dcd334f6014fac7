//! What stands between tokens: white space, line breaks and comments.
ghost use Rattle.std.specs.Prelude.{◌≤◌, length};

use crate::class::Class;
use crate::search::{LANES, len_before};
use std::simd::prelude::*;

/// White space or a comment: how many bytes, and whether a line ends in it.
#[derive(Clone, Copy)]
pub struct Blank {
    pub len: usize,
    pub breaks_line: bool,
}

const NO_END: Blank = Blank {
    len: 0,
    breaks_line: false,
};

#[inline(always)]
fn space(len: usize) -> Blank {
    Blank {
        len,
        breaks_line: false,
    }
}

/// Whether a line separator or a paragraph separator stands at the front.
#[inline(always)]
pub fn begins_with_separator(bytes: &[u8]) -> bool {
    bytes.starts_with(b"\xE2\x80\xA8") || bytes.starts_with(b"\xE2\x80\xA9")
}

/// Where the line that begins here ends.
fn line_len(bytes: &[u8]) -> usize {
    let mut len: usize = 0;
    for _ in 0..=bytes.len() {
        let rest = bytes.get(len..).unwrap_or(b"");
        len = len.saturating_add(len_before(rest, [b'\n', b'\r', 0xE2]));
        match bytes.get(len..) {
            Some(rest @ [0xE2, ..]) if !begins_with_separator(rest) => len = len.saturating_add(1),
            _ => break,
        }
    }
    len
}

/// The comment whose text begins here, behind its two signs. It has no end where the answer has length 0.
fn comment(bytes: &[u8]) -> Blank {
    let mut len: usize = 0;
    let mut breaks_line = false;
    for _ in 0..=bytes.len() {
        let rest = bytes.get(len..).unwrap_or(b"");
        len = len.saturating_add(len_before(rest, [b'*', b'\n', b'\r', 0xE2]));
        match bytes.get(len..) {
            Some([b'*', b'/', ..]) => {
                return Blank {
                    len: len.saturating_add(4),
                    breaks_line,
                };
            }
            Some([b'\n' | b'\r', ..]) => breaks_line = true,
            Some(rest @ [0xE2, ..]) => breaks_line = breaks_line || begins_with_separator(rest),
            Some([_, ..]) => {}
            _ => break,
        }
        len = len.saturating_add(1);
    }
    NO_END
}

/// White space past ASCII.
fn wide_space(bytes: &[u8]) -> Option<Blank> {
    if begins_with_separator(bytes) {
        return Some(Blank {
            len: 3,
            breaks_line: true,
        });
    }
    if bytes.starts_with(b"\xC2\xA0") {
        return Some(space(2));
    }
    let [first, second, third, ..] = bytes else {
        return None;
    };
    match (*first, *second, *third) {
        (0xEF, 0xBB, 0xBF) | (0xE1, 0x9A, 0x80) | (0xE2, 0x80, 0x80..=0x8A) => Some(space(3)),
        (0xE2, 0x80, 0xAF) | (0xE2, 0x81, 0x9F) | (0xE3, 0x80, 0x80) => Some(space(3)),
        _ => None,
    }
}

/// The ASCII white space at the front.
#[inline(always)]
fn white_space(bytes: &[u8]) -> Blank
    ensures { result.len ≤ length bytes.now }
{
    let mut len: usize = 0;
    let mut breaks_line = false;
    let (blocks, rest) = bytes.as_chunks::<LANES>();
    for block in blocks {
        let block = u8x16::from_array(*block);
        let from_tab = block - u8x16::splat(b'\t');
        let stops = block.simd_ne(u8x16::splat(b' ')) & from_tab.simd_ge(u8x16::splat(5));
        let breaks = block.simd_eq(u8x16::splat(b'\n')) | block.simd_eq(u8x16::splat(b'\r'));
        let stops = stops.to_bitmask();
        // the lanes before the first stop
        let passed = stops.wrapping_sub(1) & !stops;
        breaks_line = breaks_line || breaks.to_bitmask() & passed != 0;
        if stops != 0 {
            len = len.saturating_add(stops.trailing_zeros() as usize);
            return Blank {
                len: len.min(bytes.len()),
                breaks_line,
            };
        }
        len = len.saturating_add(LANES);
    }
    for byte in rest {
        match *byte {
            b'\n' | b'\r' => breaks_line = true,
            b' ' | b'\t' | 0x0B | 0x0C => {}
            _ => break,
        }
        len = len.saturating_add(1);
    }
    Blank {
        len: len.min(bytes.len()),
        breaks_line,
    }
}

/// The comment or the white space past ASCII at the front. It has length 0 where it is a comment without an end.
fn rare_blank(bytes: &[u8]) -> Option<Blank> {
    match bytes {
        [b'/', b'/', ..] => Some(space(line_len(bytes))),
        [b'/', b'*', text @ ..] => Some(comment(text)),
        [0x80..=0xFF, ..] => wide_space(bytes),
        _ => None,
    }
}

/// What stands between two tokens.
#[derive(Clone, Copy)]
pub struct Blanks {
    pub len: usize,
    pub breaks_line: bool,
    /// whether a comment was met that has no end, as then none has one
    pub comments_are_open: bool,
}

/// The white space and the comments at the front. A comment without an end is none.
#[inline(never)]
pub fn blanks_at_front(bytes: &[u8], comments_are_open: bool) -> Blanks
    ensures { result.len ≤ length bytes.now }
{
    let spaces = white_space(bytes);
    match bytes.get(spaces.len) {
        Some(byte) if Class::of(*byte).may_be_blank() => {
            blanks_behind(bytes, spaces, comments_are_open)
        }
        _ => Blanks {
            len: spaces.len,
            breaks_line: spaces.breaks_line,
            comments_are_open,
        },
    }
}

/// The blanks at the front, the first of which are these.
#[inline(never)]
fn blanks_behind(bytes: &[u8], spaces: Blank, comments_are_open: bool) -> Blanks
    ensures { result.len ≤ length bytes.now }
{
    let mut len = spaces.len;
    let mut breaks_line = spaces.breaks_line;
    let mut comments_are_open = comments_are_open;
    for _ in 0..=bytes.len() {
        let rest = bytes.get(len..).unwrap_or(b"");
        if comments_are_open && rest.starts_with(b"/*") {
            break;
        }
        let Some(found) = rare_blank(rest) else {
            break;
        };
        if found.len == 0 {
            comments_are_open = true;
            break;
        }
        len = len.saturating_add(found.len);
        let spaces = white_space(bytes.get(len..).unwrap_or(b""));
        len = len.saturating_add(spaces.len);
        breaks_line = breaks_line || found.breaks_line || spaces.breaks_line;
    }
    Blanks {
        len: len.min(bytes.len()),
        breaks_line,
        comments_are_open,
    }
}
