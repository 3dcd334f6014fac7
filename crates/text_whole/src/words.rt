//! What words a text begins with, and where a space must stand.
use std::alloc::{AllocError, Global};
use text_lexer::is_word_part;

/// Whether a byte may stand in a name: also one past ASCII, or a backslash.
pub(crate) fn may_join(byte: u8) -> bool {
    is_word_part(byte) || byte == b'\\' || !byte.is_ascii()
}

/// Whether a word stands at the front of a text, alone or with no more letters behind it.
pub(crate) fn begins_with(text: &str, word: &str) -> bool {
    behind(text, word).is_some()
}

/// What stands behind a word at the front of a text and the white space behind it.
pub(crate) fn behind<'a>(text: &'a str, word: &str) -> Option<&'a str> {
    let rest = text.strip_prefix(word)?;
    match rest.as_bytes() {
        [first, ..] if may_join(*first) => None,
        _ => Some(rest.trim_start()),
    }
}

/// Whether a text begins as a function does, asynchronous or not.
pub(crate) fn is_function(text: &str) -> bool {
    match behind(text, "async") {
        Some(rest) => begins_with(rest, "function"),
        None => begins_with(text, "function"),
    }
}

/// The byte in front of a place in a text.
pub(crate) fn byte_before(text: &str, place: usize) -> Option<u8> {
    text.as_bytes().get(place.checked_sub(1)?).copied()
}

/// The byte at a place in a text.
pub(crate) fn byte_at(text: &str, place: usize) -> Option<u8> {
    text.as_bytes().get(place).copied()
}

/// Whether two texts become another token where one stands right behind the other: a longer word, a comment, or a regular
/// expression with other flags.
fn would_join(last: Option<u8>, first: Option<u8>) -> bool {
    match (last, first) {
        (Some(b'/'), Some(first)) => first == b'/' || first == b'*' || may_join(first),
        (Some(last), Some(first)) => may_join(last) && may_join(first),
        _ => false,
    }
}

/// A text with a space in front and behind where it would join what stands there.
pub(crate) fn apart(
    alloc: Global,
    before: Option<u8>,
    text: String,
    after: Option<u8>,
) -> Result<String, AllocError> {
    let first = byte_at(text.as_str(), 0);
    let last = byte_before(text.as_str(), text.len());
    let in_front = would_join(before, first);
    let is_behind = would_join(last, after);
    if !in_front && !is_behind {
        return Ok(text);
    }
    let mut out = String::new(alloc);
    if in_front {
        out.push(' ')?;
    }
    out.push_str(text.as_str())?;
    if is_behind {
        out.push(' ')?;
    }
    Ok(out)
}
