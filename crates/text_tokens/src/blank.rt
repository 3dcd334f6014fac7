//! What stands between tokens.
ghost use Rattle.std.specs.Prelude.{◌≡◌, ◌∷◌, ◌||◌, false, IfSome};
ghost use Rattle.text_tokens.specs.Lines.{Line, Comment, Blank, Between, Blanks, Ahead};
ghost use Rattle.text_tokens.specs.Lines as lines;

use crate::bytes::{
    begins_byte, begins_line_end, begins_pair, begins_wide_blank, behind_byte, first_of,
    is_line_end, is_separator, is_space, is_wide_space,
};

fn one_of(first: bool, second: bool) -> bool
    ensures { result ≡ (first || second) }
{
    first || second
}

/// What is left of a text at the end of its line.
fn after_line(text: &[u8]) -> &[u8]
    ensures { Line text.now result.now }
{
    for i in 0..text.len() {
        let rest = &text[i..];
        if begins_line_end(rest) {
            return rest;
        }
    }
    &text[text.len()..]
}

/// What is behind a comment, its first two signs left out, and whether a line ends in it.
fn after_comment(text: &[u8]) -> Option<(bool, &[u8])>
    ensures { IfSome result (λ found. Comment found.0 text.now found.1.now) }
{
    let mut line = false;
    for i in 0..text.len() {
        let rest = &text[i..];
        if begins_pair(42, 47, rest) {
            return behind_end(line, rest);
        }
        line = one_of(line, begins_line_end(rest));
    }
    None
}

/// What is behind the end of a comment, which begins here.
fn behind_end(line: bool, text: &[u8]) -> Option<(bool, &[u8])>
    ensures { IfSome result (λ found. (found.0 ≡ line) × Comment false text.now found.1.now) }
{
    let slash = behind_byte(text, 42)?;
    let rest = behind_byte(slash, 47)?;
    Some((line, rest))
}

/// What is behind a no-break space.
fn after_no_break_space(text: &[u8]) -> Option<&[u8]>
    ensures { IfSome result (λ rest. Blank false text.now rest.now) }
{
    let second = behind_byte(text, 194)?;
    behind_byte(second, 160)
}

/// What is behind white space, or a line end, of three bytes, and whether a line ends in it.
fn after_three(text: &[u8]) -> Option<(bool, &[u8])>
    ensures { IfSome result (λ found. Blank found.0 text.now found.1.now) }
{
    let (first, behind_first) = first_of(text)?;
    let (second, behind_second) = first_of(behind_first)?;
    let (third, rest) = first_of(behind_second)?;
    if is_wide_space(first, second, third) {
        return Some((false, rest));
    }
    if is_separator(first, second, third) {
        return Some((true, rest));
    }
    None
}

/// The same of all that is not ASCII.
fn after_wide_blank(text: &[u8]) -> Option<(bool, &[u8])>
    ensures { IfSome result (λ found. Blank found.0 text.now found.1.now) }
{
    match after_no_break_space(text) {
        Some(rest) => Some((false, rest)),
        None => after_three(text),
    }
}

/// The same of a comment to the end of the line, whose first slash is left out.
fn after_line_comment(text: &[u8]) -> Option<&[u8]>
    ensures { IfSome result (λ rest. Blank false (47 ∷ text.now) rest.now) }
{
    let inside = behind_byte(text, 47)?;
    Some(after_line(inside))
}

/// The same of a comment to `*/`, whose first slash is left out.
fn after_block_comment(text: &[u8]) -> Option<(bool, &[u8])>
    ensures { IfSome result (λ found. Blank found.0 (47 ∷ text.now) found.1.now) }
{
    let inside = behind_byte(text, 42)?;
    after_comment(inside)
}

/// The same of a comment.
fn after_slash(text: &[u8]) -> Option<(bool, &[u8])>
    ensures { IfSome result (λ found. Blank found.0 text.now found.1.now) }
{
    let second = behind_byte(text, 47)?;
    match after_line_comment(second) {
        Some(rest) => Some((false, rest)),
        None => after_block_comment(second),
    }
}

/// What is behind a piece of white space, a line end or a comment, and whether a line ends in it.
fn after_blank(text: &[u8]) -> Option<(bool, &[u8])>
    ensures { IfSome result (λ found. Blank found.0 text.now found.1.now) }
{
    let (first, rest) = first_of(text)?;
    if is_space(first) {
        return Some((false, rest));
    }
    if is_line_end(first) {
        return Some((true, rest));
    }
    if begins_byte(47, text) {
        after_slash(text)
    } else {
        after_wide_blank(text)
    }
}

/// What is left behind all that stands between tokens, and whether a line ends in it.
fn after_between(text: &[u8]) -> (bool, &[u8])
    ensures { Between result.0 text.now result.1.now }
{
    let mut line = false;
    let mut rest = text;
    for _piece in 0..text.len() {
        let Some((ends, behind)) = after_blank(rest) else {
            break;
        };
        line = one_of(line, ends);
        rest = behind;
    }
    (line, rest)
}

/// What is left behind all that stands between tokens.
pub fn after_blanks(text: &[u8]) -> &[u8]
    ensures { Blanks text.now result.now }
{
    let (_line, rest) = after_between(text);
    rest
}

/// Whether a token begins, or the text ends.
fn begins_token(text: &[u8]) -> bool
    ensures { result ≡ lines.begins_token text.now }
{
    match text {
        [first, ..] => {
            !(is_space(*first)
                || is_line_end(*first)
                || begins_wide_blank(text)
                || begins_pair(47, 47, text)
                || begins_pair(47, 42, text))
        }
        _ => true,
    }
}

/// The place of the next token, and whether a line ends in front of it.
pub fn at_token(text: &[u8]) -> Option<(bool, &[u8])>
    ensures { IfSome result (λ found. Ahead found.0 text.now found.1.now) }
{
    let (line, rest) = after_between(text);
    if begins_token(rest) {
        Some((line, rest))
    } else {
        None
    }
}
