//! The end of a statement.
ghost use Rattle.std.specs.Prelude.{◌≡◌, IfSome};
ghost use Rattle.text_tokens.specs.Ends as ends;

use crate::blank::at_token;
use crate::bytes::{begins_byte, behind_byte, word_goes_on};

fn is_joint(byte: u8) -> bool
    ensures { result ≡ ends.is_joint byte }
{
    byte == 40
        || byte == 91
        || byte == 46
        || byte == 44
        || byte == 61
        || byte == 63
        || byte == 58
        || byte == 42
        || byte == 47
        || byte == 37
        || byte == 60
        || byte == 62
        || byte == 38
        || byte == 124
        || byte == 94
        || byte == 96
}

fn begins_word(word: &[u8], text: &[u8]) -> bool
    ensures { result ≡ ends.begins_word word.now text.now }
{
    match word {
        [wanted, others @ ..] => match text {
            [first, rest @ ..] => *wanted == *first && begins_word(others, rest),
            _ => false,
        },
        _ => !word_goes_on(text),
    }
}

/// Whether the token at the front may go on with the expression before it, behind a line end. `closed` says whether that ends in the block of
/// an arrow.
fn goes_on(closed: bool, text: &[u8]) -> bool
    ensures { result ≡ ends.goes_on closed text.now }
{
    match text {
        [first, rest @ ..] => {
            if closed {
                *first == 44
            } else {
                is_joint(*first)
                    || (*first == 43 && !begins_byte(43, rest))
                    || (*first == 45 && !begins_byte(45, rest))
                    || (*first == 33 && begins_byte(61, rest))
                    || begins_word(b"in", text)
                    || begins_word(b"instanceof", text)
            }
        }
        _ => false,
    }
}

/// What is behind the end of a statement whose last part ends here. `closed` says whether that is the block of an arrow.
pub fn after_end(text: &[u8], closed: bool) -> Option<&[u8]>
    ensures { IfSome result (λ rest. ends.Ends (ends.goes_on closed) text.now rest.now) }
{
    let (line, next) = at_token(text)?;
    if let Some(rest) = behind_byte(next, b';') {
        return Some(rest);
    }
    if let Some(_rest) = behind_byte(next, b'}') {
        return Some(text);
    }
    let left = next.len();
    if left == 0 {
        return Some(text);
    }
    if line && !goes_on(closed, next) {
        Some(text)
    } else {
        None
    }
}
