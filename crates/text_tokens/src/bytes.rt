//! Bytes at the front of a text.
ghost use Rattle.std.specs.Prelude.{◌≡◌, ◌++◌, ◌∷◌, IfSome};
ghost use Rattle.text_tokens.specs.Lines as lines;
ghost use Rattle.text_tokens.specs.Tokens as tokens;

/// The first byte and the others.
pub(crate) fn first_of(text: &[u8]) -> Option<(u8, &[u8])>
    ensures { IfSome result (λ found. text.now ≡ found.0 ∷ found.1.now) }
{
    match text.split_first() {
        Some((first, rest)) => Some((*first, rest)),
        None => None,
    }
}

/// What is behind a byte.
pub(crate) fn behind_byte(text: &[u8], byte: u8) -> Option<&[u8]>
    ensures { IfSome result (λ rest. text.now ≡ byte ∷ rest.now) }
{
    let (first, rest) = first_of(text)?;
    if first == byte { Some(rest) } else { None }
}

/// What is behind a text.
pub(crate) fn behind<'a>(text: &'a [u8], front: &[u8]) -> Option<&'a [u8]>
    ensures { IfSome result (λ rest. text.now ≡ front.now ++ rest.now) }
{
    text.strip_prefix(front)
}

pub(crate) fn is_space(byte: u8) -> bool
    ensures { result ≡ lines.is_space byte }
{
    byte == 9 || byte == 11 || byte == 12 || byte == 32
}

pub(crate) fn is_line_end(byte: u8) -> bool
    ensures { result ≡ lines.is_line_end byte }
{
    byte == 10 || byte == 13
}

pub(crate) fn is_wide_space(first: u8, second: u8, third: u8) -> bool
    ensures { result ≡ lines.is_wide_space first second third }
{
    (first == 239 && second == 187 && third == 191)
        || (first == 225 && second == 154 && third == 128)
        || (first == 226 && second == 128 && 128 <= third && third <= 138)
        || (first == 226 && second == 128 && third == 175)
        || (first == 226 && second == 129 && third == 159)
        || (first == 227 && second == 128 && third == 128)
}

pub(crate) fn is_separator(first: u8, second: u8, third: u8) -> bool
    ensures { result ≡ lines.is_separator first second third }
{
    first == 226 && second == 128 && (third == 168 || third == 169)
}

pub(crate) fn begins_byte(byte: u8, text: &[u8]) -> bool
    ensures { result ≡ lines.begins_byte byte text.now }
{
    match text {
        [first, ..] => *first == byte,
        _ => false,
    }
}

pub(crate) fn begins_pair(byte: u8, behind: u8, text: &[u8]) -> bool
    ensures { result ≡ lines.begins_pair byte behind text.now }
{
    match text {
        [first, second, ..] => *first == byte && *second == behind,
        _ => false,
    }
}

fn begins_wide_space(text: &[u8]) -> bool
    ensures { result ≡ lines.begins_wide_space text.now }
{
    match text {
        [first, second, third, ..] => is_wide_space(*first, *second, *third),
        _ => false,
    }
}

fn begins_separator(text: &[u8]) -> bool
    ensures { result ≡ lines.begins_separator text.now }
{
    match text {
        [first, second, third, ..] => is_separator(*first, *second, *third),
        _ => false,
    }
}

pub(crate) fn begins_wide_blank(text: &[u8]) -> bool
    ensures { result ≡ lines.begins_wide_blank text.now }
{
    begins_pair(194, 160, text) || begins_wide_space(text) || begins_separator(text)
}

pub(crate) fn begins_line_end(text: &[u8]) -> bool
    ensures { result ≡ lines.begins_line_end text.now }
{
    match text {
        [first, ..] => is_line_end(*first) || begins_separator(text),
        _ => false,
    }
}

pub(crate) fn is_digit(byte: u8) -> bool
    ensures { result ≡ tokens.is_digit byte }
{
    48 <= byte && byte <= 57
}

pub(crate) fn is_letter(byte: u8) -> bool
    ensures { result ≡ tokens.is_letter byte }
{
    (65 <= byte && byte <= 90) || (97 <= byte && byte <= 122) || byte == 95 || byte == 36
}

pub(crate) fn is_part(byte: u8) -> bool
    ensures { result ≡ tokens.is_part byte }
{
    is_letter(byte) || is_digit(byte)
}

/// Whether a name, a word or a number goes on so.
pub(crate) fn word_goes_on(text: &[u8]) -> bool
    ensures { result ≡ tokens.word_goes_on text.now }
{
    match text {
        [first, ..] => {
            is_part(*first) || *first == 92 || (128 <= *first && !begins_wide_blank(text))
        }
        _ => false,
    }
}
