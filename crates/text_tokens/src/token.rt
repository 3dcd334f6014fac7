//! Words and signs.
ghost use Rattle.std.specs.Prelude.{◌≡◌, [], ◌∷◌, IfSome};
ghost use Rattle.text_tokens.specs.Tokens as tokens;

use crate::blank::after_blanks;
use crate::bytes::{behind, is_letter, is_part, word_goes_on};
use crate::reserved::is_reserved;

/// What is behind a word, where it stands at the front and doesn't go on.
pub fn after_word<'a>(text: &'a [u8], word: &[u8]) -> Option<&'a [u8]>
    ensures { IfSome result (λ rest. tokens.Word word.now text.now rest.now) }
{
    let place = after_blanks(text);
    let rest = behind(place, word)?;
    if word_goes_on(rest) { None } else { Some(rest) }
}

fn all_parts(text: &[u8]) -> bool
    ensures { result ≡ tokens.all_parts text.now }
{
    match text {
        [first, rest @ ..] => is_part(*first) && all_parts(rest),
        _ => true,
    }
}

fn is_name(text: &[u8]) -> bool
    ensures { result ≡ tokens.is_name text.now }
{
    match text {
        [first, rest @ ..] => is_letter(*first) && all_parts(rest),
        _ => false,
    }
}

/// What is behind a name, which may be a reserved word.
pub fn after_name<'a>(text: &'a [u8], word: &[u8]) -> Option<&'a [u8]>
    ensures { IfSome result (λ rest. tokens.Name word.now text.now rest.now) }
{
    if !is_name(word) {
        return None;
    }
    after_word(text, word)
}

/// What is behind a name that is no reserved word.
pub fn after_identifier<'a>(text: &'a [u8], word: &[u8]) -> Option<&'a [u8]>
    ensures { IfSome result (λ rest. tokens.Identifier word.now text.now rest.now) }
{
    if !is_name(word) || is_reserved(word) {
        return None;
    }
    after_word(text, word)
}

fn has_equal(sign: u8) -> bool
    ensures { result ≡ tokens.has_equal sign }
{
    sign == 33
        || sign == 37
        || sign == 38
        || sign == 42
        || sign == 43
        || sign == 45
        || sign == 47
        || sign == 60
        || sign == 61
        || sign == 62
        || sign == 94
        || sign == 124
}

fn doubles(sign: u8) -> bool
    ensures { result ≡ tokens.doubles sign }
{
    sign == 38
        || sign == 42
        || sign == 43
        || sign == 45
        || sign == 47
        || sign == 60
        || sign == 61
        || sign == 62
        || sign == 63
        || sign == 124
}

fn pair_has_equal(first: u8, second: u8) -> bool
    ensures { result ≡ tokens.pair_has_equal first second }
{
    (first == 33 && second == 61)
        || (first == second
            && (first == 38
                || first == 42
                || first == 60
                || first == 61
                || first == 62
                || first == 63
                || first == 124))
}

/// Whether a sign of one byte and a byte behind it begin a longer one.
fn lengthens_one(sign: u8, byte: u8) -> bool
    ensures { result ≡ tokens.lengthens (sign ∷ []) byte }
{
    (byte == 61 && has_equal(sign))
        || (byte == sign && doubles(sign))
        || (sign == 61 && byte == 62)
        || (sign == 47 && byte == 42)
        || (sign == 63 && byte == 46)
        || (sign == 46 && byte == 46)
}

fn lengthens(sign: &[u8], byte: u8) -> bool
    ensures { result ≡ tokens.lengthens sign.now byte }
{
    match sign {
        [only] => lengthens_one(*only, byte),
        [first, second] => (byte == 61 && pair_has_equal(*first, *second))
            || (*first == 62 && *second == 62 && byte == 62)
            || (*first == 46 && *second == 46 && byte == 46),
        [first, _, third] => *first == 62 && *third == 62 && byte == 61,
        _ => false,
    }
}

fn sign_goes_on(sign: &[u8], text: &[u8]) -> bool
    ensures { result ≡ tokens.sign_goes_on sign.now text.now }
{
    match text {
        [first, ..] => lengthens(sign, *first),
        _ => false,
    }
}

/// What is behind a sign, where it stands at the front and no longer one does.
pub fn after_sign<'a>(text: &'a [u8], sign: &[u8]) -> Option<&'a [u8]>
    ensures { IfSome result (λ rest. tokens.Sign sign.now text.now rest.now) }
{
    let place = after_blanks(text);
    let rest = behind(place, sign)?;
    if sign_goes_on(sign, rest) {
        None
    } else {
        Some(rest)
    }
}
