//! Words: texts that may stand as names.
ghost use Rattle.std.specs.Prelude.{◌≡◌, map, false, IsFalse, bytes_eq};
ghost use Rattle.swc_ast.specs.Operators.{is_among as is_among_texts};
ghost use Rattle.swc_ast.specs.Valid.{is_letter as is_letter_code, is_part as is_part_code, all_parts as all_part_codes, is_word as is_word_text, is_identifier as is_identifier_text, reserved_words};

// The reserved words of module code (ECMA-262, 12.7.2), by their lengths in bytes.
static OF_TWO: [&str; 3] = ["do", "if", "in"];

static OF_THREE: [&str; 5] = ["for", "let", "new", "try", "var"];

static OF_FOUR: [&str; 8] = [
    "case", "else", "enum", "null", "this", "true", "void", "with",
];

static OF_FIVE: [&str; 10] = [
    "await", "break", "catch", "class", "const", "false", "super", "throw", "while", "yield",
];

static OF_SIX: [&str; 8] = [
    "delete", "export", "import", "public", "return", "static", "switch", "typeof",
];

static OF_SEVEN: [&str; 5] = ["default", "extends", "finally", "package", "private"];

static OF_EIGHT: [&str; 3] = ["continue", "debugger", "function"];

static OF_NINE: [&str; 2] = ["interface", "protected"];

static OF_TEN: [&str; 2] = ["implements", "instanceof"];

/// Whether a text may stand as a name: a word that is not reserved.
#[tactic(auto, unfolding(swc_ast::specs::Valid::is_identifier))]
pub(crate) fn is_identifier(text: &str) -> bool
    ensures { result ≡ is_identifier_text text.now }
{
    is_word(text) && !is_reserved(text)
}

/// Whether a text is of ASCII letters, digits, `_` and `$`, with no digit first.
pub(crate) fn is_word(text: &str) -> bool
    ensures { result ≡ is_word_text text.now }
{
    match text.as_bytes() {
        [] => false,
        [first, rest @ ..] => is_letter(*first) && all_parts(rest),
    }
}

fn is_letter(byte: u8) -> bool
    ensures { result ≡ is_letter_code byte }
{
    (65 <= byte && byte <= 90) || (97 <= byte && byte <= 122) || byte == 95 || byte == 36
}

fn is_part(byte: u8) -> bool
    ensures { result ≡ is_part_code byte }
{
    is_letter(byte) || (48 <= byte && byte <= 57)
}

fn all_parts(bytes: &[u8]) -> bool
    ensures { result ≡ all_part_codes bytes.now }
{
    let mut left = bytes;
    while let [byte, rest @ ..] = left {
        if !is_part(*byte) {
            return false;
        }
        left = rest;
    }
    true
}

/// Whether a text is a reserved word: it is compared with those that are as long.
fn is_reserved(text: &str) -> bool
    ensures { result ≡ is_among_texts text.now reserved_words }
{
    match text.len() {
        2 => is_among(text, &OF_TWO),
        3 => is_among(text, &OF_THREE),
        4 => is_among(text, &OF_FOUR),
        5 => is_among(text, &OF_FIVE),
        6 => is_among(text, &OF_SIX),
        7 => is_among(text, &OF_SEVEN),
        8 => is_among(text, &OF_EIGHT),
        9 => is_among(text, &OF_NINE),
        10 => is_among(text, &OF_TEN),
        _ => false,
    }
}

#[tactic(auto)]
fn is_among(text: &str, words: &[&str]) -> bool
    ensures { result ≡ is_among_texts text.now (map (λ w. w.now) words.now) }
{
    let mut left = words;
    while let [word, rest @ ..] = left {
        if may_be(text, word) && text == *word {
            return true;
        }
        left = rest;
    }
    false
}

/// Whether two texts are as long and begin with the same byte, where they have one.
#[inline(always)]
#[tactic(auto, using(crate::proofs::Lengths::unlike, crate::proofs::Lengths::other_start))]
fn may_be(text: &str, word: &str) -> bool
    ensures { IsFalse result → bytes_eq text.now word.now ≡ false }
{
    match (text.as_bytes(), word.as_bytes()) {
        ([t, ..], [w, ..]) => t == w && text.len() == word.len(),
        _ => text.len() == word.len(),
    }
}
