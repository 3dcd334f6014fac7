//! Reserved words.
ghost use Rattle.std.specs.Prelude.{◌≡◌, bytes_eq};
ghost use Rattle.text_tokens.specs.Tokens as tokens;

fn is(word: &[u8], other: &[u8]) -> bool
    ensures { result ≡ bytes_eq word.now other.now }
{
    word == other
}

fn is_short_reserved(word: &[u8]) -> bool
    ensures { result ≡ tokens.is_short_reserved word.now }
{
    is(word, b"do")
        || is(word, b"if")
        || is(word, b"in")
        || is(word, b"for")
        || is(word, b"let")
        || is(word, b"new")
        || is(word, b"try")
        || is(word, b"var")
        || is(word, b"case")
        || is(word, b"else")
        || is(word, b"enum")
        || is(word, b"null")
        || is(word, b"this")
        || is(word, b"true")
        || is(word, b"void")
        || is(word, b"with")
}

fn is_middle_reserved(word: &[u8]) -> bool
    ensures { result ≡ tokens.is_middle_reserved word.now }
{
    is(word, b"await")
        || is(word, b"break")
        || is(word, b"catch")
        || is(word, b"class")
        || is(word, b"const")
        || is(word, b"false")
        || is(word, b"super")
        || is(word, b"throw")
        || is(word, b"while")
        || is(word, b"yield")
        || is(word, b"delete")
        || is(word, b"export")
        || is(word, b"import")
        || is(word, b"public")
        || is(word, b"return")
        || is(word, b"static")
        || is(word, b"switch")
        || is(word, b"typeof")
}

fn is_long_reserved(word: &[u8]) -> bool
    ensures { result ≡ tokens.is_long_reserved word.now }
{
    is(word, b"default")
        || is(word, b"extends")
        || is(word, b"finally")
        || is(word, b"package")
        || is(word, b"private")
        || is(word, b"continue")
        || is(word, b"debugger")
        || is(word, b"function")
        || is(word, b"interface")
        || is(word, b"protected")
        || is(word, b"implements")
        || is(word, b"instanceof")
}

/// Whether a word is reserved in strict module code.
pub(crate) fn is_reserved(word: &[u8]) -> bool
    ensures { result ≡ tokens.is_reserved word.now }
{
    is_short_reserved(word) || is_middle_reserved(word) || is_long_reserved(word)
}
