//! Classes of bytes.

// The classes stand in the order of their numbers: first those that may begin a blank, and last the parts of words.

/// What is past ASCII, and the backslash. White space and the slash stand below it.
const WIDE: u8 = b'+';

/// What is of no other class.
const OTHER: u8 = b'-';

/// What may stand in a punctuator behind its first sign.
const JOINED: u8 = b'.';

/// ASCII letters, `_` and `$`. Digits stand between it and the others.
const LETTER: u8 = b'a';

/// The class of each byte.
static CLASSES: [u8; 256] = *b"\
    ---------     ------------------\
    \x20---a-.---..-.. 0000000000--....\
    -aaaaaaaaaaaaaaaaaaaaaaaaaa-+--a\
    -aaaaaaaaaaaaaaaaaaaaaaaaaa-.---\
    ++++++++++++++++++++++++++++++++\
    ++++++++++++++++++++++++++++++++\
    ++++++++++++++++++++++++++++++++\
    ++++++++++++++++++++++++++++++++";

/// The class of a byte.
#[derive(Clone, Copy)]
pub(crate) struct Class(u8);

impl Class {
    #[inline(always)]
    pub(crate) fn of(byte: u8) -> Class {
        Class(CLASSES[byte as usize])
    }

    /// Whether white space or a comment may begin so.
    #[inline(always)]
    pub(crate) fn may_be_blank(self) -> bool {
        self.0 < OTHER
    }

    /// Whether it is a letter, `_` or `$`.
    #[inline(always)]
    pub(crate) fn is_letter(self) -> bool {
        self.0 == LETTER
    }

    /// Whether it is a letter, a digit, `_` or `$`.
    #[inline(always)]
    pub(crate) fn is_part(self) -> bool {
        self.0 > JOINED
    }

    /// Whether it may go on with a punctuator.
    #[inline(always)]
    pub(crate) fn is_joined(self) -> bool {
        self.0 == JOINED
    }

    /// Whether a name may go on with more than ASCII.
    #[inline(always)]
    pub(crate) fn is_wide(self) -> bool {
        self.0 == WIDE
    }
}
