//! From a text to its tokens.
ghost use Rattle.std.specs.Prelude.{◌≡◌, ◌+◌, ◌≤◌, ◌<◌, ◌^◌, length, IfSome};

use crate::blank::blanks_at_front;
use crate::class::Class;
use crate::literal::{TemplateEnd, number_end, regex_len, template_len, text_len};
use crate::punctuator::{byte_at, longest_punctuator, short_punctuator};
use crate::search::LANES;
use crate::token::{Kind, Token};
use crate::tokens::Tokens;
use crate::word::{kind_in, wide_name_end, word_at, word_len, word_len_in};
use std::alloc::{AllocError, Global};

/// What is left of a text.
#[derive(Drop)]
struct Scanner<'a> {
    text: &'a str,
    bytes: &'a [u8],
    place: usize,
    /// where the token begins
    start: u32,
    on_new_line: bool,
    /// whether a comment was met that has no end, as then none has one
    comments_are_open: bool,
    ghost within: { place ≤ length bytes.now },
    ghost short: { length bytes.now < 2 ^ 31 },
}

impl<'a> Scanner<'a> {
    #[inline(always)]
    fn rest(&self) -> &'a [u8]
        ensures { self.now.place + length result.now ≡ length self.now.bytes.now }
    {
        &self.bytes[self.place..]
    }

    /// Passes so many bytes, as far as there are.
    #[inline(always)]
    fn advance(&mut self, count: usize) {
        self.place = self.place.saturating_add(count).min(self.bytes.len());
    }

    #[inline(always)]
    fn first(&self) -> Option<u8>
        ensures { IfSome result (λ _. self.now.place < length self.now.bytes.now) }
    {
        self.bytes.get(self.place).copied()
    }

    /// Passes what stands before the next token, and gives its first byte.
    #[inline(always)]
    fn begin(&mut self) -> Option<u8>
        ensures { IfSome result (λ _. self.new.place < length self.new.bytes.now) }
    {
        let mut first = self.first();
        // Most tokens stand behind one space or none.
        if let Some(b' ') = first {
            self.place += 1;
            first = self.first();
        }
        self.on_new_line = false;
        if let Some(byte) = first
            && Class::of(byte).may_be_blank()
        {
            self.pass_blanks();
            first = self.first();
        }
        self.start = self.place as u32;
        first
    }

    #[inline(always)]
    fn pass_blanks(&mut self) {
        let blanks = blanks_at_front(self.rest(), self.comments_are_open);
        self.place += blanks.len;
        self.on_new_line = blanks.breaks_line;
        self.comments_are_open = blanks.comments_are_open;
    }

    /// A part of a template, whose kind says whether an expression comes behind it.
    #[inline(always)]
    fn template(
        &mut self,
        before: &mut Tokens,
        here: u32,
        whole: Kind,
        part: Kind,
    ) -> Result<Kind, AllocError> {
        self.advance(1);
        let kind = match template_len(self.rest()) {
            Some(TemplateEnd::Last(len)) => {
                self.advance(len);
                whole
            }
            Some(TemplateEnd::Expression(len)) => {
                self.advance(len);
                part
            }
            None => {
                self.place = self.bytes.len();
                self.start = self.place as u32;
                Kind::Endless
            }
        };
        before.nest_template(kind, here)?;
        Ok(kind)
    }

    /// A text literal, or a lone quote.
    #[inline(always)]
    fn quoted(&mut self, quote: u8) -> Kind {
        self.advance(1);
        match text_len(self.rest(), quote) {
            Some(len) => {
                self.advance(len);
                Kind::Text
            }
            None => Kind::Bad,
        }
    }

    /// A number.
    #[inline(always)]
    fn digits(&mut self) -> Kind
        requires { self.old.place < length self.old.bytes.now }
    {
        let second = byte_at(self.bytes, self.place + 1);
        if second == b'.' || Class::of(second).is_part() {
            self.place = number_end(self.bytes, self.place);
            Kind::Number
        } else {
            self.single(Kind::Number)
        }
    }

    /// A name that begins with more than ASCII.
    #[inline(always)]
    fn wide_name(&mut self) -> Kind {
        let end = wide_name_end(self.text, self.place).min(self.bytes.len());
        if end <= self.place {
            return Kind::Bad;
        }
        self.place = end;
        Kind::WideName
    }

    /// A regular expression, or a punctuator. A comment without an end, where a regular expression may begin, is neither.
    #[inline(always)]
    fn slash(&mut self, before: &Tokens) -> Kind
        requires { self.old.place < length self.old.bytes.now }
    {
        if byte_at(self.bytes, self.place + 1) == b'*' && before.may_want_operand() {
            return Kind::Bad;
        }
        if !before.want_operand() {
            return self.long_punctuator();
        }
        self.advance(1);
        match regex_len(self.rest()) {
            Some(len) => {
                self.advance(len);
                self.place += word_len(self.rest());
                Kind::Regex
            }
            None => Kind::Bad,
        }
    }

    /// A name or a reserved word.
    #[inline(always)]
    fn word(&mut self) -> Kind {
        // Most are shorter than a block.
        if let Some(block) = self.rest().first_chunk::<LANES>() {
            let len = word_len_in(block);
            if len < LANES && !Class::of(block[len]).is_wide() {
                self.place += len;
                return kind_in(block, len);
            }
        }
        let (kind, end) = word_at(self.text, self.place);
        self.place = end.min(self.bytes.len());
        kind
    }

    /// What has one byte.
    #[inline(always)]
    fn single(&mut self, kind: Kind) -> Kind
        requires { self.old.place < length self.old.bytes.now }
    {
        self.place += 1;
        kind
    }

    #[inline(always)]
    fn opening(&mut self, before: &mut Tokens, here: u32, kind: Kind) -> Result<Kind, AllocError>
        requires { self.old.place < length self.old.bytes.now }
    {
        before.open(here)?;
        Ok(self.single(kind))
    }

    #[inline(always)]
    fn closing(&mut self, before: &mut Tokens, here: u32, kind: Kind) -> Kind
        requires { self.old.place < length self.old.bytes.now }
    {
        before.close(here);
        self.single(kind)
    }

    /// A punctuator of any length.
    #[inline(always)]
    fn long_punctuator(&mut self) -> Kind {
        let (kind, len) = longest_punctuator(self.rest());
        self.advance(len);
        kind
    }

    /// A punctuator, or what begins no token.
    #[inline(always)]
    fn punctuator(&mut self, first: u8) -> Kind
        requires { self.old.place < length self.old.bytes.now }
    {
        if Class::of(byte_at(self.bytes, self.place + 1)).is_joined() {
            self.long_punctuator()
        } else {
            self.single(short_punctuator(first))
        }
    }

    /// What begins with no letter, digit, quote or bracket.
    #[inline(always)]
    fn other(&mut self, first: u8) -> Kind
        requires { self.old.place < length self.old.bytes.now }
    {
        match first {
            b'.' if byte_at(self.bytes, self.place + 1).is_ascii_digit() => self.digits(),
            b'\\' | 0x80..=0xFF => self.wide_name(),
            b'#' if self.place == 0 && byte_at(self.bytes, 1) == b'!' => Kind::HashBang,
            _ => self.punctuator(first),
        }
    }

    /// Passes the token behind others, by its first byte, and says what it is.
    #[inline(always)]
    fn pass_token(&mut self, first: u8, before: &mut Tokens, here: u32) -> Result<Kind, AllocError>
        requires { self.old.place < length self.old.bytes.now }
    {
        if Class::of(first).is_letter() {
            return Ok(self.word());
        }
        match first {
            b'0'..=b'9' => Ok(self.digits()),
            b'"' | b'\'' => Ok(self.quoted(first)),
            b'`' => self.template(before, here, Kind::Template, Kind::TemplateHead),
            b'(' => self.opening(before, here, Kind::LeftParen),
            b')' => Ok(self.closing(before, here, Kind::RightParen)),
            b'[' => self.opening(before, here, Kind::LeftBracket),
            b']' => Ok(self.closing(before, here, Kind::RightBracket)),
            b'{' => self.opening(before, here, Kind::LeftBrace),
            b'}' if before.is_in_template() => {
                self.template(before, here, Kind::TemplateTail, Kind::TemplateMiddle)
            }
            b'}' => Ok(self.closing(before, here, Kind::RightBrace)),
            b';' => Ok(self.single(Kind::Semicolon)),
            b',' => Ok(self.single(Kind::Comma)),
            b':' => Ok(self.single(Kind::Colon)),
            b'/' => Ok(self.slash(before)),
            _ => Ok(self.other(first)),
        }
    }
}

/// The tokens of a text below 2^31 bytes (ECMA-262, 12). The last one is its end, or what begins no token.
pub fn tokenize(alloc: Global, text: &str) -> Result<Vec<Token>, AllocError>
    requires { length text.now < 2 ^ 31 }
{
    let bytes = text.as_bytes();
    let mut scanner = Scanner {
        text,
        bytes,
        place: 0,
        start: 0,
        on_new_line: false,
        comments_are_open: false,
    };
    let mut out = Tokens::new(alloc);
    for here in 0..=bytes.len() {
        let kind = match scanner.begin() {
            Some(first) => scanner.pass_token(first, &mut out, here as u32)?,
            None => Kind::End,
        };
        out.push(
            kind,
            scanner.start,
            scanner.place as u32,
            scanner.on_new_line,
        )?;
        if matches!(kind, Kind::End | Kind::Bad | Kind::Endless | Kind::HashBang) {
            break;
        }
    }
    Ok(out.list())
}
