//! The list of the tokens, with its brackets.
use crate::token::{Kind, Token};
use std::alloc::{AllocError, Global};

/// The tokens so far.
#[derive(Drop)]
pub(crate) struct Tokens {
    tokens: Vec<Token>,
    /// the places of the brackets that are open
    open: Vec<u32>,
}

impl Tokens {
    #[inline(always)]
    pub(crate) fn new(alloc: Global) -> Tokens {
        Tokens {
            tokens: Vec::new(alloc),
            open: Vec::new(alloc),
        }
    }

    /// Whether the innermost bracket that is open is one of a template.
    #[inline(always)]
    pub(crate) fn is_in_template(&self) -> bool {
        match self.open.last() {
            Some(at) => match self.tokens.get(*at as usize) {
                Some(token) => matches!(token.kind, Kind::TemplateHead | Kind::TemplateMiddle),
                None => false,
            },
            None => false,
        }
    }

    /// The kind of a token, by how far it is from the end.
    #[inline(always)]
    fn kind_before(&self, back: usize) -> Kind {
        let place = self.tokens.len().wrapping_sub(back);
        match self.tokens.get(place) {
            Some(token) => token.kind,
            None => Kind::End,
        }
    }

    /// Whether an operand is to come next, so that a slash begins a regular expression.
    #[inline(always)]
    pub(crate) fn want_operand(&self) -> bool {
        is_operand_wanted(self.kind_before(2), self.kind_before(1))
    }

    /// Whether an operand may come next: also behind what ends an operand or stands before one.
    #[inline(always)]
    pub(crate) fn may_want_operand(&self) -> bool {
        match self.kind_before(1) {
            Kind::RightParen | Kind::RightBrace | Kind::PlusPlus | Kind::MinusMinus => true,
            _ => self.want_operand(),
        }
    }

    /// Opens the bracket that comes next, at this place.
    #[inline(always)]
    pub(crate) fn open(&mut self, here: u32) -> Result<(), AllocError> {
        self.open.push(here)?;
        Ok(())
    }

    /// Marks the innermost open bracket as closed by the token at this place.
    #[inline(always)]
    pub(crate) fn close(&mut self, here: u32) {
        if let Some(at) = self.open.pop()
            && let Some(token) = self.tokens.get_mut(at as usize)
        {
            token.closed_by = here;
        }
    }

    /// Closes and opens what a part of a template does, at this place.
    #[inline(always)]
    pub(crate) fn nest_template(&mut self, kind: Kind, here: u32) -> Result<(), AllocError> {
        if matches!(kind, Kind::TemplateMiddle | Kind::TemplateTail) {
            self.close(here);
        }
        if matches!(kind, Kind::TemplateHead | Kind::TemplateMiddle) {
            self.open(here)?;
        }
        Ok(())
    }

    #[inline(always)]
    pub(crate) fn push(
        &mut self,
        kind: Kind,
        start: u32,
        end: u32,
        on_new_line: bool,
    ) -> Result<(), AllocError> {
        self.tokens.push(Token {
            start,
            end,
            closed_by: 0,
            kind,
            on_new_line,
        })?;
        Ok(())
    }

    #[inline(always)]
    pub(crate) fn list(self) -> Vec<Token> {
        self.tokens
    }
}

/// Whether an operand is to come behind two tokens. Behind `)` and `}` a slash is taken for a division.
#[inline(never)]
fn is_operand_wanted(second: Kind, last: Kind) -> bool {
    match last {
        Kind::Name | Kind::WideName | Kind::Number | Kind::Text | Kind::Regex => false,
        Kind::Template | Kind::TemplateTail | Kind::PlusPlus | Kind::MinusMinus => false,
        Kind::RightParen | Kind::RightBracket | Kind::RightBrace => false,
        Kind::This | Kind::Null | Kind::True | Kind::False | Kind::Super => false,
        _ => !matches!(second, Kind::Dot | Kind::OptionalDot),
    }
}
