//! What is told from tokens further on, so that a construct is refused at its first token.
use crate::cursor::{Parser, Read};
use text_lexer::{Construct, Kind, Token};

/// Whether a token may end what is written to in the head of a `for`.
fn ends_operand(kind: Kind) -> bool {
    matches!(
        kind,
        Kind::Name
            | Kind::WideName
            | Kind::This
            | Kind::RightParen
            | Kind::RightBracket
            | Kind::RightBrace
    )
}

fn is_opening(kind: Kind) -> bool {
    matches!(
        kind,
        Kind::LeftParen
            | Kind::LeftBracket
            | Kind::LeftBrace
            | Kind::TemplateHead
            | Kind::TemplateMiddle
    )
}

impl<'a> Parser<'a> {
    /// The place behind the bracket that closes the one at a place, or behind the token there if it is none. The end of the text
    /// where the bracket is open.
    fn behind(&self, place: usize) -> usize {
        let mut last = place;
        // The parts of a template close one another.
        for _ in place..self.tokens.len() {
            let token = self.token_at(last);
            if !is_opening(token.kind) {
                break;
            }
            if token.closed_by == 0 {
                return self.tokens.len();
            }
            last = token.closed_by as usize;
        }
        last.saturating_add(1)
    }

    /// What the token behind the bracket here and the one that closes it is.
    #[inline(always)]
    pub(crate) fn kind_behind_brackets(&self) -> Kind {
        let close = self.token().closed_by as usize;
        if close == 0 {
            return Kind::End;
        }
        self.token_at(close.saturating_add(1)).kind
    }

    /// Whether an arrow function begins here.
    #[inline(always)]
    pub(crate) fn is_at_arrow(&self) -> bool {
        let behind = match self.kind() {
            Kind::Name => self.next_kind(),
            Kind::LeftParen => self.kind_behind_brackets(),
            _ => Kind::End,
        };
        behind as u8 == Kind::Arrow as u8
    }

    /// Whether an asynchronous function begins here.
    #[inline(always)]
    pub(crate) fn is_at_async(&self) -> bool {
        self.is_name(self.token(), "async") && self.is_async_head()
    }

    /// Whether what stands behind the name `async` here makes it the first word of a function.
    #[inline(never)]
    fn is_async_head(&self) -> bool {
        let next = self.next();
        let place = self.place.saturating_add(1);
        match next.kind {
            _ if next.on_new_line => false,
            Kind::Function => true,
            Kind::Name => matches!(self.token_at(place.saturating_add(1)).kind, Kind::Arrow),
            Kind::LeftParen => matches!(self.token_at(self.behind(place)).kind, Kind::Arrow),
            _ => false,
        }
    }

    /// Refuses destructuring that is written to here, or an operand that is an optional chain.
    #[inline(always)]
    pub(crate) fn refuse_pattern(&mut self) -> Read<()> {
        if matches!(self.kind(), Kind::LeftBrace | Kind::LeftBracket)
            && matches!(self.kind_behind_brackets(), Kind::Equal)
        {
            return Err(self.leave_out(Construct::Pattern));
        }
        Ok(())
    }

    /// Whether what stands here is an operand with `?.` behind it.
    #[inline(never)]
    pub(crate) fn is_at_chain(&self) -> bool {
        let mut place = self.place;
        for _ in self.place..self.tokens.len() {
            if !matches!(self.token_at(place).kind, Kind::New) {
                break;
            }
            place = place.saturating_add(1);
        }
        place = self.behind(place);
        for _ in self.place..self.tokens.len() {
            match self.token_at(place).kind {
                Kind::OptionalDot => return true,
                Kind::Dot => place = place.saturating_add(2),
                Kind::LeftParen | Kind::LeftBracket | Kind::Template | Kind::TemplateHead => {
                    place = self.behind(place);
                }
                _ => return false,
            }
        }
        false
    }

    /// What a `for` here is that goes over a list or over keys.
    #[inline(never)]
    pub(crate) fn each_loop(&self) -> Option<Construct> {
        let mut place = self.place.saturating_add(2);
        let mut before = Kind::LeftParen;
        for _ in self.place..self.tokens.len() {
            let token = self.token_at(place);
            if matches!(token.kind, Kind::In) && !matches!(before, Kind::Dot) {
                return Some(Construct::ForIn);
            }
            if self.is_name(token, "of") && ends_operand(before) {
                return Some(Construct::ForOf);
            }
            if !self.may_be_written(token, before) {
                return None;
            }
            before = if is_opening(token.kind) {
                Kind::RightParen
            } else {
                token.kind
            };
            place = self.behind(place);
        }
        None
    }

    /// Whether a token may stand in what is written to.
    fn may_be_written(&self, token: Token, before: Kind) -> bool {
        if is_opening(token.kind) || matches!(before, Kind::Dot | Kind::OptionalDot) {
            return true;
        }
        match token.kind {
            Kind::Var | Kind::Let | Kind::Const => matches!(before, Kind::LeftParen),
            Kind::Name | Kind::WideName | Kind::This | Kind::New | Kind::Super => true,
            Kind::Number | Kind::Text | Kind::Template | Kind::Regex => true,
            Kind::TemplateTail | Kind::Dot | Kind::OptionalDot => true,
            _ => false,
        }
    }

    /// The place of the first `in` that the first part of a `for` may not have, where that part begins here.
    #[inline(never)]
    pub(crate) fn place_of_in(&self) -> usize {
        let mut place = self.place;
        let mut before = Kind::LeftParen;
        let mut questions: u32 = 0;
        for _ in self.place..self.tokens.len() {
            let kind = self.token_at(place).kind;
            match kind {
                Kind::In if questions == 0 && !matches!(before, Kind::Dot) => return place,
                Kind::Question => questions = questions.saturating_add(1),
                Kind::Colon => questions = questions.saturating_sub(1),
                Kind::Semicolon | Kind::RightParen | Kind::End => break,
                _ => {}
            }
            before = kind;
            place = self.behind(place);
        }
        usize::MAX
    }
}
