//! Where the stand-ins are in a printed text.
use crate::error::WholeError;
use crate::names::number_behind;
use crate::stand_in::Exported;
use std::alloc::{AllocError, Global};
use text_lexer::{Kind, Token, tokenize};

/// The tokens of a printed text. A place among them is the number of a token.
#[derive(Drop)]
pub(crate) struct Printed<'a> {
    pub(crate) text: &'a str,
    tokens: Vec<Token>,
    /// what the names begin with of what a unit does beside its call
    other: &'a str,
}

/// Tokens that another text stands for, from the first to the last.
#[derive(Clone, Copy, Debug, PartialEq, Eq)]
pub(crate) struct Place {
    pub(crate) first: usize,
    pub(crate) last: usize,
}

/// The place behind another one.
fn next(place: usize) -> usize {
    place.saturating_add(1)
}

/// What a value is assigned by.
fn assigns(kind: Kind) -> bool {
    matches!(
        kind,
        Kind::Equal
            | Kind::PlusEqual
            | Kind::MinusEqual
            | Kind::StarEqual
            | Kind::SlashEqual
            | Kind::PercentEqual
            | Kind::StarStarEqual
            | Kind::ShiftLeftEqual
            | Kind::ShiftRightEqual
            | Kind::ShiftRightZeroEqual
            | Kind::OrEqual
            | Kind::XorEqual
            | Kind::AndEqual
            | Kind::AndAndEqual
            | Kind::OrOrEqual
            | Kind::NullishEqual
    )
}

impl<'a> Printed<'a> {
    pub(crate) fn new(
        alloc: Global,
        text: &'a str,
        other: &'a str,
    ) -> Result<Printed<'a>, WholeError> {
        if text.len() >= 0x8000_0000 {
            return Err(WholeError::TooLong);
        }
        let tokens = tokenize(alloc, text)?;
        Ok(Printed {
            text,
            tokens,
            other,
        })
    }

    pub(crate) fn len(&self) -> usize {
        self.tokens.len()
    }

    /// The kind of a token, and that of the end where there is none.
    pub(crate) fn kind(&self, place: usize) -> Kind {
        match self.tokens.get(place) {
            Some(token) => token.kind,
            None => Kind::End,
        }
    }

    /// The kind of the token so many in front of a place.
    pub(crate) fn kind_before(&self, place: usize, count: usize) -> Kind {
        match place.checked_sub(count) {
            Some(before) => self.kind(before),
            None => Kind::End,
        }
    }

    pub(crate) fn word(&self, place: usize) -> &'a str {
        match self.tokens.get(place) {
            Some(token) => self
                .text
                .get(token.start as usize..token.end as usize)
                .unwrap_or(""),
            None => "",
        }
    }

    /// The bytes from the start of a place's first token to the end of its last.
    pub(crate) fn bytes(&self, place: Place) -> Option<(usize, usize)> {
        let first = self.tokens.get(place.first)?;
        let last = self.tokens.get(place.last)?;
        Some((first.start as usize, last.end as usize))
    }

    /// The token that closes the parenthesis at a place.
    pub(crate) fn closing(&self, place: usize) -> Option<usize> {
        let token = self.tokens.get(place)?;
        if token.kind == Kind::LeftParen && token.closed_by as usize > place {
            Some(token.closed_by as usize)
        } else {
            None
        }
    }

    /// A place, or the semicolon right behind it.
    fn with_semicolon(&self, place: usize) -> usize {
        if self.kind(next(place)) == Kind::Semicolon {
            next(place)
        } else {
            place
        }
    }

    /// Where tokens of these kinds begin that stand right in front of a place.
    fn behind(&self, place: usize, kinds: &[Kind]) -> Option<usize> {
        let first = place.checked_sub(kinds.len())?;
        for (i, kind) in kinds.iter().enumerate() {
            if self.kind(first.saturating_add(i)) != *kind {
                return None;
            }
        }
        Some(first)
    }

    /// Whether a statement can begin at a place.
    pub(crate) fn begins_statement(&self, place: usize) -> bool {
        self.is_in_list(place)
            || matches!(
                self.kind_before(place, 1),
                Kind::RightParen | Kind::Colon | Kind::Else | Kind::Do
            )
    }

    /// Whether a statement can begin at a place that isn't the body of another.
    pub(crate) fn is_in_list(&self, place: usize) -> bool {
        matches!(
            self.kind_before(place, 1),
            Kind::End | Kind::Semicolon | Kind::LeftBrace | Kind::RightBrace
        )
    }

    /// Whether an expression of any kind can stand at a place.
    pub(crate) fn takes_any(&self, place: Place) -> bool {
        let before = self.kind_before(place.first, 1);
        let is_open = matches!(before, Kind::LeftParen | Kind::Comma | Kind::LeftBracket);
        let is_closed = matches!(
            self.kind(next(place.last)),
            Kind::RightParen | Kind::Comma | Kind::Semicolon | Kind::RightBracket | Kind::RightBrace
        );
        (is_open || assigns(before)) && is_closed
    }

    /// Whether an operand with no parentheses can stand behind what is in front of a place, be it a function.
    pub(crate) fn takes_function(&self, place: Place) -> bool {
        let before = self.kind_before(place.first, 1);
        assigns(before)
            || matches!(
                before,
                Kind::LeftParen
                    | Kind::Comma
                    | Kind::LeftBracket
                    | Kind::Colon
                    | Kind::Question
                    | Kind::Return
            )
    }

    /// Whether the call at a place begins with functions that read these names, and which token ends it. Where the names are pinned,
    /// values may be read in their places, since behind these functions there is one for each that writes it.
    pub(crate) fn call_end(&self, place: usize, gets: &[&str], pinned: bool) -> Option<usize> {
        let close = self.closing(next(place))?;
        let mut at = next(next(place));
        let mut is_first = true;
        for name in gets {
            if !is_first {
                if self.kind(at) != Kind::Comma {
                    return None;
                }
                at = next(at);
            }
            is_first = false;
            let read = at.saturating_add(3);
            let name_at = self.behind(read, &[Kind::LeftParen, Kind::RightParen, Kind::Arrow])?;
            if name_at != at || !(pinned || self.word(read) == *name) {
                return None;
            }
            at = next(read);
            // A value has two tokens at most, as `-1` and `void 0`.
            if pinned && at != close && self.kind(at) != Kind::Comma {
                at = next(at);
            }
        }
        if pinned {
            self.sets(at, gets)?;
        }
        if gets.is_empty() || at == close || self.kind(at) == Kind::Comma {
            Some(close)
        } else {
            None
        }
    }

    /// Whether functions that write these names begin at a place, and what is behind them.
    fn sets(&self, place: usize, names: &[&str]) -> Option<usize> {
        let mut at = place;
        for name in names {
            if *name == "this" {
                continue;
            }
            let is_in_parens = self.kind(next(at)) == Kind::LeftParen;
            let arrow = at.saturating_add(if is_in_parens { 4 } else { 2 });
            let target = next(arrow);
            let is_set = self.kind(arrow) == Kind::Arrow && self.kind(next(target)) == Kind::Equal;
            if self.kind(at) != Kind::Comma || !is_set || self.word(target) != *name {
                return None;
            }
            at = target.saturating_add(3);
        }
        Some(at)
    }

    /// The place of `function () { return k(); }`, by that of the call.
    pub(crate) fn function(&self, call: Place) -> Option<Place> {
        let first = self.behind(
            call.first,
            &[
                Kind::Function,
                Kind::LeftParen,
                Kind::RightParen,
                Kind::LeftBrace,
                Kind::Return,
            ],
        )?;
        self.to_brace(first, call.last)
    }

    /// What begins at a place and ends with the brace behind a call.
    fn to_brace(&self, first: usize, call: usize) -> Option<Place> {
        let last = next(self.with_semicolon(call));
        if self.kind(last) == Kind::RightBrace {
            Some(Place { first, last })
        } else {
            None
        }
    }

    /// The place of `() => k()`.
    pub(crate) fn arrow(&self, call: Place) -> Option<Place> {
        let first = self.behind(
            call.first,
            &[Kind::LeftParen, Kind::RightParen, Kind::Arrow],
        )?;
        Some(Place {
            first,
            last: call.last,
        })
    }

    /// The place of `function f() { return k(); }`, as a declaration that is exported or not.
    pub(crate) fn named_function(&self, call: Place, exported: Exported) -> Option<Place> {
        let params = self.behind(
            call.first,
            &[
                Kind::LeftParen,
                Kind::RightParen,
                Kind::LeftBrace,
                Kind::Return,
            ],
        )?;
        let name = if self.kind_before(params, 1) == Kind::Function {
            params
        } else {
            params.checked_sub(1)?
        };
        let function = self.behind(name, &[Kind::Function])?;
        let first = match exported {
            Exported::No => function,
            Exported::Named => self.behind(function, &[Kind::Export])?,
            Exported::Default => self.behind(function, &[Kind::Export, Kind::Default])?,
        };
        self.to_brace(first, call.last)
    }

    /// The place of `export default k();`
    pub(crate) fn default_value(&self, call: Place) -> Option<Place> {
        Some(Place {
            first: self.behind(call.first, &[Kind::Export, Kind::Default])?,
            last: self.with_semicolon(call.last),
        })
    }

    /// The place of `let a = k(), b = j();`, or of `k(), j();` where what is declared isn't read. Whether it is exported.
    pub(crate) fn values(&self, call: Place, is_exported: bool) -> Option<Place> {
        let first = if self.kind_before(call.first, 1) == Kind::Equal {
            let declared = self.declared(call.first)?;
            if is_exported {
                self.behind(declared, &[Kind::Export])?
            } else {
                declared
            }
        } else {
            call.first
        };
        if self.begins_statement(first) {
            self.to_tail(first, call.last)
        } else {
            None
        }
    }

    /// Where the declaration begins whose first name has the value at a place.
    fn declared(&self, value: usize) -> Option<usize> {
        let keyword = value.checked_sub(3)?;
        if matches!(self.kind(keyword), Kind::Let | Kind::Const | Kind::Var) {
            Some(keyword)
        } else {
            None
        }
    }

    /// What begins at a place and ends with the calls behind one, `, b = j()` or `, j()`, and a semicolon.
    fn to_tail(&self, first: usize, call: usize) -> Option<Place> {
        let mut last = call;
        for _ in 0..self.tokens.len() {
            if self.kind(next(last)) != Kind::Comma {
                break;
            }
            let mut value = next(next(last));
            if self.kind(next(value)) == Kind::Equal {
                value = next(next(value));
            }
            last = self.other_end(value)?;
        }
        Some(Place {
            first,
            last: self.with_semicolon(last),
        })
    }

    /// Whether a token is the name of what a unit does beside its call.
    fn is_other(&self, place: usize) -> bool {
        number_behind(self.word(place), self.other).is_some()
    }

    /// The end of the call at a place of what a unit does beside its own call.
    fn other_end(&self, place: usize) -> Option<usize> {
        if self.is_other(place) {
            self.closing(next(place))
        } else {
            None
        }
    }

    /// The place of `k();`
    pub(crate) fn statement(&self, call: Place) -> Option<Place> {
        let is_closed = matches!(
            self.kind(next(call.last)),
            Kind::Semicolon | Kind::RightBrace | Kind::End
        );
        if self.begins_statement(call.first) && is_closed {
            Some(Place {
                first: call.first,
                last: self.with_semicolon(call.last),
            })
        } else {
            None
        }
    }

    /// A place with the `var` of some of these names in front of it, and the braces round both, where it has them.
    pub(crate) fn with_block(&self, place: Place, names: &[&str]) -> Place {
        let first = self.var_before(place.first, names).unwrap_or(place.first);
        let last = place.last;
        let begins_block = self.kind_before(first, 1) == Kind::LeftBrace
            && matches!(
                self.kind_before(first, 2),
                Kind::LeftBrace | Kind::RightBrace | Kind::Semicolon | Kind::End
            );
        let ends_block = self.kind(next(last)) == Kind::RightBrace
            && self.kind(next(next(last))) != Kind::Else;
        if begins_block && ends_block {
            Place {
                first: first.saturating_sub(1),
                last: next(last),
            }
        } else {
            Place { first, last }
        }
    }

    /// Where `var a, b;` in front of a place begins, where it is of some of these names.
    fn var_before(&self, place: usize, names: &[&str]) -> Option<usize> {
        if self.kind_before(place, 1) != Kind::Semicolon {
            return None;
        }
        let mut at = place.checked_sub(2)?;
        for _ in names {
            let word = self.word(at);
            if !names.iter().any(|name| *name == word) {
                return None;
            }
            let before = at.checked_sub(1)?;
            match self.kind(before) {
                Kind::Var => return Some(before),
                Kind::Comma => at = before.checked_sub(1)?,
                _ => return None,
            }
        }
        None
    }

    /// The place of `if (k()) return j(); else if (j()) break;`
    pub(crate) fn jumps(&self, call: Place) -> Option<Place> {
        let first = self.behind(call.first, &[Kind::If, Kind::LeftParen])?;
        let mut last = next(call.last);
        for _ in 0..self.tokens.len() {
            if self.kind(last) != Kind::RightParen {
                return None;
            }
            last = self.jump_end(next(last))?;
            match self.test_end(next(last)) {
                Some(end) => last = next(end),
                None => break,
            }
        }
        Some(Place { first, last })
    }

    /// The end of `else if (j()`, where it stands at a place.
    fn test_end(&self, place: usize) -> Option<usize> {
        let test = place.saturating_add(3);
        if self.behind(test, &[Kind::Else, Kind::If, Kind::LeftParen]) != Some(place) {
            return None;
        }
        self.other_end(test)
    }

    /// The end of the jump at a place, also in braces.
    fn jump_end(&self, place: usize) -> Option<usize> {
        if self.kind(place) != Kind::LeftBrace {
            return self.bare_jump_end(place);
        }
        let last = next(self.bare_jump_end(next(place))?);
        if self.kind(last) == Kind::RightBrace {
            Some(last)
        } else {
            None
        }
    }

    fn bare_jump_end(&self, place: usize) -> Option<usize> {
        let last = match self.kind(place) {
            Kind::Return => self.other_end(next(place))?,
            Kind::Break | Kind::Continue => match self.kind(next(place)) {
                Kind::Semicolon | Kind::RightBrace => place,
                _ => next(place),
            },
            _ => return None,
        };
        Some(self.with_semicolon(last))
    }

    /// The place of `import .. from "k";`, by that of the module's name.
    pub(crate) fn import(&self, source: usize) -> Option<Place> {
        let last = self.with_semicolon(source);
        let mut first = source;
        for _ in 0..source {
            first = first.checked_sub(1)?;
            match self.kind(first) {
                Kind::Import => return Some(Place { first, last }),
                Kind::Semicolon => return None,
                _ => {}
            }
        }
        None
    }

    /// The place of what is left of a unit: `let b = j();` or `j();`
    pub(crate) fn left_over(&self, place: usize) -> Option<Place> {
        let end = self.other_end(place)?;
        let first = if self.kind_before(place, 1) == Kind::Equal {
            self.declared(place)?
        } else {
            place
        };
        let first = self.behind(first, &[Kind::Export]).unwrap_or(first);
        if self.begins_statement(first) {
            self.to_tail(first, end)
        } else {
            None
        }
    }

    /// The place of `export { a as default };`
    pub(crate) fn default_export(&self, first: usize, name: &str) -> Option<Place> {
        let last = first.saturating_add(5);
        let is_one = self.kind(next(first)) == Kind::LeftBrace
            && self.word(first.saturating_add(2)) == name
            && self.word(first.saturating_add(3)) == "as"
            && self.kind(first.saturating_add(4)) == Kind::Default
            && self.kind(last) == Kind::RightBrace;
        if is_one {
            Some(Place {
                first,
                last: self.with_semicolon(last),
            })
        } else {
            None
        }
    }
}
