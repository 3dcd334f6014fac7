//! A parser's place among the tokens.
ghost use Rattle.std.specs.Prelude.{◌≡◌, ◌+◌, IfOk};

use crate::exports::Exports;
use crate::kept::Kept;
use crate::scopes::Scopes;
use crate::targets::Targets;
use std::alloc::{AllocError, AllocFailed, Global};
use swc_ast::{DUMMY_SP, Expr, Mark, Span, Stmt};
use text_lexer::{Construct, Fault, Kind, Token};

/// How many expressions and statements may stand inside one another, the innermost among them.
const MOST_LEVELS: u32 = 1000;

/// How deep the parser's functions may call one another: a level and its parentheses take two.
pub(crate) const ROOM: u32 = 2 * MOST_LEVELS;

/// That the text is refused. Why is noted by the parser.
#[derive(Clone, Copy)]
pub(crate) struct Refused;

/// What was read, where the text is not refused.
pub(crate) type Read<T> = Result<T, Refused>;

impl From<AllocError> for Refused {
    fn from(_error: AllocError) -> Refused {
        Refused
    }
}

impl<T: Drop> From<AllocFailed<T>> for Refused {
    fn from(_error: AllocFailed<T>) -> Refused {
        Refused
    }
}

/// What reads a text's tokens from left to right.
#[derive(Drop)]
pub(crate) struct Parser<'a> {
    pub(crate) alloc: Global,
    pub(crate) text: &'a str,
    pub(crate) tokens: &'a [Token],
    pub(crate) place: usize,
    /// the token at the place
    now: Token,
    /// where the token before ends
    end: u32,
    /// how many levels of expressions and statements that has which was read last
    pub(crate) levels: u32,
    /// whether the expression that was read last stood in parentheses
    pub(crate) is_wrapped: bool,
    /// why the text is refused: memory, until another reason is noted
    pub(crate) fault: Fault,
    /// the place of an `in` that the head of a `for` may not have
    pub(crate) refused_in: usize,
    /// the place behind the labels that stand before one statement and were read last
    pub(crate) labels_end: usize,
    /// whether the text has `?.`
    pub(crate) has_chains: bool,
    /// whether nodes get their spans, or dummy ones
    pub(crate) has_spans: bool,
    pub(crate) kept: Kept,
    pub(crate) scopes: Scopes<'a>,
    pub(crate) targets: Targets<'a>,
    pub(crate) exports: Exports<'a>,
}

/// What stands behind the last token.
const NO_TOKEN: Token = Token {
    start: 0,
    end: 0,
    closed_by: 0,
    kind: Kind::End,
    on_new_line: false,
};

impl<'a> Parser<'a> {
    pub(crate) fn new(
        alloc: Global,
        text: &'a str,
        tokens: &'a [Token],
        mark: Mark,
    ) -> Result<Parser<'a>, AllocError> {
        let mut has_chains = false;
        for token in tokens {
            has_chains = has_chains || token.kind as u8 == Kind::OptionalDot as u8;
        }
        let now = tokens.first().copied().unwrap_or(NO_TOKEN);
        Ok(Parser {
            alloc,
            text,
            tokens,
            place: 0,
            now,
            end: now.end,
            levels: 0,
            is_wrapped: false,
            fault: Fault::OutOfMemory,
            refused_in: usize::MAX,
            labels_end: 0,
            has_chains,
            has_spans: true,
            kept: Kept::new(alloc),
            scopes: Scopes::new(alloc, mark)?,
            targets: Targets::new(alloc),
            exports: Exports::new(alloc),
        })
    }

    /// One level less.
    #[inline(always)]
    pub(crate) fn inside(&mut self, room: u32) -> Read<u32>
        ensures { IfOk result (λ r. r + 1 ≡ room) }
    {
        if room == 0 {
            return Err(self.refuse_for(Fault::TooDeep));
        }
        Ok(room - 1)
    }

    /// The levels of an expression or a statement round parts that have so many.
    #[inline(always)]
    fn level_round(&mut self, levels: u32) -> Read<u32> {
        if levels >= MOST_LEVELS {
            return Err(self.refuse_for(Fault::TooDeep));
        }
        Ok(levels + 1)
    }

    /// An expression round parts that have so many levels.
    #[inline(always)]
    pub(crate) fn nest(&mut self, node: Expr, levels: u32) -> Read<Box<Expr>> {
        let expr = Box::new(self.alloc, node)?;
        self.levels = self.level_round(levels)?;
        self.is_wrapped = false;
        Ok(expr)
    }

    /// Keeps a statement round parts that have so many levels, until the list ends that it stands in or the statement round it is
    /// made. Its own levels are returned.
    #[inline(always)]
    pub(crate) fn keep(&mut self, stmt: Stmt, levels: u32) -> Read<u32> {
        self.kept.stmts.push(stmt)?;
        self.level_round(levels)
    }

    /// Keeps an expression of a list, without its box.
    #[inline(never)]
    pub(crate) fn keep_expr(&mut self, expr: Box<Expr>) -> Read<()> {
        self.kept.exprs.push(Box::into_inner(expr))?;
        Ok(())
    }

    #[inline(always)]
    pub(crate) fn token_at(&self, place: usize) -> Token {
        match self.tokens.get(place) {
            Some(token) => *token,
            None => NO_TOKEN,
        }
    }

    #[inline(always)]
    pub(crate) fn token(&self) -> Token {
        self.now
    }

    #[inline(always)]
    pub(crate) fn kind(&self) -> Kind {
        self.now.kind
    }

    /// The token behind this one.
    #[inline(always)]
    pub(crate) fn next(&self) -> Token {
        self.token_at(self.place.wrapping_add(1))
    }

    /// What the token behind this one is.
    #[inline(always)]
    pub(crate) fn next_kind(&self) -> Kind {
        self.next().kind
    }

    #[inline(always)]
    pub(crate) fn start(&self) -> u32 {
        self.now.start
    }

    /// The span from an offset to where the token before ends, or a dummy one where nodes get none.
    #[inline(always)]
    pub(crate) fn span_from(&self, start: u32) -> Span {
        if !self.has_spans {
            return DUMMY_SP;
        }
        Span {
            lo: start.wrapping_add(1),
            hi: self.end.max(start).wrapping_add(1),
        }
    }

    #[inline(always)]
    pub(crate) fn bump(&mut self) {
        self.end = self.now.end;
        self.place = self.place.wrapping_add(1);
        match self.tokens.get(self.place) {
            Some(token) => self.now = *token,
            None => self.now = NO_TOKEN,
        }
    }

    #[inline(always)]
    pub(crate) fn is_at(&self, kind: Kind) -> bool {
        self.kind() as u8 == kind as u8
    }

    /// Passes the token if it is of this kind.
    #[inline(always)]
    pub(crate) fn take(&mut self, kind: Kind) -> bool {
        let found = self.is_at(kind);
        if found {
            self.bump();
        }
        found
    }

    #[inline(always)]
    pub(crate) fn expect(&mut self, kind: Kind) -> Read<()> {
        if self.take(kind) {
            Ok(())
        } else {
            Err(self.refuse())
        }
    }

    /// Notes why the text is refused.
    #[cold]
    #[inline(never)]
    pub(crate) fn refuse_for(&mut self, fault: Fault) -> Refused {
        self.fault = fault;
        Refused
    }

    /// Refuses the token here.
    pub(crate) fn refuse(&mut self) -> Refused {
        let at = self.start();
        self.refuse_at(at)
    }

    /// Refuses the token that begins at an offset.
    #[cold]
    #[inline(never)]
    pub(crate) fn refuse_at(&mut self, at: u32) -> Refused {
        self.refuse_for(Fault::Syntax { at })
    }

    /// Refuses what begins at the token here and is left out of the core.
    #[cold]
    #[inline(never)]
    pub(crate) fn leave_out(&mut self, what: Construct) -> Refused {
        let at = self.start();
        self.refuse_for(Fault::OutOfCore { at, what })
    }

    /// The text of a token.
    #[inline(always)]
    pub(crate) fn text_of(&self, token: Token) -> &'a str {
        self.text
            .get(token.start as usize..token.end as usize)
            .unwrap_or("")
    }

    /// An expression that ends before this token, which is passed.
    #[inline(never)]
    pub(crate) fn closed(&mut self, found: Box<Expr>, end: Kind) -> Read<Box<Expr>> {
        self.expect(end)?;
        Ok(found)
    }

    /// The end of a statement: a semicolon, or where one may be missing (ECMA-262, 12.10).
    pub(crate) fn semicolon(&mut self) -> Read<()> {
        if self.take(Kind::Semicolon)
            || self.now.on_new_line
            || matches!(self.kind(), Kind::RightBrace | Kind::End)
        {
            return Ok(());
        }
        Err(self.refuse())
    }
}
