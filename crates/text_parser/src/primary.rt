//! Names, literals, templates, arrays and parentheses.
use crate::cursor::{Parser, Read};
use crate::expression::ends_expression;
use crate::kept::take_from;
use swc_ast::{
    ArrayLit, Bool, Expr, ExprOrSpread, Lit, Null, Number, Str, ThisExpr, Tpl, TplElement,
};
use text_lexer::{Construct, Kind, Token};

impl<'a> Parser<'a> {
    #[inline(always)]
    #[cycle(parser)]
    pub(crate) fn primary(&mut self, room: u32) -> Read<Box<Expr>> {
        match self.kind() {
            Kind::LeftParen => self.parenthesized(room),
            Kind::LeftBracket => self.array(room),
            Kind::LeftBrace => self.object(room),
            Kind::New => self.construction(room),
            Kind::Function => self.function_expr(room),
            Kind::Template | Kind::TemplateHead => self.template(room),
            Kind::True | Kind::False | Kind::Null | Kind::This => self.word_literal(),
            _ if self.is_at_async() => Err(self.leave_out(Construct::Async)),
            _ => self.leaf(),
        }
    }

    /// Refuses what begins no operand.
    #[inline(never)]
    fn no_operand(&mut self) -> Read<Box<Expr>> {
        Err(match self.kind() {
            Kind::WideName => self.leave_out(Construct::Name),
            Kind::Class => self.leave_out(Construct::Class),
            Kind::Regex | Kind::Slash | Kind::SlashEqual => self.leave_out(Construct::Regex),
            Kind::Import | Kind::Super | Kind::HashBang => self.leave_out(Construct::Meta),
            Kind::Reserved => {
                if self.text_of(self.token()) == "await" && !self.targets.is_in_function() {
                    self.leave_out(Construct::Async)
                } else {
                    self.refuse()
                }
            }
            _ => self.refuse(),
        })
    }

    /// Whether a name, a number or a text stands here by itself, before what ends each operand.
    #[inline(always)]
    pub(crate) fn is_at_leaf(&self) -> bool {
        matches!(self.kind(), Kind::Name | Kind::Number | Kind::Text)
            && ends_expression(self.next_kind())
    }

    /// The name, the number or the text here.
    #[inline(always)]
    pub(crate) fn leaf(&mut self) -> Read<Box<Expr>> {
        match self.kind() {
            Kind::Name => self.name(),
            Kind::Number => self.number_literal(),
            Kind::Text => self.quoted_literal(),
            _ => self.no_operand(),
        }
    }

    #[inline(never)]
    fn name(&mut self) -> Read<Box<Expr>> {
        let name = self.ident()?;
        self.nest(Expr::Ident(name), 0)
    }

    #[inline(never)]
    fn number_literal(&mut self) -> Read<Box<Expr>> {
        let number = self.number()?;
        self.nest(Expr::Lit(Lit::Num(number)), 0)
    }

    #[inline(never)]
    fn quoted_literal(&mut self) -> Read<Box<Expr>> {
        let text = self.text_literal()?;
        self.nest(Expr::Lit(Lit::Str(text)), 0)
    }

    /// `this`, `null`, `true` or `false`.
    #[inline(never)]
    fn word_literal(&mut self) -> Read<Box<Expr>> {
        let token = self.token();
        self.bump();
        let span = self.span_from(token.start);
        let node = match token.kind {
            Kind::This => Expr::This(ThisExpr { span }),
            Kind::Null => Expr::Lit(Lit::Null(Null { span })),
            kind => {
                let value = matches!(kind, Kind::True);
                Expr::Lit(Lit::Bool(Bool { span, value }))
            }
        };
        self.nest(node, 0)
    }

    /// A number, which is passed.
    #[inline(always)]
    pub(crate) fn number(&mut self) -> Read<Number> {
        let token = self.token();
        let range = token.start as usize..token.end as usize;
        let digits = self.text.as_bytes().get(range).unwrap_or(b"");
        let value = match text_lexer::number(digits, token.start) {
            Ok(value) => value,
            Err(fault) => return Err(self.refuse_for(fault)),
        };
        self.bump();
        Ok(Number {
            span: self.span_from(token.start),
            value,
        })
    }

    /// A text, which is passed.
    #[inline(always)]
    pub(crate) fn text_literal(&mut self) -> Read<Str> {
        let token = self.token();
        let value = self.cooked(token, 1)?;
        self.bump();
        Ok(Str {
            span: self.span_from(token.start),
            value,
        })
    }

    /// The text of a token without the sign before it and so many behind it, its escapes resolved.
    #[inline(never)]
    fn cooked(&mut self, token: Token, behind: u32) -> Read<String> {
        let from = token.start.saturating_add(1) as usize;
        let to = token.end.saturating_sub(behind) as usize;
        let raw = self.text.get(from..to).unwrap_or("");
        let bytes = raw.as_bytes();
        if !bytes.contains(&b'\\') && !bytes.contains(&b'\r') {
            return Ok(String::from_str(self.alloc, raw)?);
        }
        match text_lexer::text(self.alloc, raw, token.start) {
            Ok(value) => Ok(value),
            Err(fault) => Err(self.refuse_for(fault)),
        }
    }

    #[inline(never)]
    #[cycle(parser)]
    fn template(&mut self, room: u32) -> Read<Box<Expr>> {
        let start = self.start();
        let first_quasi = self.kept.quasis.len();
        let first = self.kept.exprs.len();
        let mut levels = 0;
        for _ in self.place..self.tokens.len() {
            if self.quasi()? {
                break;
            }
            let found = self.expression_inside(room)?;
            levels = levels.max(self.levels);
            self.keep_expr(found)?;
            if !matches!(self.kind(), Kind::TemplateMiddle | Kind::TemplateTail) {
                return Err(self.refuse());
            }
        }
        self.template_of(start, first_quasi, first, levels)
    }

    /// The template of the texts and of the expressions from these on that were kept.
    #[inline(never)]
    fn template_of(
        &mut self,
        start: u32,
        first_quasi: usize,
        first: usize,
        levels: u32,
    ) -> Read<Box<Expr>> {
        let node = Tpl {
            span: self.span_from(start),
            quasis: Box::new(self.alloc, take_from(&mut self.kept.quasis, first_quasi)?)?,
            exprs: take_from(&mut self.kept.exprs, first)?,
        };
        self.nest(Expr::Tpl(node), levels)
    }

    /// Keeps a template's text, which is passed, and says whether it is the last.
    #[inline(never)]
    fn quasi(&mut self) -> Read<bool> {
        let token = self.token();
        let tail = matches!(token.kind, Kind::Template | Kind::TemplateTail);
        let behind: u32 = if tail { 1 } else { 2 };
        let cooked = self.cooked(token, behind)?;
        self.bump();
        let mut span = self.span_from(token.start.saturating_add(1));
        span.hi = span.hi.saturating_sub(behind).max(span.lo);
        self.kept.quasis.push(TplElement { span, tail, cooked })?;
        Ok(tail)
    }

    /// Parentheses. A run of them takes no deeper recursion than one.
    #[inline(never)]
    #[cycle(parser)]
    fn parenthesized(&mut self, room: u32) -> Read<Box<Expr>> {
        let first = self.place;
        self.pass_opening()?;
        let inner = self.inside(room)?;
        let second = self.place;
        let found = self.assignment(inner)?;
        if second.saturating_sub(first) > 1 {
            return self.behind_run(inner, first, second, found);
        }
        self.behind_innermost(inner, second, found)
    }

    /// Passes a run of opening parentheses.
    #[inline(never)]
    fn pass_opening(&mut self) -> Read<()> {
        self.bump();
        for _ in self.place..self.tokens.len() {
            if !self.is_at(Kind::LeftParen) || self.is_at_arrow() {
                break;
            }
            if self.has_chains && self.is_at_chain() {
                return Err(self.leave_out(Construct::OptChain));
            }
            self.bump();
        }
        Ok(())
    }

    /// An expression in parentheses that end here.
    #[inline(always)]
    fn wrapped(&mut self, read: Box<Expr>) -> Read<Box<Expr>> {
        let found = self.closed(read, Kind::RightParen)?;
        self.is_wrapped = true;
        Ok(found)
    }

    /// What goes on behind an assignment that begins at a place, up to where the parentheses round it end.
    #[inline(never)]
    #[cycle(parser)]
    fn behind_innermost(&mut self, room: u32, place: usize, found: Box<Expr>) -> Read<Box<Expr>> {
        let start = self.token_at(place).start;
        let whole = self.expression_behind(room, start, found)?;
        self.wrapped(whole)
    }

    /// The same up to where a run of parentheses ends, which begins at a place. The assignment begins at another.
    #[inline(never)]
    #[cycle(parser)]
    fn behind_run(
        &mut self,
        room: u32,
        first: usize,
        second: usize,
        innermost: Box<Expr>,
    ) -> Read<Box<Expr>> {
        let mut found = self.behind_innermost(room, second, innermost)?;
        for i in 1..second.saturating_sub(first) {
            let start = self.token_at(second.saturating_sub(i)).start;
            found = self.behind_parentheses(room, start, found)?;
        }
        Ok(found)
    }

    /// What goes on behind parentheses, up to where those round them end.
    #[inline(never)]
    #[cycle(parser)]
    fn behind_parentheses(&mut self, room: u32, start: u32, found: Box<Expr>) -> Read<Box<Expr>> {
        let operand = self.operand_behind(room, start, found)?;
        let left = self.binary_behind(room, start, operand, 0)?;
        self.behind_operators(room, start, left)
    }

    #[inline(never)]
    #[cycle(parser)]
    fn behind_operators(&mut self, room: u32, start: u32, left: Box<Expr>) -> Read<Box<Expr>> {
        let value = if self.is_at(Kind::Question) {
            self.choice_behind(room, start, left)?
        } else {
            self.value_behind(room, start, left)?
        };
        let whole = self.expression_behind(room, start, value)?;
        self.wrapped(whole)
    }

    #[inline(never)]
    #[cycle(parser)]
    fn array(&mut self, room: u32) -> Read<Box<Expr>> {
        let start = self.start();
        self.bump();
        let first = self.kept.elems.len();
        let mut levels = 0;
        for _ in self.place..self.tokens.len() {
            if self.is_at(Kind::RightBracket) {
                break;
            }
            if self.take(Kind::Comma) {
                self.keep_item(None)?;
                continue;
            }
            let item = self.item(room)?;
            levels = levels.max(item);
            if !self.take(Kind::Comma) {
                break;
            }
        }
        self.array_of(start, first, levels)
    }

    /// The array of the items from this one on that were kept, which ends here.
    #[inline(never)]
    fn array_of(&mut self, start: u32, first: usize, levels: u32) -> Read<Box<Expr>> {
        self.expect(Kind::RightBracket)?;
        let elems = take_from(&mut self.kept.elems, first)?;
        let span = self.span_from(start);
        self.nest(Expr::Array(ArrayLit { span, elems }), levels)
    }

    /// Keeps an item of an array, which may be spread, and returns its levels.
    #[inline(never)]
    #[cycle(parser)]
    fn item(&mut self, room: u32) -> Read<u32> {
        let start = self.start();
        let mut spread = None;
        if self.take(Kind::Dots) {
            spread = Some(self.span_from(start));
        }
        let expr = self.assignment_inside(room)?;
        self.keep_item(Some(ExprOrSpread { spread, expr }))?;
        Ok(self.levels)
    }

    /// Keeps an item of an array, or a hole.
    #[inline(never)]
    fn keep_item(&mut self, item: Option<ExprOrSpread>) -> Read<()> {
        self.kept.elems.push(item)?;
        Ok(())
    }
}
