//! Members, calls and `new`.
use crate::cursor::{Parser, Read};
use crate::kept::take_from;
use swc_ast::{CallExpr, ComputedPropName, Expr, MemberExpr, MemberProp, NewExpr};
use text_lexer::{Construct, Kind};

impl<'a> Parser<'a> {
    /// Members, and calls where they may stand.
    #[inline(always)]
    #[cycle(parser)]
    pub(crate) fn members_behind(
        &mut self,
        room: u32,
        start: u32,
        first: Box<Expr>,
        with_calls: bool,
    ) -> Read<Box<Expr>> {
        let mut left = first;
        for _ in self.place..self.tokens.len() {
            match self.kind() {
                Kind::Dot => left = self.named_member(start, left)?,
                Kind::LeftBracket => left = self.computed_member(room, start, left)?,
                Kind::LeftParen if with_calls => left = self.call_behind(room, start, left)?,
                Kind::Template | Kind::TemplateHead => return self.no_member(left),
                _ => break,
            }
        }
        Ok(left)
    }

    /// Refuses the template behind a tag.
    #[inline(never)]
    fn no_member(&mut self, _tag: Box<Expr>) -> Read<Box<Expr>> {
        Err(self.leave_out(Construct::Template))
    }

    #[inline(always)]
    fn member(
        &mut self,
        start: u32,
        obj: Box<Expr>,
        prop: MemberProp,
        levels: u32,
    ) -> Read<Box<Expr>> {
        let span = self.span_from(start);
        self.nest(Expr::Member(MemberExpr { span, obj, prop }), levels)
    }

    /// `(a, b)`
    #[inline(never)]
    #[cycle(parser)]
    fn call_behind(&mut self, room: u32, start: u32, callee: Box<Expr>) -> Read<Box<Expr>> {
        let first = self.kept.exprs.len();
        let levels = self.levels;
        let args = self.arguments(room)?;
        self.call(start, callee, first, levels.max(args))
    }

    /// The call with the arguments from this one on that were kept.
    #[inline(never)]
    fn call(
        &mut self,
        start: u32,
        callee: Box<Expr>,
        first: usize,
        levels: u32,
    ) -> Read<Box<Expr>> {
        let node = CallExpr {
            span: self.span_from(start),
            callee,
            args: take_from(&mut self.kept.exprs, first)?,
        };
        self.nest(Expr::Call(node), levels)
    }

    /// `.a`
    #[inline(never)]
    fn named_member(&mut self, start: u32, obj: Box<Expr>) -> Read<Box<Expr>> {
        self.bump();
        let name = self.word()?;
        let levels = self.levels;
        self.member(start, obj, MemberProp::Ident(name), levels)
    }

    /// `[a]`
    #[inline(never)]
    #[cycle(parser)]
    fn computed_member(&mut self, room: u32, start: u32, obj: Box<Expr>) -> Read<Box<Expr>> {
        let opening = self.start();
        self.bump();
        let levels = self.levels;
        let key = self.expression_inside(room)?;
        self.member_of_key(start, obj, levels, opening, key)
    }

    /// The member whose key's brackets begin at an offset and end here. The object has so many levels.
    #[inline(never)]
    fn member_of_key(
        &mut self,
        start: u32,
        obj: Box<Expr>,
        levels: u32,
        opening: u32,
        key: Box<Expr>,
    ) -> Read<Box<Expr>> {
        self.expect(Kind::RightBracket)?;
        let prop = ComputedPropName {
            span: self.span_from(opening),
            expr: key,
        };
        let levels = levels.max(self.levels);
        self.member(start, obj, MemberProp::Computed(prop), levels)
    }

    /// Keeps the arguments of a call, and returns their levels.
    #[inline(never)]
    #[cycle(parser)]
    fn arguments(&mut self, room: u32) -> Read<u32> {
        self.expect(Kind::LeftParen)?;
        let mut levels = 0;
        for _ in self.place..self.tokens.len() {
            if self.is_at(Kind::RightParen) {
                break;
            }
            if self.is_at(Kind::Dots) {
                return Err(self.leave_out(Construct::CallSpread));
            }
            let arg = self.assignment_inside(room)?;
            levels = levels.max(self.levels);
            self.keep_expr(arg)?;
            if !self.take(Kind::Comma) {
                break;
            }
        }
        self.expect(Kind::RightParen)?;
        Ok(levels)
    }

    #[inline(never)]
    #[cycle(parser)]
    pub(crate) fn construction(&mut self, room: u32) -> Read<Box<Expr>> {
        let start = self.start();
        if matches!(self.next_kind(), Kind::Dot) {
            return Err(self.leave_out(Construct::Meta));
        }
        self.bump();
        let inner = self.inside(room)?;
        let callee = self.constructor(inner)?;
        let first = self.kept.exprs.len();
        let mut levels = self.levels;
        if self.is_at(Kind::LeftParen) {
            levels = levels.max(self.arguments(inner)?);
        }
        self.new_of(start, callee, first, levels)
    }

    /// What stands behind `new`, with its members.
    #[inline(never)]
    #[cycle(parser)]
    fn constructor(&mut self, room: u32) -> Read<Box<Expr>> {
        let start = self.start();
        let first = self.primary(room)?;
        self.members_behind(room, start, first, false)
    }

    /// The `new` with the arguments from this one on that were kept.
    #[inline(never)]
    fn new_of(
        &mut self,
        start: u32,
        callee: Box<Expr>,
        first: usize,
        levels: u32,
    ) -> Read<Box<Expr>> {
        let node = NewExpr {
            span: self.span_from(start),
            callee,
            args: take_from(&mut self.kept.exprs, first)?,
        };
        self.nest(Expr::New(node), levels)
    }
}
