//! Expressions with operators. What is named `.._behind` goes on behind an operand that was read.
use crate::cursor::{Parser, Read};
use crate::kept::{take_from, take_last};
use crate::operators::{assign_op, binary_op, is_prefix, unary_op, update_op};
use swc_ast::{
    AssignExpr, AssignOp, BinExpr, BinaryOp, CondExpr, Expr, SeqExpr, UnaryExpr, UnaryOp,
    UpdateExpr, UpdateOp,
};
use text_lexer::{Construct, Kind};

/// Whether an operator may not stand behind this operand, which has no parentheses.
fn clashes(op: BinaryOp, operand: &Expr) -> bool {
    match operand {
        Expr::Bin(node) => match op {
            BinaryOp::NullishCoalescing => {
                matches!(node.op, BinaryOp::LogicalOr | BinaryOp::LogicalAnd)
            }
            BinaryOp::LogicalOr | BinaryOp::LogicalAnd => {
                matches!(node.op, BinaryOp::NullishCoalescing)
            }
            _ => false,
        },
        Expr::Unary(_) => matches!(op, BinaryOp::Exp),
        _ => false,
    }
}

/// How tightly an operator must bind to belong to the right operand of this one, which binds so tightly.
fn beyond(op: BinaryOp, strength: u8) -> u8 {
    match op {
        BinaryOp::Exp => strength.saturating_sub(1),
        BinaryOp::NullishCoalescing => strength.saturating_add(1),
        _ => strength,
    }
}

/// Whether a token ends the operand, the assignment or the expression before it.
#[inline(always)]
pub(crate) fn ends_expression(kind: Kind) -> bool {
    matches!(
        kind,
        Kind::Comma
            | Kind::Semicolon
            | Kind::Colon
            | Kind::RightParen
            | Kind::RightBracket
            | Kind::RightBrace
    )
}

/// Whether a token goes on behind an operand as a member, a call or an update.
#[inline(always)]
fn goes_on(kind: Kind) -> bool {
    matches!(
        kind,
        Kind::Dot
            | Kind::LeftParen
            | Kind::LeftBracket
            | Kind::Template
            | Kind::TemplateHead
            | Kind::PlusPlus
            | Kind::MinusMinus
    )
}

impl<'a> Parser<'a> {
    #[cycle(parser)]
    pub(crate) fn expression(&mut self, room: u32) -> Read<Box<Expr>> {
        let start = self.start();
        let first = self.assignment(room)?;
        self.expression_behind(room, start, first)
    }

    /// An expression a level deeper.
    #[inline(always)]
    #[cycle(parser)]
    pub(crate) fn expression_inside(&mut self, room: u32) -> Read<Box<Expr>> {
        let inner = self.inside(room)?;
        self.expression(inner)
    }

    /// An expression whose first part, up to a comma if there is one, was read.
    #[inline(always)]
    #[cycle(parser)]
    pub(crate) fn expression_behind(
        &mut self,
        room: u32,
        start: u32,
        first: Box<Expr>,
    ) -> Read<Box<Expr>> {
        if self.is_at(Kind::Comma) {
            self.sequence_behind(room, start, first)
        } else {
            Ok(first)
        }
    }

    /// Further expressions behind commas.
    #[inline(never)]
    #[cycle(parser)]
    fn sequence_behind(&mut self, room: u32, start: u32, first: Box<Expr>) -> Read<Box<Expr>> {
        let place = self.kept.exprs.len();
        let mut levels = self.levels;
        self.keep_expr(first)?;
        for _ in self.place..self.tokens.len() {
            if !self.take(Kind::Comma) {
                break;
            }
            let next = self.assignment_inside(room)?;
            levels = levels.max(self.levels);
            self.keep_expr(next)?;
        }
        self.sequence(start, place, levels)
    }

    /// What stands between commas: the expressions from this one on that were kept.
    #[inline(never)]
    fn sequence(&mut self, start: u32, first: usize, levels: u32) -> Read<Box<Expr>> {
        let exprs = take_from(&mut self.kept.exprs, first)?;
        let span = self.span_from(start);
        self.nest(Expr::Seq(SeqExpr { span, exprs }), levels)
    }

    /// An assignment a level deeper.
    #[inline(always)]
    #[cycle(parser)]
    pub(crate) fn assignment_inside(&mut self, room: u32) -> Read<Box<Expr>> {
        let inner = self.inside(room)?;
        self.assignment(inner)
    }

    #[inline(always)]
    #[cycle(parser)]
    pub(crate) fn assignment(&mut self, room: u32) -> Read<Box<Expr>> {
        if self.is_at_leaf() {
            return self.leaf();
        }
        self.longer_assignment(room)
    }

    /// An assignment that is no name and no literal.
    #[inline(never)]
    #[cycle(parser)]
    fn longer_assignment(&mut self, room: u32) -> Read<Box<Expr>> {
        if self.is_at_arrow() {
            return self.arrow(room);
        }
        self.refuse_pattern()?;
        let start = self.start();
        let first = self.operand(room)?;
        if ends_expression(self.kind()) {
            return Ok(first);
        }
        self.assignment_behind(room, start, first)
    }

    #[inline(never)]
    #[cycle(parser)]
    pub(crate) fn assignment_behind(
        &mut self,
        room: u32,
        start: u32,
        first: Box<Expr>,
    ) -> Read<Box<Expr>> {
        let left = self.binary_behind(room, start, first, 0)?;
        if ends_expression(self.kind()) {
            return Ok(left);
        }
        if self.is_at(Kind::Question) {
            return self.choice_behind(room, start, left);
        }
        self.value_behind(room, start, left)
    }

    /// `= a`, if it stands there.
    #[inline(never)]
    #[cycle(parser)]
    pub(crate) fn value_behind(
        &mut self,
        room: u32,
        start: u32,
        left: Box<Expr>,
    ) -> Read<Box<Expr>> {
        let Some(op) = assign_op(self.kind()) else {
            return Ok(left);
        };
        self.bump();
        let levels = self.levels;
        self.keep_target(left, start)?;
        let right = self.assignment_inside(room)?;
        self.value(start, op, levels, right)
    }

    /// Keeps what an operand that begins at an offset may be written to as.
    #[inline(never)]
    fn keep_target(&mut self, operand: Box<Expr>, start: u32) -> Read<()> {
        let found = self.target(operand, start)?;
        self.kept.targets.push(found)?;
        Ok(())
    }

    /// The assignment to what was kept last and has so many levels.
    #[inline(never)]
    fn value(
        &mut self,
        start: u32,
        op: AssignOp,
        levels: u32,
        right: Box<Expr>,
    ) -> Read<Box<Expr>> {
        let levels = levels.max(self.levels);
        let node = AssignExpr {
            span: self.span_from(start),
            op,
            left: take_last(&mut self.kept.targets)?,
            right,
        };
        let node = Box::new(self.alloc, node)?;
        self.nest(Expr::Assign(node), levels)
    }

    /// `? a : b`
    #[inline(never)]
    #[cycle(parser)]
    pub(crate) fn choice_behind(
        &mut self,
        room: u32,
        start: u32,
        test: Box<Expr>,
    ) -> Read<Box<Expr>> {
        self.bump();
        let levels = self.levels;
        self.kept.operands.push(test)?;
        let cons = self.assignment_inside(room)?;
        let levels = levels.max(self.levels);
        self.kept.operands.push(cons)?;
        self.expect(Kind::Colon)?;
        let alt = self.assignment_inside(room)?;
        self.choice(start, levels, alt)
    }

    /// The choice whose test and first value were kept last and have so many levels.
    #[inline(never)]
    fn choice(&mut self, start: u32, levels: u32, alt: Box<Expr>) -> Read<Box<Expr>> {
        let levels = levels.max(self.levels);
        let cons = take_last(&mut self.kept.operands)?;
        let test = take_last(&mut self.kept.operands)?;
        let node = CondExpr {
            span: self.span_from(start),
            test,
            cons,
            alt,
        };
        self.nest(Expr::Cond(node), levels)
    }

    /// Operators that bind more tightly than `least`, with their operands.
    #[inline(never)]
    #[cycle(parser)]
    pub(crate) fn binary_behind(
        &mut self,
        room: u32,
        start: u32,
        first: Box<Expr>,
        least: u8,
    ) -> Read<Box<Expr>> {
        let mut left = first;
        for _ in self.place..self.tokens.len() {
            let Some((op, strength)) = binary_op(self.kind()) else {
                break;
            };
            if strength <= least || self.place == self.refused_in {
                break;
            }
            if !self.is_wrapped && clashes(op, &*left) {
                return Err(self.refuse());
            }
            let levels = self.levels;
            let right = self.right_operand(room, beyond(op, strength))?;
            left = self.binary(start, op, levels, left, right)?;
        }
        Ok(left)
    }

    /// The right operand of the operator here, which is passed. Operators belong to it that bind more tightly than `least`.
    #[inline(never)]
    #[cycle(parser)]
    fn right_operand(&mut self, room: u32, least: u8) -> Read<Box<Expr>> {
        self.bump();
        let inner = self.inside(room)?;
        if self.is_at_leaf() {
            return self.leaf();
        }
        let start = self.start();
        let first = self.operand(inner)?;
        if ends_expression(self.kind()) {
            return Ok(first);
        }
        self.binary_behind(inner, start, first, least)
    }

    /// The operator between its operands, the left of which has so many levels.
    #[inline(never)]
    fn binary(
        &mut self,
        start: u32,
        op: BinaryOp,
        levels: u32,
        left: Box<Expr>,
        right: Box<Expr>,
    ) -> Read<Box<Expr>> {
        let levels = levels.max(self.levels);
        let node = BinExpr {
            span: self.span_from(start),
            op,
            left,
            right,
        };
        self.nest(Expr::Bin(node), levels)
    }

    /// An operand, with the operators in front of it and what stands behind it.
    #[cycle(parser)]
    fn operand(&mut self, room: u32) -> Read<Box<Expr>> {
        if is_prefix(self.kind()) {
            return self.unary(room);
        }
        if self.has_chains && self.is_at_chain() {
            return Err(self.leave_out(Construct::OptChain));
        }
        let start = self.start();
        let first = self.primary(room)?;
        if !goes_on(self.kind()) {
            return Ok(first);
        }
        self.operand_behind(room, start, first)
    }

    /// An operator in front of an operand, with its operand.
    #[inline(never)]
    #[cycle(parser)]
    fn unary(&mut self, room: u32) -> Read<Box<Expr>> {
        let Some(op) = unary_op(self.kind()) else {
            return self.update_in_front(room);
        };
        let start = self.start();
        self.bump();
        let inner = self.inside(room)?;
        let arg = self.operand(inner)?;
        self.unary_of(start, op, arg)
    }

    #[inline(never)]
    fn unary_of(&mut self, start: u32, op: UnaryOp, arg: Box<Expr>) -> Read<Box<Expr>> {
        let levels = self.levels;
        if matches!(op, UnaryOp::Delete)
            && let Expr::Ident(name) = &*arg
        {
            return Err(self.refuse_at(name.span.lo.saturating_sub(1)));
        }
        let span = self.span_from(start);
        self.nest(Expr::Unary(UnaryExpr { span, op, arg }), levels)
    }

    /// `++a` or `--a`
    #[inline(never)]
    #[cycle(parser)]
    fn update_in_front(&mut self, room: u32) -> Read<Box<Expr>> {
        let Some(op) = update_op(self.kind()) else {
            return Err(self.refuse());
        };
        let start = self.start();
        self.bump();
        let arg_start = self.start();
        let inner = self.inside(room)?;
        let arg = self.operand(inner)?;
        self.update(start, op, true, arg, arg_start)
    }

    /// Members and calls, and `++` or `--` behind them.
    #[cycle(parser)]
    pub(crate) fn operand_behind(
        &mut self,
        room: u32,
        start: u32,
        first: Box<Expr>,
    ) -> Read<Box<Expr>> {
        let found = self.members_behind(room, start, first, true)?;
        if ends_expression(self.kind()) || self.token().on_new_line {
            return Ok(found);
        }
        match update_op(self.kind()) {
            Some(op) => self.update_behind(start, op, found),
            None => Ok(found),
        }
    }

    /// `++` or `--` behind an operand.
    #[inline(never)]
    fn update_behind(&mut self, start: u32, op: UpdateOp, found: Box<Expr>) -> Read<Box<Expr>> {
        self.bump();
        self.update(start, op, false, found, start)
    }

    #[inline(never)]
    fn update(
        &mut self,
        start: u32,
        op: UpdateOp,
        prefix: bool,
        arg: Box<Expr>,
        arg_start: u32,
    ) -> Read<Box<Expr>> {
        let levels = self.levels;
        let node = UpdateExpr {
            span: self.span_from(start),
            op,
            prefix,
            arg: self.target(arg, arg_start)?,
        };
        let node = Box::new(self.alloc, node)?;
        self.nest(Expr::Update(node), levels)
    }
}
