//! `if`, `switch`, `try` and jumps.
use crate::cursor::{Parser, Read};
use crate::kept::{take_from, take_last};
use crate::scopes::{Declared, ScopeKind};
use crate::targets::Target;
use swc_ast::{
    BreakStmt, CatchClause, ContinueStmt, DUMMY_SP, Expr, IdentName, IfStmt, ReturnStmt, Stmt,
    SwitchCase, SwitchStmt, ThrowStmt, TryStmt,
};
use text_lexer::Kind;

impl<'a> Parser<'a> {
    #[inline(never)]
    #[cycle(parser)]
    pub(crate) fn branch(&mut self, room: u32) -> Read<u32> {
        let start = self.start();
        self.bump();
        let test = self.head(room)?;
        let mut levels = self.levels;
        let cons = self.boxed_statement(room)?;
        levels = levels.max(self.levels);
        let mut alt = None;
        if self.take(Kind::Else) {
            alt = Some(self.boxed_statement(room)?);
            levels = levels.max(self.levels);
        }
        self.branch_of(start, levels, test, cons, alt)
    }

    #[inline(never)]
    fn branch_of(
        &mut self,
        start: u32,
        levels: u32,
        test: Box<Expr>,
        cons: Box<Stmt>,
        alt: Option<Box<Stmt>>,
    ) -> Read<u32> {
        let node = IfStmt {
            span: self.span_from(start),
            test,
            cons,
            alt,
        };
        self.keep(Stmt::If(node), levels)
    }

    /// A statement inside another.
    #[inline(never)]
    #[cycle(parser)]
    pub(crate) fn boxed_statement(&mut self, room: u32) -> Read<Box<Stmt>> {
        let inner = self.inside(room)?;
        self.levels = self.statement(inner)?;
        self.boxed()
    }

    /// The statement that was kept last.
    #[inline(never)]
    fn boxed(&mut self) -> Read<Box<Stmt>> {
        let stmt = take_last(&mut self.kept.stmts)?;
        Ok(Box::new(self.alloc, stmt)?)
    }

    #[inline(never)]
    #[cycle(parser)]
    pub(crate) fn switch(&mut self, room: u32) -> Read<u32> {
        let start = self.start();
        self.bump();
        let discriminant = self.head(room)?;
        let levels = self.levels;
        let first = self.kept.cases.len();
        let cases = self.cases(room)?;
        self.switch_of(start, discriminant, first, levels.max(cases))
    }

    /// The `switch` over the cases from this one on that were kept.
    #[inline(never)]
    fn switch_of(
        &mut self,
        start: u32,
        discriminant: Box<Expr>,
        first: usize,
        levels: u32,
    ) -> Read<u32> {
        self.targets.pop(Target::Switch);
        self.scopes.close();
        self.expect(Kind::RightBrace)?;
        let node = SwitchStmt {
            span: self.span_from(start),
            discriminant,
            cases: take_from(&mut self.kept.cases, first)?,
        };
        self.keep(Stmt::Switch(node), levels)
    }

    /// Keeps the cases of a `switch`, of which one at most is `default`, and returns their levels.
    #[inline(never)]
    #[cycle(parser)]
    fn cases(&mut self, room: u32) -> Read<u32> {
        self.expect(Kind::LeftBrace)?;
        self.scopes.open(ScopeKind::Block)?;
        self.targets.push(Target::Switch);
        let mut levels = 0;
        let mut has_default = false;
        for _ in self.place..self.tokens.len() {
            let is_default = self.is_at(Kind::Default);
            if self.is_at(Kind::RightBrace) || (has_default && is_default) {
                break;
            }
            has_default = has_default || is_default;
            let case = self.case(room)?;
            levels = levels.max(case);
        }
        Ok(levels)
    }

    /// Keeps a case, and returns its levels.
    #[inline(never)]
    #[cycle(parser)]
    fn case(&mut self, room: u32) -> Read<u32> {
        let start = self.start();
        let test = self.case_test(room)?;
        let levels = self.levels;
        let first = self.kept.stmts.len();
        let cons = self.statements(room)?;
        self.case_of(start, test, first, levels.max(cons))
    }

    /// What a case is for, with its colon.
    #[inline(never)]
    #[cycle(parser)]
    fn case_test(&mut self, room: u32) -> Read<Option<Box<Expr>>> {
        if self.take(Kind::Default) {
            self.expect(Kind::Colon)?;
            self.levels = 0;
            return Ok(None);
        }
        self.expect(Kind::Case)?;
        let found = self.expression_inside(room)?;
        let test = self.closed(found, Kind::Colon)?;
        Ok(Some(test))
    }

    /// Keeps a case with the statements from this one on that were kept.
    #[inline(never)]
    fn case_of(
        &mut self,
        start: u32,
        test: Option<Box<Expr>>,
        first: usize,
        levels: u32,
    ) -> Read<u32> {
        let node = SwitchCase {
            span: self.span_from(start),
            test,
            cons: take_from(&mut self.kept.stmts, first)?,
        };
        self.kept.cases.push(node)?;
        Ok(levels)
    }

    #[inline(never)]
    #[cycle(parser)]
    pub(crate) fn attempt(&mut self, room: u32) -> Read<u32> {
        let start = self.start();
        self.bump();
        let mut levels = self.block(room, ScopeKind::Block)?;
        let mut begun = self.attempt_begun()?;
        levels = levels.max(self.attempt_behind(room, &mut begun)?);
        self.attempt_of(start, begun, levels)
    }

    /// A `try` without what stands behind its block, which was kept last.
    #[inline(never)]
    fn attempt_begun(&mut self) -> Read<Box<TryStmt>> {
        let node = TryStmt {
            span: DUMMY_SP,
            block: take_last(&mut self.kept.blocks)?,
            handler: None,
            finalizer: None,
        };
        Ok(Box::new(self.alloc, node)?)
    }

    /// `catch` and `finally` behind the block of a `try`, of which one at least must stand there. Their levels are returned.
    #[inline(never)]
    #[cycle(parser)]
    fn attempt_behind(&mut self, room: u32, begun: &mut Box<TryStmt>) -> Read<u32> {
        if !matches!(self.kind(), Kind::Catch | Kind::Finally) {
            return Err(self.refuse());
        }
        let mut levels = 0;
        if self.is_at(Kind::Catch) {
            levels = self.handler(room, begun)?;
        }
        if self.take(Kind::Finally) {
            levels = levels.max(self.block(room, ScopeKind::Block)?);
            self.set_finalizer(begun)?;
        }
        Ok(levels)
    }

    /// Gives a `try` the block that was kept last.
    #[inline(never)]
    fn set_finalizer(&mut self, begun: &mut Box<TryStmt>) -> Read<()> {
        begun.finalizer = Some(take_last(&mut self.kept.blocks)?);
        Ok(())
    }

    #[inline(never)]
    fn attempt_of(&mut self, start: u32, begun: Box<TryStmt>, levels: u32) -> Read<u32> {
        let mut node = begun;
        node.span = self.span_from(start);
        self.keep(Stmt::Try(node), levels)
    }

    /// Gives a `try` the `catch` that stands here, and returns the levels of its statements.
    #[inline(never)]
    #[cycle(parser)]
    fn handler(&mut self, room: u32, begun: &mut Box<TryStmt>) -> Read<u32> {
        let start = self.start();
        self.bump();
        self.scopes.open(ScopeKind::Block)?;
        let has_param = self.caught()?;
        let levels = self.block(room, ScopeKind::CatchBody)?;
        self.handler_of(start, has_param, begun)?;
        Ok(levels)
    }

    #[inline(never)]
    fn handler_of(&mut self, start: u32, has_param: bool, begun: &mut Box<TryStmt>) -> Read<()> {
        self.scopes.close();
        let param = if has_param {
            self.kept.names.pop()
        } else {
            None
        };
        begun.handler = Some(CatchClause {
            span: self.span_from(start),
            param,
            body: take_last(&mut self.kept.blocks)?,
        });
        Ok(())
    }

    /// Keeps the parameter of a `catch`, and says whether it has one.
    #[inline(never)]
    fn caught(&mut self) -> Read<bool> {
        if !self.take(Kind::LeftParen) {
            return Ok(false);
        }
        self.refuse_destructuring()?;
        let name = self.declared(Declared::Lexical)?;
        self.expect(Kind::RightParen)?;
        self.kept.names.push(name)?;
        Ok(true)
    }

    #[inline(never)]
    #[cycle(parser)]
    pub(crate) fn leave_function(&mut self, room: u32) -> Read<u32> {
        if !self.targets.is_in_function() {
            return Err(self.refuse());
        }
        let start = self.start();
        self.bump();
        let next = self.token();
        if next.on_new_line || matches!(next.kind, Kind::Semicolon | Kind::RightBrace | Kind::End) {
            return self.return_of(start, None, 0);
        }
        let found = self.expression_inside(room)?;
        let levels = self.levels;
        self.return_of(start, Some(found), levels)
    }

    #[inline(never)]
    fn return_of(&mut self, start: u32, arg: Option<Box<Expr>>, levels: u32) -> Read<u32> {
        self.semicolon()?;
        let span = self.span_from(start);
        self.keep(Stmt::Return(ReturnStmt { span, arg }), levels)
    }

    #[inline(never)]
    #[cycle(parser)]
    pub(crate) fn throw(&mut self, room: u32) -> Read<u32> {
        let start = self.start();
        self.bump();
        if self.token().on_new_line {
            return Err(self.refuse());
        }
        let found = self.expression_inside(room)?;
        self.throw_of(start, found)
    }

    #[inline(never)]
    fn throw_of(&mut self, start: u32, arg: Box<Expr>) -> Read<u32> {
        self.semicolon()?;
        let span = self.span_from(start);
        let levels = self.levels;
        self.keep(Stmt::Throw(ThrowStmt { span, arg }), levels)
    }

    /// `break` and `continue`, where they lead somewhere.
    #[inline(never)]
    pub(crate) fn jump(&mut self) -> Read<u32> {
        let first = self.token();
        let is_break = matches!(first.kind, Kind::Break);
        self.bump();
        let next = self.token();
        let mut label: Option<IdentName> = None;
        let mut name: Option<&'a str> = None;
        if matches!(next.kind, Kind::Name) && !next.on_new_line {
            name = Some(self.text_of(next));
            label = Some(self.word()?);
        }
        if !self.targets.is_target(name, is_break) {
            return Err(self.refuse_at(first.start));
        }
        self.semicolon()?;
        let span = self.span_from(first.start);
        let node = if is_break {
            Stmt::Break(BreakStmt { span, label })
        } else {
            Stmt::Continue(ContinueStmt { span, label })
        };
        self.keep(node, 0)
    }
}
