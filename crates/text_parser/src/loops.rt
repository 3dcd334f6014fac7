//! Loops.
use crate::cursor::{Parser, Read};
use crate::kept::take_last;
use crate::scopes::ScopeKind;
use crate::statement::Begun;
use crate::targets::Target;
use swc_ast::{Expr, ForStmt, Stmt, VarDeclOrExpr, WhileStmt};
use text_lexer::{Construct, Kind};

impl<'a> Parser<'a> {
    /// `(a)`
    #[inline(never)]
    #[cycle(parser)]
    pub(crate) fn head(&mut self, room: u32) -> Read<Box<Expr>> {
        self.expect(Kind::LeftParen)?;
        let test = self.expression_inside(room)?;
        self.closed(test, Kind::RightParen)
    }

    #[inline(never)]
    #[cycle(parser)]
    fn loop_body(&mut self, room: u32) -> Read<Box<Stmt>> {
        self.targets.push(Target::Loop);
        let body = self.boxed_statement(room)?;
        self.targets.pop(Target::Loop);
        Ok(body)
    }

    #[inline(never)]
    #[cycle(parser)]
    pub(crate) fn while_loop(&mut self, room: u32) -> Read<u32> {
        let start = self.start();
        self.bump();
        let test = self.head(room)?;
        let levels = self.levels;
        let body = self.loop_body(room)?;
        self.while_loop_of(start, levels, test, body)
    }

    /// Keeps the `while` whose test has so many levels.
    #[inline(never)]
    fn while_loop_of(
        &mut self,
        start: u32,
        levels: u32,
        test: Box<Expr>,
        body: Box<Stmt>,
    ) -> Read<u32> {
        let levels = levels.max(self.levels);
        let span = self.span_from(start);
        self.keep(Stmt::While(WhileStmt { span, test, body }), levels)
    }

    #[inline(never)]
    #[cycle(parser)]
    pub(crate) fn do_loop(&mut self, room: u32) -> Read<u32> {
        let start = self.start();
        self.bump();
        let body = self.loop_body(room)?;
        let levels = self.levels;
        let test = self.do_test(room)?;
        self.do_loop_of(start, levels, body, test)
    }

    /// `while (a)`
    #[inline(never)]
    #[cycle(parser)]
    fn do_test(&mut self, room: u32) -> Read<Box<Expr>> {
        self.expect(Kind::While)?;
        self.head(room)
    }

    /// Keeps the `do` whose body has so many levels.
    #[inline(never)]
    fn do_loop_of(
        &mut self,
        start: u32,
        levels: u32,
        body: Box<Stmt>,
        test: Box<Expr>,
    ) -> Read<u32> {
        self.take(Kind::Semicolon);
        let levels = levels.max(self.levels);
        let span = self.span_from(start);
        self.keep(Stmt::DoWhile(WhileStmt { span, test, body }), levels)
    }

    #[inline(never)]
    #[cycle(parser)]
    pub(crate) fn for_loop(&mut self, room: u32) -> Read<u32> {
        let start = self.start();
        let levels = self.for_head(room)?;
        let body = self.loop_body(room)?;
        self.for_loop_of(start, levels, body)
    }

    /// Keeps what stands before the body of a `for`, whose scope is opened, and returns its levels.
    #[inline(never)]
    #[cycle(parser)]
    fn for_head(&mut self, room: u32) -> Read<u32> {
        self.open_for()?;
        let init = self.first_part(room)?;
        let test = self.optional(room, Kind::Semicolon)?;
        let update = self.optional(room, Kind::RightParen)?;
        Ok(init.max(test).max(update))
    }

    /// Passes `for (`, where no loop over a list or over keys begins, and opens its scope.
    #[inline(never)]
    fn open_for(&mut self) -> Read<()> {
        self.refuse_each_loop()?;
        self.bump();
        self.expect(Kind::LeftParen)?;
        self.scopes.open(ScopeKind::Block)?;
        Ok(())
    }

    /// Keeps the `for` whose head was kept last and has so many levels.
    #[inline(never)]
    fn for_loop_of(&mut self, start: u32, levels: u32, body: Box<Stmt>) -> Read<u32> {
        self.scopes.close();
        let levels = levels.max(self.levels);
        let update = take_last(&mut self.kept.parts)?;
        let test = take_last(&mut self.kept.parts)?;
        let node = ForStmt {
            span: self.span_from(start),
            init: take_last(&mut self.kept.inits)?,
            test,
            update,
            body,
        };
        let node = Box::new(self.alloc, node)?;
        self.keep(Stmt::For(node), levels)
    }

    /// Refuses the `for` here where it goes over a list or over keys.
    fn refuse_each_loop(&mut self) -> Read<()> {
        let next = self.next();
        if matches!(next.kind, Kind::Reserved)
            && self.text_of(next) == "await"
            && !self.targets.is_in_function()
        {
            return Err(self.leave_out(Construct::Async));
        }
        match self.each_loop() {
            Some(construct) if matches!(next.kind, Kind::LeftParen) => {
                Err(self.leave_out(construct))
            }
            _ => Ok(()),
        }
    }

    /// Keeps the first part of a `for`, whose semicolon is passed, and returns the levels of that.
    #[inline(never)]
    #[cycle(parser)]
    fn first_part(&mut self, room: u32) -> Read<u32> {
        if self.is_at(Kind::Semicolon) {
            self.keep_init(None)?;
            return Ok(0);
        }
        let outer = self.refused_in;
        self.refused_in = self.place_of_in();
        if matches!(self.kind(), Kind::Var | Kind::Let | Kind::Const) {
            let begun = self.begin_variables();
            let levels = self.declarators(room, begun, false)?;
            self.refused_in = outer;
            self.first_variables(begun)?;
            return Ok(levels);
        }
        let found = self.expression_inside(room)?;
        self.refused_in = outer;
        self.first_expression(found)
    }

    /// Keeps a declaration, whose variables were kept, as the first part of a `for`.
    #[inline(never)]
    fn first_variables(&mut self, begun: Begun) -> Read<()> {
        let decl = self.variables(begun)?;
        self.keep_init(Some(VarDeclOrExpr::VarDecl(decl)))
    }

    #[inline(never)]
    fn first_expression(&mut self, found: Box<Expr>) -> Read<u32> {
        self.keep_init(Some(VarDeclOrExpr::Expr(found)))?;
        Ok(self.levels)
    }

    #[inline(never)]
    fn keep_init(&mut self, init: Option<VarDeclOrExpr>) -> Read<()> {
        self.expect(Kind::Semicolon)?;
        self.kept.inits.push(init)?;
        Ok(())
    }

    /// Keeps an expression, if there is one before this token, which is passed. Its levels are returned.
    #[inline(never)]
    #[cycle(parser)]
    fn optional(&mut self, room: u32, end: Kind) -> Read<u32> {
        if self.take(end) {
            self.kept.parts.push(None)?;
            return Ok(0);
        }
        let read = self.expression_inside(room)?;
        let found = self.closed(read, end)?;
        self.kept.parts.push(Some(found))?;
        Ok(self.levels)
    }
}
