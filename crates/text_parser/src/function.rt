//! Functions.
use crate::cursor::{Parser, Read};
use crate::kept::{take_from, take_last};
use crate::scopes::{Declared, ScopeKind};
use swc_ast::{
    ArrowExpr, AssignPat, BlockStmtOrExpr, Decl, Expr, FnDecl, FnExpr, Function, Pat, Stmt,
};
use text_lexer::{Construct, Kind};

/// Whether one of the parameters from this one on has a default.
fn has_default(params: &[Pat], first: usize) -> bool {
    for param in params.get(first..).unwrap_or(&[]) {
        if let Pat::Assign(_) = param {
            return true;
        }
    }
    false
}

impl<'a> Parser<'a> {
    /// Passes `function`, where no generator begins.
    fn function_word(&mut self) -> Read<()> {
        if matches!(self.next_kind(), Kind::Star) {
            return Err(self.leave_out(Construct::Generator));
        }
        self.expect(Kind::Function)
    }

    #[inline(never)]
    #[cycle(parser)]
    pub(crate) fn function_expr(&mut self, room: u32) -> Read<Box<Expr>> {
        let start = self.start();
        self.function_word()?;
        let has_name = self.own_name()?;
        let function = self.function(room, start)?;
        self.function_expr_of(has_name, function)
    }

    /// Keeps the own name of a function that is no declaration, in a scope that it opens, and says whether it has one.
    #[inline(never)]
    fn own_name(&mut self) -> Read<bool> {
        if self.is_at(Kind::LeftParen) {
            return Ok(false);
        }
        self.scopes.open(ScopeKind::Block)?;
        self.keep_name()?;
        Ok(true)
    }

    /// Keeps the name of a function, which is declared here.
    #[inline(never)]
    fn keep_name(&mut self) -> Read<()> {
        let name = self.declared(Declared::Lexical)?;
        self.kept.names.push(name)?;
        Ok(())
    }

    #[inline(never)]
    fn function_expr_of(&mut self, has_name: bool, function: Box<Function>) -> Read<Box<Expr>> {
        let mut ident = None;
        if has_name {
            self.scopes.close();
            ident = self.kept.names.pop();
        }
        let levels = self.levels;
        self.nest(Expr::Fn(FnExpr { ident, function }), levels)
    }

    /// A function's declaration that is exported.
    pub(crate) fn exported_function(&mut self, room: u32) -> Read<FnDecl> {
        let function = self.declared_function(room, true)?;
        self.function_decl(function)
    }

    #[inline(never)]
    #[cycle(parser)]
    pub(crate) fn function_stmt(&mut self, room: u32) -> Read<u32> {
        let function = self.declared_function(room, false)?;
        self.function_stmt_of(function)
    }

    /// The function of a declaration, whose name is kept and may be exported.
    #[inline(always)]
    #[cycle(parser)]
    fn declared_function(&mut self, room: u32, is_exported: bool) -> Read<Box<Function>> {
        let start = self.start();
        self.function_word()?;
        let token = self.token();
        self.keep_name()?;
        if is_exported {
            self.export(token)?;
        }
        self.function(room, start)
    }

    /// The declaration of the function whose name was kept last.
    fn function_decl(&mut self, function: Box<Function>) -> Read<FnDecl> {
        let ident = take_last(&mut self.kept.names)?;
        Ok(FnDecl { ident, function })
    }

    /// Keeps the function whose name was kept last.
    #[inline(never)]
    fn function_stmt_of(&mut self, function: Box<Function>) -> Read<u32> {
        let node = self.function_decl(function)?;
        let levels = self.levels;
        self.keep(Stmt::Decl(Decl::Fn(node)), levels)
    }

    /// The function of a default export, whose name may be missing.
    pub(crate) fn default_function(&mut self, room: u32) -> Read<FnExpr> {
        let start = self.start();
        self.function_word()?;
        let mut ident = None;
        if !self.is_at(Kind::LeftParen) {
            ident = Some(self.declared(Declared::Lexical)?);
        }
        let function = self.function(room, start)?;
        Ok(FnExpr { ident, function })
    }

    /// The parameters and the body of a function or a method that begins at an offset.
    #[inline(never)]
    #[cycle(parser)]
    pub(crate) fn function(&mut self, room: u32, start: u32) -> Read<Box<Function>> {
        self.scopes.open(ScopeKind::Function)?;
        let outer = self.targets.enter();
        let first = self.kept.params.len();
        let params = self.params(room)?;
        let body = self.body(room, first)?;
        self.targets.leave(outer);
        self.function_of(start, first, params.max(body))
    }

    /// The function whose parameters are those from this one on that were kept, and whose body was kept last.
    #[inline(never)]
    fn function_of(&mut self, start: u32, first: usize, levels: u32) -> Read<Box<Function>> {
        self.levels = levels;
        self.scopes.close();
        let node = Function {
            span: self.span_from(start),
            params: take_from(&mut self.kept.params, first)?,
            body: take_last(&mut self.kept.blocks)?,
        };
        Ok(Box::new(self.alloc, node)?)
    }

    /// Keeps a function's body, which opens a scope of its own beside a default of a parameter from this one on. Its statements'
    /// levels are returned.
    #[inline(never)]
    #[cycle(parser)]
    fn body(&mut self, room: u32, first_param: usize) -> Read<u32> {
        let start = self.start();
        self.expect(Kind::LeftBrace)?;
        let beside_default = has_default(self.kept.params.as_slice(), first_param);
        if beside_default {
            self.scopes.open(ScopeKind::Body)?;
        }
        let first = self.kept.stmts.len();
        let levels = self.statements(room)?;
        self.block_of(start, first, beside_default)?;
        Ok(levels)
    }

    /// Keeps the parameters of a list, and returns their levels.
    #[inline(never)]
    #[cycle(parser)]
    fn params(&mut self, room: u32) -> Read<u32> {
        let mut levels = 0;
        self.expect(Kind::LeftParen)?;
        for _ in self.place..self.tokens.len() {
            if self.is_at(Kind::RightParen) {
                break;
            }
            let param = self.param(room)?;
            levels = levels.max(param);
            if !self.take(Kind::Comma) {
                break;
            }
        }
        self.expect(Kind::RightParen)?;
        Ok(levels)
    }

    /// Keeps a parameter, and returns its levels.
    #[inline(never)]
    #[cycle(parser)]
    fn param(&mut self, room: u32) -> Read<u32> {
        let start = self.start();
        self.param_name()?;
        if !self.take(Kind::Equal) {
            return Ok(0);
        }
        let value = self.assignment_inside(room)?;
        self.with_default(start, value)
    }

    /// Keeps a parameter, whose name is declared here.
    #[inline(never)]
    fn param_name(&mut self) -> Read<()> {
        if self.is_at(Kind::Dots) {
            return Err(self.leave_out(Construct::Rest));
        }
        self.refuse_destructuring()?;
        let name = self.declared(Declared::Param)?;
        self.kept.params.push(Pat::Ident(name))?;
        Ok(())
    }

    /// Gives the parameter that was kept last a default, and returns the levels of that.
    #[inline(never)]
    fn with_default(&mut self, start: u32, right: Box<Expr>) -> Read<u32> {
        let span = self.span_from(start);
        if let Some(Pat::Ident(left)) = self.kept.params.pop() {
            self.kept
                .params
                .push(Pat::Assign(AssignPat { span, left, right }))?;
        }
        Ok(self.levels)
    }

    #[inline(never)]
    #[cycle(parser)]
    pub(crate) fn arrow(&mut self, room: u32) -> Read<Box<Expr>> {
        let start = self.start();
        self.scopes.open(ScopeKind::Function)?;
        let outer = self.targets.enter();
        let first = self.kept.params.len();
        let levels = self.arrow_params(room)?;
        let body = self.arrow_body(room, first)?;
        self.targets.leave(outer);
        self.arrow_of(start, first, levels, body)
    }

    /// Keeps the parameters of an arrow, a name by itself or a list in parentheses, and returns their levels. The `=>` is passed.
    #[inline(never)]
    #[cycle(parser)]
    fn arrow_params(&mut self, room: u32) -> Read<u32> {
        let levels = if self.is_at(Kind::Name) {
            self.param(room)?
        } else {
            self.params(room)?
        };
        if self.token().on_new_line {
            return Err(self.refuse());
        }
        self.expect(Kind::Arrow)?;
        Ok(levels)
    }

    /// The arrow whose parameters are those from this one on that were kept.
    #[inline(never)]
    fn arrow_of(
        &mut self,
        start: u32,
        first: usize,
        levels: u32,
        body: BlockStmtOrExpr,
    ) -> Read<Box<Expr>> {
        self.scopes.close();
        let levels = levels.max(self.levels);
        let node = ArrowExpr {
            span: self.span_from(start),
            params: take_from(&mut self.kept.params, first)?,
            body,
        };
        let node = Box::new(self.alloc, node)?;
        self.nest(Expr::Arrow(node), levels)
    }

    #[inline(never)]
    #[cycle(parser)]
    fn arrow_body(&mut self, room: u32, first_param: usize) -> Read<BlockStmtOrExpr> {
        if self.is_at(Kind::LeftBrace) {
            self.levels = self.body(room, first_param)?;
            return self.arrow_block();
        }
        let found = self.assignment_inside(room)?;
        Ok(BlockStmtOrExpr::Expr(found))
    }

    /// The body that was kept last.
    #[inline(never)]
    fn arrow_block(&mut self) -> Read<BlockStmtOrExpr> {
        let block = take_last(&mut self.kept.blocks)?;
        Ok(BlockStmtOrExpr::BlockStmt(block))
    }
}
