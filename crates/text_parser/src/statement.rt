//! Statements and declarations.
use crate::cursor::{Parser, Read};
use crate::kept::{take_from, take_last};
use crate::scopes::{Declared, ScopeKind};
use swc_ast::{
    BlockStmt, Decl, EmptyStmt, Expr, ExprStmt, IdentName, LabeledStmt, Stmt, VarDecl, VarDeclKind,
    VarDeclarator,
};
use text_lexer::{Construct, Kind, Token};

/// A declaration of variables that has begun.
#[derive(Clone, Copy)]
pub(crate) struct Begun {
    start: u32,
    kind: VarDeclKind,
    /// from where on its variables are kept
    first: usize,
}

impl<'a> Parser<'a> {
    /// Keeps the statements up to a brace or a case, and returns their levels.
    #[inline(never)]
    #[cycle(parser)]
    pub(crate) fn statements(&mut self, room: u32) -> Read<u32> {
        let mut levels = 0;
        for _ in self.place..self.tokens.len() {
            if matches!(self.kind(), Kind::RightBrace | Kind::Case | Kind::Default) {
                break;
            }
            let inner = self.inside(room)?;
            let next = self.listed(inner)?;
            levels = levels.max(next);
        }
        Ok(levels)
    }

    /// A statement of the list of a script or a module.
    pub(crate) fn item_stmt(&mut self, room: u32) -> Read<Stmt> {
        self.listed(room)?;
        take_last(&mut self.kept.stmts)
    }

    /// Keeps a statement of a list: also what a list alone may declare. Its levels are returned.
    #[cycle(parser)]
    pub(crate) fn listed(&mut self, room: u32) -> Read<u32> {
        match self.kind() {
            Kind::Function => self.function_stmt(room),
            Kind::Let | Kind::Const => self.variable_stmt(room),
            _ => self.statement(room),
        }
    }

    #[inline(never)]
    #[cycle(parser)]
    fn variable_stmt(&mut self, room: u32) -> Read<u32> {
        let begun = self.begin_variables();
        let levels = self.declarators(room, begun, false)?;
        self.variable_stmt_of(begun, levels)
    }

    #[inline(never)]
    fn variable_stmt_of(&mut self, begun: Begun, levels: u32) -> Read<u32> {
        self.semicolon()?;
        let node = self.variables(begun)?;
        self.keep(Stmt::Decl(Decl::Var(node)), levels)
    }

    #[inline(never)]
    #[cycle(parser)]
    fn block_stmt(&mut self, room: u32) -> Read<u32> {
        let levels = self.block(room, ScopeKind::Block)?;
        self.block_stmt_of(levels)
    }

    /// Keeps the block that was kept last as a statement.
    #[inline(never)]
    fn block_stmt_of(&mut self, levels: u32) -> Read<u32> {
        let block = take_last(&mut self.kept.blocks)?;
        self.keep(Stmt::Block(block), levels)
    }

    /// Keeps a block, which opens a scope, and returns the levels of its statements.
    #[inline(never)]
    #[cycle(parser)]
    pub(crate) fn block(&mut self, room: u32, kind: ScopeKind) -> Read<u32> {
        let start = self.start();
        self.expect(Kind::LeftBrace)?;
        self.scopes.open(kind)?;
        let first = self.kept.stmts.len();
        let levels = self.statements(room)?;
        self.block_of(start, first, true)?;
        Ok(levels)
    }

    /// Keeps the block of the statements from this one on that were kept, which ends here. A scope may end with it.
    #[inline(never)]
    pub(crate) fn block_of(&mut self, start: u32, first: usize, is_scope: bool) -> Read<()> {
        if is_scope {
            self.scopes.close();
        }
        self.expect(Kind::RightBrace)?;
        let stmts = take_from(&mut self.kept.stmts, first)?;
        let span = self.span_from(start);
        self.kept.blocks.push(BlockStmt { span, stmts })?;
        Ok(())
    }

    /// `var`, `let` or `const` with its semicolon, whose names are exported.
    pub(crate) fn exported_variables(&mut self, room: u32) -> Read<VarDecl> {
        let begun = self.begin_variables();
        self.declarators(room, begun, true)?;
        self.semicolon()?;
        self.variables(begun)
    }

    /// Passes `var`, `let` or `const`.
    #[inline(always)]
    pub(crate) fn begin_variables(&mut self) -> Begun {
        let start = self.start();
        let kind = match self.kind() {
            Kind::Var => VarDeclKind::Var,
            Kind::Let => VarDeclKind::Let,
            _ => VarDeclKind::Const,
        };
        let first = self.kept.decls.len();
        self.bump();
        Begun { start, kind, first }
    }

    /// Keeps the variables of a declaration, up to its semicolon, and returns their levels.
    #[inline(never)]
    #[cycle(parser)]
    pub(crate) fn declarators(&mut self, room: u32, begun: Begun, is_exported: bool) -> Read<u32> {
        let mut levels = 0;
        for _ in self.place..self.tokens.len() {
            let next = self.declarator(room, begun.kind, is_exported)?;
            levels = levels.max(next);
            if !self.take(Kind::Comma) {
                break;
            }
        }
        Ok(levels)
    }

    /// The declaration whose variables were kept, which ends here.
    #[inline(always)]
    pub(crate) fn variables(&mut self, begun: Begun) -> Read<VarDecl> {
        let decls = take_from(&mut self.kept.decls, begun.first)?;
        Ok(VarDecl {
            span: self.span_from(begun.start),
            kind: begun.kind,
            decls,
        })
    }

    /// Keeps a variable with its value, if it has one, and returns the levels of that.
    #[inline(never)]
    #[cycle(parser)]
    fn declarator(&mut self, room: u32, kind: VarDeclKind, is_exported: bool) -> Read<u32> {
        let start = self.start();
        self.variable(kind, is_exported)?;
        if self.take(Kind::Equal) {
            let value = self.assignment_inside(room)?;
            self.initialize(start, value);
            return Ok(self.levels);
        }
        if matches!(kind, VarDeclKind::Const) {
            return Err(self.refuse());
        }
        Ok(0)
    }

    /// Gives the variable that was kept last its value.
    #[inline(never)]
    fn initialize(&mut self, start: u32, value: Box<Expr>) {
        let span = self.span_from(start);
        if let Some(last) = self.kept.decls.last_mut() {
            last.span = span;
            last.init = Some(value);
        }
    }

    /// Keeps a variable, whose name is declared here.
    #[inline(never)]
    fn variable(&mut self, kind: VarDeclKind, is_exported: bool) -> Read<()> {
        let token = self.token();
        self.refuse_destructuring()?;
        let what = match kind {
            VarDeclKind::Var => Declared::Var,
            VarDeclKind::Let | VarDeclKind::Const => Declared::Lexical,
        };
        let name = self.declared(what)?;
        if is_exported {
            self.export(token)?;
        }
        let span = self.span_from(token.start);
        let init = None;
        self.kept.decls.push(VarDeclarator { span, name, init })?;
        Ok(())
    }

    /// Keeps a statement, and returns its levels.
    #[cycle(parser)]
    pub(crate) fn statement(&mut self, room: u32) -> Read<u32> {
        match self.kind() {
            Kind::LeftBrace => self.block_stmt(room),
            Kind::Semicolon => self.empty(),
            Kind::Var => self.variable_stmt(room),
            Kind::If => self.branch(room),
            Kind::While => self.while_loop(room),
            Kind::Do => self.do_loop(room),
            Kind::For => self.for_loop(room),
            Kind::Switch => self.switch(room),
            Kind::Try => self.attempt(room),
            Kind::Return => self.leave_function(room),
            Kind::Throw => self.throw(room),
            Kind::Break | Kind::Continue => self.jump(),
            Kind::Name if matches!(self.next_kind(), Kind::Colon) => self.labeled(room),
            Kind::With | Kind::Debugger | Kind::Function | Kind::Let | Kind::Const => {
                self.no_statement()
            }
            Kind::Import if !matches!(self.next_kind(), Kind::LeftParen | Kind::Dot) => {
                self.no_statement()
            }
            _ => self.expression_stmt(room),
        }
    }

    /// Refuses what begins no statement.
    #[inline(never)]
    fn no_statement(&mut self) -> Read<u32> {
        Err(match self.kind() {
            Kind::With => self.leave_out(Construct::With),
            Kind::Debugger => self.leave_out(Construct::Debugger),
            _ => self.refuse(),
        })
    }

    #[inline(never)]
    fn empty(&mut self) -> Read<u32> {
        let start = self.start();
        self.bump();
        let span = self.span_from(start);
        self.keep(Stmt::Empty(EmptyStmt { span }), 0)
    }

    #[inline(never)]
    #[cycle(parser)]
    fn expression_stmt(&mut self, room: u32) -> Read<u32> {
        let start = self.start();
        let expr = self.expression_inside(room)?;
        self.expression_stmt_of(start, expr)
    }

    #[inline(never)]
    fn expression_stmt_of(&mut self, start: u32, expr: Box<Expr>) -> Read<u32> {
        self.semicolon()?;
        let span = self.span_from(start);
        let levels = self.levels;
        self.keep(Stmt::Expr(ExprStmt { span, expr }), levels)
    }

    #[inline(never)]
    #[cycle(parser)]
    fn labeled(&mut self, room: u32) -> Read<u32> {
        let token = self.token();
        let label = self.label(token)?;
        let body = self.boxed_statement(room)?;
        self.labeled_of(token, label, body)
    }

    /// A label and its colon, which jumps may lead to from here on.
    #[inline(never)]
    fn label(&mut self, token: Token) -> Read<IdentName> {
        let name = self.text_of(token);
        if self.targets.has_label(name) {
            return Err(self.refuse());
        }
        let of_loop = self.loop_is_labeled();
        let label = self.word()?;
        self.expect(Kind::Colon)?;
        self.targets.push_label(name, of_loop)?;
        Ok(label)
    }

    #[inline(never)]
    fn labeled_of(&mut self, token: Token, label: IdentName, body: Box<Stmt>) -> Read<u32> {
        let name = self.text_of(token);
        self.targets.pop_label(name);
        let node = LabeledStmt {
            span: self.span_from(token.start),
            label,
            body,
        };
        let levels = self.levels;
        self.keep(Stmt::Labeled(node), levels)
    }

    /// Whether the labels here stand before a loop.
    fn loop_is_labeled(&mut self) -> bool {
        if self.place >= self.labels_end {
            self.labels_end = self.behind_labels();
        }
        let end = self.labels_end;
        matches!(self.token_at(end).kind, Kind::For | Kind::While | Kind::Do)
    }

    /// The place behind the labels here.
    fn behind_labels(&self) -> usize {
        let mut place = self.place;
        for _ in self.place..self.tokens.len() {
            let colon: Token = self.token_at(place.saturating_add(1));
            if !matches!(self.token_at(place).kind, Kind::Name)
                || !matches!(colon.kind, Kind::Colon)
            {
                break;
            }
            place = place.saturating_add(2);
        }
        place
    }
}
