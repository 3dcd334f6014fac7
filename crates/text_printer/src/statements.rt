//! Statements and declarations.
use crate::precedence::{ASSIGNMENT, COMMA, declaration_word};
use crate::writer::Printer;
use std::alloc::AllocError;
use swc_ast::{
    BlockStmt, Decl, Expr, ForStmt, IdentName, IfStmt, Lit, Stmt, SwitchCase, SwitchStmt, TryStmt,
    VarDecl, VarDeclOrExpr, WhileStmt,
};

/// The text that a statement is, as each directive is one.
fn text_alone(stmt: &Stmt) -> Option<&str> {
    match stmt {
        Stmt::Expr(node) => match &*node.expr {
            Expr::Lit(Lit::Str(text)) => Some(text.value.as_str()),
            _ => None,
        },
        _ => None,
    }
}

/// Whether an `else` behind a statement would be taken by an `if` that it ends in.
fn takes_else(stmt: &Stmt) -> bool {
    match stmt {
        Stmt::If(node) => match &node.alt {
            Some(alt) => takes_else(alt),
            None => true,
        },
        Stmt::Labeled(node) => takes_else(&node.body),
        Stmt::While(node) => takes_else(&node.body),
        Stmt::For(node) => takes_else(&node.body),
        _ => false,
    }
}

impl Printer {
    #[cycle(print)]
    pub(crate) fn stmt(&mut self, stmt: &Stmt) -> Result<(), AllocError> {
        match stmt {
            Stmt::Block(node) => self.block(node, false),
            Stmt::Empty(_) => self.put(";"),
            Stmt::Return(node) => match &node.arg {
                Some(arg) => self.word_and_expr("return", arg),
                None => self.jump("return", &None),
            },
            Stmt::Labeled(node) => {
                self.token(node.label.sym.as_str())?;
                self.put(":")?;
                self.space()?;
                self.stmt(&node.body)
            }
            Stmt::Break(node) => self.jump("break", &node.label),
            Stmt::Continue(node) => self.jump("continue", &node.label),
            Stmt::If(node) => self.if_stmt(node),
            Stmt::Switch(node) => self.switch(node),
            Stmt::Throw(node) => self.word_and_expr("throw", &node.arg),
            Stmt::Try(node) => self.try_stmt(node),
            Stmt::While(node) => {
                self.head("while", &node.test)?;
                self.stmt(&node.body)
            }
            Stmt::DoWhile(node) => self.do_while(node),
            Stmt::For(node) => self.for_stmt(node),
            Stmt::Decl(node) => self.decl(node),
            Stmt::Expr(node) => {
                self.expr_alone(&node.expr, COMMA)?;
                self.semicolon()
            }
        }
    }

    /// `{ a(); b(); }`. The directive `use strict` is none, if it isn't allowed.
    #[cycle(print)]
    pub(crate) fn block(
        &mut self,
        block: &BlockStmt,
        forbids_strict: bool,
    ) -> Result<(), AllocError> {
        if block.stmts.is_empty() {
            return self.put("{}");
        }
        self.put("{")?;
        self.stmts(&block.stmts, forbids_strict)?;
        self.close()
    }

    /// Statements with a space before each. Where they must not have the directive `use strict`, a text that would be read as one is
    /// in parentheses, and what is behind it is no directive (ECMA-262, 11.2.1).
    #[cycle(print)]
    fn stmts(&mut self, stmts: &Vec<Stmt>, forbids_strict: bool) -> Result<(), AllocError> {
        let mut may_be_strict = forbids_strict;
        for stmt in stmts {
            self.go_on()?;
            self.space()?;
            if may_be_strict && text_alone(stmt) == Some("use strict") {
                may_be_strict = false;
                self.put("('use strict')")?;
                self.semicolon()?;
            } else {
                may_be_strict = may_be_strict && text_alone(stmt).is_some();
                self.stmt(stmt)?;
            }
        }
        Ok(())
    }

    #[cycle(print)]
    fn word_and_expr(&mut self, word: &str, expr: &Expr) -> Result<(), AllocError> {
        self.word(word)?;
        self.expr(expr, COMMA)?;
        self.semicolon()
    }

    fn jump(&mut self, word: &str, label: &Option<IdentName>) -> Result<(), AllocError> {
        self.token(word)?;
        if let Some(label) = label {
            self.space()?;
            self.token(label.sym.as_str())?;
        }
        self.semicolon()
    }

    /// A word, and an expression in parentheses.
    #[cycle(print)]
    fn word_and_test(&mut self, word: &str, expr: &Expr) -> Result<(), AllocError> {
        self.word(word)?;
        self.put("(")?;
        self.expr(expr, COMMA)?;
        self.put(")")
    }

    /// The same, in front of a statement.
    #[cycle(print)]
    fn head(&mut self, word: &str, expr: &Expr) -> Result<(), AllocError> {
        self.word_and_test(word, expr)?;
        self.space()
    }

    #[cycle(print)]
    fn if_stmt(&mut self, node: &IfStmt) -> Result<(), AllocError> {
        self.head("if", &node.test)?;
        let Some(alt) = &node.alt else {
            return self.stmt(&node.cons);
        };
        if takes_else(&node.cons) {
            self.put("{")?;
            self.space()?;
            self.stmt(&node.cons)?;
            self.close()?;
        } else {
            self.stmt(&node.cons)?;
        }
        self.go_on()?;
        self.between("else")?;
        self.stmt(alt)
    }

    #[cycle(print)]
    fn switch(&mut self, node: &SwitchStmt) -> Result<(), AllocError> {
        self.head("switch", &node.discriminant)?;
        if node.cases.is_empty() {
            return self.put("{}");
        }
        self.put("{")?;
        for case in &node.cases {
            self.case(case)?;
        }
        self.close()
    }

    #[cycle(print)]
    fn case(&mut self, case: &SwitchCase) -> Result<(), AllocError> {
        self.go_on()?;
        self.space()?;
        match &case.test {
            Some(test) => {
                self.word("case")?;
                self.expr(test, COMMA)?;
            }
            None => self.token("default")?,
        }
        self.put(":")?;
        self.stmts(&case.cons, false)
    }

    #[cycle(print)]
    fn try_stmt(&mut self, node: &TryStmt) -> Result<(), AllocError> {
        self.word("try")?;
        self.block(&node.block, false)?;
        if let Some(handler) = &node.handler {
            self.between("catch")?;
            if let Some(param) = &handler.param {
                self.put("(")?;
                self.name(param)?;
                self.put(")")?;
                self.space()?;
            }
            self.block(&handler.body, false)?;
        }
        if let Some(finalizer) = &node.finalizer {
            self.between("finally")?;
            self.block(finalizer, false)?;
        }
        Ok(())
    }

    /// `do a(); while (b);`, whose last semicolon is read where it is missing (ECMA-262, 12.10.1).
    #[cycle(print)]
    fn do_while(&mut self, node: &WhileStmt) -> Result<(), AllocError> {
        self.word("do")?;
        self.stmt(&node.body)?;
        self.go_on()?;
        self.space()?;
        self.word_and_test("while", &node.test)?;
        if self.is_compact() {
            Ok(())
        } else {
            self.put(";")
        }
    }

    #[cycle(print)]
    fn for_stmt(&mut self, node: &ForStmt) -> Result<(), AllocError> {
        self.word("for")?;
        self.put("(")?;
        if let Some(init) = &node.init {
            self.in_head = true;
            match init {
                VarDeclOrExpr::VarDecl(decl) => self.declarators(decl)?,
                VarDeclOrExpr::Expr(expr) => self.expr(expr, COMMA)?,
            }
            self.in_head = false;
        }
        self.put(";")?;
        if let Some(test) = &node.test {
            self.space()?;
            self.expr(test, COMMA)?;
        }
        self.put(";")?;
        if let Some(update) = &node.update {
            self.space()?;
            self.expr(update, COMMA)?;
        }
        self.put(")")?;
        self.space()?;
        self.stmt(&node.body)
    }

    /// A declaration without its semicolon.
    #[cycle(print)]
    fn declarators(&mut self, decl: &VarDecl) -> Result<(), AllocError> {
        self.word(declaration_word(decl.kind))?;
        for (i, declarator) in decl.decls.iter().enumerate() {
            self.comma(i)?;
            self.name(&declarator.name)?;
            if let Some(init) = &declarator.init {
                self.between("=")?;
                self.expr(init, ASSIGNMENT)?;
            }
        }
        Ok(())
    }

    #[cycle(print)]
    pub(crate) fn decl(&mut self, decl: &Decl) -> Result<(), AllocError> {
        match decl {
            Decl::Fn(node) => {
                self.word("function")?;
                self.name(&node.ident)?;
                self.function(&node.function)
            }
            Decl::Var(node) => {
                self.declarators(node)?;
                self.semicolon()
            }
        }
    }
}
