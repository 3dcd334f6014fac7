//! Trees that tests build by hand, since no text has them.
#![tactic(auto)]

use std::alloc::{AllocError, Global};
use swc_ast::{
    AssignPat, Atom, BlockStmt, BreakStmt, ContinueStmt, DUMMY_SP, Decl, Expr, ExprStmt, FnDecl,
    Function, Ident, IdentName, Invalid, LabeledStmt, Lit, Mark, Module, ModuleItem, Number, Pat,
    Script, SeqExpr, Stmt, SyntaxContext, TryStmt, VarDecl, VarDeclKind, VarDeclarator, WhileStmt,
};

pub fn number(value: i64) -> Expr {
    let span = DUMMY_SP;
    Expr::Lit(Lit::Num(Number { span, value }))
}

/// An expression that stands for none.
pub fn nothing() -> Expr {
    let span = DUMMY_SP;
    Expr::Invalid(Invalid { span })
}

/// A name under the mark of a number; 0 stands for the empty context.
pub fn ident(alloc: Global, text: &str, mark: u32) -> Result<Ident, AllocError> {
    let sym = Atom::from_str(alloc, text)?;
    let ctxt = match Mark::new(mark) {
        Some(mark) => SyntaxContext::empty().apply_mark(mark),
        None => SyntaxContext::empty(),
    };
    let span = DUMMY_SP;
    Ok(Ident { span, sym, ctxt })
}

fn word(alloc: Global, text: &str) -> Result<IdentName, AllocError> {
    let sym = Atom::from_str(alloc, text)?;
    let span = DUMMY_SP;
    Ok(IdentName { span, sym })
}

pub fn statement(alloc: Global, e: Expr) -> Result<Stmt, AllocError> {
    let expr = Box::new(alloc, e)?;
    let span = DUMMY_SP;
    Ok(Stmt::Expr(ExprStmt { span, expr }))
}

/// A name that no scope binds, as a statement.
pub fn name(alloc: Global, text: &str) -> Result<Stmt, AllocError> {
    statement(alloc, Expr::Ident(ident(alloc, text, 1)?))
}

/// A sequence of numbers, as many as that.
pub fn sequence(alloc: Global, count: usize) -> Result<Stmt, AllocError> {
    let mut exprs = Vec::new(alloc);
    for _ in 0..count {
        exprs.push(number(1))?;
    }
    let span = DUMMY_SP;
    statement(alloc, Expr::Seq(SeqExpr { span, exprs }))
}

/// `let x;`, or `var` or `const`.
pub fn declare(alloc: Global, kind: VarDeclKind, mark: u32) -> Result<Stmt, AllocError> {
    let name = ident(alloc, "x", mark)?;
    let init = None;
    let span = DUMMY_SP;
    let decls = vec![in alloc; VarDeclarator { span, name, init }]?;
    Ok(Stmt::Decl(Decl::Var(VarDecl { span, kind, decls })))
}

/// `while (1) let x;`, or `const`.
pub fn loop_on(alloc: Global, kind: VarDeclKind) -> Result<Stmt, AllocError> {
    let span = DUMMY_SP;
    let body = Box::new(alloc, declare(alloc, kind, 2)?)?;
    let test = Box::new(alloc, number(1))?;
    Ok(Stmt::While(WhileStmt { span, test, body }))
}

/// `try {}`
pub fn try_alone(alloc: Global) -> Result<Stmt, AllocError> {
    let span = DUMMY_SP;
    let stmts = Vec::new(alloc);
    let node = TryStmt {
        span,
        block: BlockStmt { span, stmts },
        handler: None,
        finalizer: None,
    };
    Ok(Stmt::Try(Box::new(alloc, node)?))
}

pub fn block(stmts: Vec<Stmt>) -> Stmt {
    let span = DUMMY_SP;
    Stmt::Block(BlockStmt { span, stmts })
}

/// Where a declaration stands in a list of statements.
#[derive(Clone, Copy)]
pub enum Place {
    Here,
    /// It is alone in a block.
    InBlock,
    /// It is alone in a function without parameters.
    InFunction,
}

fn declare_in(
    alloc: Global,
    place: Place,
    kind: VarDeclKind,
    mark: u32,
) -> Result<Stmt, AllocError> {
    let s = declare(alloc, kind, mark)?;
    if matches!(place, Place::Here) {
        return Ok(s);
    }
    let stmts = vec![in alloc; s]?;
    match place {
        Place::InFunction => function(alloc, Vec::new(alloc), stmts),
        _ => Ok(block(stmts)),
    }
}

/// A block of declarations, each with the mark of its name.
pub fn scope(alloc: Global, parts: &[(Place, VarDeclKind, u32)]) -> Result<Stmt, AllocError> {
    let mut stmts = Vec::new(alloc);
    for (place, kind, mark) in parts {
        stmts.push(declare_in(alloc, *place, *kind, *mark)?)?;
    }
    Ok(block(stmts))
}

/// `break a;`
pub fn break_to(alloc: Global, label: &str) -> Result<Stmt, AllocError> {
    let label = Some(word(alloc, label)?);
    let span = DUMMY_SP;
    Ok(Stmt::Break(BreakStmt { span, label }))
}

/// `continue a;`
pub fn continue_to(alloc: Global, label: &str) -> Result<Stmt, AllocError> {
    let label = Some(word(alloc, label)?);
    let span = DUMMY_SP;
    Ok(Stmt::Continue(ContinueStmt { span, label }))
}

/// `a: s`
pub fn labeled(alloc: Global, s: Stmt) -> Result<Stmt, AllocError> {
    let body = Box::new(alloc, s)?;
    let label = word(alloc, "a")?;
    let span = DUMMY_SP;
    Ok(Stmt::Labeled(LabeledStmt { span, label, body }))
}

/// `x`, as a parameter.
pub fn param(alloc: Global, mark: u32) -> Result<Pat, AllocError> {
    Ok(Pat::Ident(ident(alloc, "x", mark)?))
}

/// `x = 1`, as a parameter.
pub fn param_with_default(alloc: Global, mark: u32) -> Result<Pat, AllocError> {
    let right = Box::new(alloc, number(1))?;
    let left = ident(alloc, "x", mark)?;
    let span = DUMMY_SP;
    Ok(Pat::Assign(AssignPat { span, left, right }))
}

/// `function f(params) { stmts }`
pub fn function(alloc: Global, params: Vec<Pat>, stmts: Vec<Stmt>) -> Result<Stmt, AllocError> {
    let ident = ident(alloc, "f", 2)?;
    let span = DUMMY_SP;
    let body = BlockStmt { span, stmts };
    let function = Box::new(alloc, Function { span, params, body })?;
    Ok(Stmt::Decl(Decl::Fn(FnDecl { ident, function })))
}

/// A statement as a module, and as a script.
pub fn whole(alloc: Global, s: Stmt) -> Result<(Module, Script), AllocError> {
    let script = script(alloc, s.clone()?)?;
    Ok((module(alloc, s)?, script))
}

fn script(alloc: Global, s: Stmt) -> Result<Script, AllocError> {
    let body = vec![in alloc; s]?;
    let span = DUMMY_SP;
    Ok(Script { span, body })
}

fn module(alloc: Global, s: Stmt) -> Result<Module, AllocError> {
    let mut body = Vec::with_capacity(alloc, 1)?;
    body.push_reserved(ModuleItem::Stmt(s));
    let span = DUMMY_SP;
    Ok(Module { span, body })
}
