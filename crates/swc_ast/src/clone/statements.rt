//! Copies of statements.
ghost use Rattle.std.specs.Prelude.{◌≡◌, IfOk, map};
ghost use Rattle.swc_ast.specs.Parts.{option_tree};
ghost use Rattle.swc_ast.specs.Nodes.{init_node, option_init_node, handler_node, option_handler_node};
ghost use Rattle.swc_ast.specs.Statements.{block_tree, option_block_tree, return_tree, throw_tree, expr_stmt_tree, labeled_tree, try_tree, break_tree, continue_tree, while_node, do_while_node};
ghost use Rattle.swc_ast.specs.Views.{expr_tree, stmt_tree, decl_tree, for_tree, if_tree, switch_tree, case_trees, loop_trees};

use crate::clone::declarations::{copy_decl, copy_var};
use crate::clone::expressions::{copy_boxed, copy_option};
use crate::clone::leaves::{copy_break, copy_continue, copy_empty, copy_option_ident, copy_word};
use crate::declarations::Decl;
use crate::statements::{
    BlockStmt, BreakStmt, CatchClause, ContinueStmt, ExprStmt, ForStmt, IfStmt, LabeledStmt,
    ReturnStmt, Stmt, SwitchCase, SwitchStmt, ThrowStmt, TryStmt, VarDeclOrExpr, WhileStmt,
};
use std::alloc::{AllocError, Global};

#[cycle(clone)]
pub(crate) fn copy_stmt(s: &Stmt) -> Result<Stmt, AllocError>
    ensures { IfOk result (λ r. stmt_tree r ≡ stmt_tree s.now) }
{
    match s {
        Stmt::Block(n) => stmt_of_block(n),
        Stmt::Empty(n) => Ok(Stmt::Empty(copy_empty(n))),
        Stmt::Return(n) => stmt_of_return(n),
        Stmt::Labeled(n) => stmt_of_labeled(n),
        Stmt::Break(n) => stmt_of_break(n),
        Stmt::Continue(n) => stmt_of_continue(n),
        Stmt::If(n) => stmt_of_if(n),
        Stmt::Switch(n) => stmt_of_switch(n),
        Stmt::Throw(n) => stmt_of_throw(n),
        Stmt::Try(n) => Ok(Stmt::Try(copy_boxed_try(n)?)),
        Stmt::While(n) => stmt_of_while(n),
        Stmt::DoWhile(n) => stmt_of_do_while(n),
        Stmt::For(n) => Ok(Stmt::For(copy_boxed_for(n)?)),
        Stmt::Decl(n) => stmt_of_decl(n),
        Stmt::Expr(n) => stmt_of_expr(n),
    }
}

#[cycle(clone)]
#[inline(never)]
fn stmt_of_block(n: &BlockStmt) -> Result<Stmt, AllocError>
    ensures { IfOk result (λ r. stmt_tree r ≡ block_tree stmt_tree n.now) }
{
    Ok(Stmt::Block(copy_block(n)?))
}

#[cycle(clone)]
#[inline(never)]
fn stmt_of_return(n: &ReturnStmt) -> Result<Stmt, AllocError>
    ensures { IfOk result (λ r. stmt_tree r ≡ return_tree expr_tree n.now) }
{
    Ok(Stmt::Return(copy_return(n)?))
}

#[cycle(clone)]
#[inline(never)]
fn stmt_of_labeled(n: &LabeledStmt) -> Result<Stmt, AllocError>
    ensures { IfOk result (λ r. stmt_tree r ≡ labeled_tree stmt_tree n.now) }
{
    Ok(Stmt::Labeled(copy_labeled(n)?))
}

#[inline(never)]
fn stmt_of_break(n: &BreakStmt) -> Result<Stmt, AllocError>
    ensures { IfOk result (λ r. stmt_tree r ≡ break_tree n.now) }
{
    Ok(Stmt::Break(copy_break(n)?))
}

#[inline(never)]
fn stmt_of_continue(n: &ContinueStmt) -> Result<Stmt, AllocError>
    ensures { IfOk result (λ r. stmt_tree r ≡ continue_tree n.now) }
{
    Ok(Stmt::Continue(copy_continue(n)?))
}

#[cycle(clone)]
#[inline(never)]
fn stmt_of_if(n: &IfStmt) -> Result<Stmt, AllocError>
    ensures { IfOk result (λ r. stmt_tree r ≡ if_tree n.now) }
{
    Ok(Stmt::If(copy_if(n)?))
}

#[cycle(clone)]
#[inline(never)]
fn stmt_of_switch(n: &SwitchStmt) -> Result<Stmt, AllocError>
    ensures { IfOk result (λ r. stmt_tree r ≡ switch_tree n.now) }
{
    Ok(Stmt::Switch(copy_switch(n)?))
}

#[cycle(clone)]
#[inline(never)]
fn stmt_of_throw(n: &ThrowStmt) -> Result<Stmt, AllocError>
    ensures { IfOk result (λ r. stmt_tree r ≡ throw_tree expr_tree n.now) }
{
    Ok(Stmt::Throw(copy_throw(n)?))
}

#[cycle(clone)]
#[inline(never)]
fn stmt_of_while(n: &WhileStmt) -> Result<Stmt, AllocError>
    ensures { IfOk result (λ r. stmt_tree r ≡ while_node (loop_trees n.now)) }
{
    Ok(Stmt::While(copy_while(n)?))
}

#[cycle(clone)]
#[inline(never)]
fn stmt_of_do_while(n: &WhileStmt) -> Result<Stmt, AllocError>
    ensures { IfOk result (λ r. stmt_tree r ≡ do_while_node (loop_trees n.now)) }
{
    Ok(Stmt::DoWhile(copy_while(n)?))
}

#[cycle(clone)]
#[inline(never)]
fn stmt_of_decl(n: &Decl) -> Result<Stmt, AllocError>
    ensures { IfOk result (λ r. stmt_tree r ≡ decl_tree n.now) }
{
    Ok(Stmt::Decl(copy_decl(n)?))
}

#[cycle(clone)]
#[inline(never)]
fn stmt_of_expr(n: &ExprStmt) -> Result<Stmt, AllocError>
    ensures { IfOk result (λ r. stmt_tree r ≡ expr_stmt_tree expr_tree n.now) }
{
    Ok(Stmt::Expr(copy_expr_stmt(n)?))
}

#[cycle(clone)]
#[inline(never)]
pub(crate) fn copy_boxed_stmt(s: &Box<Stmt>) -> Result<Box<Stmt>, AllocError>
    ensures { IfOk result (λ r. stmt_tree r.value ≡ stmt_tree s.now.value) }
{
    let alloc = *Box::allocator(s);
    let copy = copy_stmt(s)?;
    Ok(Box::new(alloc, copy)?)
}

#[cycle(clone)]
pub(crate) fn copy_option_stmt(o: &Option<Box<Stmt>>) -> Result<Option<Box<Stmt>>, AllocError>
    ensures { IfOk result (λ r. option_tree stmt_tree r ≡ option_tree stmt_tree o.now) }
{
    match o {
        Some(s) => Ok(Some(copy_boxed_stmt(s)?)),
        None => Ok(None),
    }
}

#[cycle(clone)]
pub(crate) fn copy_stmts(ss: &Vec<Stmt>) -> Result<Vec<Stmt>, AllocError>
    ensures { IfOk result (λ r. map stmt_tree r.items ≡ map stmt_tree ss.now.items) }
{
    let mut out = Vec::with_capacity(*ss.allocator(), ss.len())?;
    for s in ss {
        out.push(copy_stmt(s)?)?;
    }
    Ok(out)
}

#[cycle(clone)]
pub(crate) fn copy_block(n: &BlockStmt) -> Result<BlockStmt, AllocError>
    ensures { IfOk result (λ r. block_tree stmt_tree r ≡ block_tree stmt_tree n.now) }
{
    let stmts = copy_stmts(&n.stmts)?;
    Ok(BlockStmt {
        span: n.span,
        stmts,
    })
}

#[cycle(clone)]
pub(crate) fn copy_option_block(o: &Option<BlockStmt>) -> Result<Option<BlockStmt>, AllocError>
    ensures { IfOk result (λ r. option_block_tree stmt_tree r ≡ option_block_tree stmt_tree o.now) }
{
    match o {
        Some(n) => Ok(Some(copy_block(n)?)),
        None => Ok(None),
    }
}

#[cycle(clone)]
pub(crate) fn copy_return(n: &ReturnStmt) -> Result<ReturnStmt, AllocError>
    ensures { IfOk result (λ r. return_tree expr_tree r ≡ return_tree expr_tree n.now) }
{
    let arg = copy_option(&n.arg)?;
    Ok(ReturnStmt { span: n.span, arg })
}

#[cycle(clone)]
pub(crate) fn copy_throw(n: &ThrowStmt) -> Result<ThrowStmt, AllocError>
    ensures { IfOk result (λ r. throw_tree expr_tree r ≡ throw_tree expr_tree n.now) }
{
    let arg = copy_boxed(&n.arg)?;
    Ok(ThrowStmt { span: n.span, arg })
}

#[cycle(clone)]
pub(crate) fn copy_expr_stmt(n: &ExprStmt) -> Result<ExprStmt, AllocError>
    ensures { IfOk result (λ r. expr_stmt_tree expr_tree r ≡ expr_stmt_tree expr_tree n.now) }
{
    let expr = copy_boxed(&n.expr)?;
    Ok(ExprStmt { span: n.span, expr })
}

#[cycle(clone)]
pub(crate) fn copy_labeled(n: &LabeledStmt) -> Result<LabeledStmt, AllocError>
    ensures { IfOk result (λ r. labeled_tree stmt_tree r ≡ labeled_tree stmt_tree n.now) }
{
    let label = copy_word(&n.label)?;
    let body = copy_boxed_stmt(&n.body)?;
    Ok(LabeledStmt {
        span: n.span,
        label,
        body,
    })
}

#[cycle(clone)]
pub(crate) fn copy_if(n: &IfStmt) -> Result<IfStmt, AllocError>
    ensures { IfOk result (λ r. if_tree r ≡ if_tree n.now) }
{
    let test = copy_boxed(&n.test)?;
    let cons = copy_boxed_stmt(&n.cons)?;
    let alt = copy_option_stmt(&n.alt)?;
    Ok(IfStmt {
        span: n.span,
        test,
        cons,
        alt,
    })
}

#[cycle(clone)]
pub(crate) fn copy_switch(n: &SwitchStmt) -> Result<SwitchStmt, AllocError>
    ensures { IfOk result (λ r. switch_tree r ≡ switch_tree n.now) }
{
    let discriminant = copy_boxed(&n.discriminant)?;
    let cases = copy_cases(&n.cases)?;
    Ok(SwitchStmt {
        span: n.span,
        discriminant,
        cases,
    })
}

#[cycle(clone)]
pub(crate) fn copy_cases(cs: &Vec<SwitchCase>) -> Result<Vec<SwitchCase>, AllocError>
    ensures { IfOk result (λ r. map case_trees r.items ≡ map case_trees cs.now.items) }
{
    let mut out = Vec::with_capacity(*cs.allocator(), cs.len())?;
    for c in cs {
        out.push(copy_case(c)?)?;
    }
    Ok(out)
}

#[cycle(clone)]
pub(crate) fn copy_case(n: &SwitchCase) -> Result<SwitchCase, AllocError>
    ensures { IfOk result (λ r. case_trees r ≡ case_trees n.now) }
{
    let test = copy_option(&n.test)?;
    let cons = copy_stmts(&n.cons)?;
    Ok(SwitchCase {
        span: n.span,
        test,
        cons,
    })
}

#[cycle(clone)]
pub(crate) fn copy_try(n: &TryStmt) -> Result<TryStmt, AllocError>
    ensures { IfOk result (λ r. try_tree stmt_tree r ≡ try_tree stmt_tree n.now) }
{
    let block = copy_block(&n.block)?;
    let handler = copy_option_handler(&n.handler)?;
    let finalizer = copy_option_block(&n.finalizer)?;
    Ok(TryStmt {
        span: n.span,
        block,
        handler,
        finalizer,
    })
}

#[cycle(clone)]
#[inline(never)]
pub(crate) fn copy_boxed_try(n: &Box<TryStmt>) -> Result<Box<TryStmt>, AllocError>
    ensures { IfOk result (λ r. try_tree stmt_tree r.value ≡ try_tree stmt_tree n.now.value) }
{
    let alloc = *Box::allocator(n);
    let copy = copy_try(n)?;
    Ok(Box::new(alloc, copy)?)
}

#[cycle(clone)]
pub(crate) fn copy_option_handler(
    o: &Option<CatchClause>,
) -> Result<Option<CatchClause>, AllocError>
    ensures { IfOk result (λ r. option_handler_node stmt_tree r ≡ option_handler_node stmt_tree o.now) }
{
    match o {
        Some(n) => Ok(Some(copy_handler(n)?)),
        None => Ok(None),
    }
}

#[cycle(clone)]
pub(crate) fn copy_handler(n: &CatchClause) -> Result<CatchClause, AllocError>
    ensures { IfOk result (λ r. handler_node stmt_tree r ≡ handler_node stmt_tree n.now) }
{
    let param = copy_option_ident(&n.param)?;
    let body = copy_block(&n.body)?;
    Ok(CatchClause {
        span: n.span,
        param,
        body,
    })
}

#[cycle(clone)]
pub(crate) fn copy_while(n: &WhileStmt) -> Result<WhileStmt, AllocError>
    ensures { IfOk result (λ r. loop_trees r ≡ loop_trees n.now) }
{
    let test = copy_boxed(&n.test)?;
    let body = copy_boxed_stmt(&n.body)?;
    Ok(WhileStmt {
        span: n.span,
        test,
        body,
    })
}

#[cycle(clone)]
pub(crate) fn copy_for(n: &ForStmt) -> Result<ForStmt, AllocError>
    ensures { IfOk result (λ r. for_tree r ≡ for_tree n.now) }
{
    let init = copy_option_init(&n.init)?;
    let test = copy_option(&n.test)?;
    let update = copy_option(&n.update)?;
    let body = copy_boxed_stmt(&n.body)?;
    Ok(ForStmt {
        span: n.span,
        init,
        test,
        update,
        body,
    })
}

#[cycle(clone)]
#[inline(never)]
pub(crate) fn copy_boxed_for(n: &Box<ForStmt>) -> Result<Box<ForStmt>, AllocError>
    ensures { IfOk result (λ r. for_tree r.value ≡ for_tree n.now.value) }
{
    let alloc = *Box::allocator(n);
    let copy = copy_for(n)?;
    Ok(Box::new(alloc, copy)?)
}

#[cycle(clone)]
pub(crate) fn copy_option_init(
    o: &Option<VarDeclOrExpr>,
) -> Result<Option<VarDeclOrExpr>, AllocError>
    ensures { IfOk result (λ r. option_init_node expr_tree r ≡ option_init_node expr_tree o.now) }
{
    match o {
        Some(n) => Ok(Some(copy_init(n)?)),
        None => Ok(None),
    }
}

#[cycle(clone)]
pub(crate) fn copy_init(n: &VarDeclOrExpr) -> Result<VarDeclOrExpr, AllocError>
    ensures { IfOk result (λ r. init_node expr_tree r ≡ init_node expr_tree n.now) }
{
    match n {
        VarDeclOrExpr::VarDecl(v) => Ok(VarDeclOrExpr::VarDecl(copy_var(v)?)),
        VarDeclOrExpr::Expr(e) => Ok(VarDeclOrExpr::Expr(copy_boxed(e)?)),
    }
}

impl Clone for Stmt {
    ghost is_clone = { λ x y. stmt_tree y ≡ stmt_tree x };

    fn clone(&self) -> Result<Stmt, AllocError> {
        copy_stmt(self)
    }
}

impl Clone for BlockStmt {
    ghost is_clone = { λ x y. block_tree stmt_tree y ≡ block_tree stmt_tree x };

    fn clone(&self) -> Result<BlockStmt, AllocError> {
        copy_block(self)
    }
}

impl Clone for ReturnStmt {
    ghost is_clone = { λ x y. return_tree expr_tree y ≡ return_tree expr_tree x };

    fn clone(&self) -> Result<ReturnStmt, AllocError> {
        copy_return(self)
    }
}

impl Clone for ThrowStmt {
    ghost is_clone = { λ x y. throw_tree expr_tree y ≡ throw_tree expr_tree x };

    fn clone(&self) -> Result<ThrowStmt, AllocError> {
        copy_throw(self)
    }
}

impl Clone for ExprStmt {
    ghost is_clone = { λ x y. expr_stmt_tree expr_tree y ≡ expr_stmt_tree expr_tree x };

    fn clone(&self) -> Result<ExprStmt, AllocError> {
        copy_expr_stmt(self)
    }
}

impl Clone for LabeledStmt {
    ghost is_clone = { λ x y. labeled_tree stmt_tree y ≡ labeled_tree stmt_tree x };

    fn clone(&self) -> Result<LabeledStmt, AllocError> {
        copy_labeled(self)
    }
}

impl Clone for IfStmt {
    ghost is_clone = { λ x y. if_tree y ≡ if_tree x };

    fn clone(&self) -> Result<IfStmt, AllocError> {
        copy_if(self)
    }
}

impl Clone for SwitchStmt {
    ghost is_clone = { λ x y. switch_tree y ≡ switch_tree x };

    fn clone(&self) -> Result<SwitchStmt, AllocError> {
        copy_switch(self)
    }
}

impl Clone for SwitchCase {
    ghost is_clone = { λ x y. case_trees y ≡ case_trees x };

    fn clone(&self) -> Result<SwitchCase, AllocError> {
        copy_case(self)
    }
}

impl Clone for TryStmt {
    ghost is_clone = { λ x y. try_tree stmt_tree y ≡ try_tree stmt_tree x };

    fn clone(&self) -> Result<TryStmt, AllocError> {
        copy_try(self)
    }
}

impl Clone for CatchClause {
    ghost is_clone = { λ x y. handler_node stmt_tree y ≡ handler_node stmt_tree x };

    fn clone(&self) -> Result<CatchClause, AllocError> {
        copy_handler(self)
    }
}

impl Clone for WhileStmt {
    ghost is_clone = { λ x y. loop_trees y ≡ loop_trees x };

    fn clone(&self) -> Result<WhileStmt, AllocError> {
        copy_while(self)
    }
}

impl Clone for ForStmt {
    ghost is_clone = { λ x y. for_tree y ≡ for_tree x };

    fn clone(&self) -> Result<ForStmt, AllocError> {
        copy_for(self)
    }
}

impl Clone for VarDeclOrExpr {
    ghost is_clone = { λ x y. init_node expr_tree y ≡ init_node expr_tree x };

    fn clone(&self) -> Result<VarDeclOrExpr, AllocError> {
        copy_init(self)
    }
}
