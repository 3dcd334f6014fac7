//! The walk over statements and declarations.
ghost use Rattle.std.specs.Prelude.{IfOk};
ghost use Rattle.swc_ast.specs.Expressions.{body_tree};
ghost use Rattle.swc_ast.specs.Parts.{list_trees};
ghost use Rattle.swc_ast.specs.Statements.{block_tree, option_block_tree, option_init_tree, init_tree, var_tree, try_tree};
ghost use Rattle.swc_ast.specs.Tree.{CaseBody};
ghost use Rattle.swc_ast.specs.Views.{expr_tree, stmt_tree, decl_tree, if_tree, switch_tree, case_trees, loop_trees, for_tree};
ghost use Rattle.tree_put.specs.Walks.{MakesScope, Each, Goes, EachGoes, OptionGoes, HandlerGoes, CaseGoes, LoopGoes, DoLoopGoes, DeclaratorGoes};

use crate::rules::{Puts, Scope, Spot};
use crate::walk::expressions::{put_boxed, put_boxed_function, put_option};
use std::alloc::{AllocError, Global};
use swc_ast::{
    BlockStmt, CatchClause, Decl, ForStmt, IfStmt, Stmt, SwitchCase, SwitchStmt, TryStmt, VarDecl,
    VarDeclKind, VarDeclOrExpr, VarDeclarator, WhileStmt,
};

#[cycle(walk)]
pub fn put_body<P: Puts>(alloc: Global, rules: &mut P, n: &mut BlockStmt) -> Result<(), AllocError>
    ensures { IfOk result (λ u. Goes P.puts (body_tree stmt_tree) (P.state rules.old) n.old n.new (P.state rules.new)) }
{
    rules.open(Scope::Body(&n.stmts))?;
    put_stmts(alloc, rules, &mut n.stmts)?;
    rules.close()?;
    Ok(())
}

#[cycle(walk)]
fn put_block<P: Puts>(alloc: Global, rules: &mut P, n: &mut BlockStmt) -> Result<(), AllocError>
    ensures { IfOk result (λ u. Goes P.puts (block_tree stmt_tree) (P.state rules.old) n.old n.new (P.state rules.new)) }
{
    rules.open(Scope::Block(&n.stmts))?;
    put_stmts(alloc, rules, &mut n.stmts)?;
    rules.close()?;
    Ok(())
}

/// Walks statements whose scope is open.
#[cycle(walk)]
pub fn put_stmts<P: Puts>(
    alloc: Global,
    rules: &mut P,
    ss: &mut Vec<Stmt>,
) -> Result<(), AllocError>
    ensures { IfOk result (λ u. EachGoes P.puts stmt_tree (P.state rules.old) ss.old.items ss.new.items (P.state rules.new)) }
{
    for i in 0..ss.len() {
        put_stmt(alloc, rules, &mut ss[i])?;
    }
    Ok(())
}

#[cycle(walk)]
pub fn put_stmt<P: Puts>(alloc: Global, rules: &mut P, s: &mut Stmt) -> Result<(), AllocError>
    ensures { IfOk result (λ u. Goes P.puts stmt_tree (P.state rules.old) s.old s.new (P.state rules.new)) }
{
    match s {
        Stmt::Block(n) => {
            put_block(alloc, rules, n)?;
            Ok(())
        }
        Stmt::Empty(_) => Ok(()),
        Stmt::Return(n) => {
            put_option(alloc, rules, &mut n.arg)?;
            Ok(())
        }
        Stmt::Labeled(n) => {
            put_boxed_stmt(alloc, rules, &mut n.body)?;
            Ok(())
        }
        Stmt::Break(_) => Ok(()),
        Stmt::Continue(_) => Ok(()),
        Stmt::If(n) => {
            put_if(alloc, rules, n)?;
            Ok(())
        }
        Stmt::Switch(n) => {
            put_switch(alloc, rules, n)?;
            Ok(())
        }
        Stmt::Throw(n) => {
            put_boxed(alloc, rules, Spot::Here, &mut n.arg)?;
            Ok(())
        }
        Stmt::Try(n) => {
            put_boxed_try(alloc, rules, n)?;
            Ok(())
        }
        Stmt::While(n) => {
            put_while(alloc, rules, n)?;
            Ok(())
        }
        Stmt::DoWhile(n) => {
            put_do_while(alloc, rules, n)?;
            Ok(())
        }
        Stmt::For(n) => {
            put_boxed_for(alloc, rules, n)?;
            Ok(())
        }
        Stmt::Decl(n) => {
            put_decl(alloc, rules, n)?;
            Ok(())
        }
        Stmt::Expr(n) => {
            put_boxed(alloc, rules, Spot::Here, &mut n.expr)?;
            Ok(())
        }
    }
}

#[cycle(walk)]
fn put_boxed_stmt<P: Puts>(
    alloc: Global,
    rules: &mut P,
    s: &mut Box<Stmt>,
) -> Result<(), AllocError>
    ensures { IfOk result (λ u. Goes P.puts stmt_tree (P.state rules.old) s.old.value s.new.value (P.state rules.new)) }
{
    put_stmt(alloc, rules, s)
}

#[cycle(walk)]
fn put_alt<P: Puts>(
    alloc: Global,
    rules: &mut P,
    s: &mut Option<Box<Stmt>>,
) -> Result<(), AllocError>
    ensures { IfOk result (λ u. OptionGoes P.puts stmt_tree (P.state rules.old) s.old s.new (P.state rules.new)) }
{
    match s {
        Some(n) => {
            put_boxed_stmt(alloc, rules, n)?;
            Ok(())
        }
        None => Ok(()),
    }
}

#[cycle(walk)]
fn put_boxed_try<P: Puts>(
    alloc: Global,
    rules: &mut P,
    n: &mut Box<TryStmt>,
) -> Result<(), AllocError>
    ensures { IfOk result (λ u. Goes P.puts (try_tree stmt_tree) (P.state rules.old) n.old.value n.new.value (P.state rules.new)) }
{
    put_try(alloc, rules, n)
}

#[cycle(walk)]
fn put_try<P: Puts>(alloc: Global, rules: &mut P, n: &mut TryStmt) -> Result<(), AllocError>
    ensures { IfOk result (λ u. Goes P.puts (try_tree stmt_tree) (P.state rules.old) n.old n.new (P.state rules.new)) }
{
    put_block(alloc, rules, &mut n.block)?;
    put_handler(alloc, rules, &mut n.handler)?;
    put_finalizer(alloc, rules, &mut n.finalizer)?;
    Ok(())
}

#[cycle(walk)]
fn put_handler<P: Puts>(
    alloc: Global,
    rules: &mut P,
    h: &mut Option<CatchClause>,
) -> Result<(), AllocError>
    ensures { IfOk result (λ u. HandlerGoes P.puts (P.state rules.old) h.old h.new (P.state rules.new)) }
{
    match h {
        Some(n) => {
            rules.open(Scope::Handler(n))?;
            put_block(alloc, rules, &mut n.body)?;
            rules.close()?;
            Ok(())
        }
        None => Ok(()),
    }
}

#[cycle(walk)]
fn put_finalizer<P: Puts>(
    alloc: Global,
    rules: &mut P,
    f: &mut Option<BlockStmt>,
) -> Result<(), AllocError>
    ensures { IfOk result (λ u. Goes P.puts (option_block_tree stmt_tree) (P.state rules.old) f.old f.new (P.state rules.new)) }
{
    match f {
        Some(n) => {
            put_block(alloc, rules, n)?;
            Ok(())
        }
        None => Ok(()),
    }
}

#[cycle(walk)]
fn put_if<P: Puts>(alloc: Global, rules: &mut P, n: &mut IfStmt) -> Result<(), AllocError>
    ensures { IfOk result (λ u. Goes P.puts if_tree (P.state rules.old) n.old n.new (P.state rules.new)) }
{
    put_boxed(alloc, rules, Spot::Here, &mut n.test)?;
    put_boxed_stmt(alloc, rules, &mut n.cons)?;
    put_alt(alloc, rules, &mut n.alt)?;
    Ok(())
}

#[cycle(walk)]
fn put_switch<P: Puts>(alloc: Global, rules: &mut P, n: &mut SwitchStmt) -> Result<(), AllocError>
    ensures { IfOk result (λ u. Goes P.puts switch_tree (P.state rules.old) n.old n.new (P.state rules.new)) }
{
    put_boxed(alloc, rules, Spot::Here, &mut n.discriminant)?;
    rules.open(Scope::Cases(&n.cases))?;
    put_cases(alloc, rules, &mut n.cases)?;
    rules.close()?;
    Ok(())
}

#[cycle(walk)]
fn put_cases<P: Puts>(
    alloc: Global,
    rules: &mut P,
    cs: &mut Vec<SwitchCase>,
) -> Result<(), AllocError>
    ensures { IfOk result (λ u. Each (λ s x y t. CaseGoes P.puts s (case_trees x) (case_trees y) t) (P.state rules.old) cs.old.items cs.new.items (P.state rules.new)) }
{
    for i in 0..cs.len() {
        put_case(alloc, rules, &mut cs[i])?;
    }
    Ok(())
}

#[cycle(walk)]
fn put_case<P: Puts>(alloc: Global, rules: &mut P, n: &mut SwitchCase) -> Result<(), AllocError>
    ensures { IfOk result (λ u. CaseGoes P.puts (P.state rules.old) (case_trees n.old) (case_trees n.new) (P.state rules.new)) }
{
    put_option(alloc, rules, &mut n.test)?;
    put_case_body(alloc, rules, &mut n.cons)?;
    Ok(())
}

#[cycle(walk)]
fn put_case_body<P: Puts>(
    alloc: Global,
    rules: &mut P,
    ss: &mut Vec<Stmt>,
) -> Result<(), AllocError>
    ensures { IfOk result (λ u. MakesScope P.puts CaseBody (list_trees stmt_tree ss.old.items) (P.state rules.old) (list_trees stmt_tree ss.new.items) (P.state rules.new)) }
{
    rules.open(Scope::Case(ss))?;
    put_stmts(alloc, rules, ss)?;
    rules.close()?;
    Ok(())
}

#[cycle(walk)]
fn put_while<P: Puts>(alloc: Global, rules: &mut P, n: &mut WhileStmt) -> Result<(), AllocError>
    ensures { IfOk result (λ u. LoopGoes P.puts (P.state rules.old) (loop_trees n.old) (loop_trees n.new) (P.state rules.new)) }
{
    put_boxed(alloc, rules, Spot::Here, &mut n.test)?;
    put_boxed_stmt(alloc, rules, &mut n.body)?;
    Ok(())
}

/// The body stands in front of the test.
#[cycle(walk)]
fn put_do_while<P: Puts>(alloc: Global, rules: &mut P, n: &mut WhileStmt) -> Result<(), AllocError>
    ensures { IfOk result (λ u. DoLoopGoes P.puts (P.state rules.old) (loop_trees n.old) (loop_trees n.new) (P.state rules.new)) }
{
    put_boxed_stmt(alloc, rules, &mut n.body)?;
    put_boxed(alloc, rules, Spot::Here, &mut n.test)?;
    Ok(())
}

#[cycle(walk)]
fn put_boxed_for<P: Puts>(
    alloc: Global,
    rules: &mut P,
    n: &mut Box<ForStmt>,
) -> Result<(), AllocError>
    ensures { IfOk result (λ u. Goes P.puts for_tree (P.state rules.old) n.old.value n.new.value (P.state rules.new)) }
{
    put_for(alloc, rules, n)
}

#[cycle(walk)]
fn put_for<P: Puts>(alloc: Global, rules: &mut P, n: &mut ForStmt) -> Result<(), AllocError>
    ensures { IfOk result (λ u. Goes P.puts for_tree (P.state rules.old) n.old n.new (P.state rules.new)) }
{
    rules.open(Scope::For(n))?;
    put_init(alloc, rules, &mut n.init)?;
    put_option(alloc, rules, &mut n.test)?;
    put_option(alloc, rules, &mut n.update)?;
    put_boxed_stmt(alloc, rules, &mut n.body)?;
    rules.close()?;
    Ok(())
}

#[cycle(walk)]
fn put_init<P: Puts>(
    alloc: Global,
    rules: &mut P,
    i: &mut Option<VarDeclOrExpr>,
) -> Result<(), AllocError>
    ensures { IfOk result (λ u. Goes P.puts (option_init_tree expr_tree) (P.state rules.old) i.old i.new (P.state rules.new)) }
{
    match i {
        None => Ok(()),
        Some(n) => {
            put_var_or_expr(alloc, rules, n)?;
            Ok(())
        }
    }
}

#[cycle(walk)]
fn put_var_or_expr<P: Puts>(
    alloc: Global,
    rules: &mut P,
    i: &mut VarDeclOrExpr,
) -> Result<(), AllocError>
    ensures { IfOk result (λ u. Goes P.puts (init_tree expr_tree) (P.state rules.old) i.old i.new (P.state rules.new)) }
{
    match i {
        VarDeclOrExpr::VarDecl(n) => {
            put_var(alloc, rules, n)?;
            Ok(())
        }
        VarDeclOrExpr::Expr(n) => {
            put_boxed(alloc, rules, Spot::Here, n)?;
            Ok(())
        }
    }
}

#[cycle(walk)]
fn put_var<P: Puts>(alloc: Global, rules: &mut P, n: &mut VarDecl) -> Result<(), AllocError>
    ensures { IfOk result (λ u. Goes P.puts (var_tree expr_tree) (P.state rules.old) n.old n.new (P.state rules.new)) }
{
    put_declarators(alloc, rules, n.kind, &mut n.decls)?;
    Ok(())
}

#[cycle(walk)]
fn put_declarators<P: Puts>(
    alloc: Global,
    rules: &mut P,
    kind: VarDeclKind,
    ds: &mut Vec<VarDeclarator>,
) -> Result<(), AllocError>
    ensures { IfOk result (λ u. Each (DeclaratorGoes P.puts kind) (P.state rules.old) ds.old.items ds.new.items (P.state rules.new)) }
{
    for i in 0..ds.len() {
        put_declarator(alloc, rules, kind, &mut ds[i])?;
    }
    Ok(())
}

#[cycle(walk)]
fn put_declarator<P: Puts>(
    alloc: Global,
    rules: &mut P,
    kind: VarDeclKind,
    n: &mut VarDeclarator,
) -> Result<(), AllocError>
    ensures { IfOk result (λ u. DeclaratorGoes P.puts kind (P.state rules.old) n.old n.new (P.state rules.new)) }
{
    put_option(alloc, rules, &mut n.init)?;
    rules.declare(kind, n)?;
    Ok(())
}

/// Walks what a declaration declares.
#[cycle(walk)]
pub fn put_decl<P: Puts>(alloc: Global, rules: &mut P, d: &mut Decl) -> Result<(), AllocError>
    ensures { IfOk result (λ u. Goes P.puts decl_tree (P.state rules.old) d.old d.new (P.state rules.new)) }
{
    match d {
        Decl::Fn(n) => {
            rules.open(Scope::Declared(&n.ident, &n.function))?;
            put_boxed_function(alloc, rules, &mut n.function)?;
            rules.close()?;
            Ok(())
        }
        Decl::Var(n) => {
            put_var(alloc, rules, n)?;
            Ok(())
        }
    }
}
