//! What stays of expressions and of statements that go, as statements behind others.
ghost use Rattle.std.specs.Prelude.{◌≡◌, OnOk};
ghost use Rattle.swc_ast.specs.Parts.{list_trees};
ghost use Rattle.swc_ast.specs.Scope.{joined};
ghost use Rattle.swc_ast.specs.Tree.{ε, ◌⊳◌};
ghost use Rattle.swc_ast.specs.Views.{expr_tree, stmt_tree};
ghost use Rattle.swc_utils.specs.Globals.{unresolved};
ghost use Rattle.branch_vars.specs.Names.{statements};
ghost use Rattle.branch_parts.specs.Behind.{alone_tree, LeftBehind, VarsBehind};

use crate::places::take_expr;
use branch_expressions::{Left, ignore};
use branch_vars::{declare_all_vars, declare_vars};
use std::alloc::{AllocError, Global};
use swc_ast::{DUMMY_SP, Expr, ExprStmt, Stmt};
use swc_utils::{ExprCtx, ExprExt};

/// Adds an expression as a statement.
#[tactic(auto, using(swc_ast::proofs::Equations::forms, swc_utils::proofs::Chains::pushed))]
fn push_expr(alloc: Global, e: Expr, out: &mut Vec<Stmt>) -> Result<(), AllocError>
    ensures { OnOk result (list_trees stmt_tree out.new.items ≡ joined (list_trees stmt_tree out.old.items) (alone_tree (expr_tree e) ⊳ ε)) }
{
    let expr = Box::new(alloc, e)?;
    out.push(Stmt::Expr(ExprStmt {
        span: DUMMY_SP,
        expr,
    }))?;
    Ok(())
}

/// Adds a statement, if there is one.
#[tactic(auto, using(swc_utils::proofs::Chains::joined_none, swc_utils::proofs::Chains::pushed))]
fn push_optional(s: Option<Stmt>, out: &mut Vec<Stmt>) -> Result<(), AllocError>
    ensures { OnOk result (list_trees stmt_tree out.new.items ≡ joined (list_trees stmt_tree out.old.items) (statements s)) }
{
    if let Some(s) = s {
        out.push(s)?;
    }
    Ok(())
}

/// Adds what is left of an expression whose value is not used as a statement, if anything is. The expression is moved out
/// of its place. Fails where memory is refused.
pub fn push_left(
    alloc: Global,
    ctx: &ExprCtx,
    e: &mut Expr,
    out: &mut Vec<Stmt>,
) -> Result<(), AllocError>
    ensures { OnOk result (LeftBehind (unresolved ctx.now) (expr_tree e.old) (list_trees stmt_tree out.old.items) (list_trees stmt_tree out.new.items)) }
{
    match ignore(alloc, ctx, e)? {
        Left::Nothing => Ok(()),
        Left::Same | Left::Changed => {
            push_expr(alloc, take_expr(e), out)?;
            Ok(())
        }
    }
}

/// Adds what is left of an expression as `push_left` does; nothing of one that has no effect. Fails where memory is refused.
pub fn push_effects(
    alloc: Global,
    ctx: &ExprCtx,
    e: &mut Expr,
    out: &mut Vec<Stmt>,
) -> Result<(), AllocError>
    ensures { OnOk result (LeftBehind (unresolved ctx.now) (expr_tree e.old) (list_trees stmt_tree out.old.items) (list_trees stmt_tree out.new.items)) }
{
    if !e.may_have_side_effects(ctx) {
        return Ok(());
    }
    push_left(alloc, ctx, e, out)
}

/// Adds a declaration of the `var` names of a statement that goes, if it has any. Fails where memory is refused.
pub fn push_vars(alloc: Global, gone: &Stmt, out: &mut Vec<Stmt>) -> Result<(), AllocError>
    ensures { OnOk result (VarsBehind (stmt_tree gone.now ⊳ ε) (list_trees stmt_tree out.old.items) (list_trees stmt_tree out.new.items)) }
{
    let vars = declare_vars(alloc, gone)?;
    push_optional(vars, out)?;
    Ok(())
}

/// Adds a declaration of the `var` names of statements that go, if they have any. Fails where memory is refused.
pub fn push_all_vars(alloc: Global, gone: &[Stmt], out: &mut Vec<Stmt>) -> Result<(), AllocError>
    ensures { OnOk result (VarsBehind (list_trees stmt_tree gone.now) (list_trees stmt_tree out.old.items) (list_trees stmt_tree out.new.items)) }
{
    let vars = declare_all_vars(alloc, gone)?;
    push_optional(vars, out)?;
    Ok(())
}
