//! Expression statements.
ghost use Rattle.std.specs.Prelude.{◌≡◌, ◌||◌, false, true, IfOk, IsNone, IsTrue};
ghost use Rattle.swc_ast.specs.Redex.{is_number, is_simple_word, is_text};
ghost use Rattle.swc_ast.specs.Statements.{expr_stmt_tree};
ghost use Rattle.swc_ast.specs.Views.{expr_tree};
ghost use Rattle.swc_utils.specs.Globals.{unresolved};
ghost use Rattle.swc_utils.specs.Pure.{pure};
ghost use Rattle.branch_rules.specs.Removes.{Rests};
ghost use Rattle.branch_rules.specs.Statements.{is_word as tree_is_word};
ghost use Rattle.branch_rules.specs.Turns.{Turns};

use branch_expressions::{Left, ignore};
use branch_parts::take_expr;
use std::alloc::{AllocError, Global};
use swc_ast::{EmptyStmt, Expr, ExprStmt, Lit, Stmt};
use swc_utils::{ExprCtx, ExprExt};

/// Whether an expression is a text that isn't empty: as a whole statement it may be a directive (ECMA-262, 11.2.1).
#[tactic(auto, using(swc_ast::proofs::Equations::forms))]
fn is_directive(e: &Expr) -> bool
    ensures { IsTrue result → is_text (expr_tree e.now) ≡ true }
{
    match e {
        Expr::Lit(n) => match n {
            Lit::Str(n) => !n.value.is_empty(),
            Lit::Num(_) | Lit::Bool(_) | Lit::Null(_) => false,
        },
        _ => false,
    }
}

/// What takes the place of an expression statement: what is left of the expression, whose value is not used. None where
/// that is the expression itself, as of a name, `this` and an arrow, and where it is a text that isn't empty; then the statement is as it was. Fails where
/// memory is refused.
pub fn fold_expression(
    alloc: Global,
    ctx: &ExprCtx,
    n: &mut ExprStmt,
) -> Result<Option<Stmt>, AllocError>
    ensures steps { IfOk result (λ o. Turns (unresolved ctx.now) (expr_stmt_tree expr_tree n.old) (expr_stmt_tree expr_tree n.new) o) }
    ensures finished { IfOk result (λ o. IsNone o → Rests (expr_stmt_tree expr_tree n.new)) }
{
    if is_directive(&n.expr) {
        return Ok(None);
    }
    fold_unused(alloc, ctx, n)
}

/// Whether an expression is a name, `this` or an arrow.
#[tactic(auto, using(swc_ast::proofs::Equations::forms))]
fn is_word(e: &Expr) -> bool
    ensures { result ≡ tree_is_word (expr_tree e.now) }
{
    match e {
        Expr::Ident(_) => true,
        Expr::This(_) => true,
        Expr::Arrow(_) => true,
        _ => false,
    }
}

/// Whether an expression is a literal, without effect.
fn is_literal(ctx: &ExprCtx, e: &Expr) -> bool
    ensures idle { IsTrue result → pure (unresolved ctx.now) (expr_tree e.now) ≡ true }
    ensures others { result ≡ false → (is_number (expr_tree e.now) || is_simple_word (expr_tree e.now)) ≡ false }
{
    match e {
        Expr::Lit(_) => !e.may_have_side_effects(ctx),
        _ => false,
    }
}

/// The same of an expression that is no directive.
fn fold_unused(alloc: Global, ctx: &ExprCtx, n: &mut ExprStmt) -> Result<Option<Stmt>, AllocError>
    ensures steps { IfOk result (λ o. Turns (unresolved ctx.now) (expr_stmt_tree expr_tree n.old) (expr_stmt_tree expr_tree n.new) o) }
    ensures finished { IfOk result (λ o. IsNone o → Rests (expr_stmt_tree expr_tree n.new)) }
{
    let span = n.span;
    if is_word(&n.expr) {
        return Ok(None);
    }
    if is_literal(ctx, &n.expr) {
        return Ok(Some(Stmt::Empty(EmptyStmt { span })));
    }
    match ignore(alloc, ctx, &mut n.expr)? {
        Left::Same => Ok(None),
        Left::Nothing => Ok(Some(Stmt::Empty(EmptyStmt { span }))),
        Left::Changed => {
            let expr = Box::new(alloc, take_expr(&mut n.expr))?;
            Ok(Some(Stmt::Expr(ExprStmt { span, expr })))
        }
    }
}
