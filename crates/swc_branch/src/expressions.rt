//! The rules of expressions.
ghost use Rattle.std.specs.Prelude.{IfOk};
ghost use Rattle.swc_ast.specs.Expressions.{assign_tree};
ghost use Rattle.swc_ast.specs.Views.{expr_tree};
ghost use Rattle.swc_utils.specs.Globals.{unresolved};
ghost use Rattle.branch_rules.specs.Expressions.{Becomes};

use branch_expressions::{fold_arms, fold_front, fold_itself};
use std::alloc::{AllocError, Global};
use swc_ast::{AssignExpr, Expr};
use swc_utils::ExprCtx;

/// Whether a rule may fit an expression of this kind.
#[inline(always)]
pub(crate) fn is_ruled(e: &Expr) -> bool {
    match e {
        Expr::Seq(_) | Expr::Assign(_) | Expr::Cond(_) => true,
        Expr::This(_)
        | Expr::Array(_)
        | Expr::Object(_)
        | Expr::Fn(_)
        | Expr::Unary(_)
        | Expr::Update(_)
        | Expr::Bin(_)
        | Expr::Member(_)
        | Expr::Call(_)
        | Expr::New(_)
        | Expr::Ident(_)
        | Expr::Lit(_)
        | Expr::Tpl(_)
        | Expr::Arrow(_)
        | Expr::Invalid(_) => false,
    }
}

fn fold_boxed_itself(ctx: &ExprCtx, n: &mut Box<AssignExpr>) -> Option<Expr>
    ensures { Becomes (unresolved ctx.now) (assign_tree expr_tree n.old.value) (assign_tree expr_tree n.new.value) result }
{
    fold_itself(ctx, n)
}

/// What takes an expression's place, whose children are done. None: no rule fits, and it is as it was. Fails where memory
/// is refused.
#[tactic(auto)]
pub(crate) fn fold_expr(
    alloc: Global,
    ctx: &ExprCtx,
    e: &mut Expr,
) -> Result<Option<Expr>, AllocError>
    ensures { IfOk result (λ o. Becomes (unresolved ctx.now) (expr_tree e.old) (expr_tree e.new) o) }
{
    match e {
        Expr::Seq(n) => fold_front(alloc, ctx, n),
        Expr::Assign(n) => Ok(fold_boxed_itself(ctx, n)),
        Expr::Cond(n) => Ok(fold_arms(ctx, n)),
        Expr::This(_)
        | Expr::Array(_)
        | Expr::Object(_)
        | Expr::Fn(_)
        | Expr::Unary(_)
        | Expr::Update(_)
        | Expr::Bin(_)
        | Expr::Member(_)
        | Expr::Call(_)
        | Expr::New(_)
        | Expr::Ident(_)
        | Expr::Lit(_)
        | Expr::Tpl(_)
        | Expr::Arrow(_)
        | Expr::Invalid(_) => Ok(None),
    }
}
