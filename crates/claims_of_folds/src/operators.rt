//! Folds of operators.
ghost use Rattle.std.specs.Prelude.{◌≡◌, IfOk, IsNone, false};
ghost use Rattle.static_proofs.specs.Free.{kind_at};
ghost use Rattle.swc_utils.specs.Globals.{unresolved};
ghost use Rattle.expr_rules.specs.Replaced.{Replaced, expr_redex};
ghost use Rattle.expr_operators.specs.Nodes.{binary_of, unary_of};

use std::alloc::Global;
use swc_ast::{BinExpr, Expr, PassError, UnaryExpr};
use swc_utils::ExprCtx;

/// `expr_operators::fold_unary`
pub fn fold_unary(
    alloc: Global,
    ctx: &ExprCtx,
    n: &mut UnaryExpr,
) -> Result<Option<Expr>, PassError>
    ensures steps { IfOk result (λ o. Replaced (unresolved ctx.now) (unary_of n.old) (unary_of n.new) o) }
    ensures finished { IfOk result (λ o. IsNone o → kind_at expr_redex (unary_of n.new) ≡ false) }
{
    expr_operators::fold_unary(alloc, ctx, n)
}

/// `expr_operators::fold_binary`
pub fn fold_binary(alloc: Global, ctx: &ExprCtx, n: &mut BinExpr) -> Result<Option<Expr>, PassError>
    ensures steps { IfOk result (λ o. Replaced (unresolved ctx.now) (binary_of n.old) (binary_of n.new) o) }
    ensures finished { IfOk result (λ o. IsNone o → kind_at expr_redex (binary_of n.new) ≡ false) }
{
    expr_operators::fold_binary(alloc, ctx, n)
}
