//! Operators between operands.
ghost use Rattle.std.specs.Prelude.{◌≡◌, IfOk, IsNone, false};
ghost use Rattle.static_proofs.specs.Free.{kind_at};
ghost use Rattle.swc_utils.specs.Globals.{unresolved};
ghost use Rattle.expr_rules.specs.Replaced.{Replaced, expr_redex};
ghost use Rattle.expr_operators.specs.Nodes.{binary_of};

use crate::addition::fold_addition;
use crate::choices::{fold_logical, is_logical};
use crate::comparisons::{fold_comparison, is_comparison};
use crate::equality::{fold_equality, is_equality};
use crate::instances::fold_instanceof;
use crate::numbers::fold_numeric;
use std::alloc::Global;
use swc_ast::{BinExpr, BinaryOp, Expr, PassError};
use swc_utils::{ExprCtx, is_numeric};

/// What takes the place of an operator between its operands, where they are known: `+` by texts or numbers, the other
/// operators on numbers by those, comparisons and equalities by texts, numbers, types and names, `instanceof` by the
/// form of its sides, and `&&` and `||` by the truth of the left side. Operands may be moved out of the node, which is
/// worth nothing then. None where no rule fits; then the node is as it was. Refuses where memory is refused. ECMA-262,
/// 13.6 to 13.13.
pub fn fold_binary(alloc: Global, ctx: &ExprCtx, n: &mut BinExpr) -> Result<Option<Expr>, PassError>
    ensures steps { IfOk result (λ o. Replaced (unresolved ctx.now) (binary_of n.old) (binary_of n.new) o) }
    ensures finished { IfOk result (λ o. IsNone o → kind_at expr_redex (binary_of n.new) ≡ false) }
{
    if is_logical(n.op) {
        return fold_logical(alloc, ctx, n);
    }
    if is_comparison(n.op) {
        return fold_comparison(alloc, ctx, n);
    }
    if is_equality(n.op) {
        return fold_equality(alloc, ctx, n);
    }
    if is_numeric(n.op) {
        return fold_numeric(alloc, ctx, n);
    }
    match n.op {
        BinaryOp::Add => fold_addition(alloc, ctx, n),
        BinaryOp::InstanceOf => fold_instanceof(alloc, ctx, n),
        _ => Ok(None),
    }
}
