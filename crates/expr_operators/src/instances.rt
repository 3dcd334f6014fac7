//! `instanceof`, where the form of its sides tells it. ECMA-262, 7.3.22.
ghost use Rattle.std.specs.Prelude.{◌≡◌, IfOk, IsNone};
ghost use Rattle.swc_ast.specs.declared.BinaryOp.TheVariants as op;
ghost use Rattle.swc_utils.specs.Globals.{unresolved};
ghost use Rattle.expr_operators.specs.Nodes.{binary_at};
ghost use Rattle.expr_operators.specs.Steps.{Stands};

use crate::operands::{behind_operands, truth_expr};
use std::alloc::Global;
use swc_ast::{BinExpr, Expr, PassError, UnaryOp};
use swc_utils::{ExprCtx, ExprExt};

/// Whether the form of an expression tells that it is no object: a literal, the host's `undefined`, `NaN` or `Infinity`,
/// and `!`, `-` or `void` of such.
fn is_primitive(ctx: &ExprCtx, e: &Expr) -> bool {
    match e {
        Expr::Lit(_) => true,
        Expr::Unary(n) => match n.op {
            UnaryOp::Bang | UnaryOp::Minus | UnaryOp::Void => is_primitive(ctx, &n.arg),
            _ => false,
        },
        Expr::Ident(_) => {
            e.is_undefined(ctx) || e.is_nan(ctx) || e.is_global_ref_to(ctx, "Infinity")
        }
        _ => false,
    }
}

/// Whether the form of an expression tells that it is an object.
fn is_object(e: &Expr) -> bool {
    match e {
        Expr::Array(_) | Expr::Object(_) | Expr::Fn(_) | Expr::New(_) => true,
        _ => false,
    }
}

/// Nothing that is no object is an instance, and each object is one of the host's `Object`.
fn instance_known(ctx: &ExprCtx, left: &Expr, right: &Expr) -> Option<bool> {
    if is_primitive(ctx, left) {
        return Some(false);
    }
    if is_object(left) && right.is_global_ref_to(ctx, "Object") {
        return Some(true);
    }
    None
}

/// `instanceof` whose sides tell it by their forms: the truth, behind the effects of both.
#[tactic(auto, using(crate::proofs::BinarySteps::instance_step))]
pub(crate) fn fold_instanceof(
    alloc: Global,
    ctx: &ExprCtx,
    n: &mut BinExpr,
) -> Result<Option<Expr>, PassError>
    ensures steps { IfOk result (λ o. Stands (unresolved ctx.now) (binary_at op.InstanceOf n.old) o) }
    ensures kept { IfOk result (λ o. IsNone o → n.new ≡ n.old) }
{
    match instance_known(ctx, &n.left, &n.right) {
        Some(truth) => {
            let value = truth_expr(n.span, truth);
            Ok(Some(behind_operands(alloc, ctx, n, value)?))
        }
        None => Ok(None),
    }
}
