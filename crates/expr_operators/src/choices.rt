//! Choices between two expressions by one of known truth. ECMA-262, 13.13 and 13.14.
ghost use Rattle.std.specs.Prelude.{◌≡◌, if◌then◌else◌, IfOk, IsNone, false, true};
ghost use Rattle.swc_ast.specs.Redex.{is_simple_literal};
ghost use Rattle.swc_ast.specs.Views.{expr_tree};
ghost use Rattle.static_proofs.specs.Free.{kind_at};
ghost use Rattle.swc_utils.specs.Globals.{unresolved};
ghost use Rattle.expr_rules.specs.Choices as choices;
ghost use Rattle.expr_rules.specs.Replaced.{Replaced, expr_redex};
ghost use Rattle.expr_operators.specs.Nodes.{binary_of, cond_of};
ghost use Rattle.expr_operators.specs.Steps.{Stands};

use crate::operands::sequence;
use std::alloc::Global;
use swc_ast::{BinExpr, BinaryOp, CondExpr, Expr, PassError};
use swc_utils::{ExprCtx, ExprExt, Purity, Value};
use tree_nodes::take;

/// `&&` and `||`
pub(crate) fn is_logical(op: BinaryOp) -> bool
    ensures { result ≡ choices.is_logical op }
{
    match op {
        BinaryOp::LogicalAnd | BinaryOp::LogicalOr => true,
        _ => false,
    }
}

/// Whether a left side of known truth is what `&&` or `||` gives.
fn decides(op: BinaryOp, truth: bool) -> bool
    ensures { result ≡ choices.decided op truth }
{
    match op {
        BinaryOp::LogicalAnd => !truth,
        BinaryOp::LogicalOr => truth,
        _ => false,
    }
}

/// `&&` and `||` by the truth of the left side: that side, if it decides; else the right side, behind the left one
/// unless that is pure.
#[tactic(auto, using(crate::proofs::BinarySteps::left_step, crate::proofs::BinarySteps::right_step, crate::proofs::BinarySteps::both_step))]
pub(crate) fn fold_logical(
    alloc: Global,
    ctx: &ExprCtx,
    n: &mut BinExpr,
) -> Result<Option<Expr>, PassError>
    ensures steps { choices.is_logical n.old.op ≡ true → IfOk result (λ o. Stands (unresolved ctx.now) (binary_of n.old) o) }
    ensures kept { IfOk result (λ o. IsNone o → n.new ≡ n.old) }
    ensures finished { IfOk result (λ o. IsNone o → is_simple_literal (expr_tree n.old.left.value) ≡ false) }
{
    let (purity, truth) = n.left.cast_to_bool(ctx);
    match truth {
        Value::Known(truth) => {
            let left = take(&mut n.left);
            if decides(n.op, truth) {
                return Ok(Some(left));
            }
            let right = take(&mut n.right);
            match purity {
                Purity::Pure => Ok(Some(right)),
                Purity::MayBeImpure => Ok(Some(sequence(alloc, n.span, left, right)?)),
            }
        }
        Value::Unknown => Ok(None),
    }
}

/// The arm that a test of known truth chooses, moved out of the node.
fn take_arm(n: &mut CondExpr, truth: bool) -> Expr
    ensures arm { expr_tree result ≡ (if truth then expr_tree n.old.cons.value else expr_tree n.old.alt.value) }
    ensures test { n.new.test ≡ n.old.test }
    ensures span { n.new.span ≡ n.old.span }
{
    if truth {
        return take(&mut n.cons);
    }
    take(&mut n.alt)
}

/// What takes the place of `a ? b : c` where the truth of `a` is known: the arm that it chooses, behind `a` unless that
/// is pure. The arm is moved out of the node, which is worth nothing then. None where the truth is unknown; then the
/// node is as it was. Refuses where memory is refused. ECMA-262, 13.14.
#[tactic(auto, using(crate::proofs::BinarySteps::arm_step, crate::proofs::BinarySteps::test_step))]
pub fn fold_condition(
    alloc: Global,
    ctx: &ExprCtx,
    n: &mut CondExpr,
) -> Result<Option<Expr>, PassError>
    ensures steps { IfOk result (λ o. Replaced (unresolved ctx.now) (cond_of n.old) (cond_of n.new) o) }
    ensures finished { IfOk result (λ o. IsNone o → kind_at expr_redex (cond_of n.new) ≡ false) }
{
    let (purity, truth) = n.test.cast_to_bool(ctx);
    match truth {
        Value::Known(truth) => {
            let arm = take_arm(n, truth);
            match purity {
                Purity::Pure => Ok(Some(arm)),
                Purity::MayBeImpure => {
                    let test = take(&mut n.test);
                    Ok(Some(sequence(alloc, n.span, test, arm)?))
                }
            }
        }
        Value::Unknown => Ok(None),
    }
}
