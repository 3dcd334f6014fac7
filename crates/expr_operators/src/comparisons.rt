//! `<`, `>`, `<=` and `>=`. ECMA-262, 7.2.12 and 13.10.
ghost use Rattle.std.specs.Prelude.{◌≡◌, ◌&&◌, IfOk, IsNone, None, Some, false, true};
ghost use Rattle.swc_ast.specs.Operators as operators;
ghost use Rattle.swc_ast.specs.Redex as redex;
ghost use Rattle.swc_ast.specs.Value.{Text, Truth};
ghost use Rattle.swc_ast.specs.Views.{expr_tree};
ghost use Rattle.swc_utils.specs.Globals.{unresolved};
ghost use Rattle.swc_utils.specs.Sound.{IfKnown, known, numeric};
ghost use Rattle.swc_utils.specs.Types as types;
ghost use Rattle.swc_utils.specs.declared.answers.ValueType.TheVariants.{Str as TextType};
ghost use Rattle.expr_rules.specs.Comparisons as rules;
ghost use Rattle.expr_operators.specs.Nodes.{binary_of};
ghost use Rattle.expr_operators.specs.Steps.{Stands, TruthStep};

use crate::names::beside_itself;
use crate::operands::truth_expr;
use crate::texts::{is_text, is_text_before, plain_text};
use std::alloc::{AllocError, Global};
use swc_ast::{BinExpr, BinaryOp, Expr, PassError};
use swc_utils::{ExprCtx, ExprExt, Value};

/// `<`, `>`, `<=` and `>=`
pub(crate) fn is_comparison(op: BinaryOp) -> bool
    ensures { result ≡ rules.is_comparison op }
{
    match op {
        BinaryOp::Lt | BinaryOp::Gt | BinaryOp::LtEq | BinaryOp::GtEq => true,
        _ => false,
    }
}

fn is_before(a: i64, b: i64) -> bool
    ensures { result ≡ operators.int_before a b }
{
    a < b
}

/// How a comparison of two numbers goes: with NaN, which is None, it fails.
fn compare_numbers(op: BinaryOp, a: Option<i64>, b: Option<i64>) -> bool
    ensures { operators.compare_numbers (rules.compares op) (numeric a) (numeric b) ≡ Some (Truth result) }
{
    match (a, b) {
        (Some(a), Some(b)) => match op {
            BinaryOp::Gt => is_before(b, a),
            BinaryOp::LtEq => !is_before(b, a),
            BinaryOp::GtEq => !is_before(a, b),
            _ => is_before(a, b),
        },
        _ => false,
    }
}

/// How a comparison of two texts goes.
#[tactic(auto, unfolding(swc_ast::specs::Operators::binary_prim))]
fn compare_texts(alloc: Global, op: BinaryOp, a: &str, b: &str) -> Result<bool, AllocError>
    ensures { rules.is_comparison op ≡ true → IfOk result (λ r. operators.binary_value op (Text a.now) (Text b.now) ≡ Some (Truth r)) }
{
    match op {
        BinaryOp::Gt => is_text_before(alloc, b, a),
        BinaryOp::LtEq => Ok(!is_text_before(alloc, b, a)?),
        BinaryOp::GtEq => Ok(!is_text_before(alloc, a, b)?),
        _ => is_text_before(alloc, a, b),
    }
}

/// A comparison of two known numbers.
#[tactic(auto, using(crate::proofs::Comparing::number_step))]
fn numbers_compared(ctx: &ExprCtx, op: BinaryOp, left: &Expr, right: &Expr) -> Value<bool>
    ensures step { rules.is_comparison op ≡ true → (types.is_text_type (types.type_of (unresolved ctx.now) (expr_tree left.now)) && types.is_text_type (types.type_of (unresolved ctx.now) (expr_tree right.now))) ≡ false → IfKnown result (λ r. TruthStep (unresolved ctx.now) op (expr_tree left.now) (expr_tree right.now) r) }
    ensures literals { known result ≡ None → (redex.is_number (expr_tree left.now) && redex.is_number (expr_tree right.now)) ≡ false }
{
    match (left.as_pure_number(ctx), right.as_pure_number(ctx)) {
        (Value::Known(a), Value::Known(b)) => Value::Known(compare_numbers(op, a, b)),
        _ => Value::Unknown,
    }
}

/// A comparison of two known texts.
#[tactic(auto, using(crate::proofs::Comparing::text_step))]
fn texts_compared(
    alloc: Global,
    ctx: &ExprCtx,
    op: BinaryOp,
    left: &Expr,
    right: &Expr,
) -> Result<Value<bool>, PassError>
    ensures { rules.is_comparison op ≡ true
        → types.type_of (unresolved ctx.now) (expr_tree left.now) ≡ Some TextType
        → types.type_of (unresolved ctx.now) (expr_tree right.now) ≡ Some TextType
        → IfOk result (λ v. IfKnown v (λ r. TruthStep (unresolved ctx.now) op (expr_tree left.now) (expr_tree right.now) r)) }
{
    match (
        plain_text(alloc, ctx, left)?,
        plain_text(alloc, ctx, right)?,
    ) {
        (Value::Known(a), Value::Known(b)) => Ok(Value::Known(compare_texts(alloc, op, &a, &b)?)),
        _ => Ok(Value::Unknown),
    }
}

/// A comparison of two sides that are both texts and known, or have known numbers.
fn values_compared(
    alloc: Global,
    ctx: &ExprCtx,
    op: BinaryOp,
    left: &Expr,
    right: &Expr,
) -> Result<Value<bool>, PassError>
    ensures step { rules.is_comparison op ≡ true → IfOk result (λ v. IfKnown v (λ r. TruthStep (unresolved ctx.now) op (expr_tree left.now) (expr_tree right.now) r)) }
    ensures literals { IfOk result (λ v. known v ≡ None → (redex.is_number (expr_tree left.now) && redex.is_number (expr_tree right.now)) ≡ false) }
{
    if is_text(ctx, left) && is_text(ctx, right) {
        return texts_compared(alloc, ctx, op, left, right);
    }
    Ok(numbers_compared(ctx, op, left, right))
}

/// A comparison of known texts or numbers, or of a bound name or its type with itself.
#[tactic(auto, using(crate::proofs::BinarySteps::truth_step, crate::proofs::Rests::comparison_rests))]
pub(crate) fn fold_comparison(
    alloc: Global,
    ctx: &ExprCtx,
    n: &BinExpr,
) -> Result<Option<Expr>, PassError>
    ensures steps { rules.is_comparison n.now.op ≡ true → IfOk result (λ o. Stands (unresolved ctx.now) (binary_of n.now) o) }
    ensures finished { rules.is_comparison n.now.op ≡ true → IfOk result (λ o. IsNone o → redex.binary_redex n.now.op (expr_tree n.now.left.value) (expr_tree n.now.right.value) ≡ false) }
{
    match values_compared(alloc, ctx, n.op, &n.left, &n.right)? {
        Value::Known(truth) => Ok(Some(truth_expr(n.span, truth))),
        Value::Unknown => match beside_itself(ctx, n.op, &n.left, &n.right) {
            Some(truth) => Ok(Some(truth_expr(n.span, truth))),
            None => Ok(None),
        },
    }
}
