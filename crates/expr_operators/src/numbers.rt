//! Operators on known numbers. ECMA-262, 13.6 to 13.12 and 13.15.3.
ghost use Rattle.std.specs.Prelude.{◌≡◌, IfOk, IsNone, IsTrue, None, Some, false, true};
ghost use Rattle.swc_ast.specs.Redex as redex;
ghost use Rattle.swc_ast.specs.Views.{expr_tree};
ghost use Rattle.swc_ast.specs.declared.BinaryOp.TheVariants.{Exp};
ghost use Rattle.swc_ast.specs.declared.expressions.BinExpr.{BinExpr};
ghost use Rattle.swc_ast.specs.declared.expressions.Expr.{Expr};
ghost use Rattle.swc_ast.specs.declared.expressions.Expr.TheVariants.{Bin};
ghost use Rattle.swc_utils.specs.Globals.{unresolved};
ghost use Rattle.swc_utils.specs.Sound.{IfKnown, known_number, numeric};
ghost use Rattle.swc_utils.specs.Types as types;
ghost use Rattle.expr_rules.specs.Arithmetic as rules;
ghost use Rattle.expr_operators.specs.Nodes.{binary_of};
ghost use Rattle.expr_operators.specs.Steps.{Regroups, Stands};

use crate::arithmetic::{compute, is_zero};
use crate::length::admits;
use crate::literals::literal_number;
use crate::operands::{behind_operands, number_expr};
use std::alloc::Global;
use swc_ast::{BinExpr, BinaryOp, Expr, PassError};
use swc_utils::{ExprCtx, ExprExt, Value};
use tree_nodes::{binary_expr, take};

fn computed(op: BinaryOp, a: Value<Option<i64>>, b: Value<Option<i64>>) -> Value<Option<i64>>
    ensures { known_number result ≡ rules.computed op (known_number a) (known_number b) }
{
    match (a, b) {
        (Value::Known(a), Value::Known(b)) => compute(op, a, b),
        _ => Value::Unknown,
    }
}

/// What an operator gives on two sides of known numbers, where the length rule admits it.
#[tactic(auto, using(crate::proofs::Rests::none_rests, crate::proofs::Rests::long_rests))]
fn admitted(ctx: &ExprCtx, op: BinaryOp, left: &Expr, right: &Expr) -> Value<Option<i64>>
    ensures computed { IfKnown result (λ k. rules.fold_numbers (unresolved ctx.now) op (expr_tree left.now) (expr_tree right.now) ≡ Some (numeric k)) }
    ensures admitted { IfKnown result (λ k. rules.admits op (expr_tree left.now) (expr_tree right.now) (numeric k) ≡ true) }
    ensures literals { types.is_numeric_op op ≡ true → known_number result ≡ None → redex.number_redex op (expr_tree left.now) (expr_tree right.now) ≡ false }
{
    match computed(op, left.as_pure_number(ctx), right.as_pure_number(ctx)) {
        Value::Known(number) => {
            if admits(op, left, right, number) {
                return Value::Known(number);
            }
            Value::Unknown
        }
        Value::Unknown => Value::Unknown,
    }
}

/// `<<`, `>>` and `>>>`
fn shifts(op: BinaryOp) -> bool {
    match op {
        BinaryOp::LShift | BinaryOp::RShift | BinaryOp::ZeroFillRShift => true,
        _ => false,
    }
}

/// An operator on two known numbers whose result the length rule admits: the result. Shifts of number literals alone.
#[tactic(auto, using(crate::proofs::BinarySteps::numbers_step, crate::proofs::Rests::numeric_rests, crate::proofs::Rests::left_rests, crate::proofs::Rests::right_rests))]
fn fold_arithmetic(alloc: Global, ctx: &ExprCtx, n: &BinExpr) -> Result<Option<Expr>, PassError>
    ensures steps { IfOk result (λ o. Stands (unresolved ctx.now) (binary_of n.now) o) }
    ensures finished { types.is_numeric_op n.now.op ≡ true → IfOk result (λ o. IsNone o → redex.binary_redex n.now.op (expr_tree n.now.left.value) (expr_tree n.now.right.value) ≡ false) }
{
    if shifts(n.op) && (literal_number(&n.left).is_none() || literal_number(&n.right).is_none()) {
        return Ok(None);
    }
    match admitted(ctx, n.op, &n.left, &n.right) {
        Value::Known(number) => Ok(Some(number_expr(alloc, ctx, n.span, number)?)),
        Value::Unknown => Ok(None),
    }
}

/// `a ** b` where the number of `b` is 0: 1, whatever `a` is, behind the effects of both.
#[tactic(auto, using(crate::proofs::BinarySteps::power_step))]
fn fold_power_zero(alloc: Global, ctx: &ExprCtx, n: &mut BinExpr) -> Result<Option<Expr>, PassError>
    ensures steps { IfOk result (λ o. Stands (unresolved ctx.now) (binary_of n.old) o) }
    ensures kept { IfOk result (λ o. IsNone o → n.new ≡ n.old) }
{
    if !is_power(n.op) {
        return Ok(None);
    }
    match n.right.as_pure_number(ctx) {
        Value::Known(exponent) => {
            if !is_zero(exponent) {
                return Ok(None);
            }
            let one = number_expr(alloc, ctx, n.span, Some(1))?;
            Ok(Some(behind_operands(alloc, ctx, n, one)?))
        }
        Value::Unknown => Ok(None),
    }
}

fn is_power(op: BinaryOp) -> bool
    ensures { IsTrue result → op ≡ Exp }
{
    match op {
        BinaryOp::Exp => true,
        _ => false,
    }
}

/// Whether two operators are one whose grouping is free: `*`, `&`, `|` or `^`.
fn regroup(outer: BinaryOp, inner: BinaryOp) -> bool
    ensures { IsTrue result → (rules.regroups outer ≡ true) × (inner ≡ outer) }
{
    match (outer, inner) {
        (BinaryOp::Mul, BinaryOp::Mul) => true,
        (BinaryOp::BitAnd, BinaryOp::BitAnd) => true,
        (BinaryOp::BitOr, BinaryOp::BitOr) => true,
        (BinaryOp::BitXor, BinaryOp::BitXor) => true,
        _ => false,
    }
}

/// What `b op c` gives in `(a op b) op c`, where the grouping is free and the length rule admits it.
fn regrouped(ctx: &ExprCtx, op: BinaryOp, left: &Expr, right: &Expr) -> Value<Option<i64>>
    ensures { IfKnown result (λ k. Regroups (unresolved ctx.now) op left.now (expr_tree right.now) (numeric k)) }
{
    match left {
        Expr::Bin(inner) => {
            if !regroup(op, inner.op) {
                return Value::Unknown;
            }
            admitted(ctx, op, &inner.right, right)
        }
        _ => Value::Unknown,
    }
}

/// Moves the first operand out of an operator.
fn take_first(e: &mut Expr) -> Expr
    ensures { (n : BinExpr Expr) → e.old ≡ Bin n → expr_tree result ≡ expr_tree n.left.value }
{
    match e {
        Expr::Bin(n) => take(&mut n.left),
        _ => take(e),
    }
}

/// `(a op b) op c`, where the grouping is free and the operator folds `b` and `c`: `a` with the result.
fn fold_regrouped(alloc: Global, ctx: &ExprCtx, n: &mut BinExpr) -> Result<Option<Expr>, PassError>
    ensures steps { IfOk result (λ o. Stands (unresolved ctx.now) (binary_of n.old) o) }
    ensures kept { IfOk result (λ o. IsNone o → n.new ≡ n.old) }
{
    match regrouped(ctx, n.op, &n.left, &n.right) {
        Value::Known(number) => {
            let right = number_expr(alloc, ctx, n.span, number)?;
            let left = take_first(&mut n.left);
            Ok(Some(binary_expr(alloc, n.span, n.op, left, right)?))
        }
        Value::Unknown => Ok(None),
    }
}

/// An operator that gives a number: a power of exponent 0, an operator on known numbers, or one that is regrouped.
pub(crate) fn fold_numeric(
    alloc: Global,
    ctx: &ExprCtx,
    n: &mut BinExpr,
) -> Result<Option<Expr>, PassError>
    ensures steps { IfOk result (λ o. Stands (unresolved ctx.now) (binary_of n.old) o) }
    ensures kept { IfOk result (λ o. IsNone o → n.new ≡ n.old) }
    ensures finished { types.is_numeric_op n.old.op ≡ true → IfOk result (λ o. IsNone o → redex.binary_redex n.old.op (expr_tree n.old.left.value) (expr_tree n.old.right.value) ≡ false) }
{
    if let Some(one) = fold_power_zero(alloc, ctx, n)? {
        return Ok(Some(one));
    }
    if let Some(number) = fold_arithmetic(alloc, ctx, n)? {
        return Ok(Some(number));
    }
    fold_regrouped(alloc, ctx, n)
}
