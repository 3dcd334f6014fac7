//! `+`. ECMA-262, 13.15.3.
ghost use Rattle.std.specs.Prelude.{◌≡◌, IfOk, IsNone, false};
ghost use Rattle.swc_ast.specs.Redex as redex;
ghost use Rattle.swc_ast.specs.Views.{expr_tree};
ghost use Rattle.swc_ast.specs.declared.BinaryOp.TheVariants as op;
ghost use Rattle.swc_utils.specs.Globals.{unresolved};
ghost use Rattle.swc_utils.specs.Known as answers;
ghost use Rattle.swc_utils.specs.Sound.{known, known_number, known_text};
ghost use Rattle.swc_utils.specs.Types as types;
ghost use Rattle.expr_rules.specs.Arithmetic as rules;
ghost use Rattle.expr_operators.specs.Nodes.{binary_at};
ghost use Rattle.expr_operators.specs.Steps.{Stands};

use crate::arithmetic::add;
use crate::length::admits;
use crate::operands::{number_expr, text_expr};
use crate::texts::is_text;
use std::alloc::Global;
use swc_ast::{BinExpr, BinaryOp, Expr, PassError};
use swc_utils::{ExprCtx, ExprExt, Value, ValueType};

/// Whether the type is known, and neither text nor object.
fn is_number_like(ctx: &ExprCtx, e: &Expr) -> bool
    ensures { result ≡ types.is_number_like (types.type_of (unresolved ctx.now) (expr_tree e.now)) }
{
    match e.get_type(ctx) {
        Value::Known(kind) => match kind {
            ValueType::Str | ValueType::Obj => false,
            _ => true,
        },
        Value::Unknown => false,
    }
}

/// The texts of both sides, one after the other.
fn join(alloc: Global, ctx: &ExprCtx, left: &Expr, right: &Expr) -> Result<Value<String>, PassError>
    ensures { IfOk result (λ r. known_text r ≡ answers.joined_texts (answers.text (unresolved ctx.now) (expr_tree left.now)) (answers.text (unresolved ctx.now) (expr_tree right.now))) }
{
    match left.as_pure_string(alloc, ctx)? {
        Value::Known(first) => match right.as_pure_string(alloc, ctx)? {
            Value::Known(second) => {
                let mut text = first;
                text.push_str(&second)?;
                Ok(Value::Known(text))
            }
            Value::Unknown => Ok(Value::Unknown),
        },
        Value::Unknown => Ok(Value::Unknown),
    }
}

/// The joined texts of two sides, one of which is a text.
fn joined_texts(
    alloc: Global,
    ctx: &ExprCtx,
    left: &Expr,
    right: &Expr,
) -> Result<Value<String>, PassError>
    ensures { IfOk result (λ r. known_text r ≡ rules.fold_texts (unresolved ctx.now) (expr_tree left.now) (expr_tree right.now)) }
{
    if is_text(ctx, left) || is_text(ctx, right) {
        return join(alloc, ctx, left, right);
    }
    Ok(Value::Unknown)
}

/// The sum of two numbers, NaN being None.
fn sum(a: Value<Option<i64>>, b: Value<Option<i64>>) -> Value<Option<i64>>
    ensures { known_number result ≡ rules.summed (known_number a) (known_number b) }
{
    match a {
        Value::Known(a) => match b {
            Value::Known(b) => add(a, b),
            Value::Unknown => Value::Unknown,
        },
        Value::Unknown => Value::Unknown,
    }
}

/// The sum of two sides of which `+` makes a number.
fn summed(ctx: &ExprCtx, left: &Expr, right: &Expr) -> Value<Option<i64>>
    ensures { known_number result ≡ rules.fold_sum (unresolved ctx.now) (expr_tree left.now) (expr_tree right.now) }
{
    if is_text(ctx, left) || is_text(ctx, right) {
        return Value::Unknown;
    }
    if is_number_like(ctx, left) && is_number_like(ctx, right) {
        return sum(left.as_pure_number(ctx), right.as_pure_number(ctx));
    }
    Value::Unknown
}

/// `+` of known texts, one side being a text, or of known numbers whose sum the length rule admits.
#[tactic(auto, using(crate::proofs::BinarySteps::texts_step, crate::proofs::BinarySteps::sum_step, crate::proofs::Rests::sum_none_rests, crate::proofs::Rests::sum_long_rests))]
pub(crate) fn fold_addition(
    alloc: Global,
    ctx: &ExprCtx,
    n: &BinExpr,
) -> Result<Option<Expr>, PassError>
    ensures steps { IfOk result (λ o. Stands (unresolved ctx.now) (binary_at op.Add n.now) o) }
    ensures finished { IfOk result (λ o. IsNone o → redex.binary_redex op.Add (expr_tree n.now.left.value) (expr_tree n.now.right.value) ≡ false) }
{
    match joined_texts(alloc, ctx, &n.left, &n.right)? {
        Value::Known(text) => Ok(Some(text_expr(n.span, text))),
        Value::Unknown => match summed(ctx, &n.left, &n.right) {
            Value::Known(number) => {
                if admits(BinaryOp::Add, &n.left, &n.right, number) {
                    return Ok(Some(number_expr(alloc, ctx, n.span, number)?));
                }
                Ok(None)
            }
            Value::Unknown => Ok(None),
        },
    }
}
