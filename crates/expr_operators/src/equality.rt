//! `==`, `!=`, `===` and `!==`. ECMA-262, 7.2.13 and 7.2.14.
ghost use Rattle.std.specs.Prelude.{◌≡◌, IfOk, IsNone, Some, false, true};
ghost use Rattle.swc_ast.specs.Operators.{both, int_eq, numeric_equal};
ghost use Rattle.swc_ast.specs.Redex as redex;
ghost use Rattle.swc_ast.specs.Views.{expr_tree};
ghost use Rattle.swc_utils.specs.Globals.{unresolved};
ghost use Rattle.swc_utils.specs.Sound.{known, known_number, known_text, numeric};
ghost use Rattle.swc_utils.specs.Types.{same_type, type_of};
ghost use Rattle.expr_rules.specs.Equality as rules;
ghost use Rattle.pass_rules.specs.Values.{is_nullish_type, number_of, text_value, truth_of_known};
ghost use Rattle.expr_operators.specs.Nodes.{binary_of};
ghost use Rattle.expr_operators.specs.Steps.{Stands};

use crate::names::beside_itself;
use crate::operands::{behind_operands, truth_expr};
use crate::texts::plain_text;
use std::alloc::Global;
use swc_ast::{BinExpr, BinaryOp, Expr, PassError};
use swc_utils::{ExprCtx, ExprExt, Value, ValueType};

/// `==`, `!=`, `===` and `!==`
pub(crate) fn is_equality(op: BinaryOp) -> bool
    ensures { result ≡ rules.is_equality op }
{
    match op {
        BinaryOp::EqEq | BinaryOp::NotEq | BinaryOp::EqEqEq | BinaryOp::NotEqEq => true,
        _ => false,
    }
}

/// Whether an operator asks for equal types too.
fn is_strict(op: BinaryOp) -> bool
    ensures { result ≡ rules.is_strict_equality op }
{
    match op {
        BinaryOp::EqEqEq | BinaryOp::NotEqEq => true,
        _ => false,
    }
}

/// What an operator says of sides that are equal, or not.
fn tell(op: BinaryOp, equal: bool) -> bool
    ensures { result ≡ rules.tells op equal }
{
    match op {
        BinaryOp::NotEq | BinaryOp::NotEqEq => !equal,
        _ => equal,
    }
}

fn is_same_whole(a: i64, b: i64) -> bool
    ensures { result ≡ int_eq a b }
{
    a == b
}

/// NaN, which is None, equals nothing.
fn is_same_number(a: Option<i64>, b: Option<i64>) -> bool
    ensures { numeric_equal (numeric a) (numeric b) ≡ Some result }
{
    match (a, b) {
        (Some(a), Some(b)) => is_same_whole(a, b),
        _ => false,
    }
}

fn same_numbers(a: Value<Option<i64>>, b: Value<Option<i64>>) -> Value<bool>
    ensures values { known result ≡ rules.equal_values (number_of (known_number a)) (number_of (known_number b)) }
    ensures numbers { known result ≡ both numeric_equal (known_number a) (known_number b) }
{
    match (a, b) {
        (Value::Known(a), Value::Known(b)) => Value::Known(is_same_number(a, b)),
        _ => Value::Unknown,
    }
}

fn same_truths(a: Value<bool>, b: Value<bool>) -> Value<bool>
    ensures { known result ≡ rules.equal_values (truth_of_known (known a)) (truth_of_known (known b)) }
{
    match (a, b) {
        (Value::Known(a), Value::Known(b)) => Value::Known(a == b),
        _ => Value::Unknown,
    }
}

fn same_texts(a: Value<String>, b: Value<String>) -> Value<bool>
    ensures { known result ≡ rules.equal_values (text_value (known_text a)) (text_value (known_text b)) }
{
    match (a, b) {
        (Value::Known(a), Value::Known(b)) => Value::Known(a == b),
        _ => Value::Unknown,
    }
}

/// Whether two sides of one type are equal.
#[tactic(auto, using(crate::proofs::Alike::truths_alike))]
fn alike_known(
    alloc: Global,
    ctx: &ExprCtx,
    left: &Expr,
    right: &Expr,
    kind: ValueType,
) -> Result<Value<bool>, PassError>
    ensures { type_of (unresolved ctx.now) (expr_tree left.now) ≡ Some kind
        → type_of (unresolved ctx.now) (expr_tree right.now) ≡ Some kind
        → IfOk result (λ r. known r ≡ rules.alike_known (unresolved ctx.now) (expr_tree left.now) (expr_tree right.now) kind) }
{
    match kind {
        ValueType::Undefined => Ok(Value::Known(true)),
        ValueType::Null => Ok(Value::Known(true)),
        ValueType::Bool => Ok(same_truths(left.as_pure_bool(ctx), right.as_pure_bool(ctx))),
        ValueType::Num => Ok(same_numbers(left.as_pure_number(ctx), right.as_pure_number(ctx))),
        ValueType::Str => {
            let first = plain_text(alloc, ctx, left)?;
            let second = plain_text(alloc, ctx, right)?;
            Ok(same_texts(first, second))
        }
        ValueType::Obj => Ok(Value::Unknown),
    }
}

/// What is known of `===`: a side is NaN, the types are known and differ, or both values are known.
fn strict_known(
    alloc: Global,
    ctx: &ExprCtx,
    left: &Expr,
    right: &Expr,
) -> Result<Value<bool>, PassError>
    ensures { IfOk result (λ r. known r ≡ rules.strict_known (unresolved ctx.now) (expr_tree left.now) (expr_tree right.now)) }
{
    if left.is_nan(ctx) || right.is_nan(ctx) {
        return Ok(Value::Known(false));
    }
    match (left.get_type(ctx), right.get_type(ctx)) {
        (Value::Known(first), Value::Known(second)) => {
            if is_same_type(first, second) {
                return alike_known(alloc, ctx, left, right, first);
            }
            Ok(Value::Known(false))
        }
        _ => Ok(Value::Unknown),
    }
}

fn is_same_type(a: ValueType, b: ValueType) -> bool
    ensures { result ≡ same_type a b }
{
    a == b
}

fn is_nullish(kind: ValueType) -> bool
    ensures { result ≡ is_nullish_type kind }
{
    match kind {
        ValueType::Undefined | ValueType::Null => true,
        _ => false,
    }
}

fn is_object(kind: ValueType) -> bool
    ensures { result ≡ rules.is_object_type kind }
{
    match kind {
        ValueType::Obj => true,
        _ => false,
    }
}

/// What is known of `==` of sides of different types, by their types and numbers: null and undefined equal each other
/// alone, an object beside anything else is left open, and all others are compared as numbers.
fn loose_apart(
    first: ValueType,
    second: ValueType,
    a: Value<Option<i64>>,
    b: Value<Option<i64>>,
) -> Value<bool>
    ensures { known result ≡ rules.loose_apart first second (known_number a) (known_number b) }
{
    if is_nullish(first) || is_nullish(second) {
        return Value::Known(is_nullish(first) && is_nullish(second));
    }
    if is_object(first) || is_object(second) {
        return Value::Unknown;
    }
    same_numbers(a, b)
}

/// What is known of `==`: both types are known.
fn loose_known(
    alloc: Global,
    ctx: &ExprCtx,
    left: &Expr,
    right: &Expr,
) -> Result<Value<bool>, PassError>
    ensures { IfOk result (λ r. known r ≡ rules.loose_known (unresolved ctx.now) (expr_tree left.now) (expr_tree right.now)) }
{
    match (left.get_type(ctx), right.get_type(ctx)) {
        (Value::Known(first), Value::Known(second)) => {
            if is_same_type(first, second) {
                return strict_known(alloc, ctx, left, right);
            }
            let (a, b) = (left.as_pure_number(ctx), right.as_pure_number(ctx));
            Ok(loose_apart(first, second, a, b))
        }
        _ => Ok(Value::Unknown),
    }
}

/// What is known of whether two sides are equal, strictly or not, as an operator asks.
fn equal_known(
    alloc: Global,
    ctx: &ExprCtx,
    op: BinaryOp,
    left: &Expr,
    right: &Expr,
) -> Result<Value<bool>, PassError>
    ensures { IfOk result (λ r. known r ≡ rules.equal_known (unresolved ctx.now) op (expr_tree left.now) (expr_tree right.now)) }
{
    if is_strict(op) {
        return strict_known(alloc, ctx, left, right);
    }
    loose_known(alloc, ctx, left, right)
}

/// An equality of sides of which it is known whether they are equal, behind their effects; or of the type of a bound
/// name with itself.
#[tactic(auto, using(crate::proofs::BinarySteps::truth_step, crate::proofs::BinarySteps::equality_step, crate::proofs::Rests::equality_rests))]
pub(crate) fn fold_equality(
    alloc: Global,
    ctx: &ExprCtx,
    n: &mut BinExpr,
) -> Result<Option<Expr>, PassError>
    ensures steps { rules.is_equality n.old.op ≡ true → IfOk result (λ o. Stands (unresolved ctx.now) (binary_of n.old) o) }
    ensures kept { IfOk result (λ o. IsNone o → n.new ≡ n.old) }
    ensures finished { rules.is_equality n.old.op ≡ true → IfOk result (λ o. IsNone o → redex.binary_redex n.old.op (expr_tree n.old.left.value) (expr_tree n.old.right.value) ≡ false) }
{
    if let Some(truth) = beside_itself(ctx, n.op, &n.left, &n.right) {
        return Ok(Some(truth_expr(n.span, truth)));
    }
    match equal_known(alloc, ctx, n.op, &n.left, &n.right)? {
        Value::Known(equal) => {
            let value = truth_expr(n.span, tell(n.op, equal));
            Ok(Some(behind_operands(alloc, ctx, n, value)?))
        }
        Value::Unknown => Ok(None),
    }
}
