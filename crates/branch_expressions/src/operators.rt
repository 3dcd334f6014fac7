//! What is left of operators, choices and assignments whose values are not used.
ghost use Rattle.std.specs.Prelude.{◌≡◌, ◌∷◌, ◌||◌, [], false, true, IfOk, IfSome, IsTrue, None};
ghost use Rattle.swc_ast.specs.declared.BinaryOp.TheVariants as op;
ghost use Rattle.swc_ast.specs.Expressions.{assign_tree, bin_tree, cond_tree, unary_tree};
ghost use Rattle.swc_ast.specs.Views.{expr_tree};
ghost use Rattle.swc_utils.specs.Effects.{is_typeof};
ghost use Rattle.swc_utils.specs.Globals.{unresolved};
ghost use Rattle.branch_rules.specs.Ignored.{Ignores, may_skip as op_may_skip, skips as op_skips};
ghost use Rattle.pass_rules.specs.Values.{is_nullish_type};
ghost use Rattle.branch_expressions.specs.Left.{Rested, is_change as tree_is_change, tree_of};
ghost use Rattle.branch_expressions.specs.Choices.{Decides, are_none, choice_tree, only_tree};

use crate::ignored::{Words, is_idle, left_of, rest_of};
use crate::parts::add;
use crate::rest::{Rest, as_one, changed, cond_expr, moved};
use crate::rules::is_itself;
use std::alloc::{AllocError, Global};
use swc_ast::{AssignExpr, BinExpr, BinaryOp, CondExpr, Expr, Span, UnaryExpr, UnaryOp};
use swc_utils::{ExprCtx, ExprExt, Value, ValueType};
use tree_nodes::{binary_expr, take};

/// Whether an expression is a call of a function expression.
fn calls_function(e: &Expr) -> bool {
    match e {
        Expr::Call(n) => match &*n.callee {
            Expr::Fn(_) => true,
            _ => false,
        },
        _ => false,
    }
}

/// Whether an operator goes and its operand is run alone. `!` of a call of a function expression stays.
fn opens(op: UnaryOp, arg: &Expr) -> bool
    ensures { result ≡ true → is_typeof op ≡ false }
{
    match op {
        UnaryOp::Minus | UnaryOp::Plus | UnaryOp::Tilde | UnaryOp::Void => true,
        UnaryOp::Bang => !calls_function(arg),
        UnaryOp::TypeOf | UnaryOp::Delete => false,
    }
}

#[cycle(ignore)]
#[tactic(auto, using(crate::proofs::Answered::unary_rested))]
pub(crate) fn rest_of_unary(
    alloc: Global,
    ctx: &ExprCtx,
    n: &mut UnaryExpr,
) -> Result<Rest, AllocError>
    ensures { IfOk result (λ r. Rested (unresolved ctx.now) (unary_tree expr_tree n.old) (unary_tree expr_tree n.new) r) }
{
    if !opens(n.op, &n.arg) {
        return Ok(Rest::Same);
    }
    let left = left_of(alloc, ctx, Words::Stay, &mut n.arg)?;
    Ok(changed(left))
}

/// Whether the right side may not be run.
fn may_skip(op: BinaryOp) -> bool
    ensures { result ≡ op_may_skip op }
{
    match op {
        BinaryOp::LogicalOr | BinaryOp::LogicalAnd | BinaryOp::NullishCoalescing => true,
        _ => false,
    }
}

/// Whether `&&` and `||` skip the right side, by the truth of the left one.
fn skips(op: BinaryOp, truth: bool) -> Option<bool>
    ensures { result ≡ op_skips op truth }
{
    match op {
        BinaryOp::LogicalAnd => Some(!truth),
        BinaryOp::LogicalOr => Some(truth),
        _ => None,
    }
}

/// The type of null or undefined.
fn is_nullish(kind: ValueType) -> bool
    ensures { result ≡ is_nullish_type kind }
{
    match kind {
        ValueType::Undefined | ValueType::Null => true,
        _ => false,
    }
}

/// Whether the left side of `??` tells that it is never null or undefined, or without being run that it always is.
#[tactic(auto, using(crate::proofs::Made::decided_by_type, crate::proofs::Made::run_by_type))]
fn is_never_nullish(ctx: &ExprCtx, left: &Expr) -> Option<bool>
    ensures { IfSome result (λ b. Decides (unresolved ctx.now) op.NullishCoalescing (expr_tree left.now) b) }
{
    match left.get_type(ctx) {
        Value::Known(kind) => {
            if !is_nullish(kind) {
                return Some(true);
            }
            if left.may_have_side_effects(ctx) {
                return None;
            }
            Some(false)
        }
        Value::Unknown => None,
    }
}

/// Whether the right side is skipped, where the left one tells that; false only where nothing is lost with the left one.
#[tactic(auto, using(crate::proofs::Made::decided_by_truth))]
fn skips_right(ctx: &ExprCtx, op: BinaryOp, left: &Expr) -> Option<bool>
    ensures { IfSome result (λ b. Decides (unresolved ctx.now) op (expr_tree left.now) b) }
{
    match op {
        BinaryOp::NullishCoalescing => is_never_nullish(ctx, left),
        _ => match left.as_pure_bool(ctx) {
            Value::Known(truth) => skips(op, truth),
            Value::Unknown => None,
        },
    }
}

#[cycle(ignore)]
#[tactic(auto, using(crate::proofs::Answered::sides_rested))]
pub(crate) fn rest_of_binary(
    alloc: Global,
    ctx: &ExprCtx,
    n: &mut BinExpr,
) -> Result<Rest, AllocError>
    ensures { IfOk result (λ r. Rested (unresolved ctx.now) (bin_tree expr_tree n.old) (bin_tree expr_tree n.new) r) }
{
    if may_skip(n.op) {
        return rest_of_choice(alloc, ctx, n);
    }
    if are_idle(ctx, n) {
        return rest_of_pure(alloc, ctx, n);
    }
    let mut out = Vec::new(alloc);
    add(alloc, ctx, Words::Go, &mut n.left, &mut out)?;
    add(alloc, ctx, Words::Go, &mut n.right, &mut out)?;
    Ok(changed(as_one(n.span, out)))
}

/// Whether no side has an effect.
fn are_idle(ctx: &ExprCtx, n: &BinExpr) -> bool
    ensures left { IsTrue result → Ignores (unresolved ctx.now) true (expr_tree n.now.left.value) None }
    ensures right { IsTrue result → Ignores (unresolved ctx.now) true (expr_tree n.now.right.value) None }
{
    is_idle(ctx, &n.left) && is_idle(ctx, &n.right)
}

/// Of two sides what is left of one, where nothing is left of the other.
fn only_one(left: Option<Expr>, right: Option<Expr>) -> Option<Expr>
    ensures { tree_of result ≡ only_tree (tree_of left) (tree_of right) }
{
    match (left, right) {
        (Some(left), None) => Some(left),
        (None, Some(right)) => Some(right),
        (Some(_), Some(_)) | (None, None) => None,
    }
}

/// The same of two sides that have no effect.
#[cycle(ignore)]
fn rest_of_pure(alloc: Global, ctx: &ExprCtx, n: &mut BinExpr) -> Result<Rest, AllocError>
    requires evaluated { op_may_skip n.old.op ≡ false }
    requires left { Ignores (unresolved ctx.now) true (expr_tree n.old.left.value) None }
    requires right { Ignores (unresolved ctx.now) true (expr_tree n.old.right.value) None }
    ensures { IfOk result (λ r. Rested (unresolved ctx.now) (bin_tree expr_tree n.old) (bin_tree expr_tree n.new) r) }
{
    let left = left_of(alloc, ctx, Words::Stay, &mut n.left)?;
    let right = left_of(alloc, ctx, Words::Stay, &mut n.right)?;
    Ok(changed(only_one(left, right)))
}

/// What becomes of a pure left side that tells that the right one is skipped.
fn words_left(op: BinaryOp) -> Words {
    match op {
        BinaryOp::NullishCoalescing => Words::Stay,
        _ => Words::Go,
    }
}

/// `&&`, `||` and `??`
#[cycle(ignore)]
#[tactic(auto, using(crate::proofs::Answered::side_known, crate::proofs::Answered::side_run))]
fn rest_of_choice(alloc: Global, ctx: &ExprCtx, n: &mut BinExpr) -> Result<Rest, AllocError>
    requires { op_may_skip n.old.op ≡ true }
    ensures { IfOk result (λ r. Rested (unresolved ctx.now) (bin_tree expr_tree n.old) (bin_tree expr_tree n.new) r) }
{
    match skips_right(ctx, n.op, &n.left) {
        Some(true) => {
            let left = left_of(alloc, ctx, words_left(n.op), &mut n.left)?;
            Ok(changed(left))
        }
        Some(false) => {
            let right = left_of(alloc, ctx, Words::Stay, &mut n.right)?;
            Ok(changed(right))
        }
        None => rest_of_guarded(alloc, ctx, n),
    }
}

/// The same where the left side doesn't tell whether the right one is run.
#[cycle(ignore)]
#[tactic(auto, using(crate::proofs::Answered::side_gone, crate::proofs::Answered::side_other, crate::proofs::Answered::side_same))]
fn rest_of_guarded(alloc: Global, ctx: &ExprCtx, n: &mut BinExpr) -> Result<Rest, AllocError>
    requires { op_may_skip n.old.op ≡ true }
    ensures { IfOk result (λ r. Rested (unresolved ctx.now) (bin_tree expr_tree n.old) (bin_tree expr_tree n.new) r) }
{
    match rest_of(alloc, ctx, &mut n.right)? {
        Rest::Same => Ok(Rest::Same),
        Rest::Nothing => {
            let left = left_of(alloc, ctx, Words::Stay, &mut n.left)?;
            Ok(changed(left))
        }
        Rest::Other(right) => {
            let left = take(&mut n.left);
            let both = binary_expr(alloc, n.span, n.op, left, right)?;
            Ok(Rest::Other(both))
        }
    }
}

#[cycle(ignore)]
#[tactic(auto, using(crate::proofs::Answered::cons_rested, crate::proofs::Answered::alt_rested))]
pub(crate) fn rest_of_cond(
    alloc: Global,
    ctx: &ExprCtx,
    n: &mut CondExpr,
) -> Result<Rest, AllocError>
    ensures { IfOk result (λ r. Rested (unresolved ctx.now) (cond_tree expr_tree n.old) (cond_tree expr_tree n.new) r) }
{
    match n.test.as_pure_bool(ctx) {
        Value::Known(true) => {
            let cons = left_of(alloc, ctx, Words::Stay, &mut n.cons)?;
            Ok(changed(cons))
        }
        Value::Known(false) => {
            let alt = left_of(alloc, ctx, Words::Stay, &mut n.alt)?;
            Ok(changed(alt))
        }
        Value::Unknown => rest_of_arms(alloc, ctx, n),
    }
}

/// Whether something else is left of one of two arms.
fn is_change(cons: &Rest, alt: &Rest) -> bool
    ensures { result ≡ (tree_is_change cons.now || tree_is_change alt.now) }
{
    cons.is_change() || alt.is_change()
}

/// Whether nothing is left of both arms.
fn are_gone(cons: &Option<Expr>, alt: &Option<Expr>) -> bool
    ensures { result ≡ are_none (tree_of cons.now) (tree_of alt.now) }
{
    match cons {
        Some(_) => false,
        None => match alt {
            Some(_) => false,
            None => true,
        },
    }
}

/// The same where the test doesn't tell which arm is run.
#[cycle(ignore)]
#[tactic(auto, using(crate::proofs::Arms::arms_same, crate::proofs::Arms::arms_gone_at, crate::proofs::Arms::arms_choice))]
fn rest_of_arms(alloc: Global, ctx: &ExprCtx, n: &mut CondExpr) -> Result<Rest, AllocError>
    ensures { IfOk result (λ r. Rested (unresolved ctx.now) (cond_tree expr_tree n.old) (cond_tree expr_tree n.new) r) }
{
    let cons = rest_of(alloc, ctx, &mut n.cons)?;
    let alt = rest_of(alloc, ctx, &mut n.alt)?;
    if !is_change(&cons, &alt) {
        return Ok(Rest::Same);
    }
    let cons = moved(&mut n.cons, cons);
    let alt = moved(&mut n.alt, alt);
    if are_gone(&cons, &alt) {
        let test = left_of(alloc, ctx, Words::Stay, &mut n.test)?;
        return Ok(changed(test));
    }
    let test = take(&mut n.test);
    let choice = choice_of(alloc, n.span, test, cons, alt)?;
    Ok(changed(choice))
}

/// A choice between what is left of two arms; nothing where nothing is left of both.
fn choice_of(
    alloc: Global,
    span: Span,
    test: Expr,
    cons: Option<Expr>,
    alt: Option<Expr>,
) -> Result<Option<Expr>, AllocError>
    ensures { IfOk result (λ o. tree_of o ≡ choice_tree (span ∷ []) (expr_tree test) (tree_of cons) (tree_of alt)) }
{
    match (cons, alt) {
        (None, None) => Ok(None),
        (Some(cons), None) => {
            let op = BinaryOp::LogicalAnd;
            Ok(Some(binary_expr(alloc, span, op, test, cons)?))
        }
        (None, Some(alt)) => {
            let op = BinaryOp::LogicalOr;
            Ok(Some(binary_expr(alloc, span, op, test, alt)?))
        }
        (Some(cons), Some(alt)) => Ok(Some(cond_expr(alloc, span, test, cons, alt)?)),
    }
}

pub(crate) fn rest_of_boxed_assign(ctx: &ExprCtx, n: &Box<AssignExpr>) -> Rest
    ensures { Rested (unresolved ctx.now) (assign_tree expr_tree n.now.value) (assign_tree expr_tree n.now.value) result }
{
    rest_of_assign(ctx, n)
}

/// `x = x` of a bound name goes; other assignments stay.
fn rest_of_assign(ctx: &ExprCtx, n: &AssignExpr) -> Rest
    ensures { Rested (unresolved ctx.now) (assign_tree expr_tree n.now) (assign_tree expr_tree n.now) result }
{
    if is_itself(ctx, n) {
        return Rest::Nothing;
    }
    Rest::Same
}
