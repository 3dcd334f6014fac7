//! Operators in front of operands. ECMA-262, 13.5.
ghost use Rattle.std.specs.Prelude.{◌≡◌, ℕ, IfOk, IfSome, IsNone, Some, false};
ghost use Rattle.swc_ast.specs.Operators.{type_name};
ghost use Rattle.swc_ast.specs.Redex as redex;
ghost use Rattle.swc_ast.specs.Views.{expr_tree};
ghost use Rattle.swc_ast.specs.declared.UnaryOp.TheVariants as op;
ghost use Rattle.static_proofs.specs.Free.{kind_at};
ghost use Rattle.swc_utils.specs.Effects.{is_read};
ghost use Rattle.swc_utils.specs.Globals.{unresolved};
ghost use Rattle.swc_utils.specs.Known.{lit_value, minus};
ghost use Rattle.swc_utils.specs.Sound.{known_number};
ghost use Rattle.expr_rules.specs.Replaced.{Replaced, expr_redex};
ghost use Rattle.expr_rules.specs.TypeNames.{typeof_known};
ghost use Rattle.expr_operators.specs.Nodes.{unary_at, unary_of};
ghost use Rattle.expr_operators.specs.Steps.{Stands};

use crate::arithmetic::negate;
use crate::bits::complement;
use crate::literals::{literal_number, weighs_two};
use crate::operands::{behind_operand, number_expr, text_expr, truth_expr};
use std::alloc::Global;
use swc_ast::{Expr, Lit, PassError, UnaryExpr, UnaryOp};
use swc_utils::{ExprCtx, ExprExt, Value};
use tree_nodes::void_expr;

/// `!a` of known truth: the other truth, behind the effects of `a`. `!` of a number literal stays.
#[tactic(auto, using(crate::proofs::UnarySteps::not_step))]
fn fold_not(alloc: Global, ctx: &ExprCtx, n: &mut UnaryExpr) -> Result<Option<Expr>, PassError>
    ensures steps { IfOk result (λ o. Stands (unresolved ctx.now) (unary_at op.Bang n.old) o) }
    ensures kept { IfOk result (λ o. IsNone o → n.new ≡ n.old) }
    ensures finished { IfOk result (λ o. IsNone o → redex.unary_redex op.Bang (expr_tree n.old.arg.value) ≡ false) }
{
    if literal_number(&n.arg).is_some() {
        return Ok(None);
    }
    match n.arg.cast_to_bool(ctx).1 {
        Value::Known(truth) => {
            let value = truth_expr(n.span, !truth);
            Ok(Some(behind_operand(alloc, ctx, n, value)?))
        }
        Value::Unknown => Ok(None),
    }
}

/// `+a` of a known number: the number.
#[tactic(auto, using(crate::proofs::UnarySteps::plus_step))]
fn fold_plus(alloc: Global, ctx: &ExprCtx, n: &UnaryExpr) -> Result<Option<Expr>, PassError>
    ensures { IfOk result (λ o. Stands (unresolved ctx.now) (unary_at op.Plus n.now) o) }
{
    match n.arg.as_pure_number(ctx) {
        Value::Known(number) => Ok(Some(number_expr(alloc, ctx, n.span, number)?)),
        Value::Unknown => Ok(None),
    }
}

fn negated(number: Value<Option<i64>>) -> Value<Option<i64>>
    ensures { known_number result ≡ minus (known_number number) }
{
    match number {
        Value::Known(number) => negate(number),
        Value::Unknown => Value::Unknown,
    }
}

/// `-a` of a number literal but 0, or of `NaN`: the number.
#[tactic(auto, using(crate::proofs::UnarySteps::minus_step))]
fn fold_negation(alloc: Global, ctx: &ExprCtx, n: &UnaryExpr) -> Result<Option<Expr>, PassError>
    ensures { IfOk result (λ o. Stands (unresolved ctx.now) (unary_at op.Minus n.now) o) }
{
    if !n.arg.is_nan(ctx) && literal_number(&n.arg).is_none() {
        return Ok(None);
    }
    match negated(n.arg.as_pure_number(ctx)) {
        Value::Known(number) => Ok(Some(number_expr(alloc, ctx, n.span, number)?)),
        Value::Unknown => Ok(None),
    }
}

/// `~a` of a known number that isn't NaN: its 32 bits turned.
#[tactic(auto, using(crate::proofs::UnarySteps::tilde_step))]
fn fold_complement(alloc: Global, ctx: &ExprCtx, n: &UnaryExpr) -> Result<Option<Expr>, PassError>
    ensures { IfOk result (λ o. Stands (unresolved ctx.now) (unary_at op.Tilde n.now) o) }
{
    match n.arg.as_pure_number(ctx) {
        Value::Known(number) => {
            if number.is_none() {
                return Ok(None);
            }
            let value = Some(complement(number));
            Ok(Some(number_expr(alloc, ctx, n.span, value)?))
        }
        Value::Unknown => Ok(None),
    }
}

/// `void a` of a pure expression that isn't the literal 0: `void 0`.
#[tactic(auto, using(crate::proofs::UnarySteps::void_step))]
fn fold_void(alloc: Global, ctx: &ExprCtx, n: &UnaryExpr) -> Result<Option<Expr>, PassError>
    ensures steps { IfOk result (λ o. Stands (unresolved ctx.now) (unary_at op.Void n.now) o) }
    ensures finished { IfOk result (λ o. IsNone o → redex.unary_redex op.Void (expr_tree n.now.arg.value) ≡ false) }
{
    if n.arg.may_have_side_effects(ctx) || !weighs_two(&n.arg) {
        return Ok(None);
    }
    Ok(Some(void_expr(alloc, n.span)?))
}

fn type_word_of_literal(n: &Lit) -> &'static str
    ensures { result.now ≡ type_name (lit_value n.now) }
{
    match n {
        Lit::Str(_) => "string",
        Lit::Num(_) => "number",
        Lit::Bool(_) => "boolean",
        Lit::Null(_) => "object",
    }
}

/// What `typeof` gives of an expression whose form tells that. Not of a name.
#[tactic(auto, using(swc_ast::proofs::Equations::forms))]
fn type_word(e: &Expr) -> Option<&'static str>
    ensures known { IfSome result (λ s. (mark : ℕ) → typeof_known mark (expr_tree e.now) ≡ Some s.now) }
    ensures no_name { IfSome result (λ s. is_read (expr_tree e.now) ≡ false) }
    ensures literal { IsNone result → redex.is_simple_literal (expr_tree e.now) ≡ false }
{
    match e {
        Expr::Lit(n) => Some(type_word_of_literal(n)),
        Expr::Fn(_) => Some("function"),
        Expr::Array(_) => Some("object"),
        Expr::Object(_) => Some("object"),
        Expr::Unary(n) => match n.op {
            UnaryOp::Void => Some("undefined"),
            _ => None,
        },
        Expr::Call(_) => None,
        Expr::Update(_) => None,
        Expr::Assign(_) => None,
        Expr::Member(_) => None,
        Expr::This(_)
        | Expr::Bin(_)
        | Expr::Cond(_)
        | Expr::New(_)
        | Expr::Seq(_)
        | Expr::Ident(_)
        | Expr::Tpl(_)
        | Expr::Arrow(_)
        | Expr::Invalid(_) => None,
    }
}

/// `typeof a` of the host's `undefined`, and of a pure expression whose form tells its type: the name of the type.
#[tactic(auto, using(crate::proofs::UnarySteps::undefined_step, crate::proofs::UnarySteps::typeof_step))]
fn fold_typeof(alloc: Global, ctx: &ExprCtx, n: &mut UnaryExpr) -> Result<Option<Expr>, PassError>
    ensures steps { IfOk result (λ o. Stands (unresolved ctx.now) (unary_at op.TypeOf n.old) o) }
    ensures kept { IfOk result (λ o. IsNone o → n.new ≡ n.old) }
    ensures finished { IfOk result (λ o. IsNone o → redex.is_simple_literal (expr_tree n.old.arg.value) ≡ false) }
{
    if n.arg.is_undefined(ctx) {
        let text = String::from_str(alloc, "undefined")?;
        return Ok(Some(text_expr(n.span, text)));
    }
    if n.arg.may_have_side_effects(ctx) {
        return Ok(None);
    }
    match type_word(&n.arg) {
        Some(word) => {
            let text = String::from_str(alloc, word)?;
            let value = text_expr(n.span, text);
            Ok(Some(behind_operand(alloc, ctx, n, value)?))
        }
        None => Ok(None),
    }
}

/// What takes the place of an operator in front of its operand, where the operand is known: `!` by its truth, `+`, `-`
/// and `~` by its number, `typeof` by its type, and `void` of a pure one. The operand may be moved out of the node,
/// which is worth nothing then. None where no rule fits; then the node is as it was. Refuses where memory is refused.
/// ECMA-262, 13.5.
pub fn fold_unary(
    alloc: Global,
    ctx: &ExprCtx,
    n: &mut UnaryExpr,
) -> Result<Option<Expr>, PassError>
    ensures steps { IfOk result (λ o. Replaced (unresolved ctx.now) (unary_of n.old) (unary_of n.new) o) }
    ensures finished { IfOk result (λ o. IsNone o → kind_at expr_redex (unary_of n.new) ≡ false) }
{
    match n.op {
        UnaryOp::Bang => fold_not(alloc, ctx, n),
        UnaryOp::Plus => fold_plus(alloc, ctx, n),
        UnaryOp::Minus => fold_negation(alloc, ctx, n),
        UnaryOp::Tilde => fold_complement(alloc, ctx, n),
        UnaryOp::Void => fold_void(alloc, ctx, n),
        UnaryOp::TypeOf => fold_typeof(alloc, ctx, n),
        UnaryOp::Delete => Ok(None),
    }
}
