//! What is left of an expression whose value is not used.
ghost use Rattle.std.specs.Prelude.{IfOk, IsTrue, None, true};
ghost use Rattle.swc_ast.specs.Views.{expr_tree};
ghost use Rattle.swc_utils.specs.Globals.{unresolved};
ghost use Rattle.branch_rules.specs.Ignored.{Ignores};
ghost use Rattle.branch_expressions.specs.Left.{IsLeft, Leaves, Rested};

use crate::lists::{rest_of_array, rest_of_call, rest_of_new, rest_of_sequence, rest_of_template};
use crate::objects::rest_of_object;
use crate::operators::{rest_of_binary, rest_of_boxed_assign, rest_of_cond, rest_of_unary};
use crate::rest::{Rest, moved};
use std::alloc::{AllocError, Global};
use swc_ast::Expr;
use swc_utils::{ExprCtx, ExprExt};

/// What is left in the place of an expression whose value is not used.
#[derive(Clone, Copy, Debug, PartialEq, Eq)]
pub enum Left {
    /// The expression, as it was.
    Same,
    /// Another expression.
    Changed,
    /// Nothing; what stands in the place means nothing.
    Nothing,
}

/// What becomes of names, `this` and arrows whose values are not used, and of expressions that one of them is left of.
#[derive(Clone, Copy, Debug, PartialEq, Eq)]
pub(crate) enum Words {
    /// They go, as all that has no effect.
    Go,
    /// They stay.
    Stay,
}

/// Whether an expression has no effect.
pub(crate) fn is_idle(ctx: &ExprCtx, e: &Expr) -> bool
    ensures { IsTrue result → Ignores (unresolved ctx.now) true (expr_tree e.now) None }
{
    !e.may_have_side_effects(ctx)
}

/// Whether an expression goes as it has no effect.
pub(crate) fn goes(ctx: &ExprCtx, words: Words, e: &Expr) -> bool
    ensures { IsTrue result → Ignores (unresolved ctx.now) true (expr_tree e.now) None }
{
    match words {
        Words::Go => is_idle(ctx, e),
        Words::Stay => false,
    }
}

/// Whether an expression is a literal or a function expression, which has no effect.
fn is_value(ctx: &ExprCtx, e: &Expr) -> bool
    ensures { IsTrue result → Ignores (unresolved ctx.now) true (expr_tree e.now) None }
{
    match e {
        Expr::Lit(_) | Expr::Fn(_) => is_idle(ctx, e),
        _ => false,
    }
}

/// What is left of an expression whose value is not used; its parts may be moved out.
#[cycle(ignore)]
#[tactic(auto, using(swc_ast::proofs::Equations::forms))]
pub(crate) fn rest_of(alloc: Global, ctx: &ExprCtx, e: &mut Expr) -> Result<Rest, AllocError>
    ensures { IfOk result (λ r. Rested (unresolved ctx.now) (expr_tree e.old) (expr_tree e.new) r) }
{
    if is_value(ctx, e) {
        return Ok(Rest::Nothing);
    }
    match e {
        Expr::Array(n) => rest_of_array(alloc, ctx, n),
        Expr::Object(n) => rest_of_object(alloc, ctx, n),
        Expr::Unary(n) => rest_of_unary(alloc, ctx, n),
        Expr::Bin(n) => rest_of_binary(alloc, ctx, n),
        Expr::Assign(n) => Ok(rest_of_boxed_assign(ctx, n)),
        Expr::Cond(n) => rest_of_cond(alloc, ctx, n),
        Expr::Call(n) => rest_of_call(alloc, ctx, n),
        Expr::New(n) => rest_of_new(alloc, ctx, n),
        Expr::Seq(n) => rest_of_sequence(alloc, ctx, n),
        Expr::Tpl(n) => rest_of_template(alloc, ctx, n),
        _ => Ok(Rest::Same),
    }
}

/// What is left of an expression whose value is not used, moved out of it.
#[cycle(ignore)]
pub(crate) fn left_of(
    alloc: Global,
    ctx: &ExprCtx,
    words: Words,
    e: &mut Expr,
) -> Result<Option<Expr>, AllocError>
    ensures { IfOk result (λ o. Leaves (unresolved ctx.now) (expr_tree e.old) o) }
{
    if goes(ctx, words, e) {
        return Ok(None);
    }
    let rest = rest_of(alloc, ctx, e)?;
    Ok(moved(e, rest))
}

/// Puts what is left of an expression, whose value is not used, into its place: what runs of it change, ask or throw.
/// Fails where memory is refused.
pub fn ignore(alloc: Global, ctx: &ExprCtx, e: &mut Expr) -> Result<Left, AllocError>
    ensures { IfOk result (λ o. IsLeft (unresolved ctx.now) (expr_tree e.old) (expr_tree e.new) o) }
{
    match rest_of(alloc, ctx, e)? {
        Rest::Same => Ok(Left::Same),
        Rest::Nothing => Ok(Left::Nothing),
        Rest::Other(left) => {
            *e = left;
            Ok(Left::Changed)
        }
    }
}
