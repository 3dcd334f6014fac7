//! What sequences, assignments and choices become beside what is left of them where their values are not used.
ghost use Rattle.std.specs.Prelude.{◌≡◌, IfOk, IfSome, IsTrue, Some, false, true, not};
ghost use Rattle.swc_ast.specs.Expressions.{assign_tree, cond_tree, seq_tree};
ghost use Rattle.swc_ast.specs.Parts.{ident_name};
ghost use Rattle.swc_ast.specs.Views.{expr_tree};
ghost use Rattle.swc_utils.specs.Globals.{unresolved};
ghost use Rattle.pass_rules.specs.Defaults.{is_void as tree_is_void};
ghost use Rattle.branch_rules.specs.Expressions.{Becomes, always_void as tree_always_void, is_literal_leaf};
ghost use Rattle.branch_expressions.specs.Choices.{IsName, Itself};

use crate::ignored::Words;
use crate::parts::add_all;
use std::alloc::{AllocError, Global};
use swc_ast::{AssignExpr, AssignOp, AssignTarget, CondExpr, Expr, Ident, SeqExpr, UnaryOp};
use swc_utils::{ExprCtx, ExprExt};
use tree_nodes::{is_bound, is_same_name, take};

/// The name that an expression is.
#[tactic(auto, using(swc_ast::proofs::Equations::forms))]
fn read_name(e: &Expr) -> Option<&Ident>
    ensures { IfSome result (λ x. IsName (expr_tree e.now) (ident_name x.now)) }
{
    match e {
        Expr::Ident(name) => Some(name),
        _ => None,
    }
}

/// Whether an assignment is `x = x` of a bound name.
pub(crate) fn is_itself(ctx: &ExprCtx, n: &AssignExpr) -> bool
    ensures { IsTrue result → Itself (unresolved ctx.now) (assign_tree expr_tree n.now) (expr_tree n.now.right.value) }
{
    match n.op {
        AssignOp::Assign => match &n.left {
            AssignTarget::Ident(target) => match read_name(&n.right) {
                Some(name) => is_bound(ctx, target) && is_same_name(target, name),
                None => false,
            },
            AssignTarget::Member(_) => false,
        },
        _ => false,
    }
}

/// What takes the place of a sequence whose front items change where their values are not used: what is left of them, in
/// front of the last item, or that one alone. None where nothing changes; then the sequence is as it was. Fails where
/// memory is refused.
#[tactic(auto, using(swc_ast::proofs::Equations::forms, crate::proofs::Fronts::front_step, crate::proofs::Fronts::front_alone, crate::proofs::Fronts::front_same))]
pub fn fold_front(alloc: Global, ctx: &ExprCtx, n: &mut SeqExpr) -> Result<Option<Expr>, AllocError>
    ensures { IfOk result (λ o. Becomes (unresolved ctx.now) (seq_tree expr_tree n.old) (seq_tree expr_tree n.new) o) }
{
    let mut out = Vec::new(alloc);
    match n.exprs.pop() {
        Some(last) => {
            let changed = add_all(alloc, ctx, Words::Stay, &mut n.exprs, &mut out)?;
            if !changed {
                out.push(last)?;
                n.exprs = out;
                return Ok(None);
            }
            if out.len() == 0 {
                return Ok(Some(last));
            }
            let span = n.span;
            out.push(last)?;
            Ok(Some(Expr::Seq(SeqExpr { span, exprs: out })))
        }
        None => Ok(None),
    }
}

/// What takes the place of `x = x` of a bound name: `x`. None at other assignments, which stay as they are.
pub fn fold_itself(ctx: &ExprCtx, n: &mut AssignExpr) -> Option<Expr>
    ensures { Becomes (unresolved ctx.now) (assign_tree expr_tree n.old) (assign_tree expr_tree n.new) result }
{
    if is_itself(ctx, n) {
        return Some(take(&mut n.right));
    }
    None
}

/// Whether an expression is a number, a text, a truth value or null.
fn is_literal(e: &Expr) -> bool
    ensures { IsTrue result → is_literal_leaf (expr_tree e.now) ≡ true }
{
    match e {
        Expr::Lit(_) => true,
        _ => false,
    }
}

/// Whether an expression is `undefined`, or `void` of a literal.
#[tactic(auto, using(swc_ast::proofs::Equations::forms))]
fn is_always_void(ctx: &ExprCtx, e: &Expr) -> bool
    ensures { IsTrue result → tree_always_void (unresolved ctx.now) (expr_tree e.now) ≡ true }
{
    match e {
        Expr::Unary(n) => match n.op {
            UnaryOp::Void => is_literal(&n.arg),
            _ => false,
        },
        Expr::Ident(_) => e.is_undefined(ctx),
        _ => false,
    }
}

/// Whether an expression is `undefined`, or `void` of what has no effect.
#[tactic(auto, using(swc_ast::proofs::Equations::forms))]
fn is_void(ctx: &ExprCtx, e: &Expr) -> bool
    ensures { IsTrue result → tree_is_void (unresolved ctx.now) (expr_tree e.now) ≡ true }
{
    match e {
        Expr::Unary(n) => match n.op {
            UnaryOp::Void => !n.arg.may_have_side_effects(ctx),
            _ => false,
        },
        Expr::Ident(_) => e.is_undefined(ctx),
        _ => false,
    }
}

/// What takes the place of a choice whose test has no effect and whose arms are both undefined: the first arm. None at
/// other choices, which stay as they are.
#[tactic(auto, using(crate::proofs::Fronts::arms_step))]
pub fn fold_arms(ctx: &ExprCtx, n: &mut CondExpr) -> Option<Expr>
    ensures { Becomes (unresolved ctx.now) (cond_tree expr_tree n.old) (cond_tree expr_tree n.new) result }
{
    if n.test.may_have_side_effects(ctx) || !is_always_void(ctx, &n.cons) || !is_void(ctx, &n.alt) {
        return None;
    }
    Some(take(&mut n.cons))
}
