//! Sequences: what stands in front of the last item. ECMA-262, 13.16.
ghost use Rattle.std.specs.Prelude.{◌≡◌, false, not, ◌&&◌, ◌||◌, ◌∷◌, [], IfOk, OnOk, IsNone};
ghost use Rattle.swc_ast.specs.Parts.{list_trees};
ghost use Rattle.swc_ast.specs.Scope.{joined};
ghost use Rattle.swc_ast.specs.Expressions.{seq_tree};
ghost use Rattle.swc_ast.specs.Views.{expr_tree};
ghost use Rattle.swc_utils.specs.Globals.{unresolved};
ghost use Rattle.swc_utils.specs.Literals.{is_literal as tree_is_literal};
ghost use Rattle.pass_rules.specs.Leaves.{as_sequence};
ghost use Rattle.expr_rules.specs.Replaced.{Replaced};
ghost use Rattle.expr_rules.specs.Sequences.{is_bound_name as tree_is_bound_name, folds as tree_folds, some_folds as tree_some_folds, front_item, front_folded};
ghost use Rattle.expr_members.specs.Fronts.{any_folds as any_tree_folds, all_folded};

use crate::arrays::{is_plain_array, items_of, push_items};
use std::alloc::{AllocError, Global};
use std::mem;
use swc_ast::{Expr, SeqExpr, Span};
use swc_utils::{ExprCtx, is_literal};
use tree_nodes::is_bound;

/// Whether an expression is a name that the module binds.
#[tactic(auto, using(swc_ast::proofs::Equations::forms, crate::proofs::OtherNodes::no_bound_name))]
fn is_bound_name(ctx: &ExprCtx, e: &Expr) -> bool
    ensures { result ≡ tree_is_bound_name (unresolved ctx.now) (expr_tree e.now) }
{
    match e {
        Expr::Ident(name) => is_bound(ctx, name),
        _ => false,
    }
}

/// Whether an item in front of the last goes.
fn goes(ctx: &ExprCtx, is_callee: bool, e: &Expr) -> bool
    ensures { result ≡ (tree_is_literal (expr_tree e.now) || (is_callee && tree_is_bound_name (unresolved ctx.now) (expr_tree e.now))) }
{
    is_literal(e) || is_callee && is_bound_name(ctx, e)
}

/// Whether an item in front of the last is not left as it stands.
#[tactic(auto, using(crate::proofs::Fronts::folds_is))]
fn folds(ctx: &ExprCtx, is_callee: bool, e: &Expr) -> bool
    ensures { result ≡ tree_folds (unresolved ctx.now) is_callee (expr_tree e.now) }
{
    goes(ctx, is_callee, e) || is_plain_array(e)
}

/// Whether one of some items in front of the last is not left as it stands.
fn any_folds(ctx: &ExprCtx, is_callee: bool, front: &[Expr]) -> bool
    ensures { result ≡ any_tree_folds (unresolved ctx.now) is_callee (list_trees expr_tree front.now) }
{
    for e in front {
        if folds(ctx, is_callee, e) {
            return true;
        }
    }
    false
}

/// Whether an item of a sequence is not left as it stands.
#[tactic(auto, using(crate::proofs::Fronts::some_in_front))]
fn some_folds(ctx: &ExprCtx, is_callee: bool, exprs: &[Expr]) -> bool
    ensures { result ≡ tree_some_folds (unresolved ctx.now) is_callee (list_trees expr_tree exprs.now) }
{
    match exprs {
        [] => false,
        [front @ .., _] => any_folds(ctx, is_callee, front),
    }
}

/// Adds what is left of an item in front of the last.
#[tactic(auto, using(swc_utils::proofs::Chains::pushed, swc_utils::proofs::Chains::joined_none, crate::proofs::Fronts::front_goes, crate::proofs::Fronts::front_opened, crate::proofs::Fronts::front_kept))]
fn push_front(
    alloc: Global,
    ctx: &ExprCtx,
    is_callee: bool,
    e: Expr,
    out: &mut Vec<Expr>,
) -> Result<(), AllocError>
    ensures { OnOk result (list_trees expr_tree out.new.items ≡ joined (list_trees expr_tree out.old.items) (front_item (unresolved ctx.now) is_callee (expr_tree e))) }
{
    if goes(ctx, is_callee, &e) {
        return Ok(());
    }
    if is_plain_array(&e) {
        return push_items(items_of(alloc, e), out);
    }
    out.push(e)?;
    Ok(())
}

/// Adds what is left of some items in front of the last.
#[tactic(auto, using(swc_utils::proofs::Chains::joined_assoc, swc_utils::proofs::Chains::joined_none))]
fn push_fronts(
    alloc: Global,
    ctx: &ExprCtx,
    is_callee: bool,
    front: Vec<Expr>,
    out: &mut Vec<Expr>,
) -> Result<(), AllocError>
    ensures { OnOk result (list_trees expr_tree out.new.items ≡ joined (list_trees expr_tree out.old.items) (all_folded (unresolved ctx.now) is_callee (list_trees expr_tree front.items))) }
{
    for e in front {
        push_front(alloc, ctx, is_callee, e, out)?;
    }
    Ok(())
}

/// The items of a sequence, those in front of the last folded.
#[tactic(auto, using(crate::proofs::Fronts::folded_front, swc_utils::proofs::Chains::pushed))]
fn fold_front(
    alloc: Global,
    ctx: &ExprCtx,
    is_callee: bool,
    exprs: Vec<Expr>,
) -> Result<Vec<Expr>, AllocError>
    ensures { IfOk result (λ r. list_trees expr_tree r.items ≡ front_folded (unresolved ctx.now) is_callee (list_trees expr_tree exprs.items)) }
{
    let mut front = exprs;
    let mut out = Vec::new(alloc);
    match front.pop() {
        Some(last) => {
            push_fronts(alloc, ctx, is_callee, front, &mut out)?;
            out.push(last)?;
            Ok(out)
        }
        None => Ok(out),
    }
}

/// One expression as itself, more as a sequence.
#[tactic(auto, using(swc_ast::proofs::Equations::forms, crate::proofs::Fronts::only_one, crate::proofs::Fronts::not_one))]
fn sequence(span: Span, exprs: Vec<Expr>) -> Expr
    ensures { expr_tree result ≡ as_sequence (span ∷ []) (list_trees expr_tree exprs.items) }
{
    let mut exprs = exprs;
    if exprs.len() != 1 {
        return Expr::Seq(SeqExpr { span, exprs });
    }
    match exprs.pop() {
        Some(e) => e,
        None => Expr::Seq(SeqExpr { span, exprs }),
    }
}

/// What takes the place of a sequence: in front of the last item literals go, in callee place bound names too, and an
/// array without a spread becomes its items. None: nothing folds, and the sequence is as it was; else its items were
/// moved out. Fails where memory is refused.
pub fn fold_sequence(
    alloc: Global,
    ctx: &ExprCtx,
    is_callee: bool,
    n: &mut SeqExpr,
) -> Result<Option<Expr>, AllocError>
    ensures steps { IfOk result (λ o. Replaced (unresolved ctx.now) (seq_tree expr_tree n.old) (seq_tree expr_tree n.new) o) }
    ensures fires { IfOk result (λ o. IsNone o → tree_some_folds (unresolved ctx.now) is_callee (list_trees expr_tree n.old.exprs.items) ≡ false) }
{
    if !some_folds(ctx, is_callee, &n.exprs) {
        return Ok(None);
    }
    let exprs = mem::replace(&mut n.exprs, Vec::new(alloc));
    let left = fold_front(alloc, ctx, is_callee, exprs)?;
    Ok(Some(sequence(n.span, left)))
}
