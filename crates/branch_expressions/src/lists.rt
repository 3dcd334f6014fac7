//! What is left of sequences, calls, templates and arrays whose values are not used.
ghost use Rattle.std.specs.Prelude.{◌≡◌, ◌∷◌, ◌++◌, [], map, IfOk, IsTrue, OnOk, true};
ghost use Rattle.swc_ast.specs.Expressions.{array_tree, call_tree, item_kind, item_spans, item_trees, new_tree, seq_tree, spread_kind, tpl_tree, with_span};
ghost use Rattle.swc_ast.specs.Scope.{joined};
ghost use Rattle.swc_ast.specs.Tree.{ε, ◌⊳◌};
ghost use Rattle.swc_ast.specs.Views.{expr_tree};
ghost use Rattle.swc_utils.specs.Globals.{unresolved};
ghost use Rattle.swc_utils.specs.Pure.{is_pure_callee};
ghost use Rattle.branch_rules.specs.Ignored.{is_function_expression};
ghost use Rattle.branch_expressions.specs.Left.{AddsItems, AddsPlain, Rested};

use crate::ignored::{Words, rest_of};
use crate::parts::{add_all, add_items};
use crate::rest::{Rest, as_one, changed, moved};
use std::alloc::{AllocError, Global};
use swc_ast::{ArrayLit, CallExpr, Expr, ExprOrSpread, NewExpr, SeqExpr, Span, Tpl};
use swc_utils::{ExprCtx, ExprExt, has_spread};
use tree_nodes::take;

#[cycle(ignore)]
#[tactic(auto, using(crate::proofs::Answered::sequence_rested, crate::proofs::Answered::sequence_same))]
pub(crate) fn rest_of_sequence(
    alloc: Global,
    ctx: &ExprCtx,
    n: &mut SeqExpr,
) -> Result<Rest, AllocError>
    ensures { IfOk result (λ r. Rested (unresolved ctx.now) (seq_tree expr_tree n.old) (seq_tree expr_tree n.new) r) }
{
    let mut out = Vec::new(alloc);
    let made = add_all(alloc, ctx, Words::Stay, &mut n.exprs, &mut out)?;
    if made {
        return Ok(changed(as_one(n.span, out)));
    }
    n.exprs = out;
    Ok(Rest::Same)
}

#[cycle(ignore)]
#[tactic(auto, using(crate::proofs::Answered::template_rested))]
pub(crate) fn rest_of_template(
    alloc: Global,
    ctx: &ExprCtx,
    n: &mut Tpl,
) -> Result<Rest, AllocError>
    ensures { IfOk result (λ r. Rested (unresolved ctx.now) (tpl_tree expr_tree n.old) (tpl_tree expr_tree n.new) r) }
{
    let mut out = Vec::new(alloc);
    add_all(alloc, ctx, Words::Go, &mut n.exprs, &mut out)?;
    Ok(changed(as_one(n.span, out)))
}

/// A call of a function that does nothing goes.
#[cycle(ignore)]
#[tactic(auto, using(crate::proofs::Answered::call_rested))]
pub(crate) fn rest_of_call(
    alloc: Global,
    ctx: &ExprCtx,
    n: &mut CallExpr,
) -> Result<Rest, AllocError>
    ensures { IfOk result (λ r. Rested (unresolved ctx.now) (call_tree expr_tree n.old) (call_tree expr_tree n.new) r) }
{
    if !n.callee.is_pure_callee(ctx) {
        return Ok(Rest::Same);
    }
    let mut out = Vec::new(alloc);
    add_all(alloc, ctx, Words::Go, &mut n.args, &mut out)?;
    Ok(changed(as_one(n.span, out)))
}

/// Whether a callee is a function expression that does nothing; `new` of an arrow throws.
#[tactic(auto, using(swc_ast::proofs::Equations::forms))]
fn is_idle_function(ctx: &ExprCtx, e: &Expr) -> bool
    ensures function { IsTrue result → is_function_expression (expr_tree e.now) ≡ true }
    ensures idle { IsTrue result → is_pure_callee (expr_tree e.now) ≡ true }
{
    match e {
        Expr::Fn(_) => e.is_pure_callee(ctx),
        _ => false,
    }
}

/// `new` of a function expression that does nothing goes.
#[cycle(ignore)]
#[tactic(auto, using(crate::proofs::Answered::new_rested))]
pub(crate) fn rest_of_new(alloc: Global, ctx: &ExprCtx, n: &mut NewExpr) -> Result<Rest, AllocError>
    ensures { IfOk result (λ r. Rested (unresolved ctx.now) (new_tree expr_tree n.old) (new_tree expr_tree n.new) r) }
{
    if !is_idle_function(ctx, &n.callee) {
        return Ok(Rest::Same);
    }
    let mut out = Vec::new(alloc);
    add_all(alloc, ctx, Words::Go, &mut n.args, &mut out)?;
    Ok(changed(as_one(n.span, out)))
}

#[cycle(ignore)]
#[tactic(auto, using(crate::proofs::Answered::array_rested))]
pub(crate) fn rest_of_array(
    alloc: Global,
    ctx: &ExprCtx,
    n: &mut ArrayLit,
) -> Result<Rest, AllocError>
    ensures { IfOk result (λ r. Rested (unresolved ctx.now) (array_tree expr_tree n.old) (array_tree expr_tree n.new) r) }
{
    if has_spread(&n.elems) {
        return rest_of_spread(alloc, ctx, n);
    }
    let mut out = Vec::new(alloc);
    add_items(alloc, ctx, &mut n.elems, &mut out)?;
    Ok(changed(as_one(n.span, out)))
}

/// What is left of an array with a spread: an array, as spreads stay.
#[cycle(ignore)]
#[tactic(auto, using(swc_ast::proofs::Equations::forms, crate::proofs::Answered::items_rested, crate::proofs::ArrayItems::array_same))]
fn rest_of_spread(alloc: Global, ctx: &ExprCtx, n: &mut ArrayLit) -> Result<Rest, AllocError>
    ensures { IfOk result (λ r. Rested (unresolved ctx.now) (array_tree expr_tree n.old) (array_tree expr_tree n.new) r) }
{
    let mut elems = Vec::new(alloc);
    let made = keep_items(alloc, ctx, &mut n.elems, &mut elems)?;
    if made {
        return Ok(Rest::Other(Expr::Array(ArrayLit {
            span: n.span,
            elems,
        })));
    }
    n.elems = elems;
    Ok(Rest::Same)
}

/// Adds an item.
fn push_item(
    alloc: Global,
    spread: Option<Span>,
    e: Expr,
    out: &mut Vec<Option<ExprOrSpread>>,
) -> Result<(), AllocError>
    ensures kinds { OnOk result (map item_kind out.new.items ≡ map item_kind out.old.items ++ spread_kind spread ∷ []) }
    ensures trees { OnOk result (item_trees expr_tree out.new.items ≡ joined (item_trees expr_tree out.old.items) (expr_tree e ⊳ ε)) }
    ensures spans { OnOk result (item_spans out.new.items ≡ item_spans out.old.items ++ with_span spread []) }
{
    let expr = Box::new(alloc, e)?;
    out.push(Some(ExprOrSpread { spread, expr }))?;
    Ok(())
}

/// Adds what is left of an array's items as items, and says whether that is something else.
#[cycle(ignore)]
fn keep_items(
    alloc: Global,
    ctx: &ExprCtx,
    items: &mut Vec<Option<ExprOrSpread>>,
    out: &mut Vec<Option<ExprOrSpread>>,
) -> Result<bool, AllocError>
    ensures { IfOk result (λ c. AddsItems (unresolved ctx.now) items.old.items out.old.items out.new.items c) }
{
    let mut changed = false;
    for i in 0..items.len() {
        let made = keep_item(alloc, ctx, &mut items[i], out)?;
        changed = changed | made;
    }
    Ok(changed)
}

/// Adds what is left of an item as an item: a spread, or what is left of its expression. A hole goes.
#[cycle(ignore)]
#[tactic(auto, using(crate::proofs::ArrayItems::hole_item, crate::proofs::ArrayItems::plain_item, crate::proofs::ArrayItems::spread_item))]
fn keep_item(
    alloc: Global,
    ctx: &ExprCtx,
    item: &mut Option<ExprOrSpread>,
    out: &mut Vec<Option<ExprOrSpread>>,
) -> Result<bool, AllocError>
    ensures { IfOk result (λ c. AddsItems (unresolved ctx.now) (item.old ∷ []) out.old.items out.new.items c) }
{
    match item {
        Some(n) => match n.spread {
            Some(span) => {
                push_item(alloc, Some(span), take(&mut n.expr), out)?;
                Ok(false)
            }
            None => {
                let made = keep_plain(alloc, ctx, &mut n.expr, out)?;
                Ok(made)
            }
        },
        None => Ok(true),
    }
}

/// Adds what is left of an expression as an item.
#[cycle(ignore)]
fn keep_plain(
    alloc: Global,
    ctx: &ExprCtx,
    e: &mut Expr,
    out: &mut Vec<Option<ExprOrSpread>>,
) -> Result<bool, AllocError>
    ensures { IfOk result (λ c. AddsPlain (unresolved ctx.now) (expr_tree e.old) out.old.items out.new.items c) }
{
    let rest = rest_of(alloc, ctx, e)?;
    let is_change = rest.is_change();
    match moved(e, rest) {
        Some(left) => {
            push_item(alloc, None, left, out)?;
            Ok(is_change)
        }
        None => Ok(true),
    }
}
