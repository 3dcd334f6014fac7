//! Members of array literals. ECMA-262, 10.4.2.
ghost use Rattle.std.specs.Prelude.{◌≡◌, ◌<◌, false, true, Some, [], ◌∷◌, map, length, take, slice_index_or, IfOk, IfSome, MatchOption};
ghost use Rattle.swc_ast.specs.Expressions.{array_tree, item_kind, item_trees};
ghost use Rattle.swc_ast.specs.Views.{expr_tree};
ghost use Rattle.swc_utils.specs.Globals.{unresolved};
ghost use Rattle.swc_utils.specs.Pure.{has_spread as kinds_have_spread, pure_all};
ghost use Rattle.pass_rules.specs.Leaves.{void_tree};
ghost use Rattle.expr_rules.specs.Members.{array_at};
ghost use Rattle.expr_members.specs.Members.{item_value as tree_item_value, IsItem, IsLength, StandsFor};

use crate::arrays::push_items;
use crate::keys::{index_of, length_literal};
use std::alloc::{AllocError, Global};
use std::mem;
use swc_ast::{ArrayLit, Expr, ExprOrSpread, PassError, Span};
use swc_utils::{ExprCtx, ExprExt, has_spread, preserve_effects};
use tree_nodes::void_expr;

/// Whether all items are pure.
fn are_pure(ctx: &ExprCtx, items: &[Option<ExprOrSpread>]) -> bool
    ensures { result ≡ pure_all (unresolved ctx.now) (item_trees expr_tree items.now) }
{
    let mut left = items;
    while let [item, rest @ ..] = left {
        if let Some(item) = item {
            if item.expr.may_have_side_effects(ctx) {
                return false;
            }
        }
        left = rest;
    }
    true
}

/// The literal of the length of items that are pure; a hole counts as an item.
fn array_length(ctx: &ExprCtx, span: Span, items: &[Option<ExprOrSpread>]) -> Option<Expr>
    ensures length { IfSome result (λ e. IsLength span (length items.now) e) }
    ensures pure { IfSome result (λ e. pure_all (unresolved ctx.now) (item_trees expr_tree items.now) ≡ true) }
{
    if !are_pure(ctx, items) {
        return None;
    }
    length_literal(span, items.len())
}

/// The items in front of an index, and the one at it.
fn cut(
    items: Vec<Option<ExprOrSpread>>,
    i: usize,
) -> (Vec<Option<ExprOrSpread>>, Option<ExprOrSpread>)
    requires { i < length items.items }
    ensures front { result.0.items ≡ take i items.items }
    ensures item { result.1 ≡ slice_index_or items.items i result.1 }
{
    let mut items = items;
    let item = mem::replace(&mut items[i], None);
    items.truncate(i);
    (items, item)
}

/// An item's value; `void 0` of a hole.
fn item_value(alloc: Global, span: Span, item: Option<ExprOrSpread>) -> Result<Expr, AllocError>
    ensures { IfOk result (λ e. expr_tree e ≡ tree_item_value (void_tree (span ∷ []) (span ∷ [])) item) }
{
    match item {
        Some(item) => Ok(Box::into_inner(item.expr)),
        None => void_expr(alloc, span),
    }
}

/// What takes the place of an array's item: its value, behind what is to be run of the items in front. The items behind
/// are dropped.
fn take_item(
    alloc: Global,
    ctx: &ExprCtx,
    span: Span,
    items: Vec<Option<ExprOrSpread>>,
    i: usize,
) -> Result<Expr, PassError>
    requires { i < length items.items }
    ensures { IfOk result (λ e. IsItem (unresolved ctx.now) span items.items i e) }
{
    let (front, item) = cut(items, i);
    let value = item_value(alloc, span, item)?;
    let mut before = Vec::new(alloc);
    push_items(front, &mut before)?;
    let answer = preserve_effects(alloc, ctx, span, value, before)?;
    Ok(answer)
}

/// What takes the place of the item at an index, where the items behind it are pure. None: the array is as it was.
fn array_item(
    alloc: Global,
    ctx: &ExprCtx,
    span: Span,
    array: &mut ArrayLit,
    i: usize,
) -> Result<Option<Expr>, PassError>
    requires { kinds_have_spread (map item_kind array.old.elems.items) ≡ false }
    ensures { IfOk result (λ o. MatchOption o (array.new ≡ array.old) (λ e. array_at (unresolved ctx.now) (span ∷ []) (void_tree (span ∷ []) (span ∷ [])) (map item_kind array.old.elems.items) (item_trees expr_tree array.old.elems.items) i ≡ Some (expr_tree e))) }
{
    if array.elems.len() <= i || !are_pure(ctx, &array.elems[i + 1..]) {
        return Ok(None);
    }
    let items = mem::replace(&mut array.elems, Vec::new(alloc));
    let answer = take_item(alloc, ctx, span, items, i)?;
    Ok(Some(answer))
}

/// What takes the place of a member of an array literal without a spread: its length, where all its items are pure, a
/// hole counted as one, or the item at an index inside it, where those behind are pure. None: the array is as it was.
pub(crate) fn array_member(
    alloc: Global,
    ctx: &ExprCtx,
    span: Span,
    array: &mut ArrayLit,
    key: &str,
) -> Result<Option<Expr>, PassError>
    ensures { IfOk result (λ o. MatchOption o (array.new ≡ array.old) (λ e. StandsFor (unresolved ctx.now) (array_tree expr_tree array.old) key.now e)) }
{
    if has_spread(&array.elems) {
        return Ok(None);
    }
    if key == "length" {
        return Ok(array_length(ctx, span, &array.elems));
    }
    match index_of(alloc, key)? {
        Some(i) => array_item(alloc, ctx, span, array, i as usize),
        None => Ok(None),
    }
}
