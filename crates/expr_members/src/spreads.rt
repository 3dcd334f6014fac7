//! Spreads of array literals in array literals. ECMA-262, 13.2.4.
ghost use Rattle.std.specs.Prelude.{◌≡◌, ℕ, false, [], ◌∷◌, ◌++◌, map, IfOk, OnOk, IsNone};
ghost use Rattle.swc_ast.specs.Scope.{joined};
ghost use Rattle.swc_ast.specs.Expressions.{array_tree, item_kind, item_trees};
ghost use Rattle.swc_ast.specs.Views.{expr_tree};
ghost use Rattle.pass_rules.specs.Leaves.{void_tree};
ghost use Rattle.expr_rules.specs.Replaced.{Replaced};
ghost use Rattle.expr_rules.specs.Spreads.{filled_kinds, filled_items, opened_kinds, opened_items, spreads_array as kinds_spread_array};

use crate::arrays::{is_array, items_of};
use std::alloc::{AllocError, Global};
use std::mem;
use swc_ast::{ArrayLit, Expr, ExprOrSpread, Span};
use tree_nodes::void_expr;

/// Whether an item spreads an array literal.
fn spreads_item(item: &Option<ExprOrSpread>) -> bool
    ensures { result ≡ kinds_spread_array (item_kind item.now ∷ []) (item_trees expr_tree (item.now ∷ [])) }
{
    match item {
        Some(item) => item.spread.is_some() && is_array(&item.expr),
        None => false,
    }
}

/// Whether one of some items spreads an array literal.
fn spreads_array(items: &[Option<ExprOrSpread>]) -> bool
    ensures { result ≡ kinds_spread_array (map item_kind items.now) (item_trees expr_tree items.now) }
{
    for item in items {
        if spreads_item(item) {
            return true;
        }
    }
    false
}

/// An item, `void 0` in place of a hole.
fn filled(
    alloc: Global,
    span: Span,
    item: Option<ExprOrSpread>,
) -> Result<Option<ExprOrSpread>, AllocError>
    ensures kinds { IfOk result (λ r. item_kind r ∷ [] ≡ filled_kinds (item_kind item ∷ [])) }
    ensures trees { IfOk result (λ r. item_trees expr_tree (r ∷ []) ≡ filled_items (void_tree (span ∷ []) (span ∷ [])) (item_kind item ∷ []) (item_trees expr_tree (item ∷ []))) }
{
    match item {
        Some(item) => Ok(Some(item)),
        None => {
            let value = void_expr(alloc, span)?;
            let expr = Box::new(alloc, value)?;
            Ok(Some(ExprOrSpread { spread: None, expr }))
        }
    }
}

/// Adds items, `void 0` in place of each hole.
fn push_filled(
    alloc: Global,
    span: Span,
    items: Vec<Option<ExprOrSpread>>,
    out: &mut Vec<Option<ExprOrSpread>>,
) -> Result<(), AllocError>
    ensures kinds { OnOk result (map item_kind out.new.items ≡ map item_kind out.old.items ++ filled_kinds (map item_kind items.items)) }
    ensures trees { OnOk result (item_trees expr_tree out.new.items ≡ joined (item_trees expr_tree out.old.items) (filled_items (void_tree (span ∷ []) (span ∷ [])) (map item_kind items.items) (item_trees expr_tree items.items))) }
{
    for item in items {
        out.push(filled(alloc, span, item)?)?;
    }
    Ok(())
}

/// Adds an item, or those of the array literal that it spreads.
fn push_opened(
    alloc: Global,
    span: Span,
    item: Option<ExprOrSpread>,
    out: &mut Vec<Option<ExprOrSpread>>,
) -> Result<(), AllocError>
    ensures kinds { OnOk result (map item_kind out.new.items ≡ map item_kind out.old.items ++ opened_kinds (item_kind item ∷ []) (item_trees expr_tree (item ∷ []))) }
    ensures trees { OnOk result (item_trees expr_tree out.new.items ≡ joined (item_trees expr_tree out.old.items) (opened_items (void_tree (span ∷ []) (span ∷ [])) (item_kind item ∷ []) (item_trees expr_tree (item ∷ [])))) }
{
    if !spreads_item(&item) {
        out.push(item)?;
        return Ok(());
    }
    match item {
        Some(item) => {
            let items = items_of(alloc, Box::into_inner(item.expr));
            push_filled(alloc, span, items, out)
        }
        None => Ok(()),
    }
}

/// Items, with those of each array literal that is spread among them.
fn opened(
    alloc: Global,
    span: Span,
    items: Vec<Option<ExprOrSpread>>,
) -> Result<Vec<Option<ExprOrSpread>>, AllocError>
    ensures kinds { IfOk result (λ r. map item_kind r.items ≡ opened_kinds (map item_kind items.items) (item_trees expr_tree items.items)) }
    ensures trees { IfOk result (λ r. item_trees expr_tree r.items ≡ opened_items (void_tree (span ∷ []) (span ∷ [])) (map item_kind items.items) (item_trees expr_tree items.items)) }
{
    let mut out = Vec::new(alloc);
    for item in items {
        push_opened(alloc, span, item, &mut out)?;
    }
    Ok(out)
}

/// What takes the place of an array: one with the items of each array literal that is spread in it, `void 0` in place of
/// its holes. None: no array literal is spread in it, and it is as it was; else its items were moved out. Fails where
/// memory is refused.
pub fn spread_items(alloc: Global, n: &mut ArrayLit) -> Result<Option<Expr>, AllocError>
    ensures steps { (mark : ℕ) → IfOk result (λ o. Replaced mark (array_tree expr_tree n.old) (array_tree expr_tree n.new) o) }
    ensures fires { IfOk result (λ o. IsNone o → kinds_spread_array (map item_kind n.old.elems.items) (item_trees expr_tree n.old.elems.items) ≡ false) }
{
    if !spreads_array(&n.elems) {
        return Ok(None);
    }
    let items = mem::replace(&mut n.elems, Vec::new(alloc));
    let elems = opened(alloc, n.span, items)?;
    Ok(Some(Expr::Array(ArrayLit {
        span: n.span,
        elems,
    })))
}
