//! Array literals and their items.
ghost use Rattle.std.specs.Prelude.{◌≡◌, true, OnOk};
ghost use Rattle.swc_ast.specs.Expressions.{item_trees};
ghost use Rattle.swc_ast.specs.Parts.{list_trees};
ghost use Rattle.swc_ast.specs.Scope.{joined};
ghost use Rattle.swc_ast.specs.Views.{expr_tree};
ghost use Rattle.expr_rules.specs.Spreads.{is_array as tree_is_array};
ghost use Rattle.expr_members.specs.Arrays.{is_plain_array as tree_is_plain_array, HasItems};

use std::alloc::{AllocError, Global};
use std::mem;
use swc_ast::{Expr, ExprOrSpread};
use swc_utils::has_spread;

/// Whether an expression is an array literal.
#[tactic(auto, using(swc_ast::proofs::Equations::forms, crate::proofs::OtherNodes::no_array))]
pub(crate) fn is_array(e: &Expr) -> bool
    ensures { result ≡ tree_is_array (expr_tree e.now) }
{
    match e {
        Expr::Array(_) => true,
        _ => false,
    }
}

/// Whether an expression is an array literal without a spread.
#[tactic(auto, using(swc_ast::proofs::Equations::forms, crate::proofs::OtherNodes::no_plain_array))]
pub(crate) fn is_plain_array(e: &Expr) -> bool
    ensures { result ≡ tree_is_plain_array (expr_tree e.now) }
{
    match e {
        Expr::Array(n) => !has_spread(&n.elems),
        _ => false,
    }
}

/// The items of an array literal; another expression has none.
#[tactic(auto, using(swc_ast::proofs::Equations::forms, crate::proofs::OtherNodes::no_array))]
pub(crate) fn items_of(alloc: Global, e: Expr) -> Vec<Option<ExprOrSpread>>
    ensures { tree_is_array (expr_tree e) ≡ true → HasItems (expr_tree e) result.items }
{
    let mut e = e;
    match &mut e {
        Expr::Array(n) => mem::replace(&mut n.elems, Vec::new(alloc)),
        _ => Vec::new(alloc),
    }
}

/// Adds the items of an array, holes left out.
#[tactic(auto, using(swc_utils::proofs::Chains::pushed, swc_utils::proofs::Chains::joined_assoc, swc_utils::proofs::Chains::joined_none))]
pub(crate) fn push_items(
    items: Vec<Option<ExprOrSpread>>,
    out: &mut Vec<Expr>,
) -> Result<(), AllocError>
    ensures { OnOk result (list_trees expr_tree out.new.items ≡ joined (list_trees expr_tree out.old.items) (item_trees expr_tree items.items)) }
{
    for item in items {
        if let Some(item) = item {
            out.push(Box::into_inner(item.expr))?;
        }
    }
    Ok(())
}
