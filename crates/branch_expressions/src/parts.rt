//! What is left of expressions that are run one after another.
ghost use Rattle.std.specs.Prelude.{◌≡◌, ◌∷◌, [], IfOk, MatchOption, OnOk, Some, ℕ};
ghost use Rattle.swc_ast.specs.Expressions.{item_trees};
ghost use Rattle.swc_ast.specs.Parts.{list_trees};
ghost use Rattle.swc_ast.specs.Scope.{joined};
ghost use Rattle.swc_ast.specs.Tree.{ε, ◌⊳◌, Tree};
ghost use Rattle.swc_ast.specs.Views.{expr_tree};
ghost use Rattle.swc_utils.specs.Globals.{unresolved};
ghost use Rattle.branch_rules.specs.Ignored.{Ignores};
ghost use Rattle.branch_expressions.specs.Choices.{IsSequence};
ghost use Rattle.branch_expressions.specs.Left.{Adds};

use crate::ignored::{Words, goes, rest_of};
use crate::rest::moved;
use std::alloc::{AllocError, Global};
use std::mem;
use swc_ast::{Expr, ExprOrSpread};
use swc_utils::ExprCtx;

/// The items of a sequence, moved out of it; another expression has none.
#[tactic(auto, using(swc_ast::proofs::Equations::forms))]
fn items_of(alloc: Global, e: &mut Expr) -> Option<Vec<Expr>>
    ensures { MatchOption result (e.new ≡ e.old) (λ items. IsSequence (expr_tree e.old) (list_trees expr_tree items.items)) }
{
    match e {
        Expr::Seq(n) => Some(mem::replace(&mut n.exprs, Vec::new(alloc))),
        _ => None,
    }
}

/// Adds some expressions.
#[tactic(auto, using(swc_utils::proofs::Chains::pushed, swc_utils::proofs::Chains::joined_assoc, swc_utils::proofs::Chains::joined_none))]
fn push_all(items: Vec<Expr>, out: &mut Vec<Expr>) -> Result<(), AllocError>
    ensures { OnOk result (list_trees expr_tree out.new.items ≡ joined (list_trees expr_tree out.old.items) (list_trees expr_tree items.items)) }
{
    for item in items {
        out.push(item)?;
    }
    Ok(())
}

/// Adds what is left of an expression, a sequence item by item, and says whether that is something else.
fn push_left(
    alloc: Global,
    is_change: bool,
    left: Expr,
    out: &mut Vec<Expr>,
) -> Result<bool, AllocError>
    ensures { IfOk result (λ c. (mark : ℕ) → (t : Tree) → Ignores mark is_change t (Some (expr_tree left)) → Adds mark (t ⊳ ε) out.old.items out.new.items c) }
{
    let mut left = left;
    match items_of(alloc, &mut left) {
        Some(items) => {
            push_all(items, out)?;
            Ok(true)
        }
        None => {
            out.push(left)?;
            Ok(is_change)
        }
    }
}

/// Adds what is left of an expression, and says whether that is something else.
#[cycle(ignore)]
pub(crate) fn add(
    alloc: Global,
    ctx: &ExprCtx,
    words: Words,
    e: &mut Expr,
    out: &mut Vec<Expr>,
) -> Result<bool, AllocError>
    ensures { IfOk result (λ c. Adds (unresolved ctx.now) (expr_tree e.old ⊳ ε) out.old.items out.new.items c) }
{
    if goes(ctx, words, e) {
        return Ok(true);
    }
    let rest = rest_of(alloc, ctx, e)?;
    let is_change = rest.is_change();
    match moved(e, rest) {
        Some(left) => {
            let made = push_left(alloc, is_change, left, out)?;
            Ok(made)
        }
        None => Ok(true),
    }
}

/// Adds what is left of some expressions, and says whether that is something else.
#[cycle(ignore)]
pub(crate) fn add_all(
    alloc: Global,
    ctx: &ExprCtx,
    words: Words,
    es: &mut Vec<Expr>,
    out: &mut Vec<Expr>,
) -> Result<bool, AllocError>
    ensures { IfOk result (λ c. Adds (unresolved ctx.now) (list_trees expr_tree es.old.items) out.old.items out.new.items c) }
{
    let mut changed = false;
    for i in 0..es.len() {
        let made = add(alloc, ctx, words, &mut es[i], out)?;
        changed = changed | made;
    }
    Ok(changed)
}

/// Adds what is left of an array's item but a pure one; a hole is none.
#[cycle(ignore)]
#[tactic(auto, using(crate::proofs::Adding::adds_none))]
fn add_item(
    alloc: Global,
    ctx: &ExprCtx,
    item: &mut Option<ExprOrSpread>,
    out: &mut Vec<Expr>,
) -> Result<bool, AllocError>
    ensures { IfOk result (λ c. Adds (unresolved ctx.now) (item_trees expr_tree (item.old ∷ [])) out.old.items out.new.items c) }
{
    match item {
        Some(n) => {
            let made = add(alloc, ctx, Words::Go, &mut n.expr, out)?;
            Ok(made)
        }
        None => Ok(false),
    }
}

/// Adds what is left of an array's items.
#[cycle(ignore)]
pub(crate) fn add_items(
    alloc: Global,
    ctx: &ExprCtx,
    items: &mut Vec<Option<ExprOrSpread>>,
    out: &mut Vec<Expr>,
) -> Result<bool, AllocError>
    ensures { IfOk result (λ c. Adds (unresolved ctx.now) (item_trees expr_tree items.old.items) out.old.items out.new.items c) }
{
    let mut changed = false;
    for i in 0..items.len() {
        let made = add_item(alloc, ctx, &mut items[i], out)?;
        changed = changed | made;
    }
    Ok(changed)
}
