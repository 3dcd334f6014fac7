//! Folds of members, sequences and spreads.
ghost use Rattle.std.specs.Prelude.{◌≡◌, ℕ, false, map, IfOk, IsNone};
ghost use Rattle.swc_ast.specs.Expressions.{array_tree, item_kind, item_trees, member_tree, object_tree, seq_tree};
ghost use Rattle.swc_ast.specs.Parts.{list_trees};
ghost use Rattle.swc_ast.specs.Views.{expr_tree, prop_or_spread_tree};
ghost use Rattle.swc_utils.specs.Globals.{unresolved};
ghost use Rattle.expr_rules.specs.Replaced.{Replaced};
ghost use Rattle.expr_rules.specs.Sequences.{some_folds};
ghost use Rattle.expr_rules.specs.Spreads.{spreads_array, spreads_object};

use std::alloc::{AllocError, Global};
use swc_ast::{ArrayLit, Expr, MemberExpr, ObjectLit, PassError, SeqExpr};
use swc_utils::ExprCtx;

/// `expr_members::fold_member`
pub fn fold_member(
    alloc: Global,
    ctx: &ExprCtx,
    n: &mut MemberExpr,
) -> Result<Option<Expr>, PassError>
    ensures { IfOk result (λ o. Replaced (unresolved ctx.now) (member_tree expr_tree n.old) (member_tree expr_tree n.new) o) }
{
    expr_members::fold_member(alloc, ctx, n)
}

/// `expr_members::fold_sequence`
pub fn fold_sequence(
    alloc: Global,
    ctx: &ExprCtx,
    is_callee: bool,
    n: &mut SeqExpr,
) -> Result<Option<Expr>, AllocError>
    ensures steps { IfOk result (λ o. Replaced (unresolved ctx.now) (seq_tree expr_tree n.old) (seq_tree expr_tree n.new) o) }
    ensures fires { IfOk result (λ o. IsNone o → some_folds (unresolved ctx.now) is_callee (list_trees expr_tree n.old.exprs.items) ≡ false) }
{
    expr_members::fold_sequence(alloc, ctx, is_callee, n)
}

/// `expr_members::spread_items`
pub fn spread_items(alloc: Global, n: &mut ArrayLit) -> Result<Option<Expr>, AllocError>
    ensures steps { (mark : ℕ) → IfOk result (λ o. Replaced mark (array_tree expr_tree n.old) (array_tree expr_tree n.new) o) }
    ensures fires { IfOk result (λ o. IsNone o → spreads_array (map item_kind n.old.elems.items) (item_trees expr_tree n.old.elems.items) ≡ false) }
{
    expr_members::spread_items(alloc, n)
}

/// `expr_members::spread_properties`
pub fn spread_properties(alloc: Global, n: &mut ObjectLit) -> Result<Option<Expr>, AllocError>
    ensures steps { (mark : ℕ) → IfOk result (λ o. Replaced mark (object_tree prop_or_spread_tree n.old) (object_tree prop_or_spread_tree n.new) o) }
    ensures fires { IfOk result (λ o. IsNone o → spreads_object (list_trees prop_or_spread_tree n.old.props.items) ≡ false) }
{
    expr_members::spread_properties(alloc, n)
}
