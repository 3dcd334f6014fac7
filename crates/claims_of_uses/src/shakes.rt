//! What the tree shaker does at nodes and lists, by the uses of names.
ghost use Rattle.std.specs.Prelude.{◌≤◌, IfOk};
ghost use Rattle.swc_ast.specs.Modules.{import_tree};
ghost use Rattle.swc_ast.specs.Views.{expr_tree, stmt_tree};
ghost use Rattle.swc_ast.specs.declared.expressions.Expr.{size-Expr};
ghost use Rattle.swc_ast.specs.declared.statements.Stmt.{size-Stmt};
ghost use Rattle.stmt_like.specs.Kept.{Kept};
ghost use Rattle.tree_walk.specs.Walks.{Became, Fits, Opened};
ghost use Rattle.tree_walk.specs.declared.rules.Place.{Place};
ghost use Rattle.dce_rules.specs.Shakes.{shake_pass};
ghost use Rattle.dce_code.specs.Knowledge.{shaker};
ghost use Rattle.dce_code.specs.Lists.{ListShaken, trees};

use dce_code::Known;
use std::alloc::{AllocError, Global};
use stmt_like::StmtLike;
use swc_ast::{Expr, ImportDecl, Stmt};
use tree_walk::Place;

/// `Known::open_expr`
pub fn open_expr(
    known: &Known<'_>,
    alloc: Global,
    place: Place,
    e: &mut Expr,
) -> Result<bool, AllocError>
    ensures opens { IfOk result (λ changed. Opened (shake_pass (shaker known.now)) changed (expr_tree e.old) (expr_tree e.new)) }
    ensures fits { IfOk result (λ changed. Fits place (expr_tree e.old) → Fits place (expr_tree e.new)) }
    ensures no_deeper { IfOk result (λ changed. size-Expr e.new ≤ size-Expr e.old) }
{
    known.open_expr(alloc, place, e)
}

/// `Known::open_stmt`
pub fn open_stmt(known: &Known<'_>, s: &mut Stmt) -> bool
    ensures opens { Opened (shake_pass (shaker known.now)) result (stmt_tree s.old) (stmt_tree s.new) }
    ensures no_deeper { size-Stmt s.new ≤ size-Stmt s.old }
{
    known.open_stmt(s)
}

/// `Known::give_object`
pub fn give_object(known: &Known<'_>, e: &mut Expr) -> bool
    ensures steps { Became (shake_pass (shaker known.now)) result (expr_tree e.old) (expr_tree e.new) }
    ensures fits { (place : Place) → Fits place (expr_tree e.old) → Fits place (expr_tree e.new) }
{
    known.give_object(e)
}

/// `Known::drop_items`
pub fn drop_items<T: StmtLike + Drop>(known: &Known<'_>, items: &mut Vec<T>) -> bool
    ensures shaken { ListShaken (shaker known.now) result (trees T.item items.old.items) (trees T.item items.new.items) }
    ensures kept { Kept T.made items.old.items items.new.items }
{
    known.drop_items(items)
}

/// `Known::drop_specifiers`
pub fn drop_specifiers(known: &Known<'_>, n: &mut ImportDecl) -> bool
    ensures { Became (shake_pass (shaker known.now)) result (import_tree n.old) (import_tree n.new) }
{
    known.drop_specifiers(n)
}
