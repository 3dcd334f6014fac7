//! The walk over a tree.
ghost use Rattle.std.specs.Prelude.{IfOk};
ghost use Rattle.swc_ast.specs.Modules.{module_tree};
ghost use Rattle.swc_ast.specs.Views.{expr_tree, stmt_tree};
ghost use Rattle.tree_walk.specs.Walks.{Made, Placed, WholeMade};

use std::alloc::AllocError;
use swc_ast::{Expr, Module, Stmt};
use tree_walk::{Place, Rewritten, Rules};

/// `tree_walk::walk_expr`
pub fn walk_expr<R: Rules>(rules: &R, place: Place, e: &mut Expr) -> Result<bool, AllocError>
    ensures { IfOk result (λ c. Placed (R.pass rules.now) place (expr_tree e.old) (expr_tree e.new) c) }
{
    tree_walk::walk_expr(rules, place, e)
}

/// `tree_walk::walk_stmt`
pub fn walk_stmt<R: Rules>(rules: &R, s: &mut Stmt) -> Result<bool, AllocError>
    ensures { IfOk result (λ c. Made (R.pass rules.now) (stmt_tree s.old) (stmt_tree s.new) c) }
{
    tree_walk::walk_stmt(rules, s)
}

/// `tree_walk::rewrite`
pub fn rewrite<R: Rules>(rules: &R, n: &Module) -> Result<Rewritten, AllocError>
    ensures { IfOk result (λ r. WholeMade (R.pass rules.now) (module_tree n.now) (module_tree r.module) r.changed) }
{
    tree_walk::rewrite(rules, n)
}
