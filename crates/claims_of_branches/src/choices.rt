//! What is chosen among cases and among values.
ghost use Rattle.std.specs.Prelude.{◌≤◌, IfOk};
ghost use Rattle.swc_ast.specs.Expressions.{cond_tree};
ghost use Rattle.swc_ast.specs.Views.{expr_tree, switch_tree};
ghost use Rattle.swc_ast.specs.declared.statements.SwitchStmt.{size-SwitchStmt};
ghost use Rattle.swc_utils.specs.Globals.{unresolved};
ghost use Rattle.tree_walk.specs.Walks.{Opened};
ghost use Rattle.branch_rules.specs.Expressions.{Becomes};
ghost use Rattle.branch_rules.specs.Removes.{remove_pass};

use std::alloc::{AllocError, Global};
use swc_ast::{CondExpr, Expr, SwitchStmt};
use swc_utils::ExprCtx;

/// `branch_switch::shed_switch`
pub fn shed_switch(alloc: Global, ctx: &ExprCtx, n: &mut SwitchStmt) -> Result<bool, AllocError>
    ensures sheds { IfOk result (λ c. Opened (remove_pass (unresolved ctx.now)) c (switch_tree n.old) (switch_tree n.new)) }
    ensures no_deeper { IfOk result (λ c. size-SwitchStmt n.new ≤ size-SwitchStmt n.old) }
{
    branch_switch::shed_switch(alloc, ctx, n)
}

/// `branch_expressions::fold_arms`
pub fn fold_arms(ctx: &ExprCtx, n: &mut CondExpr) -> Option<Expr>
    ensures { Becomes (unresolved ctx.now) (cond_tree expr_tree n.old) (cond_tree expr_tree n.new) result }
{
    branch_expressions::fold_arms(ctx, n)
}
