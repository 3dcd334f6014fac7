//! Folds of loops.
ghost use Rattle.std.specs.Prelude.{IfOk, IsNone};
ghost use Rattle.swc_ast.specs.Statements.{do_while_node, while_node};
ghost use Rattle.swc_ast.specs.Views.{for_tree, loop_trees, stmt_tree};
ghost use Rattle.swc_utils.specs.Globals.{unresolved};
ghost use Rattle.branch_rules.specs.Removes.{Rests};
ghost use Rattle.branch_rules.specs.Turns.{Turns};
ghost use Rattle.branch_loops.specs.Runs.{RunsWithin};

use std::alloc::{AllocError, Global};
use swc_ast::{DoWhileStmt, ForStmt, Stmt, WhileStmt};
use swc_utils::ExprCtx;

/// `branch_loops::fold_while`
pub fn fold_while(
    alloc: Global,
    ctx: &ExprCtx,
    n: &mut WhileStmt,
) -> Result<Option<Stmt>, AllocError>
    ensures steps { IfOk result (λ o. Turns (unresolved ctx.now) (while_node (loop_trees n.old)) (while_node (loop_trees n.new)) o) }
    ensures finished { IfOk result (λ o. IsNone o → Rests (while_node (loop_trees n.new))) }
{
    branch_loops::fold_while(alloc, ctx, n)
}

/// `branch_loops::fold_do`
pub fn fold_do(
    alloc: Global,
    ctx: &ExprCtx,
    n: &mut DoWhileStmt,
) -> Result<Option<Stmt>, AllocError>
    ensures steps { IfOk result (λ o. Turns (unresolved ctx.now) (do_while_node (loop_trees n.old)) (do_while_node (loop_trees n.new)) o) }
    ensures finished { IfOk result (λ o. IsNone o → Rests (do_while_node (loop_trees n.new))) }
{
    branch_loops::fold_do(alloc, ctx, n)
}

/// `branch_loops::fold_for`
pub fn fold_for(alloc: Global, ctx: &ExprCtx, n: &mut ForStmt) -> Result<Option<Stmt>, AllocError>
    ensures steps { IfOk result (λ o. Turns (unresolved ctx.now) (for_tree n.old) (for_tree n.new) o) }
    ensures finished { IfOk result (λ o. IsNone o → Rests (for_tree n.new)) }
{
    branch_loops::fold_for(alloc, ctx, n)
}

/// `branch_loops::run_within`
pub fn run_within(alloc: Global, ctx: &ExprCtx, s: &mut Stmt) -> Result<bool, AllocError>
    ensures { IfOk result (λ c. RunsWithin (unresolved ctx.now) (stmt_tree s.old) (stmt_tree s.new) c) }
{
    branch_loops::run_within(alloc, ctx, s)
}
