//! Folds of statements without loops.
ghost use Rattle.std.specs.Prelude.{ℕ, IfOk, IsNone};
ghost use Rattle.swc_ast.specs.Statements.{block_tree, expr_stmt_tree, labeled_tree, try_tree};
ghost use Rattle.swc_ast.specs.Views.{expr_tree, if_tree, stmt_tree};
ghost use Rattle.swc_utils.specs.Globals.{unresolved};
ghost use Rattle.branch_rules.specs.Removes.{Rests};
ghost use Rattle.branch_rules.specs.Turns.{Turns};

use std::alloc::{AllocError, Global};
use swc_ast::{BlockStmt, ExprStmt, IfStmt, LabeledStmt, Stmt, TryStmt};
use swc_utils::ExprCtx;

/// `branch_statements::fold_if`
pub fn fold_if(alloc: Global, ctx: &ExprCtx, n: &mut IfStmt) -> Result<Option<Stmt>, AllocError>
    ensures steps { IfOk result (λ o. Turns (unresolved ctx.now) (if_tree n.old) (if_tree n.new) o) }
    ensures finished { IfOk result (λ o. IsNone o → Rests (if_tree n.new)) }
{
    branch_statements::fold_if(alloc, ctx, n)
}

/// `branch_statements::fold_block`
pub fn fold_block(n: &mut BlockStmt) -> Option<Stmt>
    ensures steps { (mark : ℕ) → Turns mark (block_tree stmt_tree n.old) (block_tree stmt_tree n.new) result }
    ensures finished { IsNone result → Rests (block_tree stmt_tree n.new) }
{
    branch_statements::fold_block(n)
}

/// `branch_statements::fold_label`
pub fn fold_label(n: &mut LabeledStmt) -> Option<Stmt>
    ensures steps { (mark : ℕ) → Turns mark (labeled_tree stmt_tree n.old) (labeled_tree stmt_tree n.new) result }
    ensures finished { IsNone result → Rests (labeled_tree stmt_tree n.new) }
{
    branch_statements::fold_label(n)
}

/// `branch_statements::fold_try`
pub fn fold_try(alloc: Global, n: &mut TryStmt) -> Result<Option<Stmt>, AllocError>
    ensures steps { IfOk result (λ o. (mark : ℕ) → Turns mark (try_tree stmt_tree n.old) (try_tree stmt_tree n.new) o) }
    ensures finished { IfOk result (λ o. IsNone o → Rests (try_tree stmt_tree n.new)) }
{
    branch_statements::fold_try(alloc, n)
}

/// `branch_statements::fold_expression`
pub fn fold_expression(
    alloc: Global,
    ctx: &ExprCtx,
    n: &mut ExprStmt,
) -> Result<Option<Stmt>, AllocError>
    ensures steps { IfOk result (λ o. Turns (unresolved ctx.now) (expr_stmt_tree expr_tree n.old) (expr_stmt_tree expr_tree n.new) o) }
    ensures finished { IfOk result (λ o. IsNone o → Rests (expr_stmt_tree expr_tree n.new)) }
{
    branch_statements::fold_expression(alloc, ctx, n)
}
