//! What a `while` becomes.
ghost use Rattle.std.specs.Prelude.{◌≡◌, false, true, IfOk, IsNone, Some, ℕ};
ghost use Rattle.swc_ast.specs.Statements.{while_node};
ghost use Rattle.swc_ast.specs.Views.{expr_tree, loop_trees};
ghost use Rattle.swc_utils.specs.Globals.{unresolved};
ghost use Rattle.swc_utils.specs.Known.{pure_truth, truth};
ghost use Rattle.swc_utils.specs.Sound.{known};
ghost use Rattle.branch_rules.specs.Removes.{Rests};
ghost use Rattle.branch_rules.specs.Turns.{Turns};

use crate::looks::{is_truth, outweighs};
use crate::nodes::{names_left, take_while, truth_literal};
use std::alloc::{AllocError, Global};
use swc_ast::{Expr, Stmt, WhileStmt};
use swc_utils::{ExprCtx, ExprExt, Value};

/// A `while` whose test is true has `true` as its test.
fn fold_endless(alloc: Global, n: &mut WhileStmt) -> Result<Option<Stmt>, AllocError>
    ensures { IfOk result (λ o. (mark : ℕ) → pure_truth mark (expr_tree n.old.test.value) ≡ Some true → Turns mark (while_node (loop_trees n.old)) (while_node (loop_trees n.new)) o) }
{
    if is_truth(&n.test) {
        return Ok(None);
    }
    *n.test = truth_literal(true);
    Ok(Some(take_while(alloc, n)?))
}

/// The truth of a test, which may do something too.
fn truth_of(ctx: &ExprCtx, test: &Expr) -> Value<bool>
    ensures { known result ≡ truth (unresolved ctx.now) (expr_tree test.now) }
{
    test.cast_to_bool(ctx).1
}

/// A `while` whose test does something and is then false keeps the `var` names of its body alone.
fn fold_skipped(alloc: Global, ctx: &ExprCtx, n: &mut WhileStmt) -> Result<Option<Stmt>, AllocError>
    ensures { IfOk result (λ o. Turns (unresolved ctx.now) (while_node (loop_trees n.old)) (while_node (loop_trees n.new)) o) }
{
    match truth_of(ctx, &n.test) {
        Value::Known(true) | Value::Unknown => Ok(None),
        Value::Known(false) => {
            if !outweighs(&n.body) {
                return Ok(None);
            }
            *n.body = names_left(alloc, &n.body)?;
            Ok(Some(take_while(alloc, n)?))
        }
    }
}

/// What takes the place of a `while` whose test is known: the `var` names of its body where the test does nothing and is
/// false. None where no rule takes it, and then it is as it was. Fails where memory is refused.
pub fn fold_while(
    alloc: Global,
    ctx: &ExprCtx,
    n: &mut WhileStmt,
) -> Result<Option<Stmt>, AllocError>
    ensures steps { IfOk result (λ o. Turns (unresolved ctx.now) (while_node (loop_trees n.old)) (while_node (loop_trees n.new)) o) }
    ensures finished { IfOk result (λ o. IsNone o → Rests (while_node (loop_trees n.new))) }
{
    match n.test.as_pure_bool(ctx) {
        Value::Known(true) => fold_endless(alloc, n),
        Value::Known(false) => Ok(Some(names_left(alloc, &n.body)?)),
        Value::Unknown => fold_skipped(alloc, ctx, n),
    }
}
