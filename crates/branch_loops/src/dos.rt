//! What a `do` becomes.
ghost use Rattle.std.specs.Prelude.{◌≡◌, ◌∷◌, [], IfOk, IsNone};
ghost use Rattle.swc_ast.specs.Parts.{absent};
ghost use Rattle.swc_ast.specs.Statements.{do_while_node};
ghost use Rattle.swc_ast.specs.Tree.{For, node, ε, ◌⊳◌};
ghost use Rattle.swc_ast.specs.Views.{loop_trees, stmt_tree};
ghost use Rattle.swc_utils.specs.Globals.{unresolved};
ghost use Rattle.branch_rules.specs.Removes.{Rests};
ghost use Rattle.branch_rules.specs.Turns.{Turns};

use crate::once::run_once;
use branch_jumps::Sought;
use branch_parts::take_stmt;
use std::alloc::{AllocError, Global};
use swc_ast::{DoWhileStmt, ForStmt, Stmt};
use swc_utils::{ExprCtx, ExprExt, Value};

/// A `for` without an end, round the body of a `do`.
#[tactic(auto, using(swc_ast::proofs::Equations::forms))]
fn take_endless(alloc: Global, n: &mut DoWhileStmt) -> Result<Stmt, AllocError>
    ensures { IfOk result (λ s. stmt_tree s ≡ node For (n.old.span ∷ []) (absent ⊳ absent ⊳ absent ⊳ stmt_tree n.old.body.value ⊳ ε)) }
{
    let body = Box::new(alloc, take_stmt(&mut n.body))?;
    let node = ForStmt {
        span: n.span,
        init: None,
        test: None,
        update: None,
        body,
    };
    let made = Box::new(alloc, node)?;
    Ok(Stmt::For(made))
}

/// What takes the place of a `do` whose test does nothing and is known: a `for` without an end, or its body, where no jump
/// in that is aimed at the loop. None where no rule takes it, and then it is as it was. Fails where memory is refused.
pub fn fold_do(
    alloc: Global,
    ctx: &ExprCtx,
    n: &mut DoWhileStmt,
) -> Result<Option<Stmt>, AllocError>
    ensures steps { IfOk result (λ o. Turns (unresolved ctx.now) (do_while_node (loop_trees n.old)) (do_while_node (loop_trees n.new)) o) }
    ensures finished { IfOk result (λ o. IsNone o → Rests (do_while_node (loop_trees n.new))) }
{
    match n.test.as_pure_bool(ctx) {
        Value::Known(true) => Ok(Some(take_endless(alloc, n)?)),
        Value::Known(false) => Ok(run_once(alloc, Sought::Every, &mut n.body)),
        Value::Unknown => Ok(None),
    }
}
