//! `try`.
ghost use Rattle.std.specs.Prelude.{◌≡◌, [], ℕ, IfOk, IsNone, IsTrue, OnOk, Some};
ghost use Rattle.swc_ast.specs.Parts.{list_trees};
ghost use Rattle.swc_ast.specs.Scope.{joined};
ghost use Rattle.swc_ast.specs.Statements.{block_tree, handler_tree, try_tree};
ghost use Rattle.swc_ast.specs.Tree.{ε, ◌⊳◌};
ghost use Rattle.swc_ast.specs.Views.{stmt_tree};
ghost use Rattle.branch_rules.specs.Removes.{Rests};
ghost use Rattle.branch_rules.specs.Turns.{Turns};
ghost use Rattle.branch_parts.specs.Behind.{VarsBehind};
ghost use Rattle.branch_statements.specs.Shapes.{IsBare};

use branch_parts::{are_plain, as_one, push_all_vars};
use std::alloc::{AllocError, Global};
use std::mem;
use swc_ast::{BlockStmt, CatchClause, Stmt, TryStmt};

/// Moves the statements of a block out of it.
fn take_stmts(alloc: Global, n: &mut BlockStmt) -> Vec<Stmt>
    ensures { result.items ≡ n.old.stmts.items }
{
    mem::replace(&mut n.stmts, Vec::new(alloc))
}

/// Adds the `var` names of a handler that goes.
fn push_handler_vars(
    alloc: Global,
    handler: &Option<CatchClause>,
    out: &mut Vec<Stmt>,
) -> Result<(), AllocError>
    ensures { OnOk result (VarsBehind (handler_tree stmt_tree handler.now ⊳ ε) (list_trees stmt_tree out.old.items) (list_trees stmt_tree out.new.items)) }
{
    if let Some(handler) = handler {
        push_all_vars(alloc, &handler.body.stmts, out)?;
    }
    Ok(())
}

/// Adds statements.
#[tactic(auto, using(swc_utils::proofs::Chains::pushed, swc_utils::proofs::Chains::joined_assoc, swc_utils::proofs::Chains::joined_none))]
fn push_all(items: Vec<Stmt>, out: &mut Vec<Stmt>) -> Result<(), AllocError>
    ensures { OnOk result (list_trees stmt_tree out.new.items ≡ joined (list_trees stmt_tree out.old.items) (list_trees stmt_tree items.items)) }
{
    for item in items {
        out.push(item)?;
    }
    Ok(())
}

/// A `try` with an empty block: the `var` names of its handler, in the final block if that holds plain statements alone,
/// or else in front of it.
fn final_only(alloc: Global, n: &mut TryStmt) -> Result<Stmt, AllocError>
    requires { n.old.block.stmts.items ≡ [] }
    ensures { IfOk result (λ s. (mark : ℕ) → Turns mark (try_tree stmt_tree n.old) (try_tree stmt_tree n.new) (Some s)) }
{
    let span = n.span;
    let mut out = Vec::new(alloc);
    push_handler_vars(alloc, &n.handler, &mut out)?;
    match &mut n.finalizer {
        None => Ok(as_one(span, out)),
        Some(last) => {
            if are_plain(&last.stmts) {
                push_all(take_stmts(alloc, last), &mut out)?;
                return Ok(Stmt::Block(BlockStmt { span, stmts: out }));
            }
            out.push(Stmt::Block(BlockStmt {
                span: last.span,
                stmts: take_stmts(alloc, last),
            }))?;
            Ok(as_one(span, out))
        }
    }
}

/// Whether a `try` has neither a handler nor anything at the end.
fn is_bare(n: &TryStmt) -> bool
    ensures { IsTrue result → IsBare (try_tree stmt_tree n.now) (block_tree stmt_tree n.now.block) }
{
    match (&n.handler, &n.finalizer) {
        (None, Some(last)) => last.stmts.is_empty(),
        _ => false,
    }
}

/// What takes the place of a `try`. With an empty block: the `var` names of its handler, and the final block. With neither
/// a handler nor anything at the end: its block. None at others, which stay as they are. Fails where memory is refused.
pub fn fold_try(alloc: Global, n: &mut TryStmt) -> Result<Option<Stmt>, AllocError>
    ensures steps { IfOk result (λ o. (mark : ℕ) → Turns mark (try_tree stmt_tree n.old) (try_tree stmt_tree n.new) o) }
    ensures finished { IfOk result (λ o. IsNone o → Rests (try_tree stmt_tree n.new)) }
{
    if n.block.stmts.is_empty() {
        return Ok(Some(final_only(alloc, n)?));
    }
    if is_bare(n) {
        return Ok(Some(Stmt::Block(BlockStmt {
            span: n.block.span,
            stmts: take_stmts(alloc, &mut n.block),
        })));
    }
    Ok(None)
}
