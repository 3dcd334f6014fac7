//! What a `for` becomes.
ghost use Rattle.std.specs.Prelude.{◌<◌, ◌≡◌, false, IfOk, IsNone, IsTrue, Some, ℕ};
ghost use Rattle.swc_ast.specs.Parts.{absent, tree_or_absent};
ghost use Rattle.swc_ast.specs.Statements.{option_init_tree};
ghost use Rattle.swc_ast.specs.Views.{expr_tree, for_tree};
ghost use Rattle.swc_ast.specs.Weight.{is_truth_or_absent, weight};
ghost use Rattle.swc_utils.specs.Globals.{unresolved};
ghost use Rattle.swc_utils.specs.Known.{pure_truth};
ghost use Rattle.branch_rules.specs.Removes.{Rests};
ghost use Rattle.branch_rules.specs.Turns.{Turns};
ghost use Rattle.branch_loops.specs.Bodies.{PartLeft};

use crate::looks::{is_truth, outweighs, weighs};
use crate::nodes::{names_left, take_for, truth_literal};
use branch_expressions::{Left, ignore};
use std::alloc::{AllocError, Global};
use swc_ast::{Expr, ForStmt, Stmt, VarDeclOrExpr};
use swc_utils::{ExprCtx, ExprExt, Value};

/// Puts what is left of a first part, whose value is not used, into its place, and says whether that is something else.
#[tactic(auto, using(crate::proofs::ForSteps::part_unchanged))]
fn ignore_init(
    alloc: Global,
    ctx: &ExprCtx,
    init: &mut Option<VarDeclOrExpr>,
) -> Result<bool, AllocError>
    ensures { IfOk result (λ c. PartLeft (unresolved ctx.now) (option_init_tree expr_tree init.old) (option_init_tree expr_tree init.new) c) }
{
    match init {
        Some(VarDeclOrExpr::Expr(e)) => match ignore(alloc, ctx, e)? {
            Left::Same => Ok(false),
            Left::Changed => Ok(true),
            Left::Nothing => {
                *init = None;
                Ok(true)
            }
        },
        _ => Ok(false),
    }
}

/// The same of an update.
fn ignore_update(
    alloc: Global,
    ctx: &ExprCtx,
    update: &mut Option<Box<Expr>>,
) -> Result<bool, AllocError>
    ensures { IfOk result (λ c. PartLeft (unresolved ctx.now) (tree_or_absent expr_tree update.old) (tree_or_absent expr_tree update.new) c) }
{
    match update {
        Some(e) => match ignore(alloc, ctx, e)? {
            Left::Same => Ok(false),
            Left::Changed => Ok(true),
            Left::Nothing => {
                *update = None;
                Ok(true)
            }
        },
        None => Ok(false),
    }
}

fn fold_init(alloc: Global, ctx: &ExprCtx, n: &mut ForStmt) -> Result<Option<Stmt>, AllocError>
    ensures { IfOk result (λ o. Turns (unresolved ctx.now) (for_tree n.old) (for_tree n.new) o) }
{
    let changed = ignore_init(alloc, ctx, &mut n.init)?;
    if !changed {
        return Ok(None);
    }
    Ok(Some(take_for(alloc, n)?))
}

fn fold_update(alloc: Global, ctx: &ExprCtx, n: &mut ForStmt) -> Result<Option<Stmt>, AllocError>
    ensures { IfOk result (λ o. Turns (unresolved ctx.now) (for_tree n.old) (for_tree n.new) o) }
{
    let changed = ignore_update(alloc, ctx, &mut n.update)?;
    if !changed {
        return Ok(None);
    }
    Ok(Some(take_for(alloc, n)?))
}

/// Whether there is a first part.
fn has_init(init: &Option<VarDeclOrExpr>) -> bool
    ensures { result ≡ false → option_init_tree expr_tree init.now ≡ absent }
{
    match init {
        Some(_) => true,
        None => false,
    }
}

/// Whether there is an update, which may go.
fn has_update(update: &Option<Box<Expr>>) -> bool
    ensures { IsTrue result → 0 < weight (tree_or_absent expr_tree update.now) }
{
    match update {
        Some(e) => weighs(e),
        None => false,
    }
}

/// Whether a test is neither `true`, `false` nor left out.
fn is_open(test: &Option<Box<Expr>>) -> bool
    ensures { IsTrue result → is_truth_or_absent (tree_or_absent expr_tree test.now) ≡ false }
{
    match test {
        Some(e) => !is_truth(e),
        None => false,
    }
}

/// A `for` that takes no turn: its first part alone is run.
fn fold_never(alloc: Global, n: &mut ForStmt) -> Result<Option<Stmt>, AllocError>
    ensures { IfOk result (λ o. (mark : ℕ) → pure_truth mark (tree_or_absent expr_tree n.old.test) ≡ Some false → Turns mark (for_tree n.old) (for_tree n.new) o) }
{
    if !has_init(&n.init) {
        return Ok(Some(names_left(alloc, &n.body)?));
    }
    if has_update(&n.update) {
        n.update = None;
        return Ok(Some(take_for(alloc, n)?));
    }
    if outweighs(&n.body) {
        *n.body = names_left(alloc, &n.body)?;
        return Ok(Some(take_for(alloc, n)?));
    }
    if is_open(&n.test) {
        n.test = Some(Box::new(alloc, truth_literal(false))?);
        return Ok(Some(take_for(alloc, n)?));
    }
    Ok(None)
}

/// A test that is known.
fn fold_test(alloc: Global, ctx: &ExprCtx, n: &mut ForStmt) -> Result<Option<Stmt>, AllocError>
    ensures steps { IfOk result (λ o. Turns (unresolved ctx.now) (for_tree n.old) (for_tree n.new) o) }
    ensures finished { IfOk result (λ o. IsNone o → Rests (for_tree n.new)) }
{
    match &n.test {
        Some(test) => match test.as_pure_bool(ctx) {
            Value::Known(true) => {
                n.test = None;
                Ok(Some(take_for(alloc, n)?))
            }
            Value::Known(false) => fold_never(alloc, n),
            Value::Unknown => Ok(None),
        },
        None => Ok(None),
    }
}

/// What takes the place of a `for`: without a first part, an update or a test that does nothing, and where its test is
/// false without turns. One rule is used in a call, and none gives None; then the `for` is as it was. Fails where memory
/// is refused.
pub fn fold_for(alloc: Global, ctx: &ExprCtx, n: &mut ForStmt) -> Result<Option<Stmt>, AllocError>
    ensures steps { IfOk result (λ o. Turns (unresolved ctx.now) (for_tree n.old) (for_tree n.new) o) }
    ensures finished { IfOk result (λ o. IsNone o → Rests (for_tree n.new)) }
{
    let first = fold_init(alloc, ctx, n)?;
    if first.is_some() {
        return Ok(first);
    }
    let update = fold_update(alloc, ctx, n)?;
    if update.is_some() {
        return Ok(update);
    }
    fold_test(alloc, ctx, n)
}
