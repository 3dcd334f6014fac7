//! Conditions.
ghost use Rattle.std.specs.Prelude.{◌≡◌, ℕ, true, IfOk, IsNone, IsTrue, OnOk, Some};
ghost use Rattle.swc_ast.specs.Parts.{list_trees};
ghost use Rattle.swc_ast.specs.Redex as redex;
ghost use Rattle.swc_ast.specs.Views.{expr_tree, if_tree, stmt_tree};
ghost use Rattle.swc_utils.specs.Globals.{unresolved};
ghost use Rattle.swc_utils.specs.Known.{truth};
ghost use Rattle.branch_rules.specs.Removes.{Rests};
ghost use Rattle.branch_rules.specs.Statements.{all_plain};
ghost use Rattle.branch_rules.specs.Turns.{Turns};
ghost use Rattle.branch_statements.specs.Arms.{ArmsBehind, EmptyElse, EmptyStatement, LoneEmpty, arms, has_empty_else};

use branch_parts::{as_one, is_plain, push_effects, push_left, push_vars, take_expr, take_stmt};
use std::alloc::{AllocError, Global};
use swc_ast::{IfStmt, Stmt};
use swc_utils::{ExprCtx, ExprExt, Value};

/// Whether no arm declares `let`, `const` or a function.
fn has_plain_arms(n: &IfStmt) -> bool
    ensures { result ≡ all_plain (arms n.now) }
{
    if !is_plain(&n.cons) {
        return false;
    }
    match &n.alt {
        Some(alt) => is_plain(alt),
        None => true,
    }
}

/// Whether a statement is empty.
#[tactic(auto, using(swc_ast::proofs::Equations::forms))]
fn is_empty(s: &Stmt) -> bool
    ensures answer { result ≡ redex.is_empty (stmt_tree s.now) }
    ensures shape { IsTrue result → EmptyStatement (stmt_tree s.now) }
{
    match s {
        Stmt::Empty(_) => true,
        _ => false,
    }
}

/// Adds the `var` names of the arm that goes, and the other arm.
fn push_arms(
    alloc: Global,
    known: bool,
    n: &mut IfStmt,
    out: &mut Vec<Stmt>,
) -> Result<(), AllocError>
    ensures { OnOk result (ArmsBehind known (arms n.old) (list_trees stmt_tree out.old.items) (list_trees stmt_tree out.new.items)) }
{
    if known {
        if let Some(alt) = &n.alt {
            push_vars(alloc, alt, out)?;
        }
        out.push(take_stmt(&mut n.cons))?;
        return Ok(());
    }
    push_vars(alloc, &n.cons, out)?;
    if let Some(alt) = &mut n.alt {
        out.push(take_stmt(alt))?;
    }
    Ok(())
}

/// A condition with a test of known truth: what is left of the test where it has an effect, the `var` names of the arm that goes, and the other
/// arm.
fn choose(alloc: Global, ctx: &ExprCtx, known: bool, n: &mut IfStmt) -> Result<Stmt, AllocError>
    requires truth { truth (unresolved ctx.now) (expr_tree n.old.test.value) ≡ Some known }
    requires plain { all_plain (arms n.old) ≡ true }
    ensures { IfOk result (λ s. Turns (unresolved ctx.now) (if_tree n.old) (if_tree n.new) (Some s)) }
{
    let mut out = Vec::new(alloc);
    push_effects(alloc, ctx, &mut n.test, &mut out)?;
    push_arms(alloc, known, n, &mut out)?;
    Ok(as_one(n.span, out))
}

/// Whether there is an `else` with nothing in it.
fn has_empty_alt(n: &IfStmt) -> bool
    ensures answer { result ≡ has_empty_else (arms n.now) }
    ensures shape { IsTrue result → EmptyElse (arms n.now) (stmt_tree n.now.cons.value) }
{
    match &n.alt {
        Some(alt) => is_empty(alt),
        None => false,
    }
}

/// A condition without its empty `else`.
fn without_alt(alloc: Global, n: &mut IfStmt) -> Result<Stmt, AllocError>
    requires empty { EmptyElse (arms n.old) (stmt_tree n.old.cons.value) }
    requires plain { all_plain (arms n.old) ≡ true }
    ensures { IfOk result (λ s. (mark : ℕ) → Turns mark (if_tree n.old) (if_tree n.new) (Some s)) }
{
    let test = Box::new(alloc, take_expr(&mut n.test))?;
    let cons = Box::new(alloc, take_stmt(&mut n.cons))?;
    Ok(Stmt::If(IfStmt {
        span: n.span,
        test,
        cons,
        alt: None,
    }))
}

/// Whether the one arm has nothing in it.
fn is_idle(n: &IfStmt) -> bool
    ensures { IsTrue result → LoneEmpty (arms n.now) }
{
    match &n.alt {
        Some(_) => false,
        None => is_empty(&n.cons),
    }
}

/// What takes the place of a condition. With a test of known truth: what is left of the test, the `var` names of the arm
/// that goes, and the other arm. Otherwise an empty `else` goes; and of a condition whose one arm is empty, what is left of
/// the test stays. None where none of these fits, or an arm is a declaration of another kind than `var`; then the condition
/// is as it was. Fails where memory is refused.
pub fn fold_if(alloc: Global, ctx: &ExprCtx, n: &mut IfStmt) -> Result<Option<Stmt>, AllocError>
    ensures steps { IfOk result (λ o. Turns (unresolved ctx.now) (if_tree n.old) (if_tree n.new) o) }
    ensures finished { IfOk result (λ o. IsNone o → Rests (if_tree n.new)) }
{
    if !has_plain_arms(n) {
        return Ok(None);
    }
    if let Value::Known(known) = n.test.cast_to_bool(ctx).1 {
        return Ok(Some(choose(alloc, ctx, known, n)?));
    }
    if has_empty_alt(n) {
        return Ok(Some(without_alt(alloc, n)?));
    }
    if !is_idle(n) {
        return Ok(None);
    }
    let mut out = Vec::new(alloc);
    push_left(alloc, ctx, &mut n.test, &mut out)?;
    Ok(Some(as_one(n.span, out)))
}
