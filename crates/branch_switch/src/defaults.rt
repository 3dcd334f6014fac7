//! A `default` that is selected whatever the value is.
ghost use Rattle.std.specs.Prelude.{◌≡◌, ◌≤◌, ◌&&◌, IfOk, drop, length, take};
ghost use Rattle.swc_ast.specs.Parts.{list_trees};
ghost use Rattle.swc_ast.specs.Views.{expr_tree, stmt_tree};
ghost use Rattle.swc_utils.specs.Globals.{unresolved};
ghost use Rattle.swc_utils.specs.Pure as pure;
ghost use Rattle.branch_switch.specs.Clauses.{clause, clauses};
ghost use Rattle.branch_switch.specs.Defaults as defaults;
ghost use Rattle.branch_switch.specs.Plans.{Switched};

use crate::bodies::bodies;
use crate::unbroken::{all_fit, none_goes, part};
use branch_parts::{are_plain, as_one, push_left};
use std::alloc::{AllocError, Global};
use swc_ast::{BlockStmt, Expr, Span, Stmt, SwitchCase};
use swc_utils::{ExprCtx, ExprExt};

fn is_empty(stmts: &[Stmt]) -> bool
    ensures { result ≡ pure.no_trees (list_trees stmt_tree stmts.now) }
{
    match stmts {
        [] => true,
        [_, ..] => false,
    }
}

/// Whether a case is empty, no `default`, and its test has no effect.
fn falls_through(ctx: &ExprCtx, case: &SwitchCase) -> bool
    ensures { result ≡ defaults.falls_through (unresolved ctx.now) (clause case.now) }
{
    match &case.test {
        Some(test) => !test.may_have_side_effects(ctx) && is_empty(&case.cons),
        None => false,
    }
}

fn all_fall_through(ctx: &ExprCtx, cases: &[SwitchCase]) -> bool
    ensures { result ≡ defaults.all_fall_through (unresolved ctx.now) (clauses cases.now) }
{
    let mut left = cases;
    while let [case, rest @ ..] = left {
        if !falls_through(ctx, case) {
            return false;
        }
        left = rest;
    }
    true
}

/// Whether a case is `default`, and its statements may be taken out.
fn may_open(case: &SwitchCase) -> bool
    ensures { result ≡ defaults.may_open (clause case.now) }
{
    match &case.test {
        Some(_) => false,
        None => all_fit(false, &case.cons) && none_goes(&case.cons),
    }
}

fn is_alone(cases: &[SwitchCase]) -> bool
    ensures { result ≡ defaults.is_alone (clauses cases.now) }
{
    match cases {
        [case] => may_open(case),
        _ => false,
    }
}

/// Whether the cases are a `default` whose statements may be taken out, behind empty ones.
pub(crate) fn stands_alone(ctx: &ExprCtx, cases: &[SwitchCase], i: usize) -> bool
    requires { i ≤ length cases.now }
    ensures { result ≡ (defaults.all_fall_through (unresolved ctx.now) (clauses (take i cases.now)) && defaults.is_alone (clauses (drop i cases.now))) }
{
    all_fall_through(ctx, &cases[..i]) && is_alone(&cases[i..])
}

/// What is left of the discriminant, and the statements of `default`, in a block of their own where they declare something.
pub(crate) fn fold_default(
    alloc: Global,
    ctx: &ExprCtx,
    span: Span,
    discriminant: &mut Expr,
    cases: Vec<SwitchCase>,
) -> Result<Stmt, AllocError>
    requires { defaults.DefaultAlone (unresolved ctx.now) cases.items }
    ensures { IfOk result (λ s. Switched (unresolved ctx.now) span (expr_tree discriminant.old) (clauses cases.items) s) }
{
    let mut out = Vec::new(alloc);
    push_left(alloc, ctx, discriminant, &mut out)?;
    let body = bodies(alloc, cases)?;
    let mut kept = Vec::new(alloc);
    let mut gone = Vec::new(alloc);
    part(body, &mut kept, &mut gone)?;
    if are_plain(&kept) {
        out.append(&mut kept)?;
        return Ok(as_one(span, out));
    }
    out.push(Stmt::Block(BlockStmt { span, stmts: kept }))?;
    Ok(as_one(span, out))
}
