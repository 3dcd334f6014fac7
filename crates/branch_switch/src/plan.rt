//! What is to be done with a `switch`.
ghost use Rattle.std.specs.Prelude.{◌≡◌, ◌≤◌, ◌&&◌, IfOk, IfSome, IsNone, drop, false, length, take};
ghost use Rattle.swc_ast.specs.Tree.{Tree};
ghost use Rattle.swc_ast.specs.Views.{expr_tree};
ghost use Rattle.swc_utils.specs.Globals.{unresolved};
ghost use Rattle.branch_switch.specs.Clauses as trees;
ghost use Rattle.branch_switch.specs.Kept as keeping;
ghost use Rattle.branch_switch.specs.Plans as plans;
ghost use Rattle.branch_switch.specs.Plans.{Planned};
ghost use Rattle.branch_switch.specs.Values.{value_in};

use crate::clauses::{are_idle, have_plain_bodies};
use crate::defaults::stands_alone;
use crate::selection::{Found, find, leading};
use crate::unbroken::bodies_fit;
use crate::values::{Known, value_of};
use std::alloc::{AllocError, Global};
use swc_ast::{Expr, SwitchCase, SwitchStmt};
use swc_utils::{ExprCtx, ExprExt};

/// What a `switch` does.
#[derive(Clone, Copy, Debug, PartialEq, Eq)]
pub(crate) enum Plan {
    /// No case does anything.
    Idle,
    /// No case is selected.
    Nothing,
    /// The case of this index is selected.
    From(usize),
    /// `default` is selected whatever the value is.
    Default,
    /// As many cases in front are passed.
    Behind(usize),
}

/// Whether nothing in front of a case declares anything, and its statements and those behind it may be taken out.
fn may_start(cases: &[SwitchCase], i: usize) -> bool
    requires { i ≤ length cases.now }
    ensures { result ≡ (trees.plain_bodies (trees.clauses (take i cases.now)) && keeping.bodies_fit false (trees.clauses (drop i cases.now))) }
{
    have_plain_bodies(&cases[..i]) && bodies_fit(&cases[i..])
}

/// What is to be done where a discriminant of this value is known to do nothing.
#[tactic(auto, using(crate::proofs::Planned::starts, crate::proofs::Planned::nothing))]
fn plan_by(
    alloc: Global,
    ctx: &ExprCtx,
    value: &Known,
    cases: &[SwitchCase],
) -> Result<Option<Plan>, AllocError>
    ensures { (d : Tree) → plans.Known (unresolved ctx.now) d (value_in value.now) → IfOk result (λ o. IfSome o (λ p. Planned (unresolved ctx.now) d cases.now p)) }
{
    match find(alloc, ctx, value, cases)? {
        Found::Unknown => Ok(None),
        Found::Nothing => {
            if have_plain_bodies(cases) {
                return Ok(Some(Plan::Nothing));
            }
            Ok(None)
        }
        Found::At(i) => {
            if may_start(cases, i) {
                return Ok(Some(Plan::From(i)));
            }
            Ok(None)
        }
    }
}

fn plan_for(
    alloc: Global,
    ctx: &ExprCtx,
    discriminant: &Expr,
    cases: &[SwitchCase],
) -> Result<Option<Plan>, AllocError>
    ensures { IfOk result (λ o. IfSome o (λ p. Planned (unresolved ctx.now) (expr_tree discriminant.now) cases.now p)) }
{
    if discriminant.may_have_side_effects(ctx) {
        return Ok(None);
    }
    match value_of(alloc, ctx, discriminant)? {
        Some(value) => {
            let plan = plan_by(alloc, ctx, &value, cases)?;
            Ok(plan)
        }
        None => Ok(None),
    }
}

/// What is to be done where `default` alone does something.
#[tactic(auto, using(crate::proofs::Default::planned_default))]
fn plan_default(ctx: &ExprCtx, cases: &[SwitchCase]) -> Option<Plan>
    ensures { IfSome result (λ p. (d : Tree) → Planned (unresolved ctx.now) d cases.now p) }
{
    if cases.is_empty() {
        return None;
    }
    let last = cases.len() - 1;
    if stands_alone(ctx, cases, last) {
        return Some(Plan::Default);
    }
    None
}

/// What is to be done where it is known that cases in front are passed.
#[tactic(auto, using(crate::proofs::Planned::behind))]
fn plan_behind(
    alloc: Global,
    ctx: &ExprCtx,
    discriminant: &Expr,
    cases: &[SwitchCase],
) -> Result<Option<Plan>, AllocError>
    ensures { IfOk result (λ o. IfSome o (λ p. Planned (unresolved ctx.now) (expr_tree discriminant.now) cases.now p)) }
{
    match value_of(alloc, ctx, discriminant)? {
        Some(value) => {
            let count = leading(alloc, ctx, &value, cases)?;
            if count > 0 {
                return Ok(Some(Plan::Behind(count)));
            }
            Ok(None)
        }
        None => Ok(None),
    }
}

/// What is to be done where nothing is known of what a `switch` does, but for its `default` or cases in front.
fn plan_rest(
    alloc: Global,
    ctx: &ExprCtx,
    discriminant: &Expr,
    cases: &[SwitchCase],
) -> Result<Option<Plan>, AllocError>
    ensures { IfOk result (λ o. IfSome o (λ p. Planned (unresolved ctx.now) (expr_tree discriminant.now) cases.now p)) }
{
    match plan_default(ctx, cases) {
        Some(plan) => Ok(Some(plan)),
        None => {
            let plan = plan_behind(alloc, ctx, discriminant, cases)?;
            Ok(plan)
        }
    }
}

/// What is to be done with a `switch` of these parts. None: some case of it does something.
fn plan_with(
    alloc: Global,
    ctx: &ExprCtx,
    discriminant: &Expr,
    cases: &[SwitchCase],
) -> Result<Option<Plan>, AllocError>
    ensures planned { IfOk result (λ o. IfSome o (λ p. Planned (unresolved ctx.now) (expr_tree discriminant.now) cases.now p)) }
    ensures rests { IfOk result (λ o. IsNone o → trees.all_idle (unresolved ctx.now) (trees.clauses cases.now) ≡ false) }
{
    if are_idle(ctx, cases) {
        return Ok(Some(Plan::Idle));
    }
    match plan_for(alloc, ctx, discriminant, cases)? {
        Some(plan) => Ok(Some(plan)),
        None => {
            let plan = plan_rest(alloc, ctx, discriminant, cases)?;
            Ok(plan)
        }
    }
}

/// What is to be done with a `switch`. None: it stays, and some case of it does something. Fails where memory is refused.
pub(crate) fn plan_of(
    alloc: Global,
    ctx: &ExprCtx,
    n: &SwitchStmt,
) -> Result<Option<Plan>, AllocError>
    ensures planned { IfOk result (λ o. IfSome o (λ p. Planned (unresolved ctx.now) (expr_tree (trees.discriminant_of n.now)) (trees.cases_of n.now) p)) }
    ensures rests { IfOk result (λ o. IsNone o → trees.all_idle (unresolved ctx.now) (trees.clauses (trees.cases_of n.now)) ≡ false) }
{
    plan_with(alloc, ctx, &n.discriminant, &n.cases)
}
