//! The case that a value selects.
ghost use Rattle.std.specs.Prelude.{◌≡◌, IfOk, true, ℕ};
ghost use Rattle.swc_ast.specs.Views.{expr_tree};
ghost use Rattle.swc_utils.specs.Globals.{unresolved};
ghost use Rattle.branch_switch.specs.Clauses.{clause};
ghost use Rattle.branch_switch.specs.Clauses as trees;
ghost use Rattle.branch_rules.specs.Switches.{Passed};
ghost use Rattle.swc_ast.specs.Value.{Value as Held};
ghost use Rattle.branch_switch.specs.Plans.{Leads, Skipped};
ghost use Rattle.branch_switch.specs.Values.{Compares, Finds, Meets, value_in};

use crate::values::{Known, value_of};
use branch_parts::are_plain;
use std::alloc::{AllocError, Global};
use swc_ast::{Expr, SwitchCase};
use swc_utils::{ExprCtx, ExprExt};

/// What the test of a case is to a value.
#[derive(Clone, Copy, Debug, PartialEq, Eq)]
pub(crate) enum Meeting {
    /// It isn't known.
    Unknown,
    /// It is passed.
    Passed,
    /// It selects the case.
    Met,
}

fn compared(alloc: Global, ctx: &ExprCtx, value: &Known, test: &Expr) -> Result<Meeting, AllocError>
    ensures { IfOk result (λ m. Compares (unresolved ctx.now) (value_in value.now) (expr_tree test.now) m) }
{
    if test.may_have_side_effects(ctx) {
        return Ok(Meeting::Unknown);
    }
    match value_of(alloc, ctx, test)? {
        Some(other) => {
            if value.equals(&other) {
                return Ok(Meeting::Met);
            }
            Ok(Meeting::Passed)
        }
        None => Ok(Meeting::Unknown),
    }
}

/// What a case is to a value; `default` is passed.
pub(crate) fn met(
    alloc: Global,
    ctx: &ExprCtx,
    value: &Known,
    case: &SwitchCase,
) -> Result<Meeting, AllocError>
    ensures { IfOk result (λ m. Meets (unresolved ctx.now) (value_in value.now) (clause case.now) m) }
{
    match &case.test {
        Some(test) => {
            let meeting = compared(alloc, ctx, value, test)?;
            Ok(meeting)
        }
        None => Ok(Meeting::Passed),
    }
}

/// Which case a value selects.
#[derive(Clone, Copy, Debug, PartialEq, Eq)]
pub(crate) enum Found {
    /// It isn't known.
    Unknown,
    /// None.
    Nothing,
    /// The one of this index.
    At(usize),
}

/// Whether a case is `default`.
pub(crate) fn is_default(case: &SwitchCase) -> bool
    ensures { result ≡ (trees.clause case.now).is_default }
{
    match &case.test {
        Some(_) => false,
        None => true,
    }
}

/// The case that a value selects which passes all tests: `default`.
fn find_default(cases: &[SwitchCase]) -> Found
    ensures { (mark : ℕ) → (v : Held) → Passed mark v (trees.clauses cases.now) → Finds mark v cases.now result }
{
    for i in 0..cases.len() {
        if is_default(&cases[i]) {
            return Found::At(i);
        }
    }
    Found::Nothing
}

/// The case that a value selects, as far as the tests are known. Fails where memory is refused.
pub(crate) fn find(
    alloc: Global,
    ctx: &ExprCtx,
    value: &Known,
    cases: &[SwitchCase],
) -> Result<Found, AllocError>
    ensures { IfOk result (λ f. Finds (unresolved ctx.now) (value_in value.now) cases.now f) }
{
    for i in 0..cases.len() {
        match met(alloc, ctx, value, &cases[i])? {
            Meeting::Unknown => return Ok(Found::Unknown),
            Meeting::Passed => {}
            Meeting::Met => return Ok(Found::At(i)),
        }
    }
    Ok(find_default(cases))
}

/// Whether a case isn't `default`, declares nothing, and is known to be passed.
fn is_skipped(
    alloc: Global,
    ctx: &ExprCtx,
    value: &Known,
    case: &SwitchCase,
) -> Result<bool, AllocError>
    ensures { IfOk result (λ b. b ≡ true → Skipped (unresolved ctx.now) (value_in value.now) (clause case.now)) }
{
    if is_default(case) {
        return Ok(false);
    }
    if !are_plain(&case.cons) {
        return Ok(false);
    }
    match met(alloc, ctx, value, case)? {
        Meeting::Unknown => Ok(false),
        Meeting::Passed => Ok(true),
        Meeting::Met => Ok(false),
    }
}

/// How many cases in front aren't `default`, declare nothing, and are known to be passed. Fails where memory is refused.
pub(crate) fn leading(
    alloc: Global,
    ctx: &ExprCtx,
    value: &Known,
    cases: &[SwitchCase],
) -> Result<usize, AllocError>
    ensures { IfOk result (λ n. Leads (unresolved ctx.now) (value_in value.now) cases.now n) }
{
    for i in 0..cases.len() {
        if !is_skipped(alloc, ctx, value, &cases[i])? {
            return Ok(i);
        }
    }
    Ok(cases.len())
}
