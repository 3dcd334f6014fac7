//! What a look at the cases of a `switch` tells.
ghost use Rattle.std.specs.Prelude.{◌≡◌};
ghost use Rattle.swc_ast.specs.Parts.{list_trees};
ghost use Rattle.swc_ast.specs.Views.{stmt_tree};
ghost use Rattle.swc_utils.specs.Globals.{unresolved};
ghost use Rattle.branch_rules.specs.Switches as rules;
ghost use Rattle.branch_switch.specs.Clauses as clauses;

use crate::sorts::sort_of;
use branch_parts::are_plain;
use swc_ast::{Stmt, SwitchCase};
use swc_utils::{ExprCtx, ExprExt};

/// Whether a list is empty or begins with `break`.
fn starts_with_break(stmts: &[Stmt]) -> bool
    ensures { result ≡ rules.starts_with_break (list_trees stmt_tree stmts.now) }
{
    match stmts {
        [] => true,
        [s, ..] => sort_of(s).breaks(),
    }
}

/// Whether the test of a case, if it has one, has no effect.
pub(crate) fn has_pure_test(ctx: &ExprCtx, case: &SwitchCase) -> bool
    ensures { result ≡ clauses.is_pure_test (unresolved ctx.now) (clauses.clause case.now) }
{
    match &case.test {
        Some(test) => !test.may_have_side_effects(ctx),
        None => true,
    }
}

/// Whether a case does nothing where it is selected, and declares nothing.
fn is_idle(ctx: &ExprCtx, case: &SwitchCase) -> bool
    ensures { result ≡ clauses.is_idle (unresolved ctx.now) (clauses.clause case.now) }
{
    starts_with_break(&case.cons) && has_pure_test(ctx, case) && are_plain(&case.cons)
}

/// The same of each case.
pub(crate) fn are_idle(ctx: &ExprCtx, cases: &[SwitchCase]) -> bool
    ensures { result ≡ clauses.all_idle (unresolved ctx.now) (clauses.clauses cases.now) }
{
    let mut left = cases;
    while let [case, rest @ ..] = left {
        if !is_idle(ctx, case) {
            return false;
        }
        left = rest;
    }
    true
}

/// Whether no statement of a case declares anything.
pub(crate) fn have_plain_bodies(cases: &[SwitchCase]) -> bool
    ensures { result ≡ clauses.plain_bodies (clauses.clauses cases.now) }
{
    let mut left = cases;
    while let [case, rest @ ..] = left {
        if !are_plain(&case.cons) {
            return false;
        }
        left = rest;
    }
    true
}
