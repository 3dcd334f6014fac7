//! A `switch`, by the rule that fits.
ghost use Rattle.std.specs.Prelude.{IfOk, IsNone};
ghost use Rattle.swc_ast.specs.Views.{expr_tree, switch_tree};
ghost use Rattle.swc_utils.specs.Globals.{unresolved};
ghost use Rattle.branch_rules.specs.Removes.{Rests};
ghost use Rattle.branch_rules.specs.Turns.{Turns};
ghost use Rattle.branch_switch.specs.Clauses.{clauses};
ghost use Rattle.branch_switch.specs.Plans.{Planned, Switched};

use crate::defaults::fold_default;
use crate::folds::{fold_behind, fold_from, fold_idle, fold_nothing};
use crate::plan::{Plan, plan_of};
use std::alloc::{AllocError, Global};
use std::mem;
use swc_ast::{Expr, Span, Stmt, SwitchCase, SwitchStmt};
use swc_utils::ExprCtx;

/// Does what is to be done.
fn carry_out(
    alloc: Global,
    ctx: &ExprCtx,
    plan: Plan,
    span: Span,
    discriminant: &mut Expr,
    cases: Vec<SwitchCase>,
) -> Result<Stmt, AllocError>
    requires { Planned (unresolved ctx.now) (expr_tree discriminant.old) cases.items plan }
    ensures { IfOk result (λ s. Switched (unresolved ctx.now) span (expr_tree discriminant.old) (clauses cases.items) s) }
{
    match plan {
        Plan::Idle => fold_idle(alloc, ctx, span, discriminant, cases),
        Plan::Nothing => {
            let s = fold_nothing(alloc, span, cases)?;
            Ok(s)
        }
        Plan::Default => fold_default(alloc, ctx, span, discriminant, cases),
        Plan::From(i) => {
            let s = fold_from(alloc, span, cases, i)?;
            Ok(s)
        }
        Plan::Behind(i) => {
            let s = fold_behind(alloc, span, discriminant, cases, i)?;
            Ok(s)
        }
    }
}

/// What takes the place of a `switch` of which it is known what it runs: what is left of its discriminant where no case does
/// anything, the statements that are run where its value is known, a `switch` of fewer cases where it is known that some
/// in front are passed, and the `var` names of what goes. None: the `switch` is as it was. Fails where memory is refused.
pub fn fold_switch(
    alloc: Global,
    ctx: &ExprCtx,
    n: &mut SwitchStmt,
) -> Result<Option<Stmt>, AllocError>
    ensures steps { IfOk result (λ o. Turns (unresolved ctx.now) (switch_tree n.old) (switch_tree n.new) o) }
    ensures finished { IfOk result (λ o. IsNone o → Rests (switch_tree n.new)) }
{
    match plan_of(alloc, ctx, n)? {
        Some(plan) => {
            let span = n.span;
            let cases = mem::replace(&mut n.cases, Vec::new(alloc));
            let s = carry_out(alloc, ctx, plan, span, &mut n.discriminant, cases)?;
            Ok(Some(s))
        }
        None => Ok(None),
    }
}
