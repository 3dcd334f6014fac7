//! What takes the place of a `switch`, by what is known of it.
ghost use Rattle.std.specs.Prelude.{◌≡◌, ◌≤◌, IfOk, drop, length, take, true, ℕ};
ghost use Rattle.swc_ast.specs.Views.{expr_tree};
ghost use Rattle.swc_ast.specs.declared.expressions.Expr.{Expr as Discriminant};
ghost use Rattle.swc_utils.specs.Globals.{unresolved};
ghost use Rattle.branch_switch.specs.Clauses.{all_idle, clauses};
ghost use Rattle.branch_switch.specs.Plans.{SelectsFrom, SelectsNone, StartsBehind, Switched};

use crate::bodies::bodies;
use crate::unbroken::part;
use branch_parts::{as_one, push_all_vars, push_left, take_expr};
use std::alloc::{AllocError, Global};
use swc_ast::{BlockStmt, Expr, Span, Stmt, SwitchCase, SwitchStmt};
use swc_utils::ExprCtx;

/// No case does anything: what is left of the discriminant, and the `var` names of the cases.
pub(crate) fn fold_idle(
    alloc: Global,
    ctx: &ExprCtx,
    span: Span,
    discriminant: &mut Expr,
    cases: Vec<SwitchCase>,
) -> Result<Stmt, AllocError>
    requires { all_idle (unresolved ctx.now) (clauses cases.items) ≡ true }
    ensures { IfOk result (λ s. Switched (unresolved ctx.now) span (expr_tree discriminant.old) (clauses cases.items) s) }
{
    let mut out = Vec::new(alloc);
    push_left(alloc, ctx, discriminant, &mut out)?;
    let gone = bodies(alloc, cases)?;
    push_all_vars(alloc, &gone, &mut out)?;
    Ok(as_one(span, out))
}

/// No case is selected: their `var` names.
pub(crate) fn fold_nothing(
    alloc: Global,
    span: Span,
    cases: Vec<SwitchCase>,
) -> Result<Stmt, AllocError>
    ensures { IfOk result (λ s. (mark : ℕ) → (d : Discriminant) → SelectsNone mark (expr_tree d) (clauses cases.items) → Switched mark span (expr_tree d) (clauses cases.items) s) }
{
    let gone = bodies(alloc, cases)?;
    let mut out = Vec::new(alloc);
    push_all_vars(alloc, &gone, &mut out)?;
    Ok(as_one(span, out))
}

/// A case is selected: a block of its statements and of those behind it, up to the first one that ends the list, and of the
/// `var` names of what goes.
pub(crate) fn fold_from(
    alloc: Global,
    span: Span,
    cases: Vec<SwitchCase>,
    i: usize,
) -> Result<Stmt, AllocError>
    requires { i ≤ length cases.items }
    ensures { IfOk result (λ s. (mark : ℕ) → (d : Discriminant) → SelectsFrom mark (expr_tree d) (clauses (take i cases.items)) (clauses (drop i cases.items)) → Switched mark span (expr_tree d) (clauses cases.items) s) }
{
    let mut front = cases;
    let back = front.split_off(i)?;
    let mut gone = bodies(alloc, front)?;
    let body = bodies(alloc, back)?;
    let mut kept = Vec::new(alloc);
    part(body, &mut kept, &mut gone)?;
    let mut stmts = Vec::new(alloc);
    push_all_vars(alloc, &gone, &mut stmts)?;
    stmts.append(&mut kept)?;
    Ok(Stmt::Block(BlockStmt { span, stmts }))
}

/// Cases in front are passed: their `var` names, and a `switch` of the cases behind them.
pub(crate) fn fold_behind(
    alloc: Global,
    span: Span,
    discriminant: &mut Expr,
    cases: Vec<SwitchCase>,
    i: usize,
) -> Result<Stmt, AllocError>
    requires some { 1 ≤ i }
    requires within { i ≤ length cases.items }
    ensures { IfOk result (λ s. (mark : ℕ) → StartsBehind mark (expr_tree discriminant.old) (clauses (take i cases.items)) → Switched mark span (expr_tree discriminant.old) (clauses cases.items) s) }
{
    let mut front = cases;
    let back = front.split_off(i)?;
    let gone = bodies(alloc, front)?;
    let mut out = Vec::new(alloc);
    push_all_vars(alloc, &gone, &mut out)?;
    let rest = SwitchStmt {
        span,
        discriminant: Box::new(alloc, take_expr(discriminant))?,
        cases: back,
    };
    out.push(Stmt::Switch(rest))?;
    Ok(as_one(span, out))
}
