//! A `do` in the body of a loop that runs its body once. Blocks, conditions, labels, `try` and `switch` may stand between the
//! two. The labels that are passed on the way are told: they may be those of the `do`.
ghost use Rattle.std.specs.Prelude.{◌≡◌, IfOk};
ghost use Rattle.swc_ast.specs.Parts.{optional_trees};
ghost use Rattle.swc_ast.specs.Statements.{block_tree, do_while_node, labeled_tree, option_block_tree, try_tree, while_node};
ghost use Rattle.swc_ast.specs.Views.{case_trees, for_tree, if_tree, loop_trees, stmt_tree, switch_tree};
ghost use Rattle.swc_utils.specs.Globals.{unresolved};
ghost use Rattle.tree_walk.specs.Walks.{Each};
ghost use Rattle.branch_rules.specs.Within as rules;
ghost use Rattle.branch_rules.specs.Within.{AllWithin, PartWithin, Within};
ghost use Rattle.branch_jumps.specs.Aims.{texts};
ghost use Rattle.branch_loops.specs.Bodies.{nowhere};
ghost use Rattle.branch_loops.specs.Runs.{CaseWithin, HandlerWithin, RunsDo, RunsWithin};

use crate::once::run_once;
use branch_jumps::{Labels, Sought};
use std::alloc::{AllocError, Global};
use swc_ast::{
    BlockStmt, CatchClause, DUMMY_SP, DoWhileStmt, ForStmt, IfStmt, LabeledStmt, Stmt, SwitchCase,
    SwitchStmt, TryStmt, WhileStmt,
};
use swc_utils::{ExprCtx, ExprExt, Value};
use tree_nodes::is_stopper;

/// A statement, in a block of its own where it ends its list, which is tidied already.
#[tactic(auto, using(swc_ast::proofs::Equations::forms))]
fn unstopped(alloc: Global, s: Stmt) -> Result<Stmt, AllocError>
    ensures { IfOk result (λ r. stmt_tree r ≡ rules.unstopped nowhere (stmt_tree s)) }
{
    if !is_stopper(&s) {
        return Ok(s);
    }
    let mut stmts = Vec::new(alloc);
    stmts.push(s)?;
    Ok(Stmt::Block(BlockStmt {
        span: DUMMY_SP,
        stmts,
    }))
}

/// What a `do` becomes that runs its body once, behind labels that may be its own.
fn turn_do(
    alloc: Global,
    ctx: &ExprCtx,
    labels: Option<&Labels<'_>>,
    n: &mut DoWhileStmt,
) -> Result<Option<Stmt>, AllocError>
    ensures { IfOk result (λ o. RunsDo (unresolved ctx.now) (texts labels.entry) (do_while_node (loop_trees n.old)) (do_while_node (loop_trees n.new)) o) }
{
    match n.test.as_pure_bool(ctx) {
        Value::Known(false) => match run_once(alloc, Sought::Only(labels), &mut n.body) {
            Some(once) => Ok(Some(unstopped(alloc, once)?)),
            None => Ok(None),
        },
        Value::Known(true) | Value::Unknown => Ok(None),
    }
}

/// The same of a statement.
#[tactic(auto, using(swc_ast::proofs::Equations::forms))]
fn take_do(
    alloc: Global,
    ctx: &ExprCtx,
    labels: Option<&Labels<'_>>,
    s: &mut Stmt,
) -> Result<Option<Stmt>, AllocError>
    ensures { IfOk result (λ o. RunsDo (unresolved ctx.now) (texts labels.entry) (stmt_tree s.old) (stmt_tree s.new) o) }
{
    match s {
        Stmt::DoWhile(n) => turn_do(alloc, ctx, labels, n),
        _ => Ok(None),
    }
}

/// Puts what a `do` becomes into its place, and says whether it becomes something.
fn run_do(
    alloc: Global,
    ctx: &ExprCtx,
    labels: Option<&Labels<'_>>,
    s: &mut Stmt,
) -> Result<bool, AllocError>
    ensures { IfOk result (λ c. Within (unresolved ctx.now) (texts labels.entry) c (stmt_tree s.old) (stmt_tree s.new)) }
{
    match take_do(alloc, ctx, labels, s)? {
        Some(once) => {
            *s = once;
            Ok(true)
        }
        None => Ok(false),
    }
}

/// Each `do` in a statement of a loop's body, outside the loops in it.
#[cycle(within)]
#[tactic(auto, using(swc_ast::proofs::Equations::forms))]
fn run_inside(
    alloc: Global,
    ctx: &ExprCtx,
    labels: Option<&Labels<'_>>,
    s: &mut Stmt,
) -> Result<bool, AllocError>
    ensures { IfOk result (λ c. Within (unresolved ctx.now) (texts labels.entry) c (stmt_tree s.old) (stmt_tree s.new)) }
{
    match s {
        Stmt::Block(n) => run_block(alloc, ctx, labels, n),
        Stmt::If(n) => run_arms(alloc, ctx, labels, n),
        Stmt::Labeled(n) => run_labelled(alloc, ctx, labels, n),
        Stmt::Try(n) => run_boxed_try(alloc, ctx, labels, n),
        Stmt::Switch(n) => run_switch(alloc, ctx, labels, n),
        _ => run_do(alloc, ctx, labels, s),
    }
}

#[cycle(within)]
fn run_block(
    alloc: Global,
    ctx: &ExprCtx,
    labels: Option<&Labels<'_>>,
    n: &mut BlockStmt,
) -> Result<bool, AllocError>
    ensures { IfOk result (λ c. Within (unresolved ctx.now) (texts labels.entry) c (block_tree stmt_tree n.old) (block_tree stmt_tree n.new)) }
{
    let made = run_part(alloc, ctx, labels, n)?;
    Ok(made)
}

/// A block that is a part of something else.
#[cycle(within)]
fn run_part(
    alloc: Global,
    ctx: &ExprCtx,
    labels: Option<&Labels<'_>>,
    n: &mut BlockStmt,
) -> Result<bool, AllocError>
    ensures { IfOk result (λ c. PartWithin (unresolved ctx.now) (texts labels.entry) c (block_tree stmt_tree n.old) (block_tree stmt_tree n.new)) }
{
    let made = run_stmts(alloc, ctx, labels, &mut n.stmts)?;
    Ok(made)
}

#[cycle(within)]
fn run_stmts(
    alloc: Global,
    ctx: &ExprCtx,
    labels: Option<&Labels<'_>>,
    stmts: &mut Vec<Stmt>,
) -> Result<bool, AllocError>
    ensures { IfOk result (λ c. Each (λ x y d. Within (unresolved ctx.now) (texts labels.entry) d (stmt_tree x) (stmt_tree y)) stmts.old.items stmts.new.items c) }
{
    let mut changed = false;
    for i in 0..stmts.len() {
        let made = run_inside(alloc, ctx, labels, &mut stmts[i])?;
        changed = changed | made;
    }
    Ok(changed)
}

#[cycle(within)]
fn run_arms(
    alloc: Global,
    ctx: &ExprCtx,
    labels: Option<&Labels<'_>>,
    n: &mut IfStmt,
) -> Result<bool, AllocError>
    ensures { IfOk result (λ c. Within (unresolved ctx.now) (texts labels.entry) c (if_tree n.old) (if_tree n.new)) }
{
    let cons = run_boxed(alloc, ctx, labels, &mut n.cons)?;
    let alt = run_option(alloc, ctx, labels, &mut n.alt)?;
    Ok(cons | alt)
}

#[cycle(within)]
fn run_boxed(
    alloc: Global,
    ctx: &ExprCtx,
    labels: Option<&Labels<'_>>,
    s: &mut Box<Stmt>,
) -> Result<bool, AllocError>
    ensures { IfOk result (λ c. Within (unresolved ctx.now) (texts labels.entry) c (stmt_tree s.old.value) (stmt_tree s.new.value)) }
{
    run_inside(alloc, ctx, labels, s)
}

#[cycle(within)]
fn run_option(
    alloc: Global,
    ctx: &ExprCtx,
    labels: Option<&Labels<'_>>,
    s: &mut Option<Box<Stmt>>,
) -> Result<bool, AllocError>
    ensures { IfOk result (λ c. AllWithin (unresolved ctx.now) (texts labels.entry) c (optional_trees stmt_tree s.old) (optional_trees stmt_tree s.new)) }
{
    match s {
        Some(n) => {
            let made = run_boxed(alloc, ctx, labels, n)?;
            Ok(made)
        }
        None => Ok(false),
    }
}

/// What stands behind a label, which may be that of a `do`.
#[cycle(within)]
fn run_labelled(
    alloc: Global,
    ctx: &ExprCtx,
    labels: Option<&Labels<'_>>,
    n: &mut LabeledStmt,
) -> Result<bool, AllocError>
    ensures { IfOk result (λ c. Within (unresolved ctx.now) (texts labels.entry) c (labeled_tree stmt_tree n.old) (labeled_tree stmt_tree n.new)) }
{
    let near = Labels::new(&n.label.sym, labels);
    let made = run_boxed(alloc, ctx, Some(&near), &mut n.body)?;
    Ok(made)
}

#[cycle(within)]
fn run_boxed_try(
    alloc: Global,
    ctx: &ExprCtx,
    labels: Option<&Labels<'_>>,
    n: &mut Box<TryStmt>,
) -> Result<bool, AllocError>
    ensures { IfOk result (λ c. Within (unresolved ctx.now) (texts labels.entry) c (try_tree stmt_tree n.old.value) (try_tree stmt_tree n.new.value)) }
{
    run_try(alloc, ctx, labels, n)
}

#[cycle(within)]
fn run_try(
    alloc: Global,
    ctx: &ExprCtx,
    labels: Option<&Labels<'_>>,
    n: &mut TryStmt,
) -> Result<bool, AllocError>
    ensures { IfOk result (λ c. Within (unresolved ctx.now) (texts labels.entry) c (try_tree stmt_tree n.old) (try_tree stmt_tree n.new)) }
{
    let block = run_part(alloc, ctx, labels, &mut n.block)?;
    let handler = run_handler(alloc, ctx, labels, &mut n.handler)?;
    let finalizer = run_finalizer(alloc, ctx, labels, &mut n.finalizer)?;
    Ok(block | (handler | finalizer))
}

#[cycle(within)]
fn run_handler(
    alloc: Global,
    ctx: &ExprCtx,
    labels: Option<&Labels<'_>>,
    h: &mut Option<CatchClause>,
) -> Result<bool, AllocError>
    ensures { IfOk result (λ c. HandlerWithin (unresolved ctx.now) (texts labels.entry) h.old h.new c) }
{
    match h {
        Some(n) => {
            let made = run_part(alloc, ctx, labels, &mut n.body)?;
            Ok(made)
        }
        None => Ok(false),
    }
}

#[cycle(within)]
fn run_finalizer(
    alloc: Global,
    ctx: &ExprCtx,
    labels: Option<&Labels<'_>>,
    f: &mut Option<BlockStmt>,
) -> Result<bool, AllocError>
    ensures { IfOk result (λ c. PartWithin (unresolved ctx.now) (texts labels.entry) c (option_block_tree stmt_tree f.old) (option_block_tree stmt_tree f.new)) }
{
    match f {
        Some(n) => {
            let made = run_part(alloc, ctx, labels, n)?;
            Ok(made)
        }
        None => Ok(false),
    }
}

#[cycle(within)]
fn run_switch(
    alloc: Global,
    ctx: &ExprCtx,
    labels: Option<&Labels<'_>>,
    n: &mut SwitchStmt,
) -> Result<bool, AllocError>
    ensures { IfOk result (λ c. Within (unresolved ctx.now) (texts labels.entry) c (switch_tree n.old) (switch_tree n.new)) }
{
    let made = run_cases(alloc, ctx, labels, &mut n.cases)?;
    Ok(made)
}

#[cycle(within)]
fn run_cases(
    alloc: Global,
    ctx: &ExprCtx,
    labels: Option<&Labels<'_>>,
    cases: &mut Vec<SwitchCase>,
) -> Result<bool, AllocError>
    ensures { IfOk result (λ c. Each (λ x y d. CaseWithin (unresolved ctx.now) (texts labels.entry) (case_trees x) (case_trees y) d) cases.old.items cases.new.items c) }
{
    let mut changed = false;
    for i in 0..cases.len() {
        let made = run_case(alloc, ctx, labels, &mut cases[i])?;
        changed = changed | made;
    }
    Ok(changed)
}

#[cycle(within)]
fn run_case(
    alloc: Global,
    ctx: &ExprCtx,
    labels: Option<&Labels<'_>>,
    n: &mut SwitchCase,
) -> Result<bool, AllocError>
    ensures { IfOk result (λ c. CaseWithin (unresolved ctx.now) (texts labels.entry) (case_trees n.old) (case_trees n.new) c) }
{
    let made = run_stmts(alloc, ctx, labels, &mut n.cons)?;
    Ok(made)
}

fn run_while(alloc: Global, ctx: &ExprCtx, n: &mut WhileStmt) -> Result<bool, AllocError>
    ensures { IfOk result (λ c. RunsWithin (unresolved ctx.now) (while_node (loop_trees n.old)) (while_node (loop_trees n.new)) c) }
{
    let made = run_boxed(alloc, ctx, None, &mut n.body)?;
    Ok(made)
}

fn run_do_while(alloc: Global, ctx: &ExprCtx, n: &mut DoWhileStmt) -> Result<bool, AllocError>
    ensures { IfOk result (λ c. RunsWithin (unresolved ctx.now) (do_while_node (loop_trees n.old)) (do_while_node (loop_trees n.new)) c) }
{
    let made = run_boxed(alloc, ctx, None, &mut n.body)?;
    Ok(made)
}

fn run_boxed_for(alloc: Global, ctx: &ExprCtx, n: &mut Box<ForStmt>) -> Result<bool, AllocError>
    ensures { IfOk result (λ c. RunsWithin (unresolved ctx.now) (for_tree n.old.value) (for_tree n.new.value) c) }
{
    run_for(alloc, ctx, n)
}

fn run_for(alloc: Global, ctx: &ExprCtx, n: &mut ForStmt) -> Result<bool, AllocError>
    ensures { IfOk result (λ c. RunsWithin (unresolved ctx.now) (for_tree n.old) (for_tree n.new) c) }
{
    let made = run_boxed(alloc, ctx, None, &mut n.body)?;
    Ok(made)
}

/// In the body of a loop, each `do` that runs its body once becomes what is left of that; false where there is none, and at
/// other statements. Fails where memory is refused.
#[tactic(auto, using(swc_ast::proofs::Equations::forms, crate::proofs::WithinSteps::runs_as_before))]
pub fn run_within(alloc: Global, ctx: &ExprCtx, s: &mut Stmt) -> Result<bool, AllocError>
    ensures { IfOk result (λ c. RunsWithin (unresolved ctx.now) (stmt_tree s.old) (stmt_tree s.new) c) }
{
    match s {
        Stmt::While(n) => run_while(alloc, ctx, n),
        Stmt::DoWhile(n) => run_do_while(alloc, ctx, n),
        Stmt::For(n) => run_boxed_for(alloc, ctx, n),
        _ => Ok(false),
    }
}
