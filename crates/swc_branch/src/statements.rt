//! The rules of statements.
ghost use Rattle.std.specs.Prelude.{ℕ, ◌≡◌, ◌≤◌, false, IfOk, IsNone, IsTrue, OnOk};
ghost use Rattle.swc_ast.specs.Statements.{try_tree};
ghost use Rattle.swc_ast.specs.Tree.{Tree, label_of};
ghost use Rattle.swc_ast.specs.Views.{for_tree, stmt_tree};
ghost use Rattle.swc_ast.specs.Weight.{is_list};
ghost use Rattle.swc_utils.specs.Globals.{unresolved};
ghost use Rattle.swc_ast.specs.declared.statements.Stmt.{size-Stmt};
ghost use Rattle.tree_walk.specs.Walks.{Opened};
ghost use Rattle.branch_rules.specs.Removes.{Removes, Rests, remove_pass};
ghost use Rattle.branch_rules.specs.Turns.{Turns};

use branch_loops::{fold_do, fold_for, fold_while};
use branch_statements::{fold_block, fold_expression, fold_if, fold_label, fold_try};
use branch_switch::{fold_switch, shed_switch};
use std::alloc::{AllocError, Global};
use swc_ast::{ForStmt, Stmt, TryStmt};
use swc_utils::ExprCtx;

fn fold_boxed_try(alloc: Global, n: &mut Box<TryStmt>) -> Result<Option<Stmt>, AllocError>
    ensures steps { IfOk result (λ o. (mark : ℕ) → Turns mark (try_tree stmt_tree n.old.value) (try_tree stmt_tree n.new.value) o) }
    ensures finished { IfOk result (λ o. IsNone o → Rests (try_tree stmt_tree n.new.value)) }
{
    fold_try(alloc, n)
}

fn fold_boxed_for(
    alloc: Global,
    ctx: &ExprCtx,
    n: &mut Box<ForStmt>,
) -> Result<Option<Stmt>, AllocError>
    ensures steps { IfOk result (λ o. Turns (unresolved ctx.now) (for_tree n.old.value) (for_tree n.new.value) o) }
    ensures finished { IfOk result (λ o. IsNone o → Rests (for_tree n.new.value)) }
{
    fold_for(alloc, ctx, n)
}

/// What takes a statement's place, whose children are done. None: no rule fits, and it is as it was. Fails where memory
/// is refused.
#[tactic(auto, using(swc_ast::proofs::Equations::forms, crate::proofs::Resting::decl_rests, crate::proofs::Resting::unruled, crate::proofs::Turning::unturned))]
pub(crate) fn fold_stmt(
    alloc: Global,
    ctx: &ExprCtx,
    s: &mut Stmt,
) -> Result<Option<Stmt>, AllocError>
    ensures steps { IfOk result (λ o. Turns (unresolved ctx.now) (stmt_tree s.old) (stmt_tree s.new) o) }
    ensures finished { IfOk result (λ o. IsNone o → Rests (stmt_tree s.new)) }
{
    match s {
        Stmt::Expr(n) => fold_expression(alloc, ctx, n),
        Stmt::If(n) => fold_if(alloc, ctx, n),
        Stmt::Block(n) => Ok(fold_block(n)),
        Stmt::Labeled(n) => Ok(fold_label(n)),
        Stmt::Try(n) => fold_boxed_try(alloc, n),
        Stmt::While(n) => fold_while(alloc, ctx, n),
        Stmt::For(n) => fold_boxed_for(alloc, ctx, n),
        Stmt::DoWhile(n) => fold_do(alloc, ctx, n),
        Stmt::Switch(n) => fold_switch(alloc, ctx, n),
        Stmt::Empty(_)
        | Stmt::Return(_)
        | Stmt::Break(_)
        | Stmt::Continue(_)
        | Stmt::Throw(_)
        | Stmt::Decl(_) => Ok(None),
    }
}

/// What there is to do at a statement before its children are walked: a `switch` on a known value loses `let` and `const` of
/// cases that no run comes to. False: it is as it was. Fails where memory is refused.
#[tactic(auto, using(swc_ast::proofs::Equations::forms, crate::proofs::Depths::switched_size))]
pub(crate) fn open_stmt(alloc: Global, ctx: &ExprCtx, s: &mut Stmt) -> Result<bool, AllocError>
    ensures opens { IfOk result (λ changed. Opened (remove_pass (unresolved ctx.now)) changed (stmt_tree s.old) (stmt_tree s.new)) }
    ensures no_deeper { IfOk result (λ changed. size-Stmt s.new ≤ size-Stmt s.old) }
{
    match s {
        Stmt::Switch(n) => shed_switch(alloc, ctx, n),
        _ => Ok(false),
    }
}

/// As many rules at most take a `for` behind the first one: on its first part, its update, its test and its body.
const FURTHER: usize = 5;

/// Whether a statement is a loop.
#[tactic(auto, using(swc_ast::proofs::Equations::forms))]
pub(crate) fn is_loop(s: &Stmt) -> bool
    ensures { IsTrue result → is_list (label_of (stmt_tree s.now)) ≡ false }
{
    match s {
        Stmt::While(_) => true,
        Stmt::DoWhile(_) => true,
        Stmt::For(_) => true,
        _ => false,
    }
}

/// What takes the place of a `for`, by one rule. None where no rule fits, and at other statements.
#[tactic(auto, using(swc_ast::proofs::Equations::forms, crate::proofs::Turning::unturned))]
fn fold_again(alloc: Global, ctx: &ExprCtx, s: &mut Stmt) -> Result<Option<Stmt>, AllocError>
    ensures { IfOk result (λ o. Turns (unresolved ctx.now) (stmt_tree s.old) (stmt_tree s.new) o) }
{
    match s {
        Stmt::For(n) => fold_boxed_for(alloc, ctx, n),
        _ => Ok(None),
    }
}

/// Puts what a rule makes of a `for` into its place, and says whether there is one.
fn go_on(alloc: Global, ctx: &ExprCtx, s: &mut Stmt) -> Result<bool, AllocError>
    ensures { IfOk result (λ c. (t : Tree) → is_list (label_of t) ≡ false → Removes (unresolved ctx.now) t (stmt_tree s.old) → Removes (unresolved ctx.now) t (stmt_tree s.new)) }
{
    match fold_again(alloc, ctx, s)? {
        Some(turned) => {
            *s = turned;
            Ok(true)
        }
        None => Ok(false),
    }
}

/// The rules of `for`, one behind another, where a statement became one.
pub(crate) fn finish_for(alloc: Global, ctx: &ExprCtx, s: &mut Stmt) -> Result<(), AllocError>
    ensures { OnOk result ((t : Tree) → is_list (label_of t) ≡ false → Removes (unresolved ctx.now) t (stmt_tree s.old) → Removes (unresolved ctx.now) t (stmt_tree s.new)) }
{
    for _ in 0..FURTHER {
        if !go_on(alloc, ctx, s)? {
            return Ok(());
        }
    }
    Ok(())
}
