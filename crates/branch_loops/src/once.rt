//! A body that is run once.
ghost use Rattle.std.specs.Prelude.{◌≡◌, true, IfSome, IsTrue};
ghost use Rattle.swc_ast.specs.Parts.{list_trees};
ghost use Rattle.swc_ast.specs.Statements.{block_tree};
ghost use Rattle.swc_ast.specs.Views.{decl_tree, stmt_tree};
ghost use Rattle.branch_jumps.specs.Aims.{sought};
ghost use Rattle.branch_rules.specs.Once as rules;
ghost use Rattle.branch_loops.specs.Runs.{is_function_tree, JumpAt, Once};

use branch_jumps::{Jumps, Sought, has_jump};
use branch_parts::{is_plain, take_stmt};
use std::alloc::Global;
use std::mem;
use swc_ast::{BlockStmt, DUMMY_SP, Decl, EmptyStmt, Stmt};

/// Whether a statement is `break` or `continue` without a label.
#[tactic(auto, using(swc_ast::proofs::Equations::forms))]
fn is_jump(s: &Stmt) -> bool
    ensures { IsTrue result → rules.is_jump (stmt_tree s.now) ≡ true }
{
    match s {
        Stmt::Break(n) => n.label.is_none(),
        Stmt::Continue(n) => n.label.is_none(),
        _ => false,
    }
}

#[tactic(auto, using(swc_ast::proofs::Equations::forms))]
fn is_function_decl(n: &Decl) -> bool
    ensures { IsTrue result → is_function_tree (decl_tree n.now) ≡ true }
{
    match n {
        Decl::Fn(_) => true,
        Decl::Var(_) => false,
    }
}

/// Whether a statement declares a function.
#[tactic(auto, using(swc_ast::proofs::Equations::forms))]
fn is_function(s: &Stmt) -> bool
    ensures { IsTrue result → is_function_tree (stmt_tree s.now) ≡ true }
{
    match s {
        Stmt::Decl(n) => is_function_decl(n),
        _ => false,
    }
}

fn are_functions(stmts: &[Stmt]) -> bool
    ensures { IsTrue result → rules.all_functions (list_trees stmt_tree stmts.now) ≡ true }
{
    let mut left = stmts;
    while let [s, rest @ ..] = left {
        if !is_function(s) {
            return false;
        }
        left = rest;
    }
    true
}

/// Where the first direct jump stands, if no jump aimed at a loop round the statements stands in those before it, and
/// nothing but functions behind it.
fn jump_place(labels: Sought<'_>, stmts: &[Stmt]) -> Option<usize>
    ensures { IfSome result (λ i. JumpAt (sought labels.entry) i stmts.now) }
{
    let mut left = stmts;
    let mut place = 0;
    while let [s, rest @ ..] = left {
        if is_jump(s) {
            if are_functions(rest) {
                return Some(place);
            }
            return None;
        }
        if has_jump(Jumps::looping(labels), s) {
            return None;
        }
        place += 1;
        left = rest;
    }
    None
}

/// A block whose first direct jump goes.
fn run_front(alloc: Global, labels: Sought<'_>, n: &mut BlockStmt) -> Option<Stmt>
    ensures { Once (sought labels.entry) (block_tree stmt_tree n.old) (block_tree stmt_tree n.new) result }
{
    match jump_place(labels, &n.stmts) {
        Some(place) => {
            let mut stmts = mem::replace(&mut n.stmts, Vec::new(alloc));
            drop(stmts.remove(place));
            Some(Stmt::Block(BlockStmt {
                span: n.span,
                stmts,
            }))
        }
        None => None,
    }
}

/// What a body that is run once becomes without the loop round it, whose labels are among some, if no jump that is aimed at
/// the loop is left in it.
#[tactic(auto, using(swc_ast::proofs::Equations::forms))]
pub(crate) fn run_once(alloc: Global, labels: Sought<'_>, body: &mut Stmt) -> Option<Stmt>
    ensures { Once (sought labels.entry) (stmt_tree body.old) (stmt_tree body.new) result }
{
    if is_jump(body) {
        return Some(Stmt::Empty(EmptyStmt { span: DUMMY_SP }));
    }
    if is_plain(body) && !has_jump(Jumps::looping(labels), body) {
        return Some(take_stmt(body));
    }
    match body {
        Stmt::Block(n) => run_front(alloc, labels, n),
        _ => None,
    }
}
