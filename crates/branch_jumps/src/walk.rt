//! The walk over statements. No jump leaves an expression, so it enters none.
ghost use Rattle.std.specs.Prelude.{◌≡◌, List, map};
ghost use Rattle.swc_ast.specs.Parts.{list_trees, optional_trees};
ghost use Rattle.swc_ast.specs.Statements.{block_tree, break_tree, case_children, continue_tree, handler_tree, labeled_tree, option_block_tree, try_tree};
ghost use Rattle.swc_ast.specs.Tree.{Text};
ghost use Rattle.swc_ast.specs.Views.{case_trees, if_tree, stmt_tree};
ghost use Rattle.branch_rules.specs.Jumps.{escapes, escapes_behind, some_escape};
ghost use Rattle.branch_jumps.specs.Aims.{kinds, texts};

use crate::aims::{Jumps, Labels};
use swc_ast::{
    BlockStmt, BreakStmt, CatchClause, ContinueStmt, IfStmt, LabeledStmt, Stmt, SwitchCase, TryStmt,
};

fn is_break(jumps: Jumps<'_>, n: &BreakStmt) -> bool
    ensures { (near : List Text) → result ≡ escapes_behind near (kinds jumps.entry) (break_tree n.now) }
{
    match &n.label {
        Some(_) => false,
        None => jumps.breaks,
    }
}

fn is_continue(jumps: Jumps<'_>, n: &ContinueStmt) -> bool
    ensures { (near : List Text) → result ≡ escapes_behind near (kinds jumps.entry) (continue_tree n.now) }
{
    match &n.label {
        Some(label) => jumps.has_label(&label.sym),
        None => jumps.continues,
    }
}

/// Whether a jump of some kinds may leave a statement: one that stands outside functions, and outside loops and switches
/// that it is aimed at.
#[cycle(jumps)]
pub fn has_jump(jumps: Jumps<'_>, s: &Stmt) -> bool
    ensures { result ≡ escapes (kinds jumps.entry) (stmt_tree s.now) }
{
    has_jump_behind(jumps, jumps.inside, s)
}

/// The same of a statement right behind labels, which come before those of the loops round it.
#[cycle(jumps)]
#[tactic(auto, using(swc_ast::proofs::Equations::forms, crate::proofs::Nodes::nodes))]
fn has_jump_behind(jumps: Jumps<'_>, near: Option<&Labels<'_>>, s: &Stmt) -> bool
    ensures { result ≡ escapes_behind (texts near.entry) (kinds jumps.entry) (stmt_tree s.now) }
{
    match s {
        Stmt::Block(n) => block_has_jump(jumps, n),
        Stmt::Labeled(n) => label_has_jump(jumps, near, n),
        Stmt::Break(n) => is_break(jumps, n),
        Stmt::Continue(n) => is_continue(jumps, n),
        Stmt::If(n) => if_has_jump(jumps, n),
        Stmt::Switch(n) => cases_have_jump(jumps.in_switch(), &n.cases),
        Stmt::Try(n) => try_has_jump(jumps, n),
        Stmt::While(n) => has_jump(jumps.in_loop(near), &n.body),
        Stmt::DoWhile(n) => has_jump(jumps.in_loop(near), &n.body),
        Stmt::For(n) => has_jump(jumps.in_loop(near), &n.body),
        Stmt::Empty(_) => false,
        Stmt::Return(_) => false,
        Stmt::Throw(_) => false,
        Stmt::Expr(_) => false,
        Stmt::Decl(_) => false,
    }
}

#[cycle(jumps)]
fn label_has_jump(jumps: Jumps<'_>, near: Option<&Labels<'_>>, n: &LabeledStmt) -> bool
    ensures { result ≡ escapes_behind (texts near.entry) (kinds jumps.entry) (labeled_tree stmt_tree n.now) }
{
    let labels = Labels::new(&n.label.sym, near);
    has_jump_behind(jumps, Some(&labels), &n.body)
}

/// The same of one of some statements.
#[cycle(jumps)]
pub fn have_jumps(jumps: Jumps<'_>, stmts: &[Stmt]) -> bool
    ensures { result ≡ some_escape (kinds jumps.entry) (list_trees stmt_tree stmts.now) }
{
    for s in stmts {
        if has_jump(jumps, s) {
            return true;
        }
    }
    false
}

#[cycle(jumps)]
fn block_has_jump(jumps: Jumps<'_>, n: &BlockStmt) -> bool
    ensures { result ≡ escapes (kinds jumps.entry) (block_tree stmt_tree n.now) }
{
    have_jumps(jumps, &n.stmts)
}

#[cycle(jumps)]
#[tactic(auto, using(swc_ast::proofs::Equations::forms, crate::proofs::Nodes::if_escapes))]
fn if_has_jump(jumps: Jumps<'_>, n: &IfStmt) -> bool
    ensures { (near : List Text) → result ≡ escapes_behind near (kinds jumps.entry) (if_tree n.now) }
{
    has_jump(jumps, &n.cons) || option_has_jump(jumps, &n.alt)
}

#[cycle(jumps)]
fn option_has_jump(jumps: Jumps<'_>, o: &Option<Box<Stmt>>) -> bool
    ensures { result ≡ some_escape (kinds jumps.entry) (optional_trees stmt_tree o.now) }
{
    match o {
        Some(s) => has_jump(jumps, s),
        None => false,
    }
}

#[cycle(jumps)]
fn handler_has_jump(jumps: Jumps<'_>, o: &Option<CatchClause>) -> bool
    ensures { result ≡ escapes (kinds jumps.entry) (handler_tree stmt_tree o.now) }
{
    match o {
        Some(n) => block_has_jump(jumps, &n.body),
        None => false,
    }
}

#[cycle(jumps)]
fn option_block_has_jump(jumps: Jumps<'_>, o: &Option<BlockStmt>) -> bool
    ensures { result ≡ escapes (kinds jumps.entry) (option_block_tree stmt_tree o.now) }
{
    match o {
        Some(n) => block_has_jump(jumps, n),
        None => false,
    }
}

#[cycle(jumps)]
#[tactic(auto, using(crate::proofs::Nodes::try_escapes))]
fn try_has_jump(jumps: Jumps<'_>, n: &TryStmt) -> bool
    ensures { result ≡ escapes (kinds jumps.entry) (try_tree stmt_tree n.now) }
{
    block_has_jump(jumps, &n.block)
        || handler_has_jump(jumps, &n.handler)
        || option_block_has_jump(jumps, &n.finalizer)
}

/// Whether such a jump stands in one of some cases.
#[cycle(jumps)]
fn cases_have_jump(jumps: Jumps<'_>, cases: &[SwitchCase]) -> bool
    ensures { result ≡ some_escape (kinds jumps.entry) (case_children (map case_trees cases.now)) }
{
    for case in cases {
        if have_jumps(jumps, &case.cons) {
            return true;
        }
    }
    false
}
