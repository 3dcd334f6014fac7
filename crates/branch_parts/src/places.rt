//! What is moved out of its place, and what is put into one.
ghost use Rattle.std.specs.Prelude.{◌≡◌, ◌∷◌, []};
ghost use Rattle.swc_ast.specs.Parts.{list_trees};
ghost use Rattle.swc_ast.specs.Views.{expr_tree, stmt_tree};
ghost use Rattle.branch_rules.specs.Statements.{as_statement};

use std::mem;
use swc_ast::{BlockStmt, DUMMY_SP, EmptyStmt, Expr, Invalid, Span, Stmt};

/// Moves a statement out of its place, and leaves an empty one there.
pub fn take_stmt(s: &mut Stmt) -> Stmt
    ensures { stmt_tree result ≡ stmt_tree s.old }
{
    mem::replace(s, Stmt::Empty(EmptyStmt { span: DUMMY_SP }))
}

/// Moves an expression out of its place, and leaves one there that means nothing.
pub fn take_expr(e: &mut Expr) -> Expr
    ensures { expr_tree result ≡ expr_tree e.old }
{
    mem::replace(e, Expr::Invalid(Invalid { span: DUMMY_SP }))
}

/// Some statements as one: none as an empty statement, one as itself, and more as a block.
#[tactic(auto, using(swc_ast::proofs::Equations::forms))]
pub fn as_one(span: Span, stmts: Vec<Stmt>) -> Stmt
    ensures { stmt_tree result ≡ as_statement (span ∷ []) (list_trees stmt_tree stmts.items) }
{
    let mut stmts = stmts;
    if stmts.len() > 1 {
        return Stmt::Block(BlockStmt { span, stmts });
    }
    match stmts.pop() {
        Some(s) => s,
        None => Stmt::Empty(EmptyStmt { span }),
    }
}
