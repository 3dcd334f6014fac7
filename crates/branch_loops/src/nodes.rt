//! Loops that are moved out of their places, and what is put into them.
ghost use Rattle.std.specs.Prelude.{◌≡◌, IfOk};
ghost use Rattle.swc_ast.specs.Statements.{while_node};
ghost use Rattle.swc_ast.specs.Views.{expr_tree, for_tree, loop_trees, stmt_tree};
ghost use Rattle.branch_loops.specs.Bodies.{IsNames, truth_tree};

use branch_parts::{take_expr, take_stmt};
use branch_vars::declare_vars;
use std::alloc::{AllocError, Global};
use std::mem;
use swc_ast::{Bool, DUMMY_SP, EmptyStmt, Expr, ForStmt, Lit, Stmt, WhileStmt};

/// `true` or `false`.
#[tactic(auto, using(swc_ast::proofs::Equations::forms))]
pub(crate) fn truth_literal(value: bool) -> Expr
    ensures { expr_tree result ≡ truth_tree value }
{
    Expr::Lit(Lit::Bool(Bool {
        span: DUMMY_SP,
        value,
    }))
}

/// A declaration of the `var` names of a body that goes; an empty statement where it has none.
#[tactic(auto, using(swc_ast::proofs::Equations::forms))]
pub(crate) fn names_left(alloc: Global, body: &Stmt) -> Result<Stmt, AllocError>
    ensures { IfOk result (λ r. IsNames (stmt_tree body.now) (stmt_tree r)) }
{
    match declare_vars(alloc, body)? {
        Some(names) => Ok(names),
        None => Ok(Stmt::Empty(EmptyStmt { span: DUMMY_SP })),
    }
}

/// A `while`, moved out of its place.
#[tactic(auto, using(swc_ast::proofs::Equations::forms))]
pub(crate) fn take_while(alloc: Global, n: &mut WhileStmt) -> Result<Stmt, AllocError>
    ensures { IfOk result (λ s. stmt_tree s ≡ while_node (loop_trees n.old)) }
{
    let test = Box::new(alloc, take_expr(&mut n.test))?;
    let body = Box::new(alloc, take_stmt(&mut n.body))?;
    Ok(Stmt::While(WhileStmt {
        span: n.span,
        test,
        body,
    }))
}

/// A `for`, moved out of its place.
#[tactic(auto, using(swc_ast::proofs::Equations::forms))]
pub(crate) fn take_for(alloc: Global, n: &mut ForStmt) -> Result<Stmt, AllocError>
    ensures { IfOk result (λ s. stmt_tree s ≡ for_tree n.old) }
{
    let body = Box::new(alloc, take_stmt(&mut n.body))?;
    let node = ForStmt {
        span: n.span,
        init: mem::replace(&mut n.init, None),
        test: mem::replace(&mut n.test, None),
        update: mem::replace(&mut n.update, None),
        body,
    };
    let made = Box::new(alloc, node)?;
    Ok(Stmt::For(made))
}
