//! What a look at the parts of a loop tells.
ghost use Rattle.std.specs.Prelude.{◌<◌, ◌≡◌, false, IsTrue};
ghost use Rattle.swc_ast.specs.Parts.{optional_trees};
ghost use Rattle.swc_ast.specs.Views.{decl_tree, expr_tree, stmt_tree};
ghost use Rattle.swc_ast.specs.Weight.{is_truth_or_absent, weight, weight_all};
ghost use Rattle.branch_loops.specs.Bodies.{is_heavy as tree_is_heavy, Outweighs};

use swc_ast::{Decl, Expr, Lit, ReturnStmt, Stmt};

/// Whether an expression is `true` or `false`.
#[tactic(auto, using(swc_ast::proofs::Equations::forms, crate::proofs::Apart::no_literal))]
pub(crate) fn is_truth(e: &Expr) -> bool
    ensures { result ≡ false → is_truth_or_absent (expr_tree e.now) ≡ false }
{
    match e {
        Expr::Lit(n) => match n {
            Lit::Bool(_) => true,
            Lit::Str(_) | Lit::Num(_) | Lit::Null(_) => false,
        },
        _ => false,
    }
}

/// Whether an expression is sure to weigh something: what is left where one was moved out weighs nothing.
#[tactic(auto, using(crate::proofs::Apart::some_weight))]
pub(crate) fn weighs(e: &Expr) -> bool
    ensures { IsTrue result → 0 < weight (expr_tree e.now) }
{
    match e {
        Expr::Invalid(_) => false,
        _ => true,
    }
}

#[tactic(auto, using(swc_ast::proofs::Equations::forms))]
fn is_heavy_decl(n: &Decl) -> bool
    ensures { result ≡ tree_is_heavy (decl_tree n.now) }
{
    match n {
        Decl::Fn(_) => false,
        Decl::Var(_) => false,
    }
}

/// Whether a statement is sure to weigh more than a declaration of its `var` names by itself.
#[tactic(auto, using(swc_ast::proofs::Equations::forms))]
fn is_heavy(s: &Stmt) -> bool
    ensures { result ≡ tree_is_heavy (stmt_tree s.now) }
{
    match s {
        Stmt::Block(_)
        | Stmt::If(_)
        | Stmt::Switch(_)
        | Stmt::Try(_)
        | Stmt::While(_)
        | Stmt::DoWhile(_)
        | Stmt::For(_)
        | Stmt::Expr(_) => true,
        Stmt::Empty(_)
        | Stmt::Return(_)
        | Stmt::Labeled(_)
        | Stmt::Break(_)
        | Stmt::Continue(_)
        | Stmt::Throw(_) => false,
        Stmt::Decl(n) => is_heavy_decl(n),
    }
}

/// Whether what is returned is sure to weigh something.
fn returns_weight(n: &ReturnStmt) -> bool
    ensures { IsTrue result → 0 < weight_all (optional_trees expr_tree n.now.arg) }
{
    match &n.arg {
        Some(e) => weighs(e),
        None => false,
    }
}

/// Whether a statement is sure to weigh more than a declaration of its `var` names.
pub(crate) fn outweighs(s: &Stmt) -> bool
    ensures { IsTrue result → Outweighs (stmt_tree s.now) }
{
    match s {
        Stmt::Throw(n) => weighs(&n.arg),
        Stmt::Return(n) => returns_weight(n),
        Stmt::Labeled(_) => true,
        _ => is_heavy(s),
    }
}
