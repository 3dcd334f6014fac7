//! What a look at statements tells.
ghost use Rattle.std.specs.Prelude.{◌≡◌};
ghost use Rattle.swc_ast.specs.Parts.{list_trees};
ghost use Rattle.swc_ast.specs.Views.{decl_tree, stmt_tree};
ghost use Rattle.branch_rules.specs.Statements as rules;

use swc_ast::{Decl, Stmt, VarDeclKind};

#[tactic(auto, using(swc_ast::proofs::Equations::forms))]
fn is_plain_decl(n: &Decl) -> bool
    ensures { result ≡ rules.is_plain (decl_tree n.now) }
{
    match n {
        Decl::Fn(_) => false,
        Decl::Var(n) => match n.kind {
            VarDeclKind::Var => true,
            VarDeclKind::Let | VarDeclKind::Const => false,
        },
    }
}

/// Whether a statement declares neither `let`, `const` nor a function.
#[tactic(auto, using(swc_ast::proofs::Equations::forms))]
pub fn is_plain(s: &Stmt) -> bool
    ensures { result ≡ rules.is_plain (stmt_tree s.now) }
{
    match s {
        Stmt::Decl(n) => is_plain_decl(n),
        Stmt::Block(_)
        | Stmt::Empty(_)
        | Stmt::Return(_)
        | Stmt::Labeled(_)
        | Stmt::Break(_)
        | Stmt::Continue(_)
        | Stmt::If(_)
        | Stmt::Switch(_)
        | Stmt::Throw(_)
        | Stmt::Try(_)
        | Stmt::While(_)
        | Stmt::DoWhile(_)
        | Stmt::For(_)
        | Stmt::Expr(_) => true,
    }
}

/// Whether none of some statements declares `let`, `const` or a function.
pub fn are_plain(stmts: &[Stmt]) -> bool
    ensures { result ≡ rules.all_plain (list_trees stmt_tree stmts.now) }
{
    let mut left = stmts;
    while let [s, rest @ ..] = left {
        if !is_plain(s) {
            return false;
        }
        left = rest;
    }
    true
}
