//! Statements.
ghost use Rattle.std.specs.Prelude.{◌≡◌};
ghost use Rattle.swc_ast.specs.Views.{decl_tree, stmt_tree};
ghost use Rattle.swc_ast.specs.Weight as weight;

use swc_ast::{Decl, Stmt};

#[tactic(auto, using(swc_ast::proofs::Equations::forms))]
fn is_stopper_decl(n: &Decl) -> bool
    ensures { result ≡ weight.is_stopper (decl_tree n.now) }
{
    match n {
        Decl::Fn(_) => false,
        Decl::Var(_) => false,
    }
}

/// Whether a statement ends its list whenever it runs: nothing that stands behind it is reached.
#[tactic(auto, using(swc_ast::proofs::Equations::forms))]
pub fn is_stopper(s: &Stmt) -> bool
    ensures { result ≡ weight.is_stopper (stmt_tree s.now) }
{
    match s {
        Stmt::Return(_) | Stmt::Throw(_) | Stmt::Break(_) | Stmt::Continue(_) => true,
        Stmt::Block(_)
        | Stmt::Empty(_)
        | Stmt::Labeled(_)
        | Stmt::If(_)
        | Stmt::Switch(_)
        | Stmt::Try(_)
        | Stmt::While(_)
        | Stmt::DoWhile(_)
        | Stmt::For(_)
        | Stmt::Expr(_) => false,
        Stmt::Decl(n) => is_stopper_decl(n),
    }
}
