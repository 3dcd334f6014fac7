//! Places that are not entered.
ghost use Rattle.std.specs.Prelude.{◌≡◌, true, IsTrue, List};
ghost use Rattle.swc_ast.specs.Reach.{is_asm as tree_is_asm};
ghost use Rattle.swc_ast.specs.Tree.{ExprStmt, Label, node, ε, ◌⊳◌};
ghost use Rattle.swc_ast.specs.Views.{expr_tree, stmt_tree};
ghost use Rattle.swc_ast.specs.Weight.{is_list};
ghost use Rattle.swc_ast.specs.declared.Span.{Span as Place};
ghost use Rattle.dce_rules.specs.Shakes.{is_shut};
ghost use Rattle.dce_code.specs.Lists.{trees};

use stmt_like::StmtLike;
use swc_ast::{Expr, Lit, Stmt};

#[tactic(auto, using(swc_ast::proofs::Equations::forms))]
fn is_asm_text(e: &Expr) -> bool
    ensures { IsTrue result → (ss : List Place) → tree_is_asm (node ExprStmt ss (expr_tree e.now ⊳ ε)) ≡ true }
{
    match e {
        Expr::Lit(n) => match n {
            Lit::Str(n) => n.value.as_str() == "use asm",
            Lit::Num(_) | Lit::Bool(_) | Lit::Null(_) => false,
        },
        _ => false,
    }
}

/// Whether a statement is the directive `'use asm'`.
#[tactic(auto, using(swc_ast::proofs::Equations::forms))]
fn is_asm(s: &Stmt) -> bool
    ensures { IsTrue result → tree_is_asm (stmt_tree s.now) ≡ true }
{
    match s {
        Stmt::Expr(n) => is_asm_text(&n.expr),
        _ => false,
    }
}

/// Whether statements, or items of a module, begin with `'use asm'`: the list that they are is not entered.
#[tactic(auto, using(crate::proofs::NotEntered::shut_by_first))]
pub fn begins_with_asm<T: StmtLike>(items: &[T]) -> bool
    ensures { IsTrue result → (l : Label) → is_list l ≡ true → (ss : List Place) → is_shut (node l ss (trees T.item items.now)) ≡ true }
{
    let [first, ..] = items else {
        return false;
    };
    match first.as_stmt() {
        Some(s) => is_asm(s),
        None => false,
    }
}
