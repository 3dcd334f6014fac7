//! Marks and contexts, and what is written to.
ghost use Rattle.std.specs.Prelude.{◌≡◌, ◌≤◌, ◌<◌, ◌^◌, ◌↔◌, IfOk, IfErr, IfSome, IsOk, IsSome, IsTrue};
ghost use Rattle.swc_ast.specs.Expressions.{is_target, target_tree};
ghost use Rattle.swc_ast.specs.Marks.{context_number, mark_number};
ghost use Rattle.swc_ast.specs.Views.{expr_tree};

use swc_ast::{AssignTarget, Expr, Mark, SyntaxContext};

/// `Mark::new`
pub fn new_mark(n: u32) -> Option<Mark>
    ensures number { IfSome result (λ m. mark_number m ≡ n) }
    ensures made { IsSome result ↔ (1 ≤ n) × (n < 2 ^ 31) }
{
    Mark::new(n)
}

/// `SyntaxContext::apply_mark`
pub fn apply_mark(ctxt: SyntaxContext, mark: Mark) -> SyntaxContext
    ensures { context_number result ≡ mark_number mark }
{
    ctxt.apply_mark(mark)
}

/// `Expr::into_target`
pub fn into_target(e: Expr) -> Result<AssignTarget, Expr>
    ensures as_read { IfOk result (λ t. target_tree expr_tree t ≡ expr_tree e) }
    ensures given_back { IfErr result (λ back. back ≡ e) }
    ensures made { IsOk result ↔ IsTrue (is_target (expr_tree e)) }
{
    e.into_target()
}
