//! Copies and comparison of nodes.
ghost use Rattle.std.specs.Prelude.{◌≡◌, ◌↔◌, IfOk, IsTrue};
ghost use Rattle.swc_ast.specs.Parts.{ident_tree};
ghost use Rattle.swc_ast.specs.Same.{same};
ghost use Rattle.swc_ast.specs.Statements.{return_tree};
ghost use Rattle.swc_ast.specs.Tree.{bare};
ghost use Rattle.swc_ast.specs.Views.{expr_tree};

use std::alloc::AllocError;
use swc_ast::{Compare, EqIgnoreSpan, Ident, ReturnStmt};

/// `Clone::clone` of a `return`.
pub fn clone_return(n: &ReturnStmt) -> Result<ReturnStmt, AllocError>
    ensures { IfOk result (λ r. return_tree expr_tree r ≡ return_tree expr_tree n.now) }
{
    n.clone()
}

/// `EqIgnoreSpan::eq_ignore_span` of names.
pub fn eq_names_ignoring_spans(a: &Ident, b: &Ident) -> bool
    ensures { IsTrue result ↔ (bare (ident_tree a.now) ≡ bare (ident_tree b.now)) }
{
    a.eq_ignore_span(b)
}

/// `Compare::is_same` of names.
pub fn is_same_name(a: &Ident, b: &Ident, spans: bool) -> bool
    ensures { result ≡ same spans (ident_tree a.now) (ident_tree b.now) }
{
    a.is_same(b, spans)
}
