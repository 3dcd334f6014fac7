//! Comparison of calls and of functions with names, by their parts.
ghost use Rattle.std.specs.Prelude.{◌≡◌, ◌&&◌, [], ◌∷◌};
ghost use Rattle.swc_ast.specs.Expressions.{call_tree, fn_expr_tree};
ghost use Rattle.swc_ast.specs.Parts.{list_trees, ident_tree, option_ident_name, option_ident_spans};
ghost use Rattle.swc_ast.specs.Same.{same, same_forest, same_option, same_spans};
ghost use Rattle.swc_ast.specs.Statements.{fn_decl_tree};
ghost use Rattle.swc_ast.specs.Tree.{same_name};
ghost use Rattle.swc_ast.specs.Views.{expr_tree, function_trees};

use crate::declarations::FnDecl;
use crate::expressions::{CallExpr, FnExpr};
use crate::names::Ident;
use crate::same::{Compare, spans_agree};

/// Whether two calls have the same callee and the same arguments.
pub(crate) fn same_calls<E: Compare>(a: &CallExpr<E>, b: &CallExpr<E>, spans: bool) -> bool
    ensures { result ≡ ((same_spans spans (a.now.span ∷ []) (b.now.span ∷ []) && same spans (E.tree a.now.callee.value) (E.tree b.now.callee.value)) && same_forest spans (list_trees E.tree a.now.args.items) (list_trees E.tree b.now.args.items)) }
{
    spans_agree(spans, &[a.span], &[b.span])
        & a.callee.is_same(&b.callee, spans)
        & a.args.is_same(&b.args, spans)
}

fn same_idents(a: &Option<Ident>, b: &Option<Ident>, spans: bool) -> bool
    ensures { result ≡ (same_option same_name (option_ident_name a.now) (option_ident_name b.now) && same_spans spans (option_ident_spans a.now) (option_ident_spans b.now)) }
{
    match (a, b) {
        (Some(x), Some(y)) => {
            (x.sym == y.sym) & (x.ctxt == y.ctxt) & spans_agree(spans, &[x.span], &[y.span])
        }
        (None, None) => true,
        _ => false,
    }
}

/// Whether two functions have the same name, or none, and the same parameters and body.
pub(crate) fn same_fn_exprs<F: Compare>(a: &FnExpr<F>, b: &FnExpr<F>, spans: bool) -> bool
    ensures { result ≡ ((same_option same_name (option_ident_name a.now.ident) (option_ident_name b.now.ident) && same_spans spans (option_ident_spans a.now.ident) (option_ident_spans b.now.ident)) && same spans (F.tree a.now.function.value) (F.tree b.now.function.value)) }
{
    same_idents(&a.ident, &b.ident, spans) & a.function.is_same(&b.function, spans)
}

/// Whether two declared functions have the same name, parameters and body.
pub(crate) fn same_fn_decls<F: Compare>(a: &FnDecl<F>, b: &FnDecl<F>, spans: bool) -> bool
    ensures { result ≡ (same spans (ident_tree a.now.ident) (ident_tree b.now.ident) && same spans (F.tree a.now.function.value) (F.tree b.now.function.value)) }
{
    a.ident.is_same(&b.ident, spans) & a.function.is_same(&b.function, spans)
}

impl Compare for CallExpr {
    ghost tree = { λ n. call_tree expr_tree n };

    fn is_same(&self, other: &CallExpr, spans: bool) -> bool {
        same_calls(self, other, spans)
    }
}

impl Compare for FnExpr {
    ghost tree = { λ n. fn_expr_tree function_trees n };

    fn is_same(&self, other: &FnExpr, spans: bool) -> bool {
        same_fn_exprs(self, other, spans)
    }
}

impl Compare for FnDecl {
    ghost tree = { λ n. fn_decl_tree function_trees n };

    fn is_same(&self, other: &FnDecl, spans: bool) -> bool {
        same_fn_decls(self, other, spans)
    }
}
