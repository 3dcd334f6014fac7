//! The call that takes a literal's place.
ghost use Rattle.std.specs.Prelude.{◌≡◌, IfOk, string_bytes};
ghost use Rattle.swc_ast.specs.Views.{expr_tree};
ghost use Rattle.swc_json_parse.specs.Parsing.{parse_call as parse_call_tree, literal_span as span_of_literal};

use std::alloc::{AllocError, Global};
use swc_ast::{
    Atom, CallExpr, DUMMY_SP, Expr, Ident, IdentName, Lit, MemberExpr, MemberProp, Span, Str,
    SyntaxContext,
};

/// Where an array or object literal stands. None: the expression is neither.
pub(crate) fn literal_span(e: &Expr) -> Option<Span>
    ensures { result ≡ span_of_literal (expr_tree e.now) }
{
    match e {
        Expr::Array(n) => Some(n.span),
        Expr::Object(n) => Some(n.span),
        _ => None,
    }
}

/// `JSON.parse('text')`, standing at the span. Fails where memory is refused.
pub(crate) fn parse_call(alloc: Global, span: Span, text: String) -> Result<Expr, AllocError>
    ensures { IfOk result (λ e. expr_tree e ≡ parse_call_tree span (string_bytes text)) }
{
    let json = Expr::Ident(Ident {
        span: DUMMY_SP,
        sym: Atom::from_str(alloc, "JSON")?,
        ctxt: SyntaxContext::empty(),
    });
    let parse = IdentName {
        span: DUMMY_SP,
        sym: Atom::from_str(alloc, "parse")?,
    };
    let callee = Expr::Member(MemberExpr {
        span: DUMMY_SP,
        obj: Box::new(alloc, json)?,
        prop: MemberProp::Ident(parse),
    });
    let mut args = Vec::with_capacity(alloc, 1)?;
    args.push(Expr::Lit(Lit::Str(Str {
        span: DUMMY_SP,
        value: text,
    })))?;
    Ok(Expr::Call(CallExpr {
        span,
        callee: Box::new(alloc, callee)?,
        args,
    }))
}
