//! The expression that is put for a name.
ghost use Rattle.std.specs.Prelude.{◌≡◌, [], ◌∷◌, IfOk, string_bytes, pos};
ghost use Rattle.swc_ast.specs.Tree.{Name};
ghost use Rattle.swc_ast.specs.Views.{expr_tree};
ghost use Rattle.carry_rules.specs.Carry.{put_tree};
ghost use Rattle.carry_parts.specs.Carries.{put_of};
ghost use Rattle.carry_puts.specs.Values.{number as number_expr};

use carry_parts::Carry;
use std::alloc::{AllocError, Global};
use swc_ast::{Bool, Expr, Ident, Lit, Null, Number, Span, Str, UnaryExpr, UnaryOp};

/// A name or a value, standing at a span. Fails where memory is refused.
pub(crate) fn value(alloc: Global, carry: Carry<'_>, span: Span) -> Result<Expr, AllocError>
    ensures { IfOk result (λ e. (y : Name) → expr_tree e ≡ put_tree y (put_of carry.entry) (span ∷ [])) }
{
    match carry {
        Carry::Name(name) => {
            let (sym, ctxt) = name.to_id()?;
            Ok(Expr::Ident(Ident { span, sym, ctxt }))
        }
        Carry::Num(value) => Ok(Expr::Lit(Lit::Num(Number { span, value }))),
        Carry::Text(text) => {
            let value = text_of(text)?;
            Ok(Expr::Lit(Lit::Str(Str { span, value })))
        }
        Carry::Truth(value) => Ok(Expr::Lit(Lit::Bool(Bool { span, value }))),
        Carry::Null => Ok(Expr::Lit(Lit::Null(Null { span }))),
        Carry::Void => Ok(Expr::Unary(UnaryExpr {
            span,
            op: UnaryOp::Void,
            arg: Box::new(alloc, zero(span))?,
        })),
    }
}

fn text_of(text: &Str) -> Result<String, AllocError>
    ensures { IfOk result (λ t. string_bytes t ≡ string_bytes text.now.value) }
{
    text.value.clone()
}

fn zero(span: Span) -> Expr
    ensures { result ≡ number_expr span (pos 0) }
{
    Expr::Lit(Lit::Num(Number { span, value: 0 }))
}
