//! Copies of names, literals and other nodes that hold no expression.
ghost use Rattle.std.specs.Prelude.{◌≡◌, IfOk, map, string_bytes, [], ◌∷◌};
ghost use Rattle.swc_ast.specs.Tree.{StrLit, BoolLit, NullLit, NumLit, This, Empty, Template};
ghost use Rattle.swc_ast.specs.Tree as tree;
ghost use Rattle.swc_ast.specs.Parts.{leaf, ident_tree, word_tree, lit_tree, option_ident_name, option_ident_spans, option_word_text, option_word_spans};
ghost use Rattle.swc_ast.specs.Expressions.{quasi_text, quasi_span};
ghost use Rattle.swc_ast.specs.Statements.{break_tree, continue_tree};

use crate::expressions::{Invalid, ThisExpr, TplElement};
use crate::literals::{Bool, Lit, Null, Number, Str};
use crate::names::{Ident, IdentName};
use crate::statements::{BreakStmt, ContinueStmt, EmptyStmt};
use std::alloc::AllocError;

pub(crate) fn copy_ident(n: &Ident) -> Result<Ident, AllocError>
    ensures { IfOk result (λ r. ident_tree r ≡ ident_tree n.now) }
{
    let sym = n.sym.clone()?;
    Ok(Ident {
        span: n.span,
        sym,
        ctxt: n.ctxt,
    })
}

pub(crate) fn copy_word(n: &IdentName) -> Result<IdentName, AllocError>
    ensures { IfOk result (λ r. word_tree r ≡ word_tree n.now) }
{
    let sym = n.sym.clone()?;
    Ok(IdentName { span: n.span, sym })
}

pub(crate) fn copy_option_ident(n: &Option<Ident>) -> Result<Option<Ident>, AllocError>
    ensures name { IfOk result (λ r. option_ident_name r ≡ option_ident_name n.now) }
    ensures spans { IfOk result (λ r. option_ident_spans r ≡ option_ident_spans n.now) }
{
    match n {
        Some(x) => Ok(Some(copy_ident(x)?)),
        None => Ok(None),
    }
}

pub(crate) fn copy_option_word(n: &Option<IdentName>) -> Result<Option<IdentName>, AllocError>
    ensures text { IfOk result (λ r. option_word_text r ≡ option_word_text n.now) }
    ensures spans { IfOk result (λ r. option_word_spans r ≡ option_word_spans n.now) }
{
    match n {
        Some(x) => Ok(Some(copy_word(x)?)),
        None => Ok(None),
    }
}

pub(crate) fn copy_str(n: &Str) -> Result<Str, AllocError>
    ensures { IfOk result (λ r. leaf (StrLit (string_bytes r.value)) r.span ≡ leaf (StrLit (string_bytes n.now.value)) n.now.span) }
{
    let value = n.value.clone()?;
    Ok(Str {
        span: n.span,
        value,
    })
}

pub(crate) fn copy_bool(n: &Bool) -> Bool
    ensures { leaf (BoolLit result.value) result.span ≡ leaf (BoolLit n.now.value) n.now.span }
{
    Bool {
        span: n.span,
        value: n.value,
    }
}

pub(crate) fn copy_null(n: &Null) -> Null
    ensures { leaf NullLit result.span ≡ leaf NullLit n.now.span }
{
    Null { span: n.span }
}

pub(crate) fn copy_number(n: &Number) -> Number
    ensures { leaf (NumLit result.value) result.span ≡ leaf (NumLit n.now.value) n.now.span }
{
    Number {
        span: n.span,
        value: n.value,
    }
}

pub(crate) fn copy_lit(n: &Lit) -> Result<Lit, AllocError>
    ensures { IfOk result (λ r. lit_tree r ≡ lit_tree n.now) }
{
    match n {
        Lit::Str(n) => Ok(Lit::Str(copy_str(n)?)),
        Lit::Bool(n) => Ok(Lit::Bool(copy_bool(n))),
        Lit::Null(n) => Ok(Lit::Null(copy_null(n))),
        Lit::Num(n) => Ok(Lit::Num(copy_number(n))),
    }
}

pub(crate) fn copy_this(n: &ThisExpr) -> ThisExpr
    ensures { leaf This result.span ≡ leaf This n.now.span }
{
    ThisExpr { span: n.span }
}

pub(crate) fn copy_invalid(n: &Invalid) -> Invalid
    ensures { leaf tree.Invalid result.span ≡ leaf tree.Invalid n.now.span }
{
    Invalid { span: n.span }
}

pub(crate) fn copy_empty(n: &EmptyStmt) -> EmptyStmt
    ensures { leaf Empty result.span ≡ leaf Empty n.now.span }
{
    EmptyStmt { span: n.span }
}

pub(crate) fn copy_break(n: &BreakStmt) -> Result<BreakStmt, AllocError>
    ensures { IfOk result (λ r. break_tree r ≡ break_tree n.now) }
{
    let label = copy_option_word(&n.label)?;
    Ok(BreakStmt {
        span: n.span,
        label,
    })
}

pub(crate) fn copy_continue(n: &ContinueStmt) -> Result<ContinueStmt, AllocError>
    ensures { IfOk result (λ r. continue_tree r ≡ continue_tree n.now) }
{
    let label = copy_option_word(&n.label)?;
    Ok(ContinueStmt {
        span: n.span,
        label,
    })
}

pub(crate) fn copy_text(n: &TplElement) -> Result<TplElement, AllocError>
    ensures text { IfOk result (λ r. quasi_text r ≡ quasi_text n.now) }
    ensures span { IfOk result (λ r. quasi_span r ≡ quasi_span n.now) }
{
    let cooked = n.cooked.clone()?;
    Ok(TplElement {
        span: n.span,
        tail: n.tail,
        cooked,
    })
}

pub(crate) fn copy_quasis(qs: &Vec<TplElement>) -> Result<Vec<TplElement>, AllocError>
    ensures texts { IfOk result (λ r. map quasi_text r.items ≡ map quasi_text qs.now.items) }
    ensures spans { IfOk result (λ r. map quasi_span r.items ≡ map quasi_span qs.now.items) }
{
    let mut out = Vec::with_capacity(*qs.allocator(), qs.len())?;
    for q in qs {
        out.push(copy_text(q)?)?;
    }
    Ok(out)
}

impl Clone for Ident {
    ghost is_clone = { λ x y. ident_tree y ≡ ident_tree x };

    fn clone(&self) -> Result<Ident, AllocError> {
        copy_ident(self)
    }
}

impl Clone for IdentName {
    ghost is_clone = { λ x y. word_tree y ≡ word_tree x };

    fn clone(&self) -> Result<IdentName, AllocError> {
        copy_word(self)
    }
}

impl Clone for Str {
    ghost is_clone = { λ x y. leaf (StrLit (string_bytes y.value)) y.span ≡ leaf (StrLit (string_bytes x.value)) x.span };

    fn clone(&self) -> Result<Str, AllocError> {
        copy_str(self)
    }
}

impl Clone for Bool {
    ghost is_clone = { λ x y. leaf (BoolLit y.value) y.span ≡ leaf (BoolLit x.value) x.span };

    fn clone(&self) -> Result<Bool, AllocError> {
        Ok(copy_bool(self))
    }
}

impl Clone for Null {
    ghost is_clone = { λ x y. leaf NullLit y.span ≡ leaf NullLit x.span };

    fn clone(&self) -> Result<Null, AllocError> {
        Ok(copy_null(self))
    }
}

impl Clone for Number {
    ghost is_clone = { λ x y. leaf (NumLit y.value) y.span ≡ leaf (NumLit x.value) x.span };

    fn clone(&self) -> Result<Number, AllocError> {
        Ok(copy_number(self))
    }
}

impl Clone for Lit {
    ghost is_clone = { λ x y. lit_tree y ≡ lit_tree x };

    fn clone(&self) -> Result<Lit, AllocError> {
        copy_lit(self)
    }
}

impl Clone for ThisExpr {
    ghost is_clone = { λ x y. leaf This y.span ≡ leaf This x.span };

    fn clone(&self) -> Result<ThisExpr, AllocError> {
        Ok(copy_this(self))
    }
}

impl Clone for Invalid {
    ghost is_clone = { λ x y. leaf tree.Invalid y.span ≡ leaf tree.Invalid x.span };

    fn clone(&self) -> Result<Invalid, AllocError> {
        Ok(copy_invalid(self))
    }
}

impl Clone for EmptyStmt {
    ghost is_clone = { λ x y. leaf Empty y.span ≡ leaf Empty x.span };

    fn clone(&self) -> Result<EmptyStmt, AllocError> {
        Ok(copy_empty(self))
    }
}

impl Clone for BreakStmt {
    ghost is_clone = { λ x y. break_tree y ≡ break_tree x };

    fn clone(&self) -> Result<BreakStmt, AllocError> {
        copy_break(self)
    }
}

impl Clone for ContinueStmt {
    ghost is_clone = { λ x y. continue_tree y ≡ continue_tree x };

    fn clone(&self) -> Result<ContinueStmt, AllocError> {
        copy_continue(self)
    }
}

impl Clone for TplElement {
    ghost is_clone = { λ x y. leaf (Template (quasi_text y ∷ [])) y.span ≡ leaf (Template (quasi_text x ∷ [])) x.span };

    fn clone(&self) -> Result<TplElement, AllocError> {
        copy_text(self)
    }
}
