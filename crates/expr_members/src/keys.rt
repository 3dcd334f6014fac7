//! Keys of members, where they are literals, and what is told of them. ECMA-262, 13.3.3 and 7.1.19.
ghost use Rattle.std.specs.Prelude.{◌≡◌, Some, string_bytes, IfOk, IfSome};
ghost use Rattle.swc_ast.specs.Operators as operators;
ghost use Rattle.swc_ast.specs.Parts.{lit_tree};
ghost use Rattle.swc_ast.specs.Views.{expr_tree};
ghost use Rattle.pass_rules.specs.Leaves.{key_text_of};
ghost use Rattle.expr_members.specs.Members.{IsKey, IsLength};

use std::alloc::{AllocError, Global};
use swc_ast::{Expr, Lit, MemberProp, Number, Span};

/// 2^53 - 1
const GREATEST: usize = 9007199254740991;

fn text_of_literal(alloc: Global, n: &Lit) -> Result<Option<String>, AllocError>
    ensures { IfOk result (λ o. IfSome o (λ k. key_text_of (lit_tree n.now) ≡ Some (string_bytes k))) }
{
    match n {
        Lit::Str(n) => Ok(Some(n.value.clone()?)),
        Lit::Num(n) => Ok(Some(n.value.to_string(alloc)?)),
        Lit::Bool(_) => Ok(None),
        Lit::Null(_) => Ok(None),
    }
}

/// The text of an expression that is a text or number literal.
#[tactic(auto, using(swc_ast::proofs::Equations::forms))]
fn literal_text(alloc: Global, e: &Expr) -> Result<Option<String>, AllocError>
    ensures { IfOk result (λ o. IfSome o (λ k. key_text_of (expr_tree e.now) ≡ Some (string_bytes k))) }
{
    match e {
        Expr::Lit(n) => text_of_literal(alloc, n),
        _ => Ok(None),
    }
}

/// The text of a member's key, where it is a word behind a dot or a literal in brackets.
pub(crate) fn key_text(alloc: Global, key: &MemberProp) -> Result<Option<String>, AllocError>
    ensures { IfOk result (λ o. IfSome o (λ k. IsKey key.now (string_bytes k))) }
{
    match key {
        MemberProp::Ident(n) => Ok(Some(String::from_str(alloc, &n.sym)?)),
        MemberProp::Computed(n) => literal_text(alloc, &n.expr),
    }
}

/// The index of an array that a key is: the canonical decimal text of a number below 2^32 - 1.
pub(crate) fn index_of(alloc: Global, key: &str) -> Result<Option<u32>, AllocError>
    ensures { IfOk result (λ o. IfSome o (λ i. operators.index_of key.now ≡ Some i)) }
{
    match key.parse::<u32>() {
        Ok(i) => {
            if i < u32::MAX && i.to_string(alloc)?.as_str() == key {
                return Ok(Some(i));
            }
            Ok(None)
        }
        Err(_) => Ok(None),
    }
}

/// The literal of a length, where it is at most 2^53 - 1.
#[tactic(auto, using(swc_ast::proofs::Equations::forms))]
pub(crate) fn length_literal(span: Span, length: usize) -> Option<Expr>
    ensures { IfSome result (λ e. IsLength span length e) }
{
    if length > GREATEST {
        return None;
    }
    Some(Expr::Lit(Lit::Num(Number {
        span,
        value: length as i64,
    })))
}
