//! Members of literals. ECMA-262, 13.3.2.
ghost use Rattle.std.specs.Prelude.{◌≡◌, ℕ, IfOk, IfSome, MatchOption};
ghost use Rattle.swc_ast.specs.Expressions.{member_tree};
ghost use Rattle.swc_ast.specs.Parts.{lit_tree};
ghost use Rattle.swc_ast.specs.Redex.{is_text as tree_is_text};
ghost use Rattle.swc_ast.specs.Views.{expr_tree};
ghost use Rattle.swc_utils.specs.Globals.{unresolved};
ghost use Rattle.expr_rules.specs.Replaced.{Replaced};
ghost use Rattle.expr_members.specs.Members.{StandsFor};

use crate::arrays::is_array;
use crate::items::array_member;
use crate::keys::key_text;
use crate::object_members::{is_object, object_member};
use crate::texts::text_member;
use std::alloc::{AllocError, Global};
use swc_ast::{Expr, Lit, MemberExpr, PassError, Span};
use swc_utils::ExprCtx;

/// Whether an expression is a text literal.
#[tactic(auto, using(swc_ast::proofs::Equations::forms, crate::proofs::OtherNodes::no_text))]
fn is_text(e: &Expr) -> bool
    ensures { result ≡ tree_is_text (expr_tree e.now) }
{
    match e {
        Expr::Lit(n) => match n {
            Lit::Str(_) => true,
            Lit::Bool(_) => false,
            Lit::Null(_) => false,
            Lit::Num(_) => false,
        },
        _ => false,
    }
}

/// What takes the place of a member of a literal without parts.
fn literal_member(
    alloc: Global,
    span: Span,
    literal: &Lit,
    key: &str,
) -> Result<Option<Expr>, AllocError>
    ensures { (mark : ℕ) → IfOk result (λ o. IfSome o (λ e. StandsFor mark (lit_tree literal.now) key.now e)) }
{
    match literal {
        Lit::Str(text) => text_member(alloc, span, &text.value, key),
        Lit::Bool(_) => Ok(None),
        Lit::Null(_) => Ok(None),
        Lit::Num(_) => Ok(None),
    }
}

/// What takes the place of a member of an expression that is a literal without parts.
fn leaf_member(
    alloc: Global,
    span: Span,
    object: &Expr,
    key: &str,
) -> Result<Option<Expr>, AllocError>
    ensures { (mark : ℕ) → IfOk result (λ o. IfSome o (λ e. StandsFor mark (expr_tree object.now) key.now e)) }
{
    match object {
        Expr::Lit(literal) => literal_member(alloc, span, literal, key),
        _ => Ok(None),
    }
}

/// What takes the place of a member of an expression. None: the expression is as it was.
fn member_of(
    alloc: Global,
    ctx: &ExprCtx,
    span: Span,
    object: &mut Expr,
    key: &str,
) -> Result<Option<Expr>, PassError>
    ensures { IfOk result (λ o. MatchOption o (object.new ≡ object.old) (λ e. StandsFor (unresolved ctx.now) (expr_tree object.old) key.now e)) }
{
    if let Some(e) = leaf_member(alloc, span, object, key)? {
        return Ok(Some(e));
    }
    match object {
        Expr::Array(array) => {
            let folded = array_member(alloc, ctx, span, array, key)?;
            Ok(folded)
        }
        _ => {
            let folded = object_member(alloc, ctx, object, key)?;
            Ok(folded)
        }
    }
}

/// What takes the place of a member of a literal whose key is a word or a literal: a text's length, its character at an
/// index inside it where no character of the text lies past the basic plane; of an array without a spread its length,
/// where all its items are pure, and the item at an index inside it behind the effects of those in front, where those
/// behind are pure; of an object of `key: value` without computed keys, `__proto__` and repeated keys the value of a key,
/// for an index where the values of the others are pure, for another text but `yield` where all are literals. None:
/// nothing folds, and the member is as it was; else its object was moved out. Fails where memory is refused.
pub fn fold_member(
    alloc: Global,
    ctx: &ExprCtx,
    n: &mut MemberExpr,
) -> Result<Option<Expr>, PassError>
    ensures { IfOk result (λ o. Replaced (unresolved ctx.now) (member_tree expr_tree n.old) (member_tree expr_tree n.new) o) }
{
    if !is_array(&n.obj) && !is_text(&n.obj) && !is_object(&n.obj) {
        return Ok(None);
    }
    match key_text(alloc, &n.prop)? {
        Some(key) => {
            let folded = member_of(alloc, ctx, n.span, &mut n.obj, &key)?;
            Ok(folded)
        }
        None => Ok(None),
    }
}
