//! Members of object literals. ECMA-262, 13.2.5 and 10.1.8.
ghost use Rattle.std.specs.Prelude.{◌≡◌, ◌&&◌, ◌<◌, not, true, Some, IfOk, IfSome, MatchOption};
ghost use Rattle.swc_ast.specs.Expressions.{key_tree};
ghost use Rattle.swc_ast.specs.Parts.{list_trees};
ghost use Rattle.swc_ast.specs.Tree.{Tree, ε, ◌⊳◌};
ghost use Rattle.swc_ast.specs.Views.{expr_tree, prop_or_spread_tree};
ghost use Rattle.swc_utils.specs.Globals.{unresolved};
ghost use Rattle.swc_utils.specs.Literals.{is_plain_key as name_is_plain};
ghost use Rattle.expr_rules.specs.Members.{none_named, value_named};
ghost use Rattle.expr_members.specs.Members.{StandsFor};
ghost use Rattle.expr_members.specs.Objects.{has_key as tree_has_key, has_text as tree_has_text, is_object as tree_is_object, value_of as tree_value_of, IsPlace};

use crate::keys::index_of;
use std::alloc::{AllocError, Global};
use swc_ast::{Expr, Invalid, ObjectLit, Prop, PropName, PropOrSpread, Span};
use swc_utils::{ExprCtx, ExprExt, is_literal};
use tree_keys::are_keys;

/// Whether an expression is an object literal.
#[tactic(auto, using(swc_ast::proofs::Equations::forms, crate::proofs::OtherNodes::no_object))]
pub(crate) fn is_object(e: &Expr) -> bool
    ensures { result ≡ tree_is_object (expr_tree e.now) }
{
    match e {
        Expr::Object(_) => true,
        _ => false,
    }
}

fn is_plain_key(name: &PropName) -> bool
    ensures { result ≡ name_is_plain name.now }
{
    match name {
        PropName::Ident(_) | PropName::Str(_) | PropName::Num(_) => true,
        PropName::Computed(_) => false,
    }
}

/// Whether a key isn't computed and has this text.
fn has_text(alloc: Global, name: &PropName, key: &str) -> Result<bool, AllocError>
    ensures { IfOk result (λ b. b ≡ tree_has_text key.now (key_tree expr_tree name.now)) }
{
    match name {
        PropName::Ident(n) => Ok(n.sym.as_str() == key),
        PropName::Str(n) => Ok(n.value.as_str() == key),
        PropName::Num(n) => Ok(n.value.to_string(alloc)?.as_str() == key),
        PropName::Computed(_) => Ok(false),
    }
}

/// Whether a property is `key: value` with this key.
#[tactic(auto, using(swc_ast::proofs::Equations::forms))]
fn has_key(alloc: Global, prop: &PropOrSpread, key: &str) -> Result<bool, AllocError>
    ensures { IfOk result (λ b. b ≡ tree_has_key key.now (prop_or_spread_tree prop.now)) }
{
    match prop {
        PropOrSpread::Spread(_) => Ok(false),
        PropOrSpread::Prop(prop) => match prop {
            Prop::Shorthand(_) => Ok(false),
            Prop::KeyValue(n) => has_text(alloc, &n.key, key),
            Prop::Method(_) => Ok(false),
        },
    }
}

/// Whether a property is `key: value` with another key, which isn't computed, and a pure value.
#[tactic(auto, using(swc_ast::proofs::Equations::forms, crate::proofs::Named::prop_other))]
fn is_other(
    alloc: Global,
    ctx: &ExprCtx,
    prop: &PropOrSpread,
    key: &str,
) -> Result<bool, AllocError>
    ensures { IfOk result (λ b. b ≡ none_named (unresolved ctx.now) key.now (prop_or_spread_tree prop.now ⊳ ε)) }
{
    match prop {
        PropOrSpread::Spread(_) => Ok(false),
        PropOrSpread::Prop(prop) => match prop {
            Prop::Shorthand(_) => Ok(false),
            Prop::KeyValue(n) => {
                let named = has_text(alloc, &n.key, key)?;
                Ok(is_plain_key(&n.key) && !named && !n.value.may_have_side_effects(ctx))
            }
            Prop::Method(_) => Ok(false),
        },
    }
}

/// Whether all of some properties are.
#[tactic(auto, using(crate::proofs::Named::none_cons))]
fn are_others(
    alloc: Global,
    ctx: &ExprCtx,
    props: &[PropOrSpread],
    key: &str,
) -> Result<bool, AllocError>
    ensures { IfOk result (λ b. b ≡ none_named (unresolved ctx.now) key.now (list_trees prop_or_spread_tree props.now)) }
{
    let mut left = props;
    while let [prop, rest @ ..] = left {
        if !is_other(alloc, ctx, prop, key)? {
            return Ok(false);
        }
        left = rest;
    }
    Ok(true)
}

/// The index of the first property of a key.
fn place_of(alloc: Global, props: &[PropOrSpread], key: &str) -> Result<Option<usize>, AllocError>
    ensures { IfOk result (λ o. IfSome o (λ i. IsPlace key.now props.now i)) }
{
    for i in 0..props.len() {
        if has_key(alloc, &props[i], key)? {
            return Ok(Some(i));
        }
    }
    Ok(None)
}

/// The value of a property `key: value`.
#[tactic(auto, using(swc_ast::proofs::Equations::forms))]
fn value_of(span: Span, prop: PropOrSpread) -> Expr
    ensures { (t : Tree) → tree_value_of (prop_or_spread_tree prop) ≡ Some t → t ≡ expr_tree result }
{
    match prop {
        PropOrSpread::Spread(_) => Expr::Invalid(Invalid { span }),
        PropOrSpread::Prop(prop) => match prop {
            Prop::Shorthand(_) => Expr::Invalid(Invalid { span }),
            Prop::KeyValue(n) => Box::into_inner(n.value),
            Prop::Method(_) => Expr::Invalid(Invalid { span }),
        },
    }
}

/// The value of a key's only property, where all are `key: value` without computed keys, and the values of the others
/// are pure. None: the object is as it was.
fn object_value(
    alloc: Global,
    ctx: &ExprCtx,
    object: &mut ObjectLit,
    key: &str,
) -> Result<Option<Expr>, AllocError>
    ensures { IfOk result (λ o. MatchOption o (object.new ≡ object.old) (λ e. value_named (unresolved ctx.now) key.now (list_trees prop_or_spread_tree object.old.props.items) ≡ Some (expr_tree e))) }
{
    match place_of(alloc, &object.props, key)? {
        Some(i) => {
            if !are_others(alloc, ctx, &object.props[..i], key)? {
                return Ok(None);
            }
            if !are_others(alloc, ctx, &object.props[i + 1..], key)? {
                return Ok(None);
            }
            let prop = object.props.swap_remove(i);
            Ok(Some(value_of(object.span, prop)))
        }
        None => Ok(None),
    }
}

/// Whether a key may be asked for: an index, or another text but `yield` where the object is a literal throughout.
fn is_asked(alloc: Global, object: &Expr, key: &str) -> Result<bool, AllocError> {
    match index_of(alloc, key)? {
        Some(_) => Ok(true),
        None => Ok(key != "yield" && is_literal(object)),
    }
}

/// What takes the place of a member of an object literal in which each key is there once and none is `__proto__`: the
/// value of its key's property, where all are `key: value` without computed keys and the values of the others are pure;
/// but for a text that is no index only where all are literals, and not for `yield`. None: the expression is as it was.
pub(crate) fn object_member(
    alloc: Global,
    ctx: &ExprCtx,
    object: &mut Expr,
    key: &str,
) -> Result<Option<Expr>, AllocError>
    ensures { IfOk result (λ o. MatchOption o (object.new ≡ object.old) (λ e. StandsFor (unresolved ctx.now) (expr_tree object.old) key.now e)) }
{
    if !is_asked(alloc, object, key)? {
        return Ok(None);
    }
    match object {
        Expr::Object(object) => {
            if !are_keys(alloc, &object.props)? {
                return Ok(None);
            }
            let folded = object_value(alloc, ctx, object, key)?;
            Ok(folded)
        }
        _ => Ok(None),
    }
}
