//! Object literals: their properties, and spreads of object literals in them. ECMA-262, 13.2.5.
ghost use Rattle.std.specs.Prelude.{◌≡◌, ℕ, false, true, IfOk, OnOk, IsNone};
ghost use Rattle.std.specs.Fmt.{signed_decimal};
ghost use Rattle.swc_ast.specs.Parts.{list_trees};
ghost use Rattle.swc_ast.specs.Scope.{joined};
ghost use Rattle.swc_ast.specs.Expressions.{key_tree, object_tree};
ghost use Rattle.swc_ast.specs.Views.{expr_tree, prop_or_spread_tree};
ghost use Rattle.expr_rules.specs.Replaced.{Replaced};
ghost use Rattle.expr_rules.specs.Spreads.{is_proto, has_proto as trees_have_proto, opened_property, opened_properties, opens_property as tree_opens_property, spreads_object as trees_spread_object};
ghost use Rattle.expr_members.specs.Objects.{is_proto_key as tree_is_proto_key, is_opened_object as tree_is_opened_object, names_proto as tree_names_proto, HasProperties};

use std::alloc::{AllocError, Global};
use std::mem;
use swc_ast::{Expr, ObjectLit, Prop, PropName, PropOrSpread};
use swc_utils::has_spread_prop;

/// Whether the text of a number is `__proto__`: none is.
#[tactic(auto, using(crate::proofs::Props::number_no_proto))]
fn is_proto_number(_value: i64) -> bool
    ensures { result ≡ is_proto (signed_decimal _value) }
{
    false
}

/// Whether a key is `__proto__`.
fn is_proto_key(key: &PropName) -> bool
    ensures { result ≡ tree_is_proto_key (key_tree expr_tree key.now) }
{
    match key {
        PropName::Ident(n) => n.sym.as_str() == "__proto__",
        PropName::Str(n) => n.value.as_str() == "__proto__",
        PropName::Num(n) => is_proto_number(n.value),
        PropName::Computed(_) => false,
    }
}

/// Whether a property has the key `__proto__`.
#[tactic(auto, using(swc_ast::proofs::Equations::forms, crate::proofs::Props::key_value_proto, crate::proofs::Props::method_proto))]
fn names_proto(prop: &PropOrSpread) -> bool
    ensures { result ≡ tree_names_proto (prop_or_spread_tree prop.now) }
{
    match prop {
        PropOrSpread::Spread(_) => false,
        PropOrSpread::Prop(prop) => match prop {
            Prop::Shorthand(n) => n.sym.as_str() == "__proto__",
            Prop::KeyValue(n) => is_proto_key(&n.key),
            Prop::Method(n) => is_proto_key(&n.key),
        },
    }
}

/// Whether one of some properties has the key `__proto__`.
#[tactic(auto, using(crate::proofs::Props::proto_cons))]
fn has_proto(props: &[PropOrSpread]) -> bool
    ensures { result ≡ trees_have_proto (list_trees prop_or_spread_tree props.now) }
{
    let mut left = props;
    while let [prop, rest @ ..] = left {
        if names_proto(prop) {
            return true;
        }
        left = rest;
    }
    false
}

/// Whether an expression is an object literal without a spread and without the key `__proto__`.
#[tactic(auto, using(swc_ast::proofs::Equations::forms, crate::proofs::OtherNodes::no_opened_object))]
fn is_opened_object(e: &Expr) -> bool
    ensures { result ≡ tree_is_opened_object (expr_tree e.now) }
{
    match e {
        Expr::Object(n) => !(has_spread_prop(&n.props) || has_proto(&n.props)),
        _ => false,
    }
}

/// Whether a property spreads such an object literal.
#[tactic(auto, using(swc_ast::proofs::Equations::forms, crate::proofs::Props::opens_spread, crate::proofs::Props::prop_closed))]
fn opens_property(prop: &PropOrSpread) -> bool
    ensures { result ≡ tree_opens_property (prop_or_spread_tree prop.now) }
{
    match prop {
        PropOrSpread::Spread(n) => is_opened_object(&n.expr),
        PropOrSpread::Prop(_) => false,
    }
}

/// Whether one of some properties does.
fn spreads_object(props: &[PropOrSpread]) -> bool
    ensures { result ≡ trees_spread_object (list_trees prop_or_spread_tree props.now) }
{
    for prop in props {
        if opens_property(prop) {
            return true;
        }
    }
    false
}

/// The properties of an object literal; another expression has none.
#[tactic(auto, using(swc_ast::proofs::Equations::forms, crate::proofs::OtherNodes::no_opened_object))]
fn properties_of(alloc: Global, e: Expr) -> Vec<PropOrSpread>
    ensures { tree_is_opened_object (expr_tree e) ≡ true → HasProperties (expr_tree e) result.items }
{
    let mut e = e;
    match &mut e {
        Expr::Object(n) => mem::replace(&mut n.props, Vec::new(alloc)),
        _ => Vec::new(alloc),
    }
}

/// Adds a property, or those of the object literal that it spreads.
#[tactic(auto, using(swc_ast::proofs::Equations::forms, swc_utils::proofs::Chains::pushed, crate::proofs::Props::stays, crate::proofs::Props::prop_closed))]
fn push_opened(
    alloc: Global,
    prop: PropOrSpread,
    out: &mut Vec<PropOrSpread>,
) -> Result<(), AllocError>
    ensures { OnOk result (list_trees prop_or_spread_tree out.new.items ≡ joined (list_trees prop_or_spread_tree out.old.items) (opened_property (prop_or_spread_tree prop))) }
{
    if !opens_property(&prop) {
        out.push(prop)?;
        return Ok(());
    }
    match prop {
        PropOrSpread::Spread(n) => {
            let mut props = properties_of(alloc, Box::into_inner(n.expr));
            out.append(&mut props)?;
            Ok(())
        }
        PropOrSpread::Prop(_prop) => Ok(()),
    }
}

/// Properties, with those of each object literal that is spread among them.
fn opened(alloc: Global, props: Vec<PropOrSpread>) -> Result<Vec<PropOrSpread>, AllocError>
    ensures { IfOk result (λ r. list_trees prop_or_spread_tree r.items ≡ opened_properties (list_trees prop_or_spread_tree props.items)) }
{
    let mut out = Vec::new(alloc);
    for prop in props {
        push_opened(alloc, prop, &mut out)?;
    }
    Ok(out)
}

/// What takes the place of an object literal: one with the properties of each object literal that is spread in it and
/// has neither a spread nor the key `__proto__`. None: no such literal is spread in it, and it is as it was; else its
/// properties were moved out. Fails where memory is refused.
#[tactic(auto, using(swc_ast::proofs::Equations::forms))]
pub fn spread_properties(alloc: Global, n: &mut ObjectLit) -> Result<Option<Expr>, AllocError>
    ensures steps { (mark : ℕ) → IfOk result (λ o. Replaced mark (object_tree prop_or_spread_tree n.old) (object_tree prop_or_spread_tree n.new) o) }
    ensures fires { IfOk result (λ o. IsNone o → trees_spread_object (list_trees prop_or_spread_tree n.old.props.items) ≡ false) }
{
    if !spreads_object(&n.props) {
        return Ok(None);
    }
    let props = mem::replace(&mut n.props, Vec::new(alloc));
    let props = opened(alloc, props)?;
    Ok(Some(Expr::Object(ObjectLit {
        span: n.span,
        props,
    })))
}
