//! Copies of what stands in objects.
ghost use Rattle.std.specs.Prelude.{◌≡◌, IfOk, map};
ghost use Rattle.swc_ast.specs.Expressions.{key_tree, key_value_tree, spread_tree};
ghost use Rattle.swc_ast.specs.Views.{expr_tree, method_tree, prop_tree, prop_or_spread_tree};

use crate::clone::expressions::copy_boxed;
use crate::clone::functions::copy_boxed_function;
use crate::clone::leaves::{copy_ident, copy_number, copy_str, copy_word};
use crate::clone::targets::copy_computed;
use crate::expressions::{KeyValueProp, MethodProp, Prop, PropName, PropOrSpread, SpreadElement};
use std::alloc::{AllocError, Global};

#[cycle(clone)]
pub(crate) fn copy_properties(ps: &Vec<PropOrSpread>) -> Result<Vec<PropOrSpread>, AllocError>
    ensures { IfOk result (λ r. map prop_or_spread_tree r.items ≡ map prop_or_spread_tree ps.now.items) }
{
    let mut out = Vec::with_capacity(*ps.allocator(), ps.len())?;
    for p in ps {
        out.push(copy_property(p)?)?;
    }
    Ok(out)
}

#[cycle(clone)]
pub(crate) fn copy_property(p: &PropOrSpread) -> Result<PropOrSpread, AllocError>
    ensures { IfOk result (λ r. prop_or_spread_tree r ≡ prop_or_spread_tree p.now) }
{
    match p {
        PropOrSpread::Spread(n) => Ok(PropOrSpread::Spread(copy_spread(n)?)),
        PropOrSpread::Prop(n) => Ok(PropOrSpread::Prop(copy_prop(n)?)),
    }
}

#[cycle(clone)]
pub(crate) fn copy_spread(n: &SpreadElement) -> Result<SpreadElement, AllocError>
    ensures { IfOk result (λ r. spread_tree expr_tree r ≡ spread_tree expr_tree n.now) }
{
    let expr = copy_boxed(&n.expr)?;
    Ok(SpreadElement {
        dot3_token: n.dot3_token,
        expr,
    })
}

#[cycle(clone)]
pub(crate) fn copy_prop(p: &Prop) -> Result<Prop, AllocError>
    ensures { IfOk result (λ r. prop_tree r ≡ prop_tree p.now) }
{
    match p {
        Prop::Shorthand(n) => Ok(Prop::Shorthand(copy_ident(n)?)),
        Prop::KeyValue(n) => Ok(Prop::KeyValue(copy_key_value(n)?)),
        Prop::Method(n) => Ok(Prop::Method(copy_method(n)?)),
    }
}

#[cycle(clone)]
pub(crate) fn copy_key_value(n: &KeyValueProp) -> Result<KeyValueProp, AllocError>
    ensures { IfOk result (λ r. key_value_tree expr_tree r ≡ key_value_tree expr_tree n.now) }
{
    let key = copy_key(&n.key)?;
    let value = copy_boxed(&n.value)?;
    Ok(KeyValueProp { key, value })
}

#[cycle(clone)]
pub(crate) fn copy_method(n: &MethodProp) -> Result<MethodProp, AllocError>
    ensures { IfOk result (λ r. method_tree r ≡ method_tree n.now) }
{
    let key = copy_key(&n.key)?;
    let function = copy_boxed_function(&n.function)?;
    Ok(MethodProp { key, function })
}

#[cycle(clone)]
pub(crate) fn copy_key(k: &PropName) -> Result<PropName, AllocError>
    ensures { IfOk result (λ r. key_tree expr_tree r ≡ key_tree expr_tree k.now) }
{
    match k {
        PropName::Ident(n) => Ok(PropName::Ident(copy_word(n)?)),
        PropName::Str(n) => Ok(PropName::Str(copy_str(n)?)),
        PropName::Num(n) => Ok(PropName::Num(copy_number(n))),
        PropName::Computed(n) => Ok(PropName::Computed(copy_computed(n)?)),
    }
}

impl Clone for PropOrSpread {
    ghost is_clone = { λ x y. prop_or_spread_tree y ≡ prop_or_spread_tree x };

    fn clone(&self) -> Result<PropOrSpread, AllocError> {
        copy_property(self)
    }
}

impl Clone for SpreadElement {
    ghost is_clone = { λ x y. spread_tree expr_tree y ≡ spread_tree expr_tree x };

    fn clone(&self) -> Result<SpreadElement, AllocError> {
        copy_spread(self)
    }
}

impl Clone for Prop {
    ghost is_clone = { λ x y. prop_tree y ≡ prop_tree x };

    fn clone(&self) -> Result<Prop, AllocError> {
        copy_prop(self)
    }
}

impl Clone for KeyValueProp {
    ghost is_clone = { λ x y. key_value_tree expr_tree y ≡ key_value_tree expr_tree x };

    fn clone(&self) -> Result<KeyValueProp, AllocError> {
        copy_key_value(self)
    }
}

impl Clone for MethodProp {
    ghost is_clone = { λ x y. method_tree y ≡ method_tree x };

    fn clone(&self) -> Result<MethodProp, AllocError> {
        copy_method(self)
    }
}

impl Clone for PropName {
    ghost is_clone = { λ x y. key_tree expr_tree y ≡ key_tree expr_tree x };

    fn clone(&self) -> Result<PropName, AllocError> {
        copy_key(self)
    }
}
