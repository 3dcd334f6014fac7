//! What is left of objects whose values are not used.
ghost use Rattle.std.specs.Prelude.{◌≡◌, false, true, IfOk, IsTrue};
ghost use Rattle.swc_ast.specs.Expressions.{key_tree, object_tree, shorthand_tree};
ghost use Rattle.swc_ast.specs.Parts.{list_trees};
ghost use Rattle.swc_ast.specs.Views.{expr_tree, prop_or_spread_tree};
ghost use Rattle.swc_utils.specs.Effects.{has_record_spread};
ghost use Rattle.swc_utils.specs.Globals.{unresolved};
ghost use Rattle.swc_utils.specs.Literals.{is_literal as tree_is_literal};
ghost use Rattle.swc_utils.specs.Pure.{pure};
ghost use Rattle.branch_rules.specs.Ignored.{PropertiesLeft, key_parts, properties_parts, property_parts};
ghost use Rattle.branch_expressions.specs.Left.{Adds, Rested};
ghost use Rattle.branch_expressions.specs.Properties.{Goes, IsPlainKey, own_parts};

use crate::ignored::Words;
use crate::parts::add;
use crate::rest::{Rest, as_one, changed};
use std::alloc::{AllocError, Global};
use std::mem;
use swc_ast::{Atom, Expr, Ident, KeyValueProp, ObjectLit, Prop, PropName, PropOrSpread};
use swc_utils::{ExprCtx, ExprExt, has_spread_prop, is_literal};

#[cycle(ignore)]
#[tactic(auto, using(crate::proofs::Answered::object_rested))]
pub(crate) fn rest_of_object(
    alloc: Global,
    ctx: &ExprCtx,
    n: &mut ObjectLit,
) -> Result<Rest, AllocError>
    ensures { IfOk result (λ r. Rested (unresolved ctx.now) (object_tree prop_or_spread_tree n.old) (object_tree prop_or_spread_tree n.new) r) }
{
    if has_spread_prop(&n.props) {
        return rest_of_spread(alloc, ctx, n);
    }
    let mut out = Vec::new(alloc);
    add_props(alloc, ctx, &mut n.props, &mut out)?;
    Ok(changed(as_one(n.span, out)))
}

/// Adds what is left of an object's properties. None is a spread.
#[cycle(ignore)]
fn add_props(
    alloc: Global,
    ctx: &ExprCtx,
    props: &mut Vec<PropOrSpread>,
    out: &mut Vec<Expr>,
) -> Result<bool, AllocError>
    requires { has_record_spread (list_trees prop_or_spread_tree props.old.items) ≡ false }
    ensures { IfOk result (λ c. Adds (unresolved ctx.now) (properties_parts (unresolved ctx.now) (list_trees prop_or_spread_tree props.old.items)) out.old.items out.new.items c) }
{
    let mut changed = false;
    for i in 0..props.len() {
        let made = add_prop(alloc, ctx, &mut props[i], out)?;
        changed = changed | made;
    }
    Ok(changed)
}

/// Adds what is left of a property that is no spread.
#[cycle(ignore)]
#[tactic(auto, using(swc_ast::proofs::Equations::forms, crate::proofs::Adding::adds_both, crate::proofs::Adding::adds_none))]
fn add_prop(
    alloc: Global,
    ctx: &ExprCtx,
    prop: &mut PropOrSpread,
    out: &mut Vec<Expr>,
) -> Result<bool, AllocError>
    ensures { IfOk result (λ c. Adds (unresolved ctx.now) (own_parts (unresolved ctx.now) (prop_or_spread_tree prop.old)) out.old.items out.new.items c) }
{
    match prop {
        PropOrSpread::Spread(_) => Ok(false),
        PropOrSpread::Prop(prop) => match prop {
            Prop::Shorthand(n) => add_shorthand(ctx, n, out),
            Prop::KeyValue(n) => {
                let key = add_key(alloc, ctx, &mut n.key, out)?;
                let value = add(alloc, ctx, Words::Go, &mut n.value, out)?;
                Ok(key | value)
            }
            Prop::Method(n) => add_key(alloc, ctx, &mut n.key, out),
        },
    }
}

/// Adds a name that stands for a property and its value, where the host may be asked about it.
fn add_shorthand(ctx: &ExprCtx, n: &mut Ident, out: &mut Vec<Expr>) -> Result<bool, AllocError>
    ensures { IfOk result (λ c. Adds (unresolved ctx.now) (property_parts (unresolved ctx.now) (shorthand_tree n.old)) out.old.items out.new.items c) }
{
    let sym = mem::replace(&mut n.sym, Atom::new());
    let name = Expr::Ident(Ident {
        span: n.span,
        sym,
        ctxt: n.ctxt,
    });
    if name.may_have_side_effects(ctx) {
        out.push(name)?;
    }
    Ok(false)
}

/// Adds what is left of a key.
#[cycle(ignore)]
#[tactic(auto, using(crate::proofs::Adding::adds_none))]
fn add_key(
    alloc: Global,
    ctx: &ExprCtx,
    key: &mut PropName,
    out: &mut Vec<Expr>,
) -> Result<bool, AllocError>
    ensures { IfOk result (λ c. Adds (unresolved ctx.now) (key_parts (key_tree expr_tree key.old)) out.old.items out.new.items c) }
{
    match key {
        PropName::Ident(_) => Ok(false),
        PropName::Str(_) => Ok(false),
        PropName::Num(_) => Ok(false),
        PropName::Computed(n) => {
            let made = add(alloc, ctx, Words::Go, &mut n.expr, out)?;
            Ok(made)
        }
    }
}

/// Whether a key is no expression.
fn has_plain_key(n: &KeyValueProp) -> bool
    ensures { IsTrue result → IsPlainKey (key_tree expr_tree n.now.key) }
{
    match &n.key {
        PropName::Ident(_) | PropName::Str(_) | PropName::Num(_) => true,
        PropName::Computed(_) => false,
    }
}

/// Whether an expression is a literal, without effect.
fn is_pure_literal(ctx: &ExprCtx, e: &Expr) -> bool
    ensures literal { IsTrue result → tree_is_literal (expr_tree e.now) ≡ true }
    ensures idle { IsTrue result → pure (unresolved ctx.now) (expr_tree e.now) ≡ true }
{
    is_literal(e) && !e.may_have_side_effects(ctx)
}

/// Whether a property is `key: value` of a plain key and a literal value, which is pure.
#[tactic(auto, using(crate::proofs::Kept::goes_prop))]
fn goes(ctx: &ExprCtx, prop: &PropOrSpread) -> bool
    ensures { IsTrue result → Goes (unresolved ctx.now) (prop_or_spread_tree prop.now) }
{
    match prop {
        PropOrSpread::Spread(_) => false,
        PropOrSpread::Prop(prop) => match prop {
            Prop::Shorthand(_) => false,
            Prop::KeyValue(n) => has_plain_key(n) && is_pure_literal(ctx, &n.value),
            Prop::Method(_) => false,
        },
    }
}

/// The properties that stay, and whether others go.
fn kept_props(
    alloc: Global,
    ctx: &ExprCtx,
    props: Vec<PropOrSpread>,
) -> Result<(bool, Vec<PropOrSpread>), AllocError>
    ensures { IfOk result (λ r. PropertiesLeft (unresolved ctx.now) r.0 (list_trees prop_or_spread_tree props.items) (list_trees prop_or_spread_tree r.1.items)) }
{
    let mut changed = false;
    let mut out = Vec::new(alloc);
    for prop in props {
        if goes(ctx, &prop) {
            drop(prop);
            changed = true;
        } else {
            out.push(prop)?;
        }
    }
    Ok((changed, out))
}

/// What is left of an object with a spread: an object, without its literal properties.
#[tactic(auto, using(swc_ast::proofs::Equations::forms, crate::proofs::Kept::object_changed, crate::proofs::Kept::object_kept))]
fn rest_of_spread(alloc: Global, ctx: &ExprCtx, n: &mut ObjectLit) -> Result<Rest, AllocError>
    ensures { IfOk result (λ r. Rested (unresolved ctx.now) (object_tree prop_or_spread_tree n.old) (object_tree prop_or_spread_tree n.new) r) }
{
    let props = mem::replace(&mut n.props, Vec::new(alloc));
    let (changed, props) = kept_props(alloc, ctx, props)?;
    if changed {
        let span = n.span;
        return Ok(Rest::Other(Expr::Object(ObjectLit { span, props })));
    }
    n.props = props;
    Ok(Rest::Same)
}
