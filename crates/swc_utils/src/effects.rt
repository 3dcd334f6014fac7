//! The parts of expressions that a run of them may be noticed by, in front of a value.
ghost use Rattle.std.specs.Prelude.{◌≡◌, false, [], ◌∷◌, IfOk, IfErr, map};
ghost use Rattle.swc_ast.specs.Tree.{ε, ◌⊳◌};
ghost use Rattle.swc_ast.specs.Parts.{list_trees};
ghost use Rattle.swc_ast.specs.Scope.{joined};
ghost use Rattle.swc_ast.specs.Expressions.{item_kind, item_trees, key_tree, shorthand_tree};
ghost use Rattle.swc_ast.specs.Views.{expr_tree, prop_or_spread_tree};
ghost use Rattle.swc_ast.specs.declared.errors.PassError.TheVariants.{OutOfMemory};
ghost use Rattle.swc_utils.specs.Globals.{unresolved};
ghost use Rattle.swc_utils.specs.Pure.{has_spread as kinds_have_spread};
ghost use Rattle.swc_utils.specs.Effects.{is_read as tree_is_read, is_record_spread as tree_is_record_spread, keeps_whole as tree_keeps_whole, has_record_spread, unless_pure, effects, effects_all, preserve, Preserves};

use crate::context::ExprCtx;
use crate::operators::{deletes, is_strict, is_typeof};
use crate::purity::{has_no_exprs, is_pure};
use std::alloc::{AllocError, Global};
use swc_ast::{
    Expr, ExprOrSpread, Ident, PassError, Prop, PropName, PropOrSpread, SeqExpr, Span, UnaryOp,
};

/// Whether an expression is a name.
#[tactic(auto, using(swc_ast::proofs::Equations::forms, crate::proofs::EffectNodes::read_nodes))]
fn is_read(e: &Expr) -> bool
    ensures { result ≡ tree_is_read (expr_tree e.now) }
{
    match e {
        Expr::Ident(_) => true,
        Expr::Unary(_) => false,
        Expr::Call(_) => false,
        Expr::Update(_) => false,
        Expr::Assign(_) => false,
        Expr::Member(_) => false,
        Expr::Lit(_) => false,
        Expr::This(_)
        | Expr::Array(_)
        | Expr::Object(_)
        | Expr::Fn(_)
        | Expr::Bin(_)
        | Expr::Cond(_)
        | Expr::New(_)
        | Expr::Seq(_)
        | Expr::Tpl(_)
        | Expr::Arrow(_)
        | Expr::Invalid(_) => false,
    }
}

/// Whether an operator and its operand are one effect: `delete`, and `typeof` of a name.
fn keeps_whole(op: UnaryOp, arg: &Expr) -> bool
    ensures { result ≡ tree_keeps_whole op (expr_tree arg.now) }
{
    deletes(op) || is_typeof(op) && is_read(arg)
}

/// Whether one of some items is spread.
pub fn has_spread(items: &[Option<ExprOrSpread>]) -> bool
    ensures { result ≡ kinds_have_spread (map item_kind items.now) }
{
    let mut left = items;
    while let [item, rest @ ..] = left {
        if let Some(item) = item {
            if let Some(_) = item.spread {
                return true;
            }
        }
        left = rest;
    }
    false
}

#[tactic(auto, using(swc_ast::proofs::Equations::forms))]
fn is_record_spread(prop: &PropOrSpread) -> bool
    ensures { result ≡ tree_is_record_spread (prop_or_spread_tree prop.now) }
{
    match prop {
        PropOrSpread::Spread(_) => true,
        PropOrSpread::Prop(prop) => match prop {
            Prop::Shorthand(_) => false,
            Prop::KeyValue(_) => false,
            Prop::Method(_) => false,
        },
    }
}

/// Whether one of some properties of an object literal is a spread.
pub fn has_spread_prop(props: &[PropOrSpread]) -> bool
    ensures { result ≡ has_record_spread (list_trees prop_or_spread_tree props.now) }
{
    let mut left = props;
    while let [prop, rest @ ..] = left {
        if is_record_spread(prop) {
            return true;
        }
        left = rest;
    }
    false
}

/// Adds a copy of an expression.
#[tactic(auto, using(crate::proofs::Chains::pushed))]
fn push(e: &Expr, out: Vec<Expr>) -> Result<Vec<Expr>, AllocError>
    ensures { IfOk result (λ r. list_trees expr_tree r.items ≡ joined (list_trees expr_tree out.items) (expr_tree e.now ⊳ ε)) }
{
    let mut out = out;
    out.push(e.clone()?)?;
    Ok(out)
}

/// Adds a copy of an expression, unless it is pure.
#[tactic(auto, using(crate::proofs::Chains::joined_none))]
fn push_unless_pure(ctx: ExprCtx, e: &Expr, out: Vec<Expr>) -> Result<Vec<Expr>, AllocError>
    ensures { IfOk result (λ r. list_trees expr_tree r.items ≡ joined (list_trees expr_tree out.items) (unless_pure (unresolved ctx) (expr_tree e.now))) }
{
    if is_pure(ctx, e) {
        return Ok(out);
    }
    push(e, out)
}

/// Adds a name that stands for a property and its value, where the host may be asked about it.
#[tactic(auto, using(swc_ast::proofs::Equations::forms, crate::proofs::Chains::pushed, crate::proofs::Chains::joined_none))]
fn push_shorthand(ctx: ExprCtx, n: &Ident, out: Vec<Expr>) -> Result<Vec<Expr>, AllocError>
    ensures { IfOk result (λ r. list_trees expr_tree r.items ≡ joined (list_trees expr_tree out.items) (effects (unresolved ctx) (shorthand_tree n.now))) }
{
    if !ctx.is_host_name(n) {
        return Ok(out);
    }
    push(&Expr::Ident(n.clone()?), out)
}

/// Adds the effects of an expression.
#[cycle(effects)]
#[tactic(auto, using(swc_ast::proofs::Equations::forms, crate::proofs::EffectNodes::effect_nodes, crate::proofs::Chains::joined_assoc))]
fn push_effects(ctx: ExprCtx, e: &Expr, out: Vec<Expr>) -> Result<Vec<Expr>, AllocError>
    ensures { IfOk result (λ r. list_trees expr_tree r.items ≡ joined (list_trees expr_tree out.items) (effects (unresolved ctx) (expr_tree e.now))) }
{
    match e {
        Expr::Unary(n) => {
            if keeps_whole(n.op, &n.arg) {
                return push_unless_pure(ctx, e, out);
            }
            push_effects(ctx, &n.arg, out)
        }
        Expr::Bin(n) => {
            if !is_strict(n.op) {
                return push_unless_pure(ctx, e, out);
            }
            let out = push_effects(ctx, &n.left, out)?;
            push_effects(ctx, &n.right, out)
        }
        Expr::Tpl(n) => push_all(ctx, &n.exprs, out),
        Expr::Seq(n) => push_all(ctx, &n.exprs, out),
        Expr::Array(n) => {
            if has_spread(&n.elems) {
                return push(e, out);
            }
            push_items(ctx, &n.elems, out)
        }
        Expr::Object(n) => {
            if has_spread_prop(&n.props) {
                return push(e, out);
            }
            push_props(ctx, &n.props, out)
        }
        Expr::Call(_) => push_unless_pure(ctx, e, out),
        Expr::Update(_) => push_unless_pure(ctx, e, out),
        Expr::Assign(_) => push_unless_pure(ctx, e, out),
        Expr::Member(_) => push_unless_pure(ctx, e, out),
        Expr::Lit(_) => push_unless_pure(ctx, e, out),
        Expr::This(_) => push_unless_pure(ctx, e, out),
        Expr::Fn(_) => push_unless_pure(ctx, e, out),
        Expr::Cond(_) => push_unless_pure(ctx, e, out),
        Expr::New(_) => push_unless_pure(ctx, e, out),
        Expr::Ident(_) => push_unless_pure(ctx, e, out),
        Expr::Arrow(_) => push_unless_pure(ctx, e, out),
        Expr::Invalid(_) => push_unless_pure(ctx, e, out),
    }
}

#[cycle(effects)]
fn push_all(ctx: ExprCtx, es: &[Expr], out: Vec<Expr>) -> Result<Vec<Expr>, AllocError>
    ensures { IfOk result (λ r. list_trees expr_tree r.items ≡ joined (list_trees expr_tree out.items) (effects_all (unresolved ctx) (list_trees expr_tree es.now))) }
{
    let mut all = out;
    for e in es {
        all = push_effects(ctx, e, all)?;
    }
    Ok(all)
}

#[cycle(effects)]
fn push_items(
    ctx: ExprCtx,
    items: &[Option<ExprOrSpread>],
    out: Vec<Expr>,
) -> Result<Vec<Expr>, AllocError>
    ensures { IfOk result (λ r. list_trees expr_tree r.items ≡ joined (list_trees expr_tree out.items) (effects_all (unresolved ctx) (item_trees expr_tree items.now))) }
{
    let mut all = out;
    for item in items {
        if let Some(item) = item {
            all = push_effects(ctx, &item.expr, all)?;
        }
    }
    Ok(all)
}

/// The properties aren't spreads.
#[cycle(effects)]
fn push_props(ctx: ExprCtx, props: &[PropOrSpread], out: Vec<Expr>) -> Result<Vec<Expr>, AllocError>
    requires { has_record_spread (list_trees prop_or_spread_tree props.now) ≡ false }
    ensures { IfOk result (λ r. list_trees expr_tree r.items ≡ joined (list_trees expr_tree out.items) (effects_all (unresolved ctx) (list_trees prop_or_spread_tree props.now))) }
{
    let mut all = out;
    for prop in props {
        all = push_prop(ctx, prop, all)?;
    }
    Ok(all)
}

/// The property isn't a spread.
#[cycle(effects)]
#[tactic(auto, using(swc_ast::proofs::Equations::forms, crate::proofs::Chains::joined_assoc, crate::proofs::Chains::joined_none))]
fn push_prop(ctx: ExprCtx, prop: &PropOrSpread, out: Vec<Expr>) -> Result<Vec<Expr>, AllocError>
    requires { tree_is_record_spread (prop_or_spread_tree prop.now) ≡ false }
    ensures { IfOk result (λ r. list_trees expr_tree r.items ≡ joined (list_trees expr_tree out.items) (effects (unresolved ctx) (prop_or_spread_tree prop.now))) }
{
    match prop {
        PropOrSpread::Spread(_) => Ok(out),
        PropOrSpread::Prop(prop) => match prop {
            Prop::Shorthand(n) => push_shorthand(ctx, n, out),
            Prop::KeyValue(n) => {
                let out = push_key(ctx, &n.key, out)?;
                push_effects(ctx, &n.value, out)
            }
            Prop::Method(n) => push_key(ctx, &n.key, out),
        },
    }
}

#[cycle(effects)]
#[tactic(auto, using(crate::proofs::Chains::joined_none))]
fn push_key(ctx: ExprCtx, key: &PropName, out: Vec<Expr>) -> Result<Vec<Expr>, AllocError>
    ensures { IfOk result (λ r. list_trees expr_tree r.items ≡ joined (list_trees expr_tree out.items) (effects (unresolved ctx) (key_tree expr_tree key.now))) }
{
    match key {
        PropName::Ident(_) => Ok(out),
        PropName::Str(_) => Ok(out),
        PropName::Num(_) => Ok(out),
        PropName::Computed(n) => push_effects(ctx, &n.expr, out),
    }
}

#[tactic(auto, using(swc_ast::proofs::Equations::forms, crate::proofs::Chains::pushed, crate::proofs::Pushes::none_in_front, crate::proofs::Pushes::some_in_front))]
fn put_behind(
    alloc: Global,
    ctx: ExprCtx,
    span: Span,
    value: Expr,
    exprs: &[Expr],
) -> Result<Expr, AllocError>
    ensures { IfOk result (λ r. expr_tree r ≡ preserve (span ∷ []) (effects_all (unresolved ctx) (list_trees expr_tree exprs.now)) (expr_tree value)) }
{
    let mut parts = push_all(ctx, exprs, Vec::new(alloc))?;
    if has_no_exprs(&parts) {
        return Ok(value);
    }
    parts.push(value)?;
    Ok(Expr::Seq(SeqExpr { span, exprs: parts }))
}

/// Returns a value behind the effects of some expressions whose own values are dropped: a sequence, if there are any effects.
/// The parts are copies. Fails if memory runs out.
#[tactic(auto, using(crate::proofs::Preserved::preserved))]
pub fn preserve_effects(
    alloc: Global,
    ctx: &ExprCtx,
    span: Span,
    value: Expr,
    exprs: Vec<Expr>,
) -> Result<Expr, PassError>
    ensures answer { IfOk result (λ r. expr_tree r ≡ preserve (span ∷ []) (effects_all (unresolved ctx.now) (list_trees expr_tree exprs.items)) (expr_tree value)) }
    ensures sound { IfOk result (λ r. Preserves (unresolved ctx.now) (list_trees expr_tree exprs.items) (expr_tree value) (expr_tree r)) }
    ensures memory { IfErr result (λ e. e ≡ OutOfMemory) }
{
    let answer = put_behind(alloc, *ctx, span, value, &exprs)?;
    Ok(answer)
}
