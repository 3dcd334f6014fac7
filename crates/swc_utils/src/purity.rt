//! Expressions that change nothing, ask nothing and throw nothing.
ghost use Rattle.std.specs.Prelude.{◌≡◌, not, ◌&&◌, map};
ghost use Rattle.swc_ast.specs.Parts.{list_trees};
ghost use Rattle.swc_ast.specs.Tree.{ε, ◌⊳◌};
ghost use Rattle.swc_ast.specs.Expressions.{item_kind, item_trees, key_tree, param_tree};
ghost use Rattle.swc_ast.specs.Views.{expr_tree, stmt_tree, prop_or_spread_tree, arrow_body_tree, function_trees};
ghost use Rattle.swc_utils.specs.Globals.{unresolved};
ghost use Rattle.swc_utils.specs.Pure.{pure, pure_all, has_spread, no_trees, is_empty_body, does_nothing, is_pure_callee as callee_is_pure};
ghost use Rattle.swc_utils.specs.Sound.{purity};

use crate::answers::Purity;
use crate::context::ExprCtx;
use crate::operators::{deletes, has_no_meaning};
use swc_ast::{
    BlockStmtOrExpr, Expr, ExprOrSpread, Function, Pat, Prop, PropName, PropOrSpread, Stmt,
};

#[tactic(auto, using(crate::proofs::PureNodes::some_trees))]
fn has_no_params(params: &[Pat]) -> bool
    ensures { result ≡ no_trees (list_trees (param_tree expr_tree) params.now) }
{
    match params {
        [] => true,
        [_, ..] => false,
    }
}

/// Whether there are no expressions.
#[tactic(auto, using(crate::proofs::PureNodes::some_trees))]
pub(crate) fn has_no_exprs(es: &[Expr]) -> bool
    ensures { result ≡ no_trees (list_trees expr_tree es.now) }
{
    match es {
        [] => true,
        [_, ..] => false,
    }
}

#[tactic(auto, using(crate::proofs::PureNodes::some_trees))]
fn has_no_stmts(stmts: &[Stmt]) -> bool
    ensures { result ≡ no_trees (list_trees stmt_tree stmts.now) }
{
    match stmts {
        [] => true,
        [_, ..] => false,
    }
}

#[tactic(auto, using(swc_ast::proofs::Equations::forms, crate::proofs::Bodies::no_block))]
fn has_empty_body(body: &BlockStmtOrExpr) -> bool
    ensures { result ≡ is_empty_body (arrow_body_tree body.now) }
{
    match body {
        BlockStmtOrExpr::BlockStmt(body) => has_no_stmts(&body.stmts),
        BlockStmtOrExpr::Expr(_) => false,
    }
}

/// Whether a function has neither parameters nor statements.
#[tactic(auto, using(swc_ast::proofs::Equations::forms))]
fn is_idle(f: &Function) -> bool
    ensures { let p = function_trees f.now in result ≡ does_nothing (p.parameters ⊳ p.body ⊳ ε) }
{
    has_no_params(&f.params) && has_no_stmts(&f.body.stmts)
}

/// Whether a callee does nothing: a nameless function or an arrow, without parameters and with an empty block.
#[tactic(auto, using(swc_ast::proofs::Equations::forms, crate::proofs::PureNodes::callee_nodes))]
pub(crate) fn is_pure_callee(e: &Expr) -> bool
    ensures { result ≡ callee_is_pure (expr_tree e.now) }
{
    match e {
        Expr::Fn(n) => n.ident.is_none() && is_idle(&n.function),
        Expr::Arrow(n) => has_no_params(&n.params) && has_empty_body(&n.body),
        Expr::Unary(_) => false,
        Expr::Call(_) => false,
        Expr::Update(_) => false,
        Expr::Assign(_) => false,
        Expr::Member(_) => false,
        Expr::Lit(_) => false,
        Expr::This(_)
        | Expr::Array(_)
        | Expr::Object(_)
        | Expr::Bin(_)
        | Expr::Cond(_)
        | Expr::New(_)
        | Expr::Seq(_)
        | Expr::Ident(_)
        | Expr::Tpl(_)
        | Expr::Invalid(_) => false,
    }
}

#[cycle(purity)]
#[tactic(auto, using(swc_ast::proofs::Equations::forms, crate::proofs::PureNodes::pure_nodes))]
pub(crate) fn is_pure(ctx: ExprCtx, e: &Expr) -> bool
    ensures { result ≡ pure (unresolved ctx) (expr_tree e.now) }
{
    match e {
        Expr::This(_) | Expr::Fn(_) | Expr::Lit(_) | Expr::Arrow(_) => true,
        Expr::Ident(n) => !ctx.is_host_name(n),
        Expr::Array(n) => are_items_pure(ctx, &n.elems),
        Expr::Object(n) => are_props_pure(ctx, &n.props),
        Expr::Unary(n) => !deletes(n.op) && is_pure(ctx, &n.arg),
        Expr::Seq(n) => are_pure(ctx, &n.exprs),
        Expr::Tpl(n) => are_pure(ctx, &n.exprs),
        Expr::Cond(n) => is_pure(ctx, &n.test) && is_pure(ctx, &n.cons) && is_pure(ctx, &n.alt),
        Expr::Bin(n) => { !has_no_meaning(n.op) && is_pure(ctx, &n.left) && is_pure(ctx, &n.right) }
        Expr::Call(n) => is_pure_callee(&n.callee) && are_pure(ctx, &n.args),
        Expr::Update(_) | Expr::Assign(_) | Expr::Member(_) | Expr::New(_) | Expr::Invalid(_) =>
            false,
    }
}

#[cycle(purity)]
#[tactic(auto, using(swc_ast::proofs::Equations::forms, crate::proofs::PureNodes::pure_nodes))]
pub(crate) fn are_pure(ctx: ExprCtx, es: &[Expr]) -> bool
    ensures { result ≡ pure_all (unresolved ctx) (list_trees expr_tree es.now) }
{
    for e in es {
        if !is_pure(ctx, e) {
            return false;
        }
    }
    true
}

#[cycle(purity)]
#[tactic(auto, using(swc_ast::proofs::Equations::forms, crate::proofs::PureNodes::pure_nodes))]
fn are_items_pure(ctx: ExprCtx, items: &[Option<ExprOrSpread>]) -> bool
    ensures { result ≡ (not (has_spread (map item_kind items.now)) && pure_all (unresolved ctx) (item_trees expr_tree items.now)) }
{
    for item in items {
        if let Some(item) = item {
            if let Some(_) = item.spread {
                return false;
            }
            if !is_pure(ctx, &item.expr) {
                return false;
            }
        }
    }
    true
}

#[cycle(purity)]
#[tactic(auto, using(swc_ast::proofs::Equations::forms, crate::proofs::PureNodes::pure_nodes))]
fn are_props_pure(ctx: ExprCtx, props: &[PropOrSpread]) -> bool
    ensures { result ≡ pure_all (unresolved ctx) (list_trees prop_or_spread_tree props.now) }
{
    for prop in props {
        if !is_prop_pure(ctx, prop) {
            return false;
        }
    }
    true
}

#[cycle(purity)]
#[tactic(auto, using(swc_ast::proofs::Equations::forms, crate::proofs::PureNodes::pure_nodes))]
fn is_prop_pure(ctx: ExprCtx, prop: &PropOrSpread) -> bool
    ensures { result ≡ pure (unresolved ctx) (prop_or_spread_tree prop.now) }
{
    match prop {
        PropOrSpread::Spread(_) => false,
        PropOrSpread::Prop(prop) => match prop {
            Prop::Shorthand(n) => !ctx.is_host_name(n),
            Prop::KeyValue(n) => is_key_pure(ctx, &n.key) && is_pure(ctx, &n.value),
            Prop::Method(n) => is_key_pure(ctx, &n.key),
        },
    }
}

#[cycle(purity)]
#[tactic(auto, using(swc_ast::proofs::Equations::forms, crate::proofs::PureNodes::pure_nodes))]
fn is_key_pure(ctx: ExprCtx, key: &PropName) -> bool
    ensures { result ≡ pure (unresolved ctx) (key_tree expr_tree key.now) }
{
    match key {
        PropName::Ident(_) | PropName::Str(_) | PropName::Num(_) => true,
        PropName::Computed(n) => is_pure(ctx, &n.expr),
    }
}

/// Whether an expression is pure, as an answer.
pub(crate) fn purity_of(ctx: ExprCtx, e: &Expr) -> Purity
    ensures { result ≡ purity (pure (unresolved ctx) (expr_tree e.now)) }
{
    if is_pure(ctx, e) {
        Purity::Pure
    } else {
        Purity::MayBeImpure
    }
}
