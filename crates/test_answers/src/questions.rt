//! What is known of expressions.
use anyhow::Context;
use std::alloc::Global;
use std::fmt::Write;
use swc_ast::{Expr, Mark, Module, ModuleItem, Stmt, SyntaxContext};
use swc_text::read_module;
use swc_utils::{ExprCtx, ExprExt, is_literal};

/// What is asked of an expression.
#[derive(Clone, Copy)]
pub enum Question {
    Truth,
    Number,
    Text,
    Type,
    Facts,
}

impl Question {
    /// The question of a name, if it has one.
    pub fn parse(name: &str) -> Option<Question> {
        match name {
            "truth" => Some(Question::Truth),
            "number" => Some(Question::Number),
            "text" => Some(Question::Text),
            "type" => Some(Question::Type),
            "facts" => Some(Question::Facts),
            _ => None,
        }
    }
}

/// Tells what is known of the expression that a text ends with.
pub fn known(
    alloc: Global,
    told: &mut String,
    what: Question,
    text: &str,
    mark: Mark,
) -> anyhow::Result<()> {
    let ctx = ExprCtx {
        unresolved_ctxt: SyntaxContext::empty().apply_mark(mark),
        is_unresolved_ref_safe: false,
    };
    let module = read_module(alloc, text, mark)?;
    let expr = last_expression(&module).context("an expression at the end")?;
    push_known(alloc, told, what, expr, &ctx)
}

fn push_known(
    alloc: Global,
    told: &mut String,
    what: Question,
    expr: &Expr,
    ctx: &ExprCtx,
) -> anyhow::Result<()> {
    match what {
        Question::Truth => {
            let (purity, truth) = expr.cast_to_bool(ctx);
            let pure_truth = expr.as_pure_bool(ctx);
            write!(told, "{purity:?}, {truth:?}; where pure: {pure_truth:?}")?;
        }
        Question::Number => write!(told, "{:?}", expr.as_pure_number(ctx))?,
        Question::Text => write!(told, "{:?}", expr.as_pure_string(alloc, ctx)?)?,
        Question::Type => write!(told, "{:?}", expr.get_type(ctx))?,
        Question::Facts => push_facts(told, expr, ctx)?,
    }
    Ok(())
}

/// Tells what holds of an expression.
fn push_facts(told: &mut String, expr: &Expr, ctx: &ExprCtx) -> anyhow::Result<()> {
    for (holds, word) in [
        (expr.is_undefined(ctx), "undefined, "),
        (expr.is_nan(ctx), "NaN, "),
        (expr.is_global_ref_to(ctx, "Object"), "Object, "),
        (expr.directness_maters(ctx), "its place matters, "),
        (
            expr.is_pure_callee(ctx),
            "does nothing where it is called, ",
        ),
        (is_literal(expr), "literal, "),
        (expr.may_have_side_effects(ctx), "has effects"),
        (!expr.may_have_side_effects(ctx), "no effects"),
    ] {
        if holds {
            told.push_str(word)?;
        }
    }
    Ok(())
}

fn last_expression(module: &Module) -> Option<&Expr> {
    match module.body.last()? {
        ModuleItem::Stmt(Stmt::Expr(node)) => Some(&node.expr),
        _ => None,
    }
}
