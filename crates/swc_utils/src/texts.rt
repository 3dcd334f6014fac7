//! What is known of the text of an expression's value. ECMA-262, 7.1.17.
ghost use Rattle.std.specs.Prelude.{◌≡◌, IfOk, map, true};
ghost use Rattle.swc_ast.specs.declared.UnaryOp.TheVariants.{Bang};
ghost use Rattle.swc_ast.specs.Operators.{to_text};
ghost use Rattle.swc_ast.specs.Value.{Truth};
ghost use Rattle.swc_ast.specs.Parts.{list_trees, ident_tree};
ghost use Rattle.swc_ast.specs.Expressions.{quasi_text};
ghost use Rattle.swc_ast.specs.Views.{expr_tree};
ghost use Rattle.swc_utils.specs.Globals.{unresolved};
ghost use Rattle.swc_utils.specs.Pure.{pure};
ghost use Rattle.swc_utils.specs.Known.{lit_value, of_value, text, template_known, truth, unary_known};
ghost use Rattle.swc_utils.specs.Sound.{known, known_text};

use crate::answers::Value;
use crate::context::{Constant, ExprCtx};
use crate::purity::is_pure;
use crate::values::truth_of;
use std::alloc::{AllocError, Global};
use swc_ast::{Expr, Ident, Lit, TplElement, UnaryOp};

fn text_of_truth(alloc: Global, truth: bool) -> Result<Value<String>, AllocError>
    ensures { IfOk result (λ r. known_text r ≡ to_text (Truth truth)) }
{
    if truth {
        return Ok(Value::Known(String::from_str(alloc, "true")?));
    }
    Ok(Value::Known(String::from_str(alloc, "false")?))
}

fn text_of_literal(alloc: Global, n: &Lit) -> Result<Value<String>, AllocError>
    ensures { IfOk result (λ r. known_text r ≡ to_text (lit_value n.now)) }
{
    match n {
        Lit::Str(n) => Ok(Value::Known(n.value.clone()?)),
        Lit::Bool(n) => text_of_truth(alloc, n.value),
        Lit::Null(_) => Ok(Value::Known(String::from_str(alloc, "null")?)),
        Lit::Num(n) => Ok(Value::Known(n.value.to_string(alloc)?)),
    }
}

fn text_of_name(alloc: Global, ctx: ExprCtx, n: &Ident) -> Result<Value<String>, AllocError>
    ensures { IfOk result (λ r. known_text r ≡ text (unresolved ctx) (ident_tree n.now)) }
{
    match ctx.constant(n) {
        Some(constant) => match constant {
            Constant::Undefined => Ok(Value::Known(String::from_str(alloc, "undefined")?)),
            Constant::NaN => Ok(Value::Known(String::from_str(alloc, "NaN")?)),
        },
        None => Ok(Value::Unknown),
    }
}

/// The text of `!a`, by the truth of `a`.
fn text_of_negation(alloc: Global, truth: Value<bool>) -> Result<Value<String>, AllocError>
    ensures { IfOk result (λ r. known_text r ≡ of_value to_text (unary_known Bang true (known truth))) }
{
    match truth {
        Value::Known(b) => text_of_truth(alloc, !b),
        Value::Unknown => Ok(Value::Unknown),
    }
}

fn text_of_unary(
    alloc: Global,
    ctx: ExprCtx,
    op: UnaryOp,
    arg: &Expr,
) -> Result<Value<String>, AllocError>
    ensures { IfOk result (λ r. known_text r ≡ of_value to_text (unary_known op (pure (unresolved ctx) (expr_tree arg.now)) (truth (unresolved ctx) (expr_tree arg.now)))) }
{
    match op {
        UnaryOp::Void => {
            if is_pure(ctx, arg) {
                return Ok(Value::Known(String::from_str(alloc, "undefined")?));
            }
            Ok(Value::Unknown)
        }
        UnaryOp::Bang => {
            if is_pure(ctx, arg) {
                return text_of_negation(alloc, truth_of(ctx, arg));
            }
            Ok(Value::Unknown)
        }
        UnaryOp::Minus => Ok(Value::Unknown),
        UnaryOp::Plus => Ok(Value::Unknown),
        UnaryOp::Tilde => Ok(Value::Unknown),
        UnaryOp::TypeOf => Ok(Value::Unknown),
        UnaryOp::Delete => Ok(Value::Unknown),
    }
}

/// What is known of the text of an expression's value, where the expression is pure.
#[cycle(texts)]
#[tactic(auto, using(swc_ast::proofs::Equations::forms, crate::proofs::TextNodes::text_nodes))]
pub(crate) fn text_of(alloc: Global, ctx: ExprCtx, e: &Expr) -> Result<Value<String>, AllocError>
    ensures { IfOk result (λ r. known_text r ≡ text (unresolved ctx) (expr_tree e.now)) }
{
    match e {
        Expr::Lit(n) => text_of_literal(alloc, n),
        Expr::Ident(n) => text_of_name(alloc, ctx, n),
        Expr::Unary(n) => text_of_unary(alloc, ctx, n.op, &n.arg),
        Expr::Tpl(n) => text_of_template(alloc, ctx, &n.quasis, &n.exprs),
        Expr::Call(_) => Ok(Value::Unknown),
        Expr::Update(_) => Ok(Value::Unknown),
        Expr::Assign(_) => Ok(Value::Unknown),
        Expr::Member(_) => Ok(Value::Unknown),
        Expr::This(_)
        | Expr::Array(_)
        | Expr::Object(_)
        | Expr::Fn(_)
        | Expr::Bin(_)
        | Expr::Cond(_)
        | Expr::New(_)
        | Expr::Seq(_)
        | Expr::Arrow(_)
        | Expr::Invalid(_) => Ok(Value::Unknown),
    }
}

/// The text of a template, where the texts of its expressions are known.
#[cycle(texts)]
fn text_of_template(
    alloc: Global,
    ctx: ExprCtx,
    quasis: &[TplElement],
    exprs: &[Expr],
) -> Result<Value<String>, AllocError>
    ensures { IfOk result (λ r. known_text r ≡ template_known (unresolved ctx) (map quasi_text quasis.now) (list_trees expr_tree exprs.now)) }
{
    let mut out = String::new(alloc);
    let mut texts = quasis;
    for e in exprs {
        match texts {
            [] => return Ok(Value::Unknown),
            [quasi, more @ ..] => {
                out.push_str(&quasi.cooked)?;
                match text_of(alloc, ctx, e)? {
                    Value::Known(text) => out.push_str(&text)?,
                    Value::Unknown => return Ok(Value::Unknown),
                }
                texts = more;
            }
        }
    }
    match texts {
        [] => Ok(Value::Known(out)),
        [quasi, ..] => {
            out.push_str(&quasi.cooked)?;
            Ok(Value::Known(out))
        }
    }
}
