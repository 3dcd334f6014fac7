//! What is known of the truth and of the number of an expression's value. ECMA-262, 7.1.2 and 7.1.4.
ghost use Rattle.std.specs.Prelude.{◌≡◌, map};
ghost use Rattle.std.specs.Prelude.{true};
ghost use Rattle.swc_ast.specs.declared.UnaryOp.TheVariants.{Bang};
ghost use Rattle.swc_ast.specs.Operators as operators;
ghost use Rattle.swc_ast.specs.Operators.{to_number};
ghost use Rattle.swc_ast.specs.Parts.{list_trees, ident_tree};
ghost use Rattle.swc_ast.specs.Expressions.{quasi_text, tpl_tree};
ghost use Rattle.swc_ast.specs.Views.{expr_tree};
ghost use Rattle.swc_utils.specs.Globals.{unresolved};
ghost use Rattle.swc_utils.specs.Pure.{pure};
ghost use Rattle.swc_utils.specs.Known as trees;
ghost use Rattle.swc_utils.specs.Known.{lit_value, truth, number, unary_known};
ghost use Rattle.swc_utils.specs.Sound.{known, known_number};

use crate::answers::Value;
use crate::context::{Constant, ExprCtx};
use crate::number_text::number_of_text;
use crate::purity::{has_no_exprs, is_pure};
use swc_ast::{AssignOp, BinaryOp, Expr, Ident, Lit, Tpl, TplElement, UnaryOp};

/// 2^53 - 1
const GREATEST: u64 = 9007199254740991;

fn negation(truth: Value<bool>) -> Value<bool>
    ensures { known result ≡ trees.negation (known truth) }
{
    match truth {
        Value::Known(b) => Value::Known(!b),
        Value::Unknown => Value::Unknown,
    }
}

/// Whether a known number is neither 0 nor NaN.
fn truth_of_number(number: Value<Option<i64>>) -> Value<bool>
    ensures { known result ≡ trees.number_truth (known_number number) }
{
    match number {
        Value::Known(number) => match number {
            None => Value::Known(false),
            Some(n) => Value::Known(n != 0),
        },
        Value::Unknown => Value::Unknown,
    }
}

/// `-a` of a number: neither -0 nor a number past 2^53 - 1 is known.
fn minus(number: Value<Option<i64>>) -> Value<Option<i64>>
    ensures { known_number result ≡ trees.minus (known_number number) }
{
    match number {
        Value::Known(number) => match number {
            None => Value::Known(None),
            Some(n) => {
                if n == 0 || GREATEST < n.unsigned_abs() {
                    return Value::Unknown;
                }
                Value::Known(Some(-n))
            }
        },
        Value::Unknown => Value::Unknown,
    }
}

fn or_truth(a: Value<bool>, b: Value<bool>) -> Value<bool>
    ensures { known result ≡ trees.or_truth (known a) (known b) }
{
    match a {
        Value::Known(a) => {
            if a {
                return Value::Known(true);
            }
            b
        }
        Value::Unknown => match b {
            Value::Known(b) => {
                if b {
                    return Value::Known(true);
                }
                Value::Unknown
            }
            Value::Unknown => Value::Unknown,
        },
    }
}

fn and_truth(a: Value<bool>, b: Value<bool>) -> Value<bool>
    ensures { known result ≡ trees.and_truth (known a) (known b) }
{
    match a {
        Value::Known(a) => {
            if !a {
                return Value::Known(false);
            }
            b
        }
        Value::Unknown => match b {
            Value::Known(b) => {
                if !b {
                    return Value::Known(false);
                }
                Value::Unknown
            }
            Value::Unknown => Value::Unknown,
        },
    }
}

fn truth_of_literal(n: &Lit) -> bool
    ensures { result ≡ operators.truthy (lit_value n.now) }
{
    match n {
        Lit::Str(n) => !n.value.is_empty(),
        Lit::Bool(n) => n.value,
        Lit::Null(_) => false,
        Lit::Num(n) => n.value != 0,
    }
}

fn number_of_literal(n: &Lit) -> Value<Option<i64>>
    ensures { known_number result ≡ to_number (lit_value n.now) }
{
    match n {
        Lit::Str(n) => number_of_text(&n.value),
        Lit::Bool(n) => Value::Known(Some(if n.value { 1 } else { 0 })),
        Lit::Null(_) => Value::Known(Some(0)),
        Lit::Num(n) => Value::Known(Some(n.value)),
    }
}

fn truth_of_name(ctx: ExprCtx, n: &Ident) -> Value<bool>
    ensures { known result ≡ truth (unresolved ctx) (ident_tree n.now) }
{
    match ctx.constant(n) {
        Some(constant) => match constant {
            Constant::Undefined => Value::Known(false),
            Constant::NaN => Value::Known(false),
        },
        None => Value::Unknown,
    }
}

fn number_of_name(ctx: ExprCtx, n: &Ident) -> Value<Option<i64>>
    ensures { known_number result ≡ number (unresolved ctx) (ident_tree n.now) }
{
    match ctx.constant(n) {
        Some(constant) => match constant {
            Constant::Undefined => Value::Known(None),
            Constant::NaN => Value::Known(None),
        },
        None => Value::Unknown,
    }
}

/// Whether one of a template's texts is not empty.
fn is_some_filled(quasis: &[TplElement], exprs: &[Expr]) -> bool
    ensures { result ≡ trees.some_filled (map quasi_text quasis.now) (list_trees expr_tree exprs.now) }
{
    let mut texts = quasis;
    let mut left = exprs;
    while let [quasi, more @ ..] = texts {
        if !quasi.cooked.is_empty() {
            return true;
        }
        match left {
            [] => return false,
            [_, rest @ ..] => left = rest,
        }
        texts = more;
    }
    false
}

fn truth_of_template(ctx: ExprCtx, n: &Tpl) -> Value<bool>
    ensures { known result ≡ truth (unresolved ctx) (tpl_tree expr_tree n.now) }
{
    if is_some_filled(&n.quasis, &n.exprs) {
        return Value::Known(true);
    }
    if has_no_exprs(&n.exprs) {
        return Value::Known(false);
    }
    Value::Unknown
}

/// What is known of the truth of an expression's value.
#[cycle(values)]
#[tactic(auto, using(swc_ast::proofs::Equations::forms, crate::proofs::KnownNodes::truth_nodes))]
pub(crate) fn truth_of(ctx: ExprCtx, e: &Expr) -> Value<bool>
    ensures { known result ≡ truth (unresolved ctx) (expr_tree e.now) }
{
    match e {
        Expr::Array(_) | Expr::Object(_) | Expr::Fn(_) | Expr::Arrow(_) => Value::Known(true),
        Expr::Lit(n) => Value::Known(truth_of_literal(n)),
        Expr::Ident(n) => truth_of_name(ctx, n),
        Expr::Tpl(n) => truth_of_template(ctx, n),
        Expr::Unary(n) => truth_of_unary(ctx, n.op, &n.arg),
        Expr::Bin(n) => truth_of_binary(ctx, n.op, &n.left, &n.right),
        Expr::Assign(n) => truth_of_assign(ctx, n.op, &n.right),
        Expr::Seq(n) => truth_of_last(ctx, &n.exprs),
        Expr::Call(_) => Value::Unknown,
        Expr::Update(_) => Value::Unknown,
        Expr::Member(_) => Value::Unknown,
        Expr::This(_) | Expr::Cond(_) | Expr::New(_) | Expr::Invalid(_) => Value::Unknown,
    }
}

#[cycle(values)]
fn truth_of_unary(ctx: ExprCtx, op: UnaryOp, arg: &Expr) -> Value<bool>
    ensures { known result ≡ trees.unary_truth op (truth (unresolved ctx) (expr_tree arg.now)) (number (unresolved ctx) (expr_tree arg.now)) }
{
    match op {
        UnaryOp::Void => Value::Known(false),
        UnaryOp::Bang => negation(truth_of(ctx, arg)),
        UnaryOp::Minus => truth_of_number(number_of(ctx, arg)),
        UnaryOp::Plus => Value::Unknown,
        UnaryOp::Tilde => Value::Unknown,
        UnaryOp::TypeOf => Value::Unknown,
        UnaryOp::Delete => Value::Unknown,
    }
}

#[cycle(values)]
fn truth_of_binary(ctx: ExprCtx, op: BinaryOp, left: &Expr, right: &Expr) -> Value<bool>
    ensures { known result ≡ trees.binary_truth op (truth (unresolved ctx) (expr_tree left.now)) (truth (unresolved ctx) (expr_tree right.now)) }
{
    match op {
        BinaryOp::LogicalOr => or_truth(truth_of(ctx, left), truth_of(ctx, right)),
        BinaryOp::LogicalAnd => and_truth(truth_of(ctx, left), truth_of(ctx, right)),
        _ => Value::Unknown,
    }
}

#[cycle(values)]
fn truth_of_assign(ctx: ExprCtx, op: AssignOp, right: &Expr) -> Value<bool>
    ensures { known result ≡ trees.assign_truth op (truth (unresolved ctx) (expr_tree right.now)) }
{
    match op {
        AssignOp::Assign => truth_of(ctx, right),
        _ => Value::Unknown,
    }
}

#[cycle(values)]
fn truth_of_last(ctx: ExprCtx, es: &[Expr]) -> Value<bool>
    ensures { known result ≡ trees.last_truth (unresolved ctx) (list_trees expr_tree es.now) }
{
    match es {
        [] => Value::Unknown,
        [.., last] => truth_of(ctx, last),
    }
}

/// What is known of the number of an expression's value, where the expression is pure.
#[cycle(values)]
#[tactic(auto, using(swc_ast::proofs::Equations::forms, crate::proofs::KnownNodes::number_nodes))]
pub(crate) fn number_of(ctx: ExprCtx, e: &Expr) -> Value<Option<i64>>
    ensures { known_number result ≡ number (unresolved ctx) (expr_tree e.now) }
{
    match e {
        Expr::Lit(n) => number_of_literal(n),
        Expr::Ident(n) => number_of_name(ctx, n),
        Expr::Unary(n) => number_of_unary(ctx, n.op, &n.arg),
        Expr::Call(_) => Value::Unknown,
        Expr::Update(_) => Value::Unknown,
        Expr::Assign(_) => Value::Unknown,
        Expr::Member(_) => Value::Unknown,
        Expr::This(_)
        | Expr::Array(_)
        | Expr::Object(_)
        | Expr::Fn(_)
        | Expr::Bin(_)
        | Expr::Cond(_)
        | Expr::New(_)
        | Expr::Seq(_)
        | Expr::Tpl(_)
        | Expr::Arrow(_)
        | Expr::Invalid(_) => Value::Unknown,
    }
}

#[cycle(values)]
fn number_of_unary(ctx: ExprCtx, op: UnaryOp, arg: &Expr) -> Value<Option<i64>>
    ensures { known_number result ≡ trees.unary_number op (number (unresolved ctx) (expr_tree arg.now)) (unary_known op (pure (unresolved ctx) (expr_tree arg.now)) (truth (unresolved ctx) (expr_tree arg.now))) }
{
    match op {
        UnaryOp::Minus => minus(number_of(ctx, arg)),
        UnaryOp::Void => {
            if is_pure(ctx, arg) {
                return Value::Known(None);
            }
            Value::Unknown
        }
        UnaryOp::Bang => {
            if is_pure(ctx, arg) {
                return number_of_negation(truth_of(ctx, arg));
            }
            Value::Unknown
        }
        UnaryOp::Plus => Value::Unknown,
        UnaryOp::Tilde => Value::Unknown,
        UnaryOp::TypeOf => Value::Unknown,
        UnaryOp::Delete => Value::Unknown,
    }
}

/// The number of `!a`, by the truth of `a`.
fn number_of_negation(truth: Value<bool>) -> Value<Option<i64>>
    ensures { known_number result ≡ trees.of_value to_number (unary_known Bang true (known truth)) }
{
    match truth {
        Value::Known(b) => Value::Known(Some(if b { 0 } else { 1 })),
        Value::Unknown => Value::Unknown,
    }
}

/// What is known of the truth of a pure expression's value.
pub(crate) fn pure_truth_of(ctx: ExprCtx, e: &Expr) -> Value<bool>
    ensures { known result ≡ trees.pure_truth (unresolved ctx) (expr_tree e.now) }
{
    if is_pure(ctx, e) {
        return truth_of(ctx, e);
    }
    Value::Unknown
}
