//! What is known of the type of an expression's value.
ghost use Rattle.std.specs.Prelude.{◌≡◌, Some, if◌then◌else◌};
ghost use Rattle.swc_ast.specs.declared.BinaryOp.TheVariants.{Add};
ghost use Rattle.swc_ast.specs.Meaning.{operator_of};
ghost use Rattle.swc_ast.specs.Parts.{list_trees, ident_tree};
ghost use Rattle.swc_ast.specs.Views.{expr_tree};
ghost use Rattle.swc_utils.specs.Globals.{unresolved};
ghost use Rattle.swc_utils.specs.Known.{lit_value};
ghost use Rattle.swc_utils.specs.Types as trees;
ghost use Rattle.swc_utils.specs.Types.{type_of as tree_type, value_type};
ghost use Rattle.swc_utils.specs.Sound.{known};
ghost use Rattle.swc_utils.specs.declared.answers.ValueType.TheVariants.{Num, Bool};

use crate::answers::{Value, ValueType};
use crate::context::ExprCtx;
use swc_ast::{AssignOp, BinaryOp, Expr, Ident, Lit, UnaryOp};

/// Whether the operator gives a number, whatever its sides are.
pub fn is_numeric(op: BinaryOp) -> bool
    ensures { result ≡ trees.is_numeric_op op }
{
    match op {
        BinaryOp::Sub
        | BinaryOp::Mul
        | BinaryOp::Div
        | BinaryOp::Mod
        | BinaryOp::Exp
        | BinaryOp::BitAnd
        | BinaryOp::BitOr
        | BinaryOp::BitXor
        | BinaryOp::LShift
        | BinaryOp::RShift
        | BinaryOp::ZeroFillRShift => true,
        _ => false,
    }
}

fn type_of_operator(op: UnaryOp) -> ValueType
    ensures { result ≡ trees.unary_type op }
{
    match op {
        UnaryOp::Minus | UnaryOp::Plus | UnaryOp::Tilde => ValueType::Num,
        UnaryOp::Bang | UnaryOp::Delete => ValueType::Bool,
        UnaryOp::TypeOf => ValueType::Str,
        UnaryOp::Void => ValueType::Undefined,
    }
}

fn type_of_literal(n: &Lit) -> ValueType
    ensures { result ≡ value_type (lit_value n.now) }
{
    match n {
        Lit::Str(_) => ValueType::Str,
        Lit::Bool(_) => ValueType::Bool,
        Lit::Null(_) => ValueType::Null,
        Lit::Num(_) => ValueType::Num,
    }
}

fn type_of_name(ctx: ExprCtx, n: &Ident) -> Value<ValueType>
    ensures { known result ≡ tree_type (unresolved ctx) (ident_tree n.now) }
{
    if ctx.is_global(n, "undefined") {
        return Value::Known(ValueType::Undefined);
    }
    if ctx.is_global(n, "NaN") || ctx.is_global(n, "Infinity") {
        return Value::Known(ValueType::Num);
    }
    Value::Unknown
}

fn is_same(a: ValueType, b: ValueType) -> bool
    ensures { result ≡ trees.same_type a b }
{
    a == b
}

/// The type of both, if they agree.
fn agreed(a: Value<ValueType>, b: Value<ValueType>) -> Value<ValueType>
    ensures { known result ≡ trees.agreed (known a) (known b) }
{
    match a {
        Value::Known(a) => match b {
            Value::Known(b) => {
                if is_same(a, b) {
                    return Value::Known(a);
                }
                Value::Unknown
            }
            Value::Unknown => Value::Unknown,
        },
        Value::Unknown => Value::Unknown,
    }
}

fn is_text(t: &Value<ValueType>) -> bool
    ensures { result ≡ trees.is_text_type (known t.now) }
{
    match t {
        Value::Known(t) => match t {
            ValueType::Str => true,
            _ => false,
        },
        Value::Unknown => false,
    }
}

/// Whether the type is known and neither text nor object.
fn is_number_like(t: &Value<ValueType>) -> bool
    ensures { result ≡ trees.is_number_like (known t.now) }
{
    match t {
        Value::Known(t) => match t {
            ValueType::Str | ValueType::Obj => false,
            _ => true,
        },
        Value::Unknown => false,
    }
}

fn plus_type(a: Value<ValueType>, b: Value<ValueType>) -> Value<ValueType>
    ensures { known result ≡ trees.plus_type (known a) (known b) }
{
    if is_text(&a) || is_text(&b) {
        return Value::Known(ValueType::Str);
    }
    if is_number_like(&a) && is_number_like(&b) {
        return Value::Known(ValueType::Num);
    }
    Value::Unknown
}

/// The type of `a += b`, by that of `b`.
fn plus_assign_type(right: Value<ValueType>) -> Value<ValueType>
    ensures { known result ≡ trees.assign_type (Some Add) (known right) }
{
    if is_text(&right) {
        return right;
    }
    Value::Unknown
}

/// What is known of the type of an expression's value.
#[cycle(types)]
#[tactic(auto, using(swc_ast::proofs::Equations::forms, crate::proofs::TypeNodes::type_nodes))]
pub(crate) fn type_of(ctx: ExprCtx, e: &Expr) -> Value<ValueType>
    ensures { known result ≡ tree_type (unresolved ctx) (expr_tree e.now) }
{
    match e {
        Expr::Array(_) | Expr::Object(_) | Expr::Fn(_) | Expr::Arrow(_) => {
            Value::Known(ValueType::Obj)
        }
        Expr::Tpl(_) => Value::Known(ValueType::Str),
        Expr::Lit(n) => Value::Known(type_of_literal(n)),
        Expr::Ident(n) => type_of_name(ctx, n),
        Expr::Unary(n) => Value::Known(type_of_operator(n.op)),
        Expr::Update(_) => Value::Known(ValueType::Num),
        Expr::Bin(n) => type_of_binary(ctx, n.op, &n.left, &n.right),
        Expr::Assign(n) => type_of_assign(ctx, n.op, &n.right),
        Expr::Cond(n) => agreed(type_of(ctx, &n.cons), type_of(ctx, &n.alt)),
        Expr::Seq(n) => type_of_last(ctx, &n.exprs),
        Expr::Call(_) => Value::Unknown,
        Expr::Member(_) => Value::Unknown,
        Expr::This(_) | Expr::New(_) | Expr::Invalid(_) => Value::Unknown,
    }
}

#[cycle(types)]
fn type_of_binary(ctx: ExprCtx, op: BinaryOp, left: &Expr, right: &Expr) -> Value<ValueType>
    ensures { known result ≡ trees.binary_type op (tree_type (unresolved ctx) (expr_tree left.now)) (tree_type (unresolved ctx) (expr_tree right.now)) }
{
    match op {
        BinaryOp::Add => plus_type(type_of(ctx, left), type_of(ctx, right)),
        BinaryOp::LogicalOr => agreed(type_of(ctx, left), type_of(ctx, right)),
        BinaryOp::LogicalAnd => agreed(type_of(ctx, left), type_of(ctx, right)),
        BinaryOp::NullishCoalescing => Value::Unknown,
        _ => Value::Known(type_of_result(op)),
    }
}

#[cycle(types)]
fn type_of_assign(ctx: ExprCtx, op: AssignOp, right: &Expr) -> Value<ValueType>
    ensures { known result ≡ trees.assign_type (operator_of op) (tree_type (unresolved ctx) (expr_tree right.now)) }
{
    match op {
        AssignOp::Assign => type_of(ctx, right),
        AssignOp::AddAssign => plus_assign_type(type_of(ctx, right)),
        AssignOp::AndAssign | AssignOp::OrAssign | AssignOp::NullishAssign => Value::Unknown,
        AssignOp::SubAssign
        | AssignOp::MulAssign
        | AssignOp::DivAssign
        | AssignOp::ModAssign
        | AssignOp::ExpAssign
        | AssignOp::LShiftAssign
        | AssignOp::RShiftAssign
        | AssignOp::ZeroFillRShiftAssign
        | AssignOp::BitOrAssign
        | AssignOp::BitXorAssign
        | AssignOp::BitAndAssign => Value::Known(ValueType::Num),
    }
}

#[cycle(types)]
fn type_of_last(ctx: ExprCtx, es: &[Expr]) -> Value<ValueType>
    ensures { known result ≡ trees.last_type (unresolved ctx) (list_trees expr_tree es.now) }
{
    match es {
        [] => Value::Unknown,
        [.., last] => type_of(ctx, last),
    }
}

/// The type of an operator's value, where the operator alone tells it.
fn type_of_result(op: BinaryOp) -> ValueType
    ensures { result ≡ (if trees.is_numeric_op op then Num else Bool) }
{
    if is_numeric(op) {
        ValueType::Num
    } else {
        ValueType::Bool
    }
}
