//! The length rule: a result is taken only where it isn't much longer than what it replaces.
ghost use Rattle.std.specs.Prelude.{◌≡◌, ◌+◌, length};
ghost use Rattle.std.specs.Fmt.{decimal, signed_decimal};
ghost use Rattle.swc_ast.specs.Operators.{number_value};
ghost use Rattle.swc_ast.specs.Redex as redex;
ghost use Rattle.swc_ast.specs.Redex.{is_dummy, result_length, span_length, short_enough};
ghost use Rattle.swc_ast.specs.Views.{expr_tree};
ghost use Rattle.swc_utils.specs.Sound.{numeric};
ghost use Rattle.expr_rules.specs.Arithmetic as rules;

use crate::literals::{is_zero_literal, span_of};
use swc_ast::{BinaryOp, Expr, Span};

/// How many digits a number has.
fn digits(n: u64) -> u64
    ensures { result ≡ length (decimal n) }
{
    if n < 10 {
        return 1;
    }
    digits(n / 10) + 1
}

/// How many bytes the decimal text of a number has.
fn decimal_length(n: i64) -> u64
    ensures { result ≡ length (signed_decimal n) }
{
    let size = digits(n.unsigned_abs());
    if n < 0 {
        return size + 1;
    }
    size
}

/// How many bytes the text of a number has; that of NaN, which is None, has 3.
fn number_length(number: Option<i64>) -> u64
    ensures { result ≡ result_length (number_value (numeric number)) }
{
    match number {
        Some(n) => decimal_length(n),
        None => 3,
    }
}

fn is_nowhere(span: Span) -> bool
    ensures { result ≡ is_dummy span }
{
    span.lo == 0 && span.hi == 0
}

fn bytes(span: Span) -> u64
    ensures { result ≡ span_length span }
{
    u64::from(span.hi.saturating_sub(span.lo))
}

/// Whether a text of so many bytes may replace an operator and its operands: it may have as many bytes as both operands
/// and one more. Any may where an operand stands nowhere, or the right one ends where the left one begins, or before.
fn is_short_enough(left: Span, right: Span, length: u64) -> bool
    ensures { result ≡ short_enough left right length }
{
    is_nowhere(left)
        || is_nowhere(right)
        || right.hi <= left.lo
        || length <= bytes(left) + bytes(right) + 1
}

/// Whether the length rule asks at an operator: not at shifts, and not at a power of exponent 0.
fn is_bounded(op: BinaryOp, right: &Expr) -> bool
    ensures { result ≡ redex.is_bounded op (expr_tree right.now) }
{
    match op {
        BinaryOp::Add
        | BinaryOp::Sub
        | BinaryOp::Mul
        | BinaryOp::Div
        | BinaryOp::Mod
        | BinaryOp::BitAnd
        | BinaryOp::BitOr
        | BinaryOp::BitXor => true,
        BinaryOp::Exp => !is_zero_literal(right),
        _ => false,
    }
}

/// Whether the length rule lets a number replace an operator and its operands.
pub(crate) fn admits(op: BinaryOp, left: &Expr, right: &Expr, number: Option<i64>) -> bool
    ensures { result ≡ rules.admits op (expr_tree left.now) (expr_tree right.now) (numeric number) }
{
    !is_bounded(op, right) || is_short_enough(span_of(left), span_of(right), number_length(number))
}
