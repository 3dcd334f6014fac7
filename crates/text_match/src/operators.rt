//! Operators, what they bind, and their texts.
ghost use Rattle.std.specs.Prelude.{◌≡◌, ◌≤◌, ◌+◌, length, IfSome};
ghost use Rattle.text_match.specs.Grammar as grammar;

use swc_ast::{AssignOp, BinaryOp, UnaryOp, UpdateOp};
use text_tokens::{after_sign, after_word};

fn unary_text(op: UnaryOp) -> &'static [u8]
    ensures { result.now ≡ grammar.unary_text op }
{
    match op {
        UnaryOp::Minus => b"-",
        UnaryOp::Plus => b"+",
        UnaryOp::Bang => b"!",
        UnaryOp::Tilde => b"~",
        UnaryOp::TypeOf => b"typeof",
        UnaryOp::Void => b"void",
        UnaryOp::Delete => b"delete",
    }
}

fn unary_is_word(op: UnaryOp) -> bool
    ensures { result ≡ grammar.unary_is_word op }
{
    match op {
        UnaryOp::TypeOf | UnaryOp::Void | UnaryOp::Delete => true,
        _ => false,
    }
}

/// What is behind a text that is a word or a sign.
fn after_operator<'a>(text: &'a [u8], is_word: bool, sign: &[u8]) -> Option<&'a [u8]>
    ensures { IfSome result (λ rest. grammar.Operator is_word sign.now text.now rest.now) }
{
    if is_word {
        after_word(text, sign)
    } else {
        after_sign(text, sign)
    }
}

/// What is behind an operator in front of an operand.
pub(crate) fn after_unary<'a>(text: &'a [u8], op: UnaryOp) -> Option<&'a [u8]>
    ensures { IfSome result (λ rest. grammar.Operator (grammar.unary_is_word op) (grammar.unary_text op) text.now rest.now) }
{
    after_operator(text, unary_is_word(op), unary_text(op))
}

fn binary_text(op: BinaryOp) -> &'static [u8]
    ensures { result.now ≡ grammar.binary_text op }
{
    match op {
        BinaryOp::NullishCoalescing => b"??",
        BinaryOp::LogicalOr => b"||",
        BinaryOp::LogicalAnd => b"&&",
        BinaryOp::BitOr => b"|",
        BinaryOp::BitXor => b"^",
        BinaryOp::BitAnd => b"&",
        BinaryOp::EqEq => b"==",
        BinaryOp::NotEq => b"!=",
        BinaryOp::EqEqEq => b"===",
        BinaryOp::NotEqEq => b"!==",
        BinaryOp::Lt => b"<",
        BinaryOp::LtEq => b"<=",
        BinaryOp::Gt => b">",
        BinaryOp::GtEq => b">=",
        BinaryOp::In => b"in",
        BinaryOp::InstanceOf => b"instanceof",
        BinaryOp::LShift => b"<<",
        BinaryOp::RShift => b">>",
        BinaryOp::ZeroFillRShift => b">>>",
        BinaryOp::Add => b"+",
        BinaryOp::Sub => b"-",
        BinaryOp::Mul => b"*",
        BinaryOp::Div => b"/",
        BinaryOp::Mod => b"%",
        BinaryOp::Exp => b"**",
    }
}

fn binary_is_word(op: BinaryOp) -> bool
    ensures { result ≡ grammar.binary_is_word op }
{
    match op {
        BinaryOp::In | BinaryOp::InstanceOf => true,
        _ => false,
    }
}

/// What is behind an operator between operands.
pub(crate) fn after_binary<'a>(text: &'a [u8], op: BinaryOp) -> Option<&'a [u8]>
    ensures { IfSome result (λ rest. grammar.Operator (grammar.binary_is_word op) (grammar.binary_text op) text.now rest.now) }
{
    after_operator(text, binary_is_word(op), binary_text(op))
}

/// The production of an operator.
pub(crate) fn strength(op: BinaryOp) -> u8
    ensures { result ≡ grammar.strength op }
{
    match op {
        BinaryOp::NullishCoalescing => 3,
        BinaryOp::LogicalOr => 4,
        BinaryOp::LogicalAnd => 5,
        BinaryOp::BitOr => 6,
        BinaryOp::BitXor => 7,
        BinaryOp::BitAnd => 8,
        BinaryOp::EqEq | BinaryOp::NotEq | BinaryOp::EqEqEq | BinaryOp::NotEqEq => 9,
        BinaryOp::Lt | BinaryOp::LtEq | BinaryOp::Gt | BinaryOp::GtEq => 10,
        BinaryOp::In | BinaryOp::InstanceOf => 10,
        BinaryOp::LShift | BinaryOp::RShift | BinaryOp::ZeroFillRShift => 11,
        BinaryOp::Add | BinaryOp::Sub => 12,
        BinaryOp::Mul | BinaryOp::Div | BinaryOp::Mod => 13,
        BinaryOp::Exp => 14,
    }
}

/// The first production that may stand as the left operand.
pub(crate) fn left_least(op: BinaryOp) -> u8
    ensures { result ≡ grammar.left_least op }
{
    match op {
        BinaryOp::NullishCoalescing => 6,
        BinaryOp::Exp => 16,
        _ => strength(op),
    }
}

/// The first production that may stand as the right operand.
pub(crate) fn right_least(op: BinaryOp) -> u8
    ensures { result ≡ grammar.right_least op }
{
    match op {
        BinaryOp::NullishCoalescing => 6,
        BinaryOp::Exp => 14,
        _ => strength(op) + 1,
    }
}

/// `++`, `--`
pub(crate) fn update_text(op: UpdateOp) -> &'static [u8]
    ensures { result.now ≡ grammar.update_text op }
{
    match op {
        UpdateOp::PlusPlus => b"++",
        UpdateOp::MinusMinus => b"--",
    }
}

/// The text of an assignment's operator.
pub(crate) fn assign_text(op: AssignOp) -> &'static [u8]
    ensures { result.now ≡ grammar.assign_text op }
{
    match op {
        AssignOp::Assign => b"=",
        AssignOp::AddAssign => b"+=",
        AssignOp::SubAssign => b"-=",
        AssignOp::MulAssign => b"*=",
        AssignOp::DivAssign => b"/=",
        AssignOp::ModAssign => b"%=",
        AssignOp::ExpAssign => b"**=",
        AssignOp::LShiftAssign => b"<<=",
        AssignOp::RShiftAssign => b">>=",
        AssignOp::ZeroFillRShiftAssign => b">>>=",
        AssignOp::BitOrAssign => b"|=",
        AssignOp::BitXorAssign => b"^=",
        AssignOp::BitAndAssign => b"&=",
        AssignOp::AndAssign => b"&&=",
        AssignOp::OrAssign => b"||=",
        AssignOp::NullishAssign => b"??=",
    }
}
