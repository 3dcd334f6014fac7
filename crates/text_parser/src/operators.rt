//! Operators and how tightly they bind.
use swc_ast::{AssignOp, BinaryOp, UnaryOp, UpdateOp};
use text_lexer::Kind;

/// The operator between operands that a token is, and how tightly it binds.
pub(crate) fn binary_op(kind: Kind) -> Option<(BinaryOp, u8)> {
    match kind {
        Kind::Nullish => Some((BinaryOp::NullishCoalescing, 1)),
        Kind::OrOr => Some((BinaryOp::LogicalOr, 1)),
        Kind::AndAnd => Some((BinaryOp::LogicalAnd, 2)),
        Kind::Or => Some((BinaryOp::BitOr, 3)),
        Kind::Xor => Some((BinaryOp::BitXor, 4)),
        Kind::And => Some((BinaryOp::BitAnd, 5)),
        Kind::EqualEqual => Some((BinaryOp::EqEq, 6)),
        Kind::NotEqual => Some((BinaryOp::NotEq, 6)),
        Kind::EqualEqualEqual => Some((BinaryOp::EqEqEq, 6)),
        Kind::NotEqualEqual => Some((BinaryOp::NotEqEq, 6)),
        Kind::Less => Some((BinaryOp::Lt, 7)),
        Kind::LessEqual => Some((BinaryOp::LtEq, 7)),
        Kind::More => Some((BinaryOp::Gt, 7)),
        Kind::MoreEqual => Some((BinaryOp::GtEq, 7)),
        Kind::In => Some((BinaryOp::In, 7)),
        Kind::InstanceOf => Some((BinaryOp::InstanceOf, 7)),
        Kind::ShiftLeft => Some((BinaryOp::LShift, 8)),
        Kind::ShiftRight => Some((BinaryOp::RShift, 8)),
        Kind::ShiftRightZero => Some((BinaryOp::ZeroFillRShift, 8)),
        Kind::Plus => Some((BinaryOp::Add, 9)),
        Kind::Minus => Some((BinaryOp::Sub, 9)),
        Kind::Star => Some((BinaryOp::Mul, 10)),
        Kind::Slash => Some((BinaryOp::Div, 10)),
        Kind::Percent => Some((BinaryOp::Mod, 10)),
        Kind::StarStar => Some((BinaryOp::Exp, 11)),
        _ => None,
    }
}

/// The operator of an assignment that a token is.
pub(crate) fn assign_op(kind: Kind) -> Option<AssignOp> {
    match kind {
        Kind::Equal => Some(AssignOp::Assign),
        Kind::PlusEqual => Some(AssignOp::AddAssign),
        Kind::MinusEqual => Some(AssignOp::SubAssign),
        Kind::StarEqual => Some(AssignOp::MulAssign),
        Kind::SlashEqual => Some(AssignOp::DivAssign),
        Kind::PercentEqual => Some(AssignOp::ModAssign),
        Kind::StarStarEqual => Some(AssignOp::ExpAssign),
        Kind::ShiftLeftEqual => Some(AssignOp::LShiftAssign),
        Kind::ShiftRightEqual => Some(AssignOp::RShiftAssign),
        Kind::ShiftRightZeroEqual => Some(AssignOp::ZeroFillRShiftAssign),
        Kind::OrEqual => Some(AssignOp::BitOrAssign),
        Kind::XorEqual => Some(AssignOp::BitXorAssign),
        Kind::AndEqual => Some(AssignOp::BitAndAssign),
        Kind::AndAndEqual => Some(AssignOp::AndAssign),
        Kind::OrOrEqual => Some(AssignOp::OrAssign),
        Kind::NullishEqual => Some(AssignOp::NullishAssign),
        _ => None,
    }
}

/// Whether a token is an operator in front of an operand.
#[inline(always)]
pub(crate) fn is_prefix(kind: Kind) -> bool {
    matches!(
        kind,
        Kind::Minus
            | Kind::Plus
            | Kind::Not
            | Kind::Tilde
            | Kind::PlusPlus
            | Kind::MinusMinus
            | Kind::TypeOf
            | Kind::Void
            | Kind::Delete
    )
}

/// The operator in front of an operand that a token is.
pub(crate) fn unary_op(kind: Kind) -> Option<UnaryOp> {
    match kind {
        Kind::Minus => Some(UnaryOp::Minus),
        Kind::Plus => Some(UnaryOp::Plus),
        Kind::Not => Some(UnaryOp::Bang),
        Kind::Tilde => Some(UnaryOp::Tilde),
        Kind::TypeOf => Some(UnaryOp::TypeOf),
        Kind::Void => Some(UnaryOp::Void),
        Kind::Delete => Some(UnaryOp::Delete),
        _ => None,
    }
}

/// The operator that a token is before or behind what it updates.
#[inline(always)]
pub(crate) fn update_op(kind: Kind) -> Option<UpdateOp> {
    match kind {
        Kind::PlusPlus => Some(UpdateOp::PlusPlus),
        Kind::MinusMinus => Some(UpdateOp::MinusMinus),
        _ => None,
    }
}
