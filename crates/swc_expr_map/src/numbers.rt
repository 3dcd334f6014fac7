//! Numbers of operators and words.
ghost use Rattle.std.specs.Prelude.{◌≡◌, pos};
ghost use Rattle.swc_ast.specs.Expressions.{item_kind};
ghost use Rattle.swc_expr_map.specs.Codes.{unary_number as code_of_unary, binary_number as code_of_binary, assign_number as code_of_assign, update_number as code_of_update, word_number as code_of_word, item_number as code_of_item, truth_number as number_of_truth};
ghost use Rattle.swc_ast.specs.Views.{case_trees};

use swc_ast::{AssignOp, BinaryOp, ExprOrSpread, SwitchCase, UnaryOp, UpdateOp, VarDeclKind};

pub(crate) fn unary_number(op: UnaryOp) -> i64
    ensures { result ≡ pos (code_of_unary op) }
{
    match op {
        UnaryOp::Minus => 0,
        UnaryOp::Plus => 1,
        UnaryOp::Bang => 2,
        UnaryOp::Tilde => 3,
        UnaryOp::TypeOf => 4,
        UnaryOp::Void => 5,
        UnaryOp::Delete => 6,
    }
}

pub(crate) fn binary_number(op: BinaryOp) -> i64
    ensures { result ≡ pos (code_of_binary op) }
{
    match op {
        BinaryOp::EqEq => 0,
        BinaryOp::NotEq => 1,
        BinaryOp::EqEqEq => 2,
        BinaryOp::NotEqEq => 3,
        BinaryOp::Lt => 4,
        BinaryOp::LtEq => 5,
        BinaryOp::Gt => 6,
        BinaryOp::GtEq => 7,
        BinaryOp::LShift => 8,
        BinaryOp::RShift => 9,
        BinaryOp::ZeroFillRShift => 10,
        BinaryOp::Add => 11,
        BinaryOp::Sub => 12,
        BinaryOp::Mul => 13,
        BinaryOp::Div => 14,
        BinaryOp::Mod => 15,
        BinaryOp::Exp => 16,
        BinaryOp::BitOr => 17,
        BinaryOp::BitXor => 18,
        BinaryOp::BitAnd => 19,
        BinaryOp::LogicalOr => 20,
        BinaryOp::LogicalAnd => 21,
        BinaryOp::In => 22,
        BinaryOp::InstanceOf => 23,
        BinaryOp::NullishCoalescing => 24,
    }
}

pub(crate) fn assign_number(op: AssignOp) -> i64
    ensures { result ≡ pos (code_of_assign op) }
{
    match op {
        AssignOp::Assign => 0,
        AssignOp::AddAssign => 1,
        AssignOp::SubAssign => 2,
        AssignOp::MulAssign => 3,
        AssignOp::DivAssign => 4,
        AssignOp::ModAssign => 5,
        AssignOp::ExpAssign => 6,
        AssignOp::LShiftAssign => 7,
        AssignOp::RShiftAssign => 8,
        AssignOp::ZeroFillRShiftAssign => 9,
        AssignOp::BitOrAssign => 10,
        AssignOp::BitXorAssign => 11,
        AssignOp::BitAndAssign => 12,
        AssignOp::AndAssign => 13,
        AssignOp::OrAssign => 14,
        AssignOp::NullishAssign => 15,
    }
}

/// The number of `++a`, `a++`, `--a` and `a--`.
pub(crate) fn update_number(op: UpdateOp, prefix: bool) -> i64
    ensures { result ≡ pos (code_of_update op prefix) }
{
    match (op, prefix) {
        (UpdateOp::PlusPlus, true) => 0,
        (UpdateOp::PlusPlus, false) => 1,
        (UpdateOp::MinusMinus, true) => 2,
        (UpdateOp::MinusMinus, false) => 3,
    }
}

pub(crate) fn word_number(kind: VarDeclKind) -> i64
    ensures { result ≡ pos (code_of_word kind) }
{
    match kind {
        VarDeclKind::Var => 0,
        VarDeclKind::Let => 1,
        VarDeclKind::Const => 2,
    }
}

/// The number of an item of an array: whether it is spread, or a hole.
pub(crate) fn item_number(item: &Option<ExprOrSpread>) -> u8
    ensures { result ≡ code_of_item (item_kind item.now) }
{
    match item {
        None => 2,
        Some(n) => match n.spread {
            None => 0,
            Some(_) => 1,
        },
    }
}

/// Whether a case is `default`.
pub(crate) fn case_number(case: &SwitchCase) -> u8
    ensures { result ≡ number_of_truth (case_trees case.now).is_default }
{
    match case.test {
        None => 1,
        Some(_) => 0,
    }
}
