//! How tightly operators bind, and what an expression begins with.
use crate::writer::Layout;
use swc_ast::{
    AssignOp, AssignTarget, BinExpr, BinaryOp, Expr, Lit, MemberExpr, MemberProp, UnaryOp,
    UpdateOp, VarDeclKind,
};

// How tightly the forms bind, beside the operators between operands at 3 to 13.
pub(crate) const COMMA: u8 = 0;

pub(crate) const ASSIGNMENT: u8 = 1;

const CONDITION: u8 = 2;

pub(crate) const SHORT_CIRCUIT: u8 = 3;

pub(crate) const UNARY: u8 = 14;

const UPDATE: u8 = 15;

pub(crate) const CALL: u8 = 16;

pub(crate) const MEMBER: u8 = 17;

const PRIMARY: u8 = 18;

/// Above every form: an operand that has to be this tight stands in parentheses.
pub(crate) const WRAPPED: u8 = 19;

/// The sign of an operator between operands.
pub(crate) fn binary_sign(op: BinaryOp) -> &'static str {
    match op {
        BinaryOp::NullishCoalescing => "??",
        BinaryOp::LogicalOr => "||",
        BinaryOp::LogicalAnd => "&&",
        BinaryOp::BitOr => "|",
        BinaryOp::BitXor => "^",
        BinaryOp::BitAnd => "&",
        BinaryOp::EqEq => "==",
        BinaryOp::NotEq => "!=",
        BinaryOp::EqEqEq => "===",
        BinaryOp::NotEqEq => "!==",
        BinaryOp::Lt => "<",
        BinaryOp::LtEq => "<=",
        BinaryOp::Gt => ">",
        BinaryOp::GtEq => ">=",
        BinaryOp::In => "in",
        BinaryOp::InstanceOf => "instanceof",
        BinaryOp::LShift => "<<",
        BinaryOp::RShift => ">>",
        BinaryOp::ZeroFillRShift => ">>>",
        BinaryOp::Add => "+",
        BinaryOp::Sub => "-",
        BinaryOp::Mul => "*",
        BinaryOp::Div => "/",
        BinaryOp::Mod => "%",
        BinaryOp::Exp => "**",
    }
}

/// How tightly an operator between operands binds.
fn binary_strength(op: BinaryOp) -> u8 {
    match op {
        BinaryOp::NullishCoalescing | BinaryOp::LogicalOr => SHORT_CIRCUIT,
        BinaryOp::LogicalAnd => 4,
        BinaryOp::BitOr => 5,
        BinaryOp::BitXor => 6,
        BinaryOp::BitAnd => 7,
        BinaryOp::EqEq | BinaryOp::NotEq | BinaryOp::EqEqEq | BinaryOp::NotEqEq => 8,
        BinaryOp::Lt
        | BinaryOp::LtEq
        | BinaryOp::Gt
        | BinaryOp::GtEq
        | BinaryOp::In
        | BinaryOp::InstanceOf => 9,
        BinaryOp::LShift | BinaryOp::RShift | BinaryOp::ZeroFillRShift => 10,
        BinaryOp::Add | BinaryOp::Sub => 11,
        BinaryOp::Mul | BinaryOp::Div | BinaryOp::Mod => 12,
        BinaryOp::Exp => 13,
    }
}

/// How tightly the left operand has to bind.
pub(crate) fn left_strength(node: &BinExpr) -> u8 {
    match node.op {
        BinaryOp::Exp => UPDATE,
        BinaryOp::NullishCoalescing => {
            if is_logical(&node.left) {
                WRAPPED
            } else {
                SHORT_CIRCUIT
            }
        }
        BinaryOp::LogicalOr => {
            if is_nullish(&node.left) {
                WRAPPED
            } else {
                SHORT_CIRCUIT
            }
        }
        op => binary_strength(op),
    }
}

/// How tightly the right operand has to bind. A compact text has a space between two like signs.
pub(crate) fn right_strength(node: &BinExpr, layout: Layout) -> u8 {
    match node.op {
        BinaryOp::Exp => 13,
        BinaryOp::NullishCoalescing => 5,
        BinaryOp::LogicalOr => 4,
        BinaryOp::LogicalAnd => 5,
        BinaryOp::Add if layout == Layout::Spaced && first_of(&node.right) == First::Plus => {
            WRAPPED
        }
        BinaryOp::Sub if layout == Layout::Spaced && first_of(&node.right) == First::Minus => {
            WRAPPED
        }
        op => binary_strength(op).saturating_add(1),
    }
}

fn is_logical(expr: &Expr) -> bool {
    match expr {
        Expr::Bin(node) => matches!(node.op, BinaryOp::LogicalOr | BinaryOp::LogicalAnd),
        _ => false,
    }
}

fn is_nullish(expr: &Expr) -> bool {
    match expr {
        Expr::Bin(node) => node.op == BinaryOp::NullishCoalescing,
        _ => false,
    }
}

/// How tightly the operand of an operator in front of it has to bind. A compact text has a space between two like signs.
pub(crate) fn operand_strength(op: UnaryOp, operand: &Expr, layout: Layout) -> u8 {
    match op {
        UnaryOp::Plus if layout == Layout::Spaced && first_of(operand) == First::Plus => WRAPPED,
        UnaryOp::Minus if layout == Layout::Spaced && first_of(operand) == First::Minus => WRAPPED,
        _ => UNARY,
    }
}

/// The sign of an assignment.
pub(crate) fn assignment_sign(op: AssignOp) -> &'static str {
    match op {
        AssignOp::Assign => "=",
        AssignOp::AddAssign => "+=",
        AssignOp::SubAssign => "-=",
        AssignOp::MulAssign => "*=",
        AssignOp::DivAssign => "/=",
        AssignOp::ModAssign => "%=",
        AssignOp::ExpAssign => "**=",
        AssignOp::LShiftAssign => "<<=",
        AssignOp::RShiftAssign => ">>=",
        AssignOp::ZeroFillRShiftAssign => ">>>=",
        AssignOp::BitOrAssign => "|=",
        AssignOp::BitXorAssign => "^=",
        AssignOp::BitAndAssign => "&=",
        AssignOp::AndAssign => "&&=",
        AssignOp::OrAssign => "||=",
        AssignOp::NullishAssign => "??=",
    }
}

/// An operator in front of its operand.
pub(crate) fn unary_sign(op: UnaryOp) -> &'static str {
    match op {
        UnaryOp::Minus => "-",
        UnaryOp::Plus => "+",
        UnaryOp::Bang => "!",
        UnaryOp::Tilde => "~",
        UnaryOp::TypeOf => "typeof",
        UnaryOp::Void => "void",
        UnaryOp::Delete => "delete",
    }
}

/// Whether such a sign is a word.
pub(crate) fn is_word(sign: &str) -> bool {
    matches!(sign.as_bytes(), [b'a'..=b'z', ..])
}

pub(crate) fn update_sign(op: UpdateOp) -> &'static str {
    match op {
        UpdateOp::PlusPlus => "++",
        UpdateOp::MinusMinus => "--",
    }
}

/// The word before a declaration.
pub(crate) fn declaration_word(kind: VarDeclKind) -> &'static str {
    match kind {
        VarDeclKind::Var => "var",
        VarDeclKind::Let => "let",
        VarDeclKind::Const => "const",
    }
}

/// How tightly an expression binds.
pub(crate) fn strength(expr: &Expr) -> u8 {
    match expr {
        Expr::Seq(_) => COMMA,
        Expr::Assign(_) | Expr::Arrow(_) => ASSIGNMENT,
        Expr::Cond(_) => CONDITION,
        Expr::Bin(node) => binary_strength(node.op),
        Expr::Unary(_) => UNARY,
        Expr::Update(_) => UPDATE,
        Expr::Call(_) => CALL,
        Expr::Member(_) | Expr::New(_) => MEMBER,
        Expr::Lit(Lit::Num(number)) => { if number.value < 0 { UNARY } else { PRIMARY } }
        _ => PRIMARY,
    }
}

/// How tightly the callee of `new` has to bind: a call in the chain that it begins with would take the arguments.
pub(crate) fn constructor_strength(callee: &Expr) -> u8 {
    if has_call(callee) { WRAPPED } else { MEMBER }
}

/// Whether the chain of members that an expression is begins with a call.
fn has_call(expr: &Expr) -> bool {
    match expr {
        Expr::Call(_) => true,
        Expr::Member(node) => has_call(&node.obj),
        _ => false,
    }
}

/// How tightly the object of a member has to bind: digits before a dot would take it for theirs.
pub(crate) fn object_strength(node: &MemberExpr) -> u8 {
    match (&node.prop, &*node.obj) {
        (MemberProp::Ident(_), Expr::Lit(Lit::Num(_))) => WRAPPED,
        _ => CALL,
    }
}

/// What a text begins with, as far as it matters.
#[derive(Clone, Copy, PartialEq, Eq)]
pub(crate) enum First {
    Plus,
    Minus,
    Brace,
    Function,
    Other,
}

/// What an expression begins with where it stands without parentheses.
#[cycle(first)]
pub(crate) fn first_of(expr: &Expr) -> First {
    match expr {
        Expr::Object(_) => First::Brace,
        Expr::Fn(_) => First::Function,
        Expr::Unary(node) => match node.op {
            UnaryOp::Plus => First::Plus,
            UnaryOp::Minus => First::Minus,
            _ => First::Other,
        },
        Expr::Lit(Lit::Num(number)) if number.value < 0 => First::Minus,
        Expr::Update(node) => {
            if !node.prefix {
                return first_of_target(&node.arg);
            }
            match node.op {
                UpdateOp::PlusPlus => First::Plus,
                UpdateOp::MinusMinus => First::Minus,
            }
        }
        Expr::Bin(node) => first_within(&node.left, left_strength(node)),
        Expr::Cond(node) => first_within(&node.test, SHORT_CIRCUIT),
        Expr::Call(node) => first_within(&node.callee, CALL),
        Expr::Member(node) => first_within(&node.obj, object_strength(node)),
        Expr::Assign(node) => first_of_target(&node.left),
        Expr::Seq(node) => match node.exprs.first() {
            Some(first) => first_within(first, ASSIGNMENT),
            None => First::Other,
        },
        _ => First::Other,
    }
}

/// What an expression begins with that has to bind so tightly.
#[cycle(first)]
fn first_within(expr: &Expr, least: u8) -> First {
    if strength(expr) < least {
        First::Other
    } else {
        first_of(expr)
    }
}

#[cycle(first)]
fn first_of_target(target: &AssignTarget) -> First {
    match target {
        AssignTarget::Ident(_) => First::Other,
        AssignTarget::Member(node) => first_within(&node.obj, object_strength(node)),
    }
}
