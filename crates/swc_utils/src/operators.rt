//! Classes of operators.
ghost use Rattle.std.specs.Prelude.{◌≡◌};
ghost use Rattle.swc_utils.specs.Effects.{deletes as op_deletes, has_no_meaning as op_has_no_meaning, is_typeof as op_is_typeof, is_strict as op_is_strict};

use swc_ast::{BinaryOp, UnaryOp};

/// Whether an operator deletes a property.
pub(crate) fn deletes(op: UnaryOp) -> bool
    ensures { result ≡ op_deletes op }
{
    match op {
        UnaryOp::Delete => true,
        _ => false,
    }
}

/// `in` or `instanceof`, which no run of the core passes.
pub(crate) fn has_no_meaning(op: BinaryOp) -> bool
    ensures { result ≡ op_has_no_meaning op }
{
    match op {
        BinaryOp::In | BinaryOp::InstanceOf => true,
        _ => false,
    }
}

/// `typeof`
pub(crate) fn is_typeof(op: UnaryOp) -> bool
    ensures { result ≡ op_is_typeof op }
{
    match op {
        UnaryOp::TypeOf => true,
        _ => false,
    }
}

/// Whether both sides are always evaluated, and the operator has a meaning.
pub(crate) fn is_strict(op: BinaryOp) -> bool
    ensures { result ≡ op_is_strict op }
{
    match op {
        BinaryOp::LogicalOr
        | BinaryOp::LogicalAnd
        | BinaryOp::NullishCoalescing
        | BinaryOp::In
        | BinaryOp::InstanceOf => false,
        _ => true,
    }
}
