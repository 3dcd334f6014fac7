//! What is given for an expression that is read.
use swc_ast::Expr;

/// What is given for an expression that is read.
#[derive(Clone, Copy)]
pub enum Found<'a> {
    Nothing,
    /// The value of a number.
    Value(usize),
    /// An expression that is put as it is written.
    Plain(&'a Expr),
}
