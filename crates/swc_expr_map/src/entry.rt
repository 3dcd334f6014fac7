//! An entry of the map.
use swc_ast::Expr;

/// A value with its key.
#[derive(Drop)]
pub(crate) struct Entry {
    pub(crate) key: Expr,
    pub(crate) value: Expr,
}
