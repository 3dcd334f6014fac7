//! What is given.
use std::collections::BTreeMap;
use swc_ast::{Expr, Mark};
use swc_expr_map::GlobalExprMap;

/// The maps that a pass is made with, and the mark of names that no scope binds.
#[derive(Clone, Copy)]
pub struct Settings<'a> {
    /// Expressions by members of `process.env`.
    pub envs: &'a BTreeMap<String, Expr>,
    /// Values by names.
    pub globals: &'a BTreeMap<String, Expr>,
    /// Values by expressions.
    pub global_exprs: Option<&'a GlobalExprMap>,
    /// What `typeof` gives, by names.
    pub typeofs: &'a BTreeMap<String, String>,
    /// None: only names with the empty context are bound by no scope.
    pub mark: Option<Mark>,
}
