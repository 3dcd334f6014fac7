//! What was read of nodes and of lists that have not ended.
use crate::cursor::{Read, Refused};
use std::alloc::Global;
use swc_ast::{
    AssignTarget, BlockStmt, Expr, ExprOrSpread, Ident, Pat, PropName, PropOrSpread, Stmt,
    SwitchCase, TplElement, VarDeclOrExpr, VarDeclarator,
};

/// What was read of nodes and of lists that have not ended, that of the innermost one last.
#[derive(Drop)]
pub(crate) struct Kept {
    pub(crate) stmts: Vec<Stmt>,
    /// the blocks of statements and of functions
    pub(crate) blocks: Vec<BlockStmt>,
    /// the first parts of `for`
    pub(crate) inits: Vec<Option<VarDeclOrExpr>>,
    /// the tests and the last parts of `for`
    pub(crate) parts: Vec<Option<Box<Expr>>>,
    /// the cases of `switch`
    pub(crate) cases: Vec<SwitchCase>,
    /// the variables of declarations
    pub(crate) decls: Vec<VarDeclarator>,
    /// the names of functions and of handlers
    pub(crate) names: Vec<Ident>,
    pub(crate) params: Vec<Pat>,
    /// the keys of properties
    pub(crate) keys: Vec<PropName>,
    pub(crate) props: Vec<PropOrSpread>,
    /// the items of arrays
    pub(crate) elems: Vec<Option<ExprOrSpread>>,
    /// the texts of templates
    pub(crate) quasis: Vec<TplElement>,
    /// the arguments of calls, and what stands between commas and in templates
    pub(crate) exprs: Vec<Expr>,
    /// what assignments write to
    pub(crate) targets: Vec<AssignTarget>,
    /// the tests and the first values of choices
    pub(crate) operands: Vec<Box<Expr>>,
}

/// Takes the items from this place on off a stack. The list that they make has room for no more.
#[inline(never)]
pub(crate) fn take_from<T>(stack: &mut Vec<T>, start: usize) -> Read<Vec<T>> {
    let start = start.min(stack.len());
    Ok(stack.split_off(start)?)
}

/// Takes off a stack what was put there last.
pub(crate) fn take_last<T>(stack: &mut Vec<T>) -> Read<T> {
    match stack.pop() {
        Some(item) => Ok(item),
        // (what takes has put before)
        None => Err(Refused),
    }
}

impl Kept {
    pub(crate) fn new(alloc: Global) -> Kept {
        Kept {
            stmts: Vec::new(alloc),
            blocks: Vec::new(alloc),
            inits: Vec::new(alloc),
            parts: Vec::new(alloc),
            cases: Vec::new(alloc),
            decls: Vec::new(alloc),
            names: Vec::new(alloc),
            params: Vec::new(alloc),
            keys: Vec::new(alloc),
            props: Vec::new(alloc),
            elems: Vec::new(alloc),
            quasis: Vec::new(alloc),
            exprs: Vec::new(alloc),
            targets: Vec::new(alloc),
            operands: Vec::new(alloc),
        }
    }
}
