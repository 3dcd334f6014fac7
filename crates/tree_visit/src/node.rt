//! A node of the tree, where it stands.
use crate::lists::NodeList;
use swc_ast::{BlockStmt, Decl, Expr, Module, Pat, PropName, Script, Stmt, SwitchCase, VarDecl};

/// A node of the tree, told by what holds it: a node in a list by the list and its place there, a child of one's own by
/// its box. (What a reference to a large node says of its type is as large as the node; of a list or a box it is short.)
#[derive(Clone, Copy)]
pub enum Node<'a> {
    Module(&'a Module),
    Script(&'a Script),
    /// The node at a place of a list.
    At(NodeList<'a>, usize),
    Decl(&'a Decl),
    VarDecl(&'a VarDecl),
    Stmt(&'a Box<Stmt>),
    /// The block of a `try`, of a handler or of `finally`.
    Block(&'a BlockStmt),
    /// The statements of the case at a place.
    CaseBody(&'a Vec<SwitchCase>, usize),
    Expr(&'a Box<Expr>),
    Key(&'a PropName),
    Params(&'a Vec<Pat>),
    /// The body of a function.
    Body(&'a BlockStmt),
    /// A part that is left out.
    Absent,
}
