//! What a first look at a list tells.
ghost use Rattle.std.specs.Prelude.{◌≡◌, nat_lt};
ghost use Rattle.swc_ast.specs.Modules.{item_tree};
ghost use Rattle.swc_ast.specs.Parts.{list_trees};
ghost use Rattle.swc_ast.specs.Redex as redex;
ghost use Rattle.swc_ast.specs.Statements.{var_tree};
ghost use Rattle.swc_ast.specs.Views.{decl_tree, expr_tree, stmt_tree};
ghost use Rattle.swc_ast.specs.Weight as weight;
ghost use Rattle.branch_rules.specs.Lists as lists;
ghost use Rattle.branch_lists.specs.Swept.{trees};

use stmt_like::StmtLike;
use swc_ast::{Decl, Stmt, VarDecl};
use tree_nodes::{is_lexical, is_stopper};

/// Whether a declaration declares nothing but by `var`.
fn is_bare_var(n: &VarDecl) -> bool
    ensures { result ≡ lists.is_bare (var_tree expr_tree n.now) }
{
    if is_lexical(n.kind) {
        return n.decls.is_empty();
    }
    true
}

#[tactic(auto, using(swc_ast::proofs::Equations::forms))]
fn is_bare_decl(n: &Decl) -> bool
    ensures { result ≡ lists.is_bare (decl_tree n.now) }
{
    match n {
        Decl::Fn(_) => false,
        Decl::Var(n) => is_bare_var(n),
    }
}

/// Whether a statement declares nothing in the list where it stands.
#[tactic(auto, using(swc_ast::proofs::Equations::forms))]
fn is_bare(s: &Stmt) -> bool
    ensures { result ≡ lists.is_bare (stmt_tree s.now) }
{
    match s {
        Stmt::Decl(n) => is_bare_decl(n),
        Stmt::Block(_)
        | Stmt::Empty(_)
        | Stmt::Return(_)
        | Stmt::Labeled(_)
        | Stmt::Break(_)
        | Stmt::Continue(_)
        | Stmt::If(_)
        | Stmt::Switch(_)
        | Stmt::Throw(_)
        | Stmt::Try(_)
        | Stmt::While(_)
        | Stmt::DoWhile(_)
        | Stmt::For(_)
        | Stmt::Expr(_) => true,
    }
}

/// The same of each of some statements.
fn are_bare(stmts: &[Stmt]) -> bool
    ensures { result ≡ lists.all_bare (list_trees stmt_tree stmts.now) }
{
    let mut left = stmts;
    while let [s, rest @ ..] = left {
        if !is_bare(s) {
            return false;
        }
        left = rest;
    }
    true
}

/// Whether a statement is empty, or a block that declares nothing.
#[tactic(auto, using(swc_ast::proofs::Equations::forms, crate::proofs::Shapes::binds_nothing_is))]
fn is_loose_stmt(s: &Stmt) -> bool
    ensures { result ≡ redex.is_loose (stmt_tree s.now) }
{
    match s {
        Stmt::Empty(_) => true,
        Stmt::Block(n) => are_bare(&n.stmts),
        Stmt::Return(_)
        | Stmt::Labeled(_)
        | Stmt::Break(_)
        | Stmt::Continue(_)
        | Stmt::If(_)
        | Stmt::Switch(_)
        | Stmt::Throw(_)
        | Stmt::Try(_)
        | Stmt::While(_)
        | Stmt::DoWhile(_)
        | Stmt::For(_)
        | Stmt::Expr(_) => false,
        Stmt::Decl(n) => is_loose_decl(n),
    }
}

#[tactic(auto, using(swc_ast::proofs::Equations::forms))]
fn is_loose_decl(n: &Decl) -> bool
    ensures { result ≡ redex.is_loose (decl_tree n.now) }
{
    match n {
        Decl::Fn(_) => false,
        Decl::Var(_) => false,
    }
}

/// Whether a statement is the declaration of a function.
#[tactic(auto, using(swc_ast::proofs::Equations::forms))]
fn stays_stmt(s: &Stmt) -> bool
    ensures { result ≡ weight.stays_behind (stmt_tree s.now) }
{
    match s {
        Stmt::Decl(n) => stays_decl(n),
        Stmt::Block(_)
        | Stmt::Empty(_)
        | Stmt::Return(_)
        | Stmt::Labeled(_)
        | Stmt::Break(_)
        | Stmt::Continue(_)
        | Stmt::If(_)
        | Stmt::Switch(_)
        | Stmt::Throw(_)
        | Stmt::Try(_)
        | Stmt::While(_)
        | Stmt::DoWhile(_)
        | Stmt::For(_)
        | Stmt::Expr(_) => false,
    }
}

#[tactic(auto, using(swc_ast::proofs::Equations::forms))]
fn stays_decl(n: &Decl) -> bool
    ensures { result ≡ weight.stays_behind (decl_tree n.now) }
{
    match n {
        Decl::Fn(_) => true,
        Decl::Var(_) => false,
    }
}

/// Whether an item is an empty statement, or a block that declares nothing.
#[tactic(auto, using(crate::proofs::Items::same_tree, crate::proofs::Items::not_loose))]
pub(crate) fn is_loose<T: StmtLike>(item: &T) -> bool
    ensures { result ≡ redex.is_loose (item_tree (T.item item.now)) }
{
    match item.as_stmt() {
        Some(s) => is_loose_stmt(s),
        None => false,
    }
}

/// Whether an item ends its list whenever it runs.
#[tactic(auto, using(crate::proofs::Items::same_tree, crate::proofs::Items::no_stopper))]
pub(crate) fn stops<T: StmtLike>(item: &T) -> bool
    ensures { result ≡ weight.is_stopper (item_tree (T.item item.now)) }
{
    match item.as_stmt() {
        Some(s) => is_stopper(s),
        None => false,
    }
}

/// Whether an item stays behind one that ends the list: it declares a function, or is no statement.
#[tactic(auto, using(crate::proofs::Items::same_tree, crate::proofs::Items::declaration_stays))]
pub(crate) fn stays<T: StmtLike>(item: &T) -> bool
    ensures { result ≡ weight.stays_behind (item_tree (T.item item.now)) }
{
    match item.as_stmt() {
        Some(s) => stays_stmt(s),
        None => true,
    }
}

fn any_loose<T: StmtLike>(items: &[T]) -> bool
    ensures { result ≡ redex.any_loose (trees T.item items.now) }
{
    let mut left = items;
    while let [item, rest @ ..] = left {
        if is_loose(item) {
            return true;
        }
        left = rest;
    }
    false
}

/// Whether one of some items doesn't stay behind one that ends the list.
fn any_moves<T: StmtLike>(items: &[T]) -> bool
    ensures { result ≡ nat_lt 0 (weight.movable (trees T.item items.now)) }
{
    let mut left = items;
    while let [item, rest @ ..] = left {
        if !stays(item) {
            return true;
        }
        left = rest;
    }
    false
}

fn any_unreached<T: StmtLike>(items: &[T]) -> bool
    ensures { result ≡ nat_lt 0 (weight.unreached (trees T.item items.now)) }
{
    let mut left = items;
    while let [item, rest @ ..] = left {
        if stops(item) {
            return any_moves(rest);
        }
        left = rest;
    }
    false
}

/// Whether there is something to do in a list.
pub(crate) fn is_untidy<T: StmtLike>(items: &[T]) -> bool
    ensures { result ≡ redex.list_redex (trees T.item items.now) }
{
    any_unreached(items) || any_loose(items)
}
