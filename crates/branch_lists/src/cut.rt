//! What stands behind a statement that ends its list.
ghost use Rattle.std.specs.Prelude.{◌≡◌, ◌∷◌, ◌++◌, [], true, IfOk, OnOk};
ghost use Rattle.std.specs.Vec.Iter.{into_iter_items};
ghost use Rattle.swc_ast.specs.Modules.{item_tree};
ghost use Rattle.swc_ast.specs.Scope.{joined};
ghost use Rattle.swc_ast.specs.Statements.{var_tree};
ghost use Rattle.swc_ast.specs.Tree.{ε, ◌⊳◌};
ghost use Rattle.swc_ast.specs.Views.{decl_tree, expr_tree, stmt_tree};
ghost use Rattle.swc_ast.specs.Weight.{is_stopper};
ghost use Rattle.stmt_like.specs.Kept.{Kept};
ghost use Rattle.branch_rules.specs.Lists.{Cut, going, staying};
ghost use Rattle.branch_rules.specs.Vars as vars;
ghost use Rattle.branch_vars.specs.Names.{names_of, statements};
ghost use Rattle.branch_lists.specs.Cuts.{CutsOnto, going_names, picked};
ghost use Rattle.branch_lists.specs.Exports.{among};
ghost use Rattle.branch_lists.specs.Onto.{Onto};
ghost use Rattle.branch_lists.specs.Swept.{trees};

use crate::exports::is_among;
use crate::looks::{stays, stops};
use branch_vars::{add_vars, declare};
use std::alloc::{AllocError, Global};
use std::vec::IntoIter;
use stmt_like::StmtLike;
use swc_ast::{Decl, Id, Ident, Stmt, VarDecl, VarDeclarator};
use tree_nodes::is_lexical;

/// Adds the names of declarators: of `var` all, of `let` and `const` those that are kept.
fn add_picked<'a>(
    names: &mut Vec<&'a Ident>,
    is_lexical: bool,
    decls: &'a [VarDeclarator],
    kept: &[Id],
) -> Result<(), AllocError>
    ensures { OnOk result (names_of names.new.items ≡ names_of names.old.items ++ picked (among kept.now) is_lexical decls.now) }
{
    let mut left = decls;
    while let [d, rest @ ..] = left {
        if !is_lexical || is_among(kept, &d.name) {
            names.push(&d.name)?;
        }
        left = rest;
    }
    Ok(())
}

#[tactic(auto, using(crate::proofs::Going::picked_is))]
fn add_declared<'a>(
    names: &mut Vec<&'a Ident>,
    n: &'a VarDecl,
    kept: &[Id],
) -> Result<(), AllocError>
    ensures { OnOk result (names_of names.new.items ≡ names_of names.old.items ++ going_names (among kept.now) (var_tree expr_tree n.now)) }
{
    add_picked(names, is_lexical(n.kind), &n.decls, kept)
}

#[tactic(auto, using(swc_ast::proofs::Equations::forms))]
fn add_decl<'a>(names: &mut Vec<&'a Ident>, n: &'a Decl, kept: &[Id]) -> Result<(), AllocError>
    ensures { OnOk result (names_of names.new.items ≡ names_of names.old.items ++ going_names (among kept.now) (decl_tree n.now)) }
{
    match n {
        Decl::Fn(_) => Ok(()),
        Decl::Var(n) => add_declared(names, n, kept),
    }
}

/// Adds the names that stay of a statement behind one that ends its list.
#[tactic(auto, using(swc_ast::proofs::Equations::forms, crate::proofs::Going::no_declaration))]
fn add_stmt<'a>(names: &mut Vec<&'a Ident>, s: &'a Stmt, kept: &[Id]) -> Result<(), AllocError>
    ensures { OnOk result (names_of names.new.items ≡ names_of names.old.items ++ going_names (among kept.now) (stmt_tree s.now)) }
{
    match s {
        Stmt::Decl(n) => add_decl(names, n, kept),
        _ => add_vars(names, s),
    }
}

/// The same of an item.
fn add_item<'a, T: StmtLike>(
    names: &mut Vec<&'a Ident>,
    item: &'a T,
    kept: &[Id],
) -> Result<(), AllocError>
    ensures { OnOk result (names_of names.new.items ≡ names_of names.old.items ++ going_names (among kept.now) (item_tree (T.item item.now))) }
{
    match item.as_stmt() {
        Some(s) => add_stmt(names, s, kept),
        None => Ok(()),
    }
}

/// The declaration of the names that stay of items behind one that ends their list.
fn declare_behind<T: StmtLike>(
    alloc: Global,
    behind: &[T],
    kept: &[Id],
) -> Result<Option<Stmt>, AllocError>
    ensures { IfOk result (λ o. vars.NamesOf (among kept.now) (going (trees T.item behind.now)) (statements o)) }
{
    let mut names = Vec::new(alloc);
    let mut left = behind;
    while let [item, rest @ ..] = left {
        add_item(&mut names, item, kept)?;
        left = rest;
    }
    declare(alloc, &names)
}

fn push_if_staying<T: StmtLike + Drop>(item: T, out: &mut Vec<T>) -> Result<(), AllocError>
    ensures staying { OnOk result (trees T.item out.new.items ≡ joined (trees T.item out.old.items) (staying (item_tree (T.item item) ⊳ ε))) }
    ensures kept { OnOk result (Onto T.made (item ∷ []) out.old.items out.new.items) }
{
    if stays(&item) {
        out.push(item)?;
    }
    Ok(())
}

/// Adds the items that stay.
fn push_staying<T: StmtLike + Drop>(items: Vec<T>, out: &mut Vec<T>) -> Result<(), AllocError>
    ensures staying { OnOk result (trees T.item out.new.items ≡ joined (trees T.item out.old.items) (staying (trees T.item items.items))) }
    ensures kept { OnOk result (Onto T.made items.items out.old.items out.new.items) }
{
    for item in items {
        push_if_staying(item, out)?;
    }
    Ok(())
}

fn push_optional<T: StmtLike + Drop>(s: Option<Stmt>, out: &mut Vec<T>) -> Result<(), AllocError>
    ensures pushed { OnOk result (trees T.item out.new.items ≡ joined (trees T.item out.old.items) (statements s)) }
    ensures made { OnOk result (Onto T.made [] out.old.items out.new.items) }
{
    if let Some(s) = s {
        out.push(T::from(s))?;
    }
    Ok(())
}

/// Adds an item that ends its list, behind a declaration of the names that stay of what stands behind it, and then what
/// stays of that.
fn push_cut<T: StmtLike + Drop>(
    alloc: Global,
    stopper: T,
    behind: Vec<T>,
    kept: &[Id],
    out: &mut Vec<T>,
) -> Result<(), AllocError>
    requires { is_stopper (item_tree (T.item stopper)) ≡ true }
    ensures cuts { OnOk result (CutsOnto (among kept.now) (item_tree (T.item stopper) ⊳ trees T.item behind.items) (trees T.item out.old.items) (trees T.item out.new.items)) }
    ensures kept { OnOk result (Onto T.made (stopper ∷ behind.items) out.old.items out.new.items) }
{
    let names = declare_behind(alloc, &behind, kept)?;
    push_optional(names, out)?;
    out.push(stopper)?;
    push_staying(behind, out)?;
    Ok(())
}

fn collected<T: Drop>(alloc: Global, rest: IntoIter<T>) -> Result<Vec<T>, AllocError>
    ensures { IfOk result (λ r. r.items ≡ into_iter_items rest) }
{
    let mut out = Vec::new(alloc);
    for item in rest {
        out.push(item)?;
    }
    Ok(out)
}

/// A list without what stands behind the first item that ends it, off what stays there; a declaration of the names that
/// stay stands in front of that item.
pub(crate) fn cut<T: StmtLike + Drop>(
    alloc: Global,
    items: Vec<T>,
    kept: &[Id],
) -> Result<Vec<T>, AllocError>
    ensures cuts { IfOk result (λ r. Cut (among kept.now) (trees T.item items.items) (trees T.item r.items)) }
    ensures kept { IfOk result (λ r. Kept T.made items.items r.items) }
{
    let mut out = Vec::with_capacity(alloc, items.len())?;
    let mut rest = items.into_iter();
    while let Some(item) = rest.next() {
        if stops(&item) {
            let behind = collected(alloc, rest)?;
            push_cut(alloc, item, behind, kept, &mut out)?;
            return Ok(out);
        }
        out.push(item)?;
    }
    Ok(out)
}
