//! The names that trees bind, as values of their own.
ghost use Rattle.std.specs.Prelude.{◌≡◌, IfOk, IfErr};
ghost use Rattle.swc_ast.specs.Expressions.{param_tree};
ghost use Rattle.swc_ast.specs.Modules.{item_tree};
ghost use Rattle.swc_ast.specs.Parts.{ident_name, list_trees};
ghost use Rattle.swc_ast.specs.Scope.{has_name, param_names, vars_all};
ghost use Rattle.swc_ast.specs.Tree.{Name, Param, label_of};
ghost use Rattle.swc_ast.specs.Views.{expr_tree, stmt_tree};
ghost use Rattle.swc_ast.specs.declared.errors.PassError.TheVariants.{OutOfMemory};
ghost use Rattle.swc_names.specs.Ids.{ids as ids_of, idents};
ghost use Rattle.swc_names.specs.Names.{bound};

use crate::gather::{Choice, gather};
use std::alloc::{AllocError, Global};
use std::collections::BTreeSet;
use stmt_like::StmtLike;
use swc_ast::{Id, Ident, PassError, Pat, Stmt};

/// Returns the names that a list binds: those of declarations, parameters, functions, imports and handlers, also inside
/// functions (ECMA-262, 8.2.1). Fails if memory runs out.
pub fn collect_decls<T: StmtLike>(alloc: Global, items: &[T]) -> Result<BTreeSet<Id>, PassError>
    ensures names { IfOk result (λ s. (x : Name) → has_name x (ids_of s.keys) ≡ has_name x (bound (list_trees (λ x. item_tree (T.item x)) items.now))) }
    ensures memory { IfErr result (λ e. e ≡ OutOfMemory) }
{
    let names = gather(alloc, items, Choice::Bound)?;
    Ok(set_of(alloc, &names)?)
}

/// Returns the names that statements declare by `var`, outside functions, in the order of the text (ECMA-262, 8.2.6).
/// Fails if memory runs out.
pub fn extract_var_ids(alloc: Global, stmts: &[Stmt]) -> Result<Vec<Id>, PassError>
    ensures names { IfOk result (λ r. ids_of r.items ≡ vars_all (list_trees stmt_tree stmts.now)) }
    ensures memory { IfErr result (λ e. e ≡ OutOfMemory) }
{
    let names = gather(alloc, stmts, Choice::Vars)?;
    Ok(to_ids(alloc, &names)?)
}

/// Returns the names of parameters, in their order. Fails if memory runs out.
pub fn find_pat_ids(alloc: Global, params: &[Pat]) -> Result<Vec<Id>, PassError>
    ensures names { IfOk result (λ r. ids_of r.items ≡ param_names (list_trees (param_tree expr_tree) params.now)) }
    ensures memory { IfErr result (λ e. e ≡ OutOfMemory) }
{
    let mut ids = Vec::new(alloc);
    let mut left = params;
    while let [param, rest @ ..] = left {
        ids.push(param_ident(param).to_id()?)?;
        left = rest;
    }
    Ok(ids)
}

fn param_ident(param: &Pat) -> &Ident
    ensures { label_of (param_tree expr_tree param.now) ≡ Param (ident_name result.now) }
{
    match param {
        Pat::Ident(n) => n,
        Pat::Assign(n) => &n.left,
    }
}

fn set_of(alloc: Global, names: &[&Ident]) -> Result<BTreeSet<Id>, AllocError>
    ensures { IfOk result (λ s. (x : Name) → has_name x (ids_of s.keys) ≡ has_name x (idents names.now)) }
{
    let mut ids = BTreeSet::new(alloc);
    let mut left = names;
    while let [name, rest @ ..] = left {
        ids.insert(name.to_id()?)?;
        left = rest;
    }
    Ok(ids)
}

fn to_ids(alloc: Global, names: &[&Ident]) -> Result<Vec<Id>, AllocError>
    ensures { IfOk result (λ r. ids_of r.items ≡ idents names.now) }
{
    let mut ids = Vec::new(alloc);
    let mut left = names;
    while let [name, rest @ ..] = left {
        ids.push(name.to_id()?)?;
        left = rest;
    }
    Ok(ids)
}
