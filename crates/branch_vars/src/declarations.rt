//! One `var` declaration of some names.
ghost use Rattle.std.specs.Prelude.{◌≡◌, [], IfOk};
ghost use Rattle.swc_ast.specs.Parts.{ident_name, list_trees};
ghost use Rattle.swc_ast.specs.Statements.{declarator_tree};
ghost use Rattle.swc_ast.specs.Tree.{ε, ◌⊳◌};
ghost use Rattle.swc_ast.specs.Views.{expr_tree, stmt_tree};
ghost use Rattle.swc_ast.specs.declared.VarDeclKind.TheVariants.{Var};
ghost use Rattle.branch_rules.specs.Vars.{each_once, Declares, VarsOf};
ghost use Rattle.branch_vars.specs.Names.{names_of, statements, unset, unset_one};

use crate::gather::add_vars;
use indexmap::IndexSet;
use std::alloc::{AllocError, Global};
use swc_ast::{DUMMY_SP, Decl, Ident, Stmt, VarDecl, VarDeclKind, VarDeclarator};

/// A name without a first value.
fn declarator(name: &Ident) -> Result<VarDeclarator, AllocError>
    ensures { IfOk result (λ r. declarator_tree expr_tree Var r ≡ unset_one (ident_name name.now)) }
{
    let (sym, ctxt) = name.to_id()?;
    let name = Ident {
        span: DUMMY_SP,
        sym,
        ctxt,
    };
    Ok(VarDeclarator {
        span: DUMMY_SP,
        name,
        init: None,
    })
}

/// Names without first values, each once, where it stands first.
fn declarators(alloc: Global, names: &[&Ident]) -> Result<Vec<VarDeclarator>, AllocError>
    ensures { IfOk result (λ r. list_trees (declarator_tree expr_tree Var) r.items ≡ unset (each_once [] (names_of names.now))) }
{
    let mut seen = IndexSet::new(alloc);
    let mut decls = Vec::new(alloc);
    let mut left = names;
    while let [name, rest @ ..] = left {
        if seen.insert(name.to_id()?)? {
            decls.push(declarator(name)?)?;
        }
        left = rest;
    }
    Ok(decls)
}

/// One `var` declaration of some names, each once, without first values. None where there are no names. Fails where
/// memory is refused.
pub fn declare(alloc: Global, names: &[&Ident]) -> Result<Option<Stmt>, AllocError>
    ensures { IfOk result (λ o. Declares (each_once [] (names_of names.now)) (statements o)) }
{
    let decls = declarators(alloc, names)?;
    if decls.is_empty() {
        return Ok(None);
    }
    Ok(Some(Stmt::Decl(Decl::Var(VarDecl {
        span: DUMMY_SP,
        kind: VarDeclKind::Var,
        decls,
    }))))
}

/// The declaration of the `var` names of a statement that goes, if it has any. Fails where memory is refused.
pub fn declare_vars(alloc: Global, stmt: &Stmt) -> Result<Option<Stmt>, AllocError>
    ensures { IfOk result (λ o. VarsOf (stmt_tree stmt.now ⊳ ε) (statements o)) }
{
    let mut names = Vec::new(alloc);
    add_vars(&mut names, stmt)?;
    declare(alloc, &names)
}

/// The declaration of the `var` names of statements that go, if they have any. Fails where memory is refused.
pub fn declare_all_vars(alloc: Global, stmts: &[Stmt]) -> Result<Option<Stmt>, AllocError>
    ensures { IfOk result (λ o. VarsOf (list_trees stmt_tree stmts.now) (statements o)) }
{
    let mut names = Vec::new(alloc);
    let mut left = stmts;
    while let [s, rest @ ..] = left {
        add_vars(&mut names, s)?;
        left = rest;
    }
    declare(alloc, &names)
}
