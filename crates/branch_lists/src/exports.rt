//! The names that a module exports.
ghost use Rattle.std.specs.Prelude.{◌≡◌, ◌++◌, ◌∷◌, [], IfOk, OnOk};
ghost use Rattle.swc_ast.specs.Modules.{export_specifier_tree, module_decl_tree};
ghost use Rattle.swc_ast.specs.Parts.{ident_name, list_trees};
ghost use Rattle.swc_ast.specs.Scope.{default_name, has_name};
ghost use Rattle.swc_ast.specs.Tree.{same_name, ExportDecl, ε, ◌⊳◌};
ghost use Rattle.swc_ast.specs.Views.{decl_tree};
ghost use Rattle.branch_lists.specs.Exports.{id_name, ids, names_by, names_by_label, specified, names_of_declarators, exported_names as all_names};
ghost use Rattle.branch_lists.specs.Swept.{trees};

use std::alloc::{AllocError, Global};
use stmt_like::StmtLike;
use swc_ast::{
    Atom, Decl, ExportNamedSpecifier, Id, Ident, ModuleDecl, SyntaxContext, VarDeclarator,
};

fn add_name(names: &mut Vec<Id>, name: &Ident) -> Result<(), AllocError>
    ensures { OnOk result (ids names.new.items ≡ ids names.old.items ++ ident_name name.now ∷ []) }
{
    names.push(name.to_id()?)?;
    Ok(())
}

/// Adds the name of a default export that has no other.
fn add_default(alloc: Global, names: &mut Vec<Id>) -> Result<(), AllocError>
    ensures { OnOk result (ids names.new.items ≡ ids names.old.items ++ default_name ∷ []) }
{
    let sym = Atom::from_str(alloc, "*default*")?;
    names.push((sym, SyntaxContext::empty()))?;
    Ok(())
}

fn add_declarators(names: &mut Vec<Id>, decls: &[VarDeclarator]) -> Result<(), AllocError>
    ensures { OnOk result (ids names.new.items ≡ ids names.old.items ++ names_of_declarators decls.now) }
{
    let mut left = decls;
    while let [d, rest @ ..] = left {
        add_name(names, &d.name)?;
        left = rest;
    }
    Ok(())
}

/// Adds what an exported declaration declares.
#[tactic(auto, using(swc_ast::proofs::Equations::forms, crate::proofs::Exported::declared_names))]
fn add_declared(names: &mut Vec<Id>, n: &Decl) -> Result<(), AllocError>
    ensures { OnOk result (ids names.new.items ≡ ids names.old.items ++ names_by_label ExportDecl (decl_tree n.now ⊳ ε)) }
{
    match n {
        Decl::Fn(n) => add_name(names, &n.ident),
        Decl::Var(n) => add_declarators(names, &n.decls),
    }
}

fn add_specifiers(
    names: &mut Vec<Id>,
    specifiers: &[ExportNamedSpecifier],
) -> Result<(), AllocError>
    ensures { OnOk result (ids names.new.items ≡ ids names.old.items ++ specified (list_trees export_specifier_tree specifiers.now)) }
{
    let mut left = specifiers;
    while let [s, rest @ ..] = left {
        add_name(names, &s.orig)?;
        left = rest;
    }
    Ok(())
}

/// Adds what a module declaration exports.
fn add_exports(alloc: Global, names: &mut Vec<Id>, n: &ModuleDecl) -> Result<(), AllocError>
    ensures { OnOk result (ids names.new.items ≡ ids names.old.items ++ names_by (module_decl_tree n.now)) }
{
    match n {
        ModuleDecl::Import(_) => Ok(()),
        ModuleDecl::ExportDecl(n) => add_declared(names, &n.decl),
        ModuleDecl::ExportNamed(n) => add_specifiers(names, &n.specifiers),
        ModuleDecl::ExportDefaultDecl(n) => match &n.decl.ident {
            Some(name) => add_name(names, name),
            None => add_default(alloc, names),
        },
        ModuleDecl::ExportDefaultExpr(_) => add_default(alloc, names),
    }
}

/// The names that stand for what a list exports; one of statements exports nothing.
pub(crate) fn exported_names<T: StmtLike>(alloc: Global, items: &[T]) -> Result<Vec<Id>, AllocError>
    ensures { IfOk result (λ r. ids r.items ≡ all_names (trees T.item items.now)) }
{
    let mut names = Vec::new(alloc);
    let mut left = items;
    while let [item, rest @ ..] = left {
        if let Some(n) = item.as_module_decl() {
            add_exports(alloc, &mut names, n)?;
        }
        left = rest;
    }
    Ok(names)
}

/// Whether an identifier is of a name.
fn is_name(name: &Ident, id: &Id) -> bool
    ensures { result ≡ same_name (ident_name name.now) (id_name id.now) }
{
    name.sym == id.0 && name.ctxt == id.1
}

/// Whether a name is among some.
pub(crate) fn is_among(names: &[Id], name: &Ident) -> bool
    ensures { result ≡ has_name (ident_name name.now) (ids names.now) }
{
    let mut left = names;
    while let [id, rest @ ..] = left {
        if is_name(name, id) {
            return true;
        }
        left = rest;
    }
    false
}
