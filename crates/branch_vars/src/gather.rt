//! The names of `var` declarations, outside functions, in the order of the text.
ghost use Rattle.std.specs.Prelude.{◌≡◌, ◌++◌, OnOk};
ghost use Rattle.swc_ast.specs.Scope.{own_vars, vars};
ghost use Rattle.swc_ast.specs.Views.{stmt_tree};
ghost use Rattle.tree_visit.specs.Kinds.{kind_label};
ghost use Rattle.tree_visit.specs.Nodes.{children_forest};
ghost use Rattle.branch_vars.specs.Names.{names_of, optional_name, opened_vars};

use std::alloc::AllocError;
use swc_ast::{Ident, Stmt, VarDeclKind};
use tree_visit::{Kind, Opened, open_stmt};

/// The name of a declarator of `var`.
fn var_name<'a>(kind: Kind<'a>) -> Option<&'a Ident>
    ensures { optional_name result ≡ own_vars (kind_label kind.entry) }
{
    match kind {
        Kind::Declarator(kind, name) => match kind {
            VarDeclKind::Var => Some(name),
            VarDeclKind::Let | VarDeclKind::Const => None,
        },
        _ => None,
    }
}

fn add_optional<'a>(names: &mut Vec<&'a Ident>, name: Option<&'a Ident>) -> Result<(), AllocError>
    ensures { OnOk result (names_of names.new.items ≡ names_of names.old.items ++ optional_name name.entry) }
{
    if let Some(n) = name {
        names.push(n)?;
    }
    Ok(())
}

/// Adds the names of a node that was looked into.
fn add_opened<'a>(names: &mut Vec<&'a Ident>, opened: Opened<'a>) -> Result<(), AllocError>
    ensures { OnOk result (names_of names.new.items ≡ names_of names.old.items ++ opened_vars (kind_label opened.entry.kind) (children_forest opened.entry.children)) }
{
    add_optional(names, var_name(opened.kind))?;
    if !opened.kind.holds_statements() {
        return Ok(());
    }
    let mut left = opened.children;
    while let Some((child, rest)) = left.next() {
        add_opened(names, child.open())?;
        left = rest;
    }
    Ok(())
}

/// Adds the names that a statement declares by `var`, outside functions in it. Fails where memory is refused.
pub fn add_vars<'a>(names: &mut Vec<&'a Ident>, s: &'a Stmt) -> Result<(), AllocError>
    ensures { OnOk result (names_of names.new.items ≡ names_of names.old.items ++ vars (stmt_tree s.now)) }
{
    add_opened(names, open_stmt(s))
}
