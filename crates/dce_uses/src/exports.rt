//! The names that a module exports.
ghost use Rattle.std.specs.Prelude.{◌≡◌, ◌&&◌, OnOk};
ghost use Rattle.swc_ast.specs.Scope.{has_name};
ghost use Rattle.tree_visit.specs.Kinds.{kind_label};
ghost use Rattle.tree_visit.specs.Nodes.{children_forest};
ghost use Rattle.dce_uses.specs.Exports as exports;
ghost use Rattle.dce_uses.specs.Noted.{is_hiding};
ghost use Rattle.dce_uses.specs.Tables.{Notes};

use crate::labels::function_name;
use crate::listed::Part;
use crate::table::Table;
use std::alloc::AllocError;
use tree_visit::{Children, Kind};

/// Whether a node is a default export without a name.
pub(crate) fn is_nameless(kind: Kind<'_>) -> bool
    ensures { result ≡ exports.is_nameless_export (kind_label kind.entry) }
{
    match kind {
        Kind::ExportDefaultFn(name) => match name {
            Some(_) => false,
            None => true,
        },
        Kind::ExportDefaultExpr => true,
        _ => false,
    }
}

impl Table {
    /// Notes the names that an item exports: they are used.
    pub(crate) fn note_exported(
        &mut self,
        kind: Kind<'_>,
        children: Children<'_>,
    ) -> Result<(), AllocError>
        ensures { OnOk result (Notes self.old self.new (λ f x. is_hiding f && has_name x (exports.item_names (kind_label kind.entry) (children_forest children.entry)))) }
    {
        match kind {
            Kind::ExportDecl => self.note_declaration(children),
            Kind::ExportNamed => self.note_listed(children, Part::Specifiers),
            Kind::ExportDefaultFn(_) => self.hide(function_name(kind)),
            _ => Ok(()),
        }
    }

    /// Notes the names of an exported declaration, the first of the children.
    fn note_declaration(&mut self, children: Children<'_>) -> Result<(), AllocError>
        ensures { OnOk result (Notes self.old self.new (λ f x. is_hiding f && has_name x (exports.first_names (children_forest children.entry)))) }
    {
        let Some((declaration, _)) = children.next() else {
            return Ok(());
        };
        let opened = declaration.open();
        match opened.kind {
            Kind::VarDecl(_) => self.note_listed(opened.children, Part::Declarators),
            Kind::FnDecl(name) => self.hide(Some(name)),
            _ => Ok(()),
        }
    }
}
