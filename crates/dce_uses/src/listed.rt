//! Names that stand in a list: parameters, declarators and specifiers.
ghost use Rattle.std.specs.Prelude.{◌≡◌, ◌&&◌, OnOk};
ghost use Rattle.swc_ast.specs.Scope.{has_name};
ghost use Rattle.tree_visit.specs.Kinds.{kind_label};
ghost use Rattle.tree_visit.specs.Nodes.{children_forest};
ghost use Rattle.swc_names.specs.Ids.{optional};
ghost use Rattle.dce_uses.specs.Listed.{listed, listed_name};
ghost use Rattle.dce_uses.specs.Noted.{is_hiding};
ghost use Rattle.dce_uses.specs.Tables.{Notes};

use crate::table::Table;
use std::alloc::AllocError;
use swc_ast::Ident;
use tree_visit::{Children, Kind};

/// What of a list has names.
#[derive(Clone, Copy)]
pub(crate) enum Part {
    Params,
    Declarators,
    /// the specifiers of an export
    Specifiers,
}

/// The name of a node of a list.
fn name_in_list<'a>(kind: Kind<'a>, part: Part) -> Option<&'a Ident>
    ensures { optional result ≡ listed_name part (kind_label kind.entry) }
{
    match part {
        Part::Params => match kind {
            Kind::Param(name) => Some(name),
            _ => None,
        },
        Part::Declarators => match kind {
            Kind::Declarator(_, name) => Some(name),
            _ => None,
        },
        Part::Specifiers => match kind {
            Kind::ExportSpecifier(n) => Some(&n.orig),
            _ => None,
        },
    }
}

impl Table {
    /// Notes that the names of a list are used without being named.
    pub(crate) fn note_listed(
        &mut self,
        children: Children<'_>,
        part: Part,
    ) -> Result<(), AllocError>
        ensures { OnOk result (Notes self.old self.new (λ f x. is_hiding f && has_name x (listed part (children_forest children.entry)))) }
    {
        let mut left = children;
        while let Some((child, rest)) = left.next() {
            self.hide(name_in_list(child.open().kind, part))?;
            left = rest;
        }
        Ok(())
    }
}
