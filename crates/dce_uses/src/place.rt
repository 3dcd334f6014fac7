//! Where a node stands.
ghost use Rattle.std.specs.Prelude.{◌≡◌};
ghost use Rattle.tree_visit.specs.Kinds.{kind_label};
ghost use Rattle.dce_uses.specs.Noted as noted;

use crate::labels::{has_arguments, is_block, is_declaration, is_function};
use swc_ast::VarDeclKind;
use tree_visit::Kind;

/// Where a node stands.
#[derive(Clone, Copy)]
pub(crate) struct Place {
    pub(crate) in_function: bool,
    pub(crate) in_block: bool,
    pub(crate) in_declaration: bool,
    /// in a function or an arrow
    pub(crate) is_inside: bool,
}

impl Place {
    /// The place of a whole module.
    #[inline(always)]
    pub(crate) fn top() -> Place
        ensures { result ≡ noted.at_top }
    {
        Place {
            in_function: false,
            in_block: false,
            in_declaration: false,
            is_inside: false,
        }
    }

    /// The place of a node's children.
    #[inline(always)]
    pub(crate) fn below(self, kind: Kind<'_>) -> Place
        ensures { result ≡ noted.below self (kind_label kind.entry) }
    {
        Place {
            in_function: has_arguments(kind) || self.in_function,
            in_block: is_block(kind) || self.in_block,
            in_declaration: is_declaration(kind) || self.in_declaration,
            is_inside: is_function(kind) || self.is_inside,
        }
    }

    /// Whether a declaration stands below the top level: functions and `var` in a function, others in a block.
    #[inline(always)]
    pub(crate) fn lets_go(self, kind: Kind<'_>) -> bool
        ensures { result ≡ noted.lets_go self (kind_label kind.entry) }
    {
        match kind {
            Kind::FnDecl(_) => self.in_function,
            Kind::Declarator(kind, _) => match kind {
                VarDeclKind::Var => self.in_function,
                VarDeclKind::Let | VarDeclKind::Const => self.in_block,
            },
            _ => self.in_block,
        }
    }
}
