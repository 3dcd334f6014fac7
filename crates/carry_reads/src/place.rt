//! Where a node stands.
ghost use Rattle.std.specs.Prelude.{◌≡◌, false};
ghost use Rattle.tree_visit.specs.Kinds.{kind_label};
ghost use Rattle.carry_parts.specs.Carries.{pass_of};
ghost use Rattle.carry_reads.specs.States.{below_of};

use crate::kinds::{is_declaration, is_exempt, is_function, lists};
use carry_parts::Pass;
use tree_visit::Kind;

/// Where a node stands.
#[derive(Clone, Copy)]
pub(crate) struct Place {
    /// the number of what is settled first in the function around
    pub(crate) base: usize,
    /// the declaration around stands nowhere in a text
    pub(crate) dummy: bool,
    /// a list stands around
    pub(crate) listed: bool,
    /// nothing is put here
    pub(crate) quiet: bool,
}

impl Place {
    /// Where a whole tree stands.
    pub(crate) fn top() -> Place
        ensures { result ≡ record { base = 0; dummy = false; listed = false; quiet = false } }
    {
        Place {
            base: 0,
            dummy: false,
            listed: false,
            quiet: false,
        }
    }

    /// Where the children of a node stand that itself stands nowhere or somewhere, if what is settled next has a number.
    pub(crate) fn below(self, pass: Pass, kind: Kind<'_>, nowhere: bool, next: usize) -> Place
        ensures { result ≡ below_of (pass_of pass) (kind_label kind.entry) nowhere next self }
    {
        Place {
            base: if is_function(kind) { next } else { self.base },
            dummy: nowhere || is_declaration(kind) && self.dummy,
            listed: lists(kind, self.listed),
            quiet: self.quiet || is_exempt(pass, kind),
        }
    }
}
