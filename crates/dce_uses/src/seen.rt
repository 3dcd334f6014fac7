//! Whether trees call `eval` and name `arguments`.
ghost use Rattle.std.specs.Prelude.{◌≡◌, ◌||◌, false};
ghost use Rattle.tree_visit.specs.Kinds.{kind_label};
ghost use Rattle.dce_uses.specs.Sights as sights;

use crate::labels::{has_arguments, is_arguments, is_eval};
use tree_visit::Kind;

/// What is seen in trees, beside what they say of each name.
#[derive(Clone, Copy)]
pub(crate) struct Seen {
    /// `eval` is called directly.
    pub(crate) eval: bool,
    /// `arguments` is named, outside functions that have their own.
    pub(crate) arguments: bool,
}

impl Seen {
    /// Neither.
    #[inline(always)]
    pub(crate) fn nothing() -> Seen
        ensures eval { result.eval ≡ false }
        ensures arguments { result.arguments ≡ false }
    {
        Seen {
            eval: false,
            arguments: false,
        }
    }

    /// What is seen in either of two.
    #[inline(always)]
    pub(crate) fn or(self, other: Seen) -> Seen
        ensures eval { result.eval ≡ (self.eval || other.eval) }
        ensures arguments { result.arguments ≡ (self.arguments || other.arguments) }
    {
        Seen {
            eval: self.eval || other.eval,
            arguments: self.arguments || other.arguments,
        }
    }

    /// What is seen in a node among whose children this is.
    #[inline(always)]
    pub(crate) fn with(self, kind: Kind<'_>) -> Seen
        ensures { sights.IsWith self (kind_label kind.entry) result }
    {
        Seen {
            eval: is_eval(kind) || self.eval,
            arguments: !has_arguments(kind) && (is_arguments(kind) || self.arguments),
        }
    }
}
