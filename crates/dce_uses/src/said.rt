//! What items of a module say of names.
ghost use Rattle.std.specs.Prelude.{◌≡◌, None, Option};
ghost use Rattle.dce_uses.specs.declared.said.Said as said_of;

use crate::tally::Tally;
use stmt_like::StmtLike;
use swc_ast::ModuleItem;

/// What was noted of a name, which goes by its number.
#[derive(Clone, Copy)]
pub(crate) struct Row {
    pub(crate) number: u32,
    pub(crate) tally: Tally,
}

/// What an item of a module says of names: where its rows stand among those of `Uses`, and whether it is a default export
/// without a name.
#[derive(Clone, Copy)]
pub struct Said {
    pub(crate) start: u32,
    pub(crate) end: u32,
    pub(crate) exports_default: bool,
}

/// An item of which is known what it says, or not.
pub trait Speaks: StmtLike {
    /// What it says, if that is known.
    ghost tells: { Self → Option said_of.Said };

    /// What it says, if that is known.
    fn said(&self) -> Option<Said>
        ensures { result ≡ tells self.now };
}

/// An item of which nothing is known.
impl Speaks for ModuleItem {
    ghost tells = { λ _. None };

    fn said(&self) -> Option<Said> {
        None
    }
}
