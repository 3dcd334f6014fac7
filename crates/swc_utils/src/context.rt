//! Which names are the host's.
ghost use Rattle.std.specs.Prelude.{◌≡◌};
ghost use Rattle.swc_ast.specs.Meaning.{is_unresolved as name_is_unresolved};
ghost use Rattle.swc_ast.specs.Parts.{ident_name};
ghost use Rattle.swc_utils.specs.Globals.{unresolved, is_global as name_is_global, is_host_name as name_is_host, name_value, option_value};

use swc_ast::{Ident, SyntaxContext};

/// A name of the host that stands for one value in each world.
#[derive(Clone, Copy, Debug, PartialEq, Eq)]
pub(crate) enum Constant {
    Undefined,
    NaN,
}

/// The context that distinguishes names of the host from those of the program.
#[derive(Clone, Copy, Debug, PartialEq, Eq)]
pub struct ExprCtx {
    /// The context of the names that no scope binds; the empty context is one of them too.
    pub unresolved_ctxt: SyntaxContext,
    /// Kept for callers; no answer reads it.
    pub is_unresolved_ref_safe: bool,
}

impl ExprCtx {
    /// Whether no scope of the program binds a name.
    fn is_unresolved(self, name: &Ident) -> bool
        ensures { result ≡ name_is_unresolved (unresolved self) (ident_name name.now) }
    {
        name.ctxt == SyntaxContext::empty() || name.ctxt == self.unresolved_ctxt
    }

    /// Whether a name is the unresolved one of a text.
    pub(crate) fn is_global(self, name: &Ident, text: &str) -> bool
        ensures { result ≡ name_is_global (unresolved self) text.now (ident_name name.now) }
    {
        self.is_unresolved(name) && name.sym.as_str() == text
    }

    /// Whether the host may be asked about a name.
    pub(crate) fn is_host_name(self, name: &Ident) -> bool
        ensures { result ≡ name_is_host (unresolved self) (ident_name name.now) }
    {
        let text = name.sym.as_str();
        self.is_unresolved(name) && !(text == "undefined" || text == "NaN" || text == "Infinity")
    }

    /// The value that an unresolved name stands for in each world.
    pub(crate) fn constant(self, name: &Ident) -> Option<Constant>
        ensures { option_value result ≡ name_value (unresolved self) (ident_name name.now) }
    {
        if !self.is_unresolved(name) {
            return None;
        }
        let text = name.sym.as_str();
        if text == "undefined" {
            return Some(Constant::Undefined);
        }
        if text == "NaN" {
            return Some(Constant::NaN);
        }
        None
    }
}
