//! The names for which something is given.
ghost use Rattle.std.specs.Prelude.{◌≡◌};
ghost use Rattle.swc_ast.specs.Meaning.{is_unresolved as name_is_unresolved};
ghost use Rattle.swc_ast.specs.Parts.{ident_name, option_word_text};
ghost use Rattle.swc_ast.specs.Run.{imported_text as text_imported};
ghost use Rattle.given_shield.specs.Names.{mark_of};

use swc_ast::{Ident, ImportNamedSpecifier, Mark, SyntaxContext};

/// Whether no scope binds a name: its context is empty, or that of the mark.
pub fn is_unresolved(mark: Option<Mark>, name: &Ident) -> bool
    ensures { result ≡ name_is_unresolved (mark_of mark) (ident_name name.now) }
{
    if name.ctxt == SyntaxContext::empty() {
        return true;
    }
    match mark {
        Some(mark) => name.ctxt == SyntaxContext::empty().apply_mark(mark),
        None => false,
    }
}

/// The name under which a module exports what a specifier imports (ECMA-262, 16.2.2).
pub fn imported_text<'a>(n: &'a ImportNamedSpecifier) -> &'a str
    ensures { result.now ≡ text_imported (ident_name n.now.local) (option_word_text n.now.imported) }
{
    match &n.imported {
        Some(word) => word.sym.as_str(),
        None => n.local.sym.as_str(),
    }
}
