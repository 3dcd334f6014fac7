//! Names that are looked up by what an identifier lends.
ghost use Rattle.std.specs.Prelude.{◌≡◌, ◌++◌};
ghost use Rattle.swc_ast.specs.Parts.{ident_name};
ghost use Rattle.swc_names.specs.Ids.{key_name, id_name};
ghost use Rattle.std.proofs.Common.{ap};
ghost use Rattle.std.specs.Hash as fed;
ghost use Rattle.static_proofs.proofs.Names.{same_name_path};
ghost use Rattle.swc_ast.specs.Tree.{same_name};

use indexmap::Equivalent;
use swc_ast::{Id, Ident, SyntaxContext};

/// A name whose text is lent.
#[derive(Clone, Copy, PartialEq, Eq, Hash)]
pub(crate) struct Key<'a> {
    text: &'a str,
    context: SyntaxContext,
}

impl<'a> Key<'a> {
    /// The name of an identifier.
    pub(crate) fn of(name: &'a Ident) -> Key<'a>
        ensures { key_name result ≡ ident_name name.now }
    {
        Key {
            text: &name.sym,
            context: name.ctxt,
        }
    }
}

impl<'a> Equivalent<Id> for Key<'a> {
    ghost equivalent = { λ q i. same_name (key_name q) (id_name i) };

    ghost respects_hash = { λ q i h. ap (λ x. fed.str x.text ++ fed.u32 x.context) (same_name_path (key_name q) (id_name i) h) };

    ghost respects_eq = { λ q i j h. ap (λ x. same_name x (id_name j)) (same_name_path (key_name q) (id_name i) h) };

    fn equivalent(&self, key: &Id) -> bool {
        self.text == key.0.as_str() && self.context == key.1
    }
}
