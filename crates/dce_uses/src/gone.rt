//! Names that went.
ghost use Rattle.std.specs.Prelude.{◌≡◌};
ghost use Rattle.swc_ast.specs.Scope.{has_name};
ghost use Rattle.swc_ast.specs.Tree.{same_name};
ghost use Rattle.swc_names.specs.Ids.{id_name, ids};

use swc_ast::Id;

/// Whether two names are the same.
fn is_same(a: &Id, b: &Id) -> bool
    ensures { result ≡ same_name (id_name a.now) (id_name b.now) }
{
    a.0 == b.0 && a.1 == b.1
}

/// Whether a name is one of some names.
pub(crate) fn is_one_of(name: &Id, names: &[Id]) -> bool
    ensures { result ≡ has_name (id_name name.now) (ids names.now) }
{
    let mut left = names;
    while let [first, rest @ ..] = left {
        if is_same(name, first) {
            return true;
        }
        left = rest;
    }
    false
}
