//! What is carried of names of `let` and `const`.
ghost use Rattle.std.specs.Prelude.{◌≡◌, true, IsSome};
ghost use Rattle.swc_ast.specs.Parts.{ident_name};
ghost use Rattle.carry_parts.specs.Carries.{puts_of};
ghost use Rattle.carry_reads.specs.Values.{value_from, named, Puts};

use carry_parts::Carry;
use carry_tables::NameTable;
use swc_ast::Ident;

/// What is carried of a name.
pub(crate) fn value<'a>(
    values: &NameTable<'a, Option<Carry<'a>>>,
    name: &Ident,
) -> Option<Carry<'a>>
    ensures { puts_of result ≡ value_from values.now (ident_name name.now) }
{
    values.get(name)?
}

/// Carries something of a name, unless something is.
pub(crate) fn add_value<'a>(
    values: &mut NameTable<'a, Option<Carry<'a>>>,
    name: &Ident,
    carry: Option<Carry<'a>>,
)
    requires { IsSome carry → named values.old (ident_name name.now) ≡ true }
    ensures { Puts values.old values.new (ident_name name.now) (puts_of carry.entry) }
{
    if carry.is_none() {
        return;
    }
    if value(values, name).is_some() {
        return;
    }
    values.set(name, carry);
}
