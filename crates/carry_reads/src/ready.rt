//! Names that may stand for others.
ghost use Rattle.std.specs.Prelude.{◌≡◌, OnOk};
ghost use Rattle.swc_ast.specs.Parts.{ident_name};
ghost use Rattle.swc_ast.specs.Scope.{has_name};
ghost use Rattle.swc_ast.specs.Tree.{same_name};
ghost use Rattle.swc_names.specs.Ids.{optional};
ghost use Rattle.carry_reads.specs.Fronts.{ready_of, names_in, Covers, Adds};

use carry_tables::Scoped;
use carry_vars::Vars;
use std::alloc::AllocError;
use swc_ast::Ident;

/// Whether a name may stand for others.
pub(crate) fn is_ready(ready: &Scoped<'_>, name: &Ident) -> bool
    ensures { result ≡ ready_of ready.now (ident_name name.now) }
{
    match ready.get(name) {
        Some(item) => item != 0,
        None => false,
    }
}

/// Makes a name ready, if it is steady. Fails where memory is refused.
pub(crate) fn add<'a>(
    vars: &Vars<'a>,
    ready: &mut Scoped<'a>,
    name: &'a Ident,
) -> Result<(), AllocError>
    requires { Covers vars.now (names_in ready.old) }
    ensures { OnOk result (Adds vars.now ready.old ready.new (λ x. same_name x (ident_name name.now))) }
{
    if vars.is_steady(name) {
        ready.set(name, 1)?;
    }
    Ok(())
}

/// The same for a name that may be left out.
pub(crate) fn add_optional<'a>(
    vars: &Vars<'a>,
    ready: &mut Scoped<'a>,
    name: Option<&'a Ident>,
) -> Result<(), AllocError>
    requires { Covers vars.now (names_in ready.old) }
    ensures { OnOk result (Adds vars.now ready.old ready.new (λ x. has_name x (optional name.entry))) }
{
    match name {
        Some(name) => add(vars, ready, name),
        None => Ok(()),
    }
}
